// Runs a table of cases, read from standard input, and writes what came of each.
#![tactic(auto)]

mod answer;
mod buffers;
mod case;

use answer::run_case;
use buffers::Buffers;
use case::{Case, Cases};
use driver::Tables;
use std::io;
use std::io::Read;

// One node more than any module may have, so that such a number can be tried.
const N: usize = 8193;

// Runs a case in tables of the size that it asks for.
fn run_one(rt: &HostRuntime, case: &Case, buffers: &mut Buffers) -> io::Result<()> {
    let mut tables = Tables::<N>::new();
    match tables.lend(case.nodes.min(N)) {
        Some(mut lent) => run_case(rt, case, &mut lent, buffers),
        None => Ok(()),
    }
}

// Runs the table on standard input.
pub fn run_table(rt: &HostRuntime) -> anyhow::Result<()> {
    let heap = rt.alloc();
    let mut table = Vec::new(heap);
    rt.stdin().read_to_end(&mut table)?;
    let mut buffers = Buffers::new(heap)?;
    for case in Cases::of(table.as_slice()) {
        run_one(rt, &case, &mut buffers)?;
    }
    Ok(())
}
