// Single steps over and over, to be timed: the tables are made once, whatever the number of times.
use crate::answer::refusal;
use comments::Arrival;
use driver::{LARGEST, Lent, Tables};
use input::Settings;
use std::mem::size_of;
use tables::{Fault, Sizes};

// Loads `times` times, and runs over the module each time if it is told to.
fn load_and_run(
    lent: &mut Lent,
    form: &[u8],
    source: &[u8],
    runs: bool,
    times: usize,
) -> Result<Sizes, Fault> {
    let store = Arrival::new();
    let settings = Settings::default();
    let mut sizes = Sizes { nodes: 0, text: 0 };
    for _ in 0..times {
        sizes = lent.load(form, source)?;
        if runs {
            sizes = lent.run(sizes, source, &settings, &store)?;
        }
    }
    Ok(sizes)
}

// Loads, or loads and runs, `loads` times, and then prints `prints` times. Answers the bytes printed last.
fn repeat(
    form: &[u8],
    source: &[u8],
    runs: bool,
    loads: usize,
    prints: usize,
    out: &mut [u8],
) -> Result<usize, Fault> {
    let mut tables = Tables::<LARGEST>::new();
    let mut lent = tables.lend(LARGEST).ok_or(Fault::TooLarge)?;
    let sizes = load_and_run(&mut lent, form, source, runs, loads)?;
    let mut printed = 0;
    for _ in 0..prints {
        printed = lent.print(sizes, source, out)?;
    }
    Ok(printed)
}

// For a benchmark: loads `loads` times over tables for 8,192 nodes, each time with a run if `runs` is not 0, then prints `prints` times.
#[unsafe(no_mangle)]
pub extern "C" fn hufalimpy_repeat(
    form: &[u8],
    source: &[u8],
    runs: usize,
    loads: usize,
    prints: usize,
    out: &mut [u8],
) -> u64 {
    match repeat(form, source, runs != 0, loads, prints, out) {
        Ok(printed) => printed as u64,
        Err(fault) => refusal(fault),
    }
}

// For a benchmark: how many bytes the tables take for each node, the text table included.
#[unsafe(no_mangle)]
pub extern "C" fn hufalimpy_bytes_per_node() -> u64 {
    (size_of::<Tables<LARGEST>>() / LARGEST) as u64
}
