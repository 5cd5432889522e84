// The tables of a program, made once and lent.
ghost use Rattle.std.specs.Prelude.{◌≡◌, ◌*◌, ◌≤◌, ◌↔◌, length, replicate, IsSome, IfSome, IfOk};
ghost use Rattle.tables.specs.Modules.{void};

use crate::lent::Lent;
use crate::steps::Files;
use crate::stop::{Call, Done, Stop};
use comments::Arrival;
use hooks::Hook;
use refresh::{HookRegister, Plan, Registration, WorkTables};
use tables::{Fault, Node};

// The most nodes that a module may have.
pub const LARGEST: usize = 8192;

// Tables for modules of at most N nodes, with six bytes of text each, and for runs over them: arrays, since the library has no heap.
#[derive(Drop)]
pub struct Tables<const N: usize> {
    nodes: [Node; N],
    text: [[u8; 6]; N],
    stack: [u16; N],
    made: [Node; N],
    plans: [Plan; N],
    hooks: [Hook; N],
    registrations: [Registration; N],
    idents: [u16; N],
    functions: [u16; N],
    scopes: [u16; N],
    blocks: [u16; N],
    open: [u16; N],
}

impl<const N: usize> Tables<N> {
    // Nothing stands in them yet.
    pub fn new() -> Tables<N>
        ensures nodes { result.nodes ≡ replicate N void }
        ensures text { result.text ≡ replicate N (replicate 6 0) }
    {
        Tables {
            nodes: [Node::VOID; N],
            text: [[0; 6]; N],
            stack: [0; N],
            made: [Node::VOID; N],
            plans: [Plan::NONE; N],
            hooks: [Hook::NONE; N],
            registrations: [Registration::NONE; N],
            idents: [0; N],
            functions: [0; N],
            scopes: [0; N],
            blocks: [0; N],
            open: [0; N],
        }
    }

    // Lends tables for `n` nodes with their bytes of text, if there are so many.
    pub fn lend(&mut self, n: usize) -> Option<Lent<'_>>
        ensures some { IsSome result ↔ (n ≤ N) }
        ensures sizes { IfSome result (λ l. (length l.nodes.now ≡ n) × (length l.text.now ≡ 6 * n)) }
    {
        if n > N {
            return None;
        }
        let pass = HookRegister::over(WorkTables {
            nodes: &mut self.made[..n],
            plans: &mut self.plans[..n],
            hooks: &mut self.hooks[..n],
            registrations: &mut self.registrations[..n],
            idents: &mut self.idents[..n],
            functions: &mut self.functions[..n],
            scopes: &mut self.scopes[..n],
            blocks: &mut self.blocks[..n],
            open: &mut self.open[..n],
        });
        Some(Lent {
            nodes: &mut self.nodes[..n],
            text: self.text[..n].as_flattened_mut(),
            stack: &mut self.stack[..n],
            pass,
        })
    }
}

// Loads, notes, runs and prints in tables for `n` nodes; more than the largest module has is too large. `scratch` has room for the longest text of a note.
pub fn instrument_in_tables(
    files: &Files,
    n: usize,
    scratch: &mut [u8],
    out: &mut [u8],
) -> Result<Done, Stop>
    ensures { IfOk result (λ d. d.printed ≤ length out.old) }
{
    // before any table is made
    if n > LARGEST {
        return Err(Stop::Refused(Call::Load, Fault::TooLarge));
    }
    let mut tables = Tables::<LARGEST>::new();
    let mut lent = tables
        .lend(n)
        .ok_or(Stop::Refused(Call::Load, Fault::TooLarge))?;
    lent.instrument(files, &mut Arrival::new(), scratch, out)
}
