// The nodes of a table that stand side by side.
ghost use Rattle.std.specs.Prelude.{◌-◌};
ghost use Rattle.std.specs.Iterator.{at_most};
ghost use Rattle.tables.specs.Siblings.{Between, Shows};

use crate::module::next_at;
use crate::node::Node;

// The places from one to before another, each past what is below the one before it.
#[derive(Drop)]
pub struct Siblings<'n> {
    pub(crate) nodes: &'n [Node],
    pub(crate) at: usize,
    pub(crate) end: usize,
}

impl<'n> Siblings<'n> {
    pub fn new(nodes: &'n [Node], from: usize, end: usize) -> Siblings<'n>
        ensures { Between nodes.now from end result }
    {
        Siblings {
            nodes,
            at: from,
            end,
        }
    }
}

impl Iterator for Siblings<'_> {
    type Item = usize;

    ghost next_gives = { Shows };

    ghost remaining = { λ s. at_most (s.end - s.at) };

    fn next(&mut self) -> Option<usize> {
        if self.at >= self.end {
            return None;
        }
        let at = self.at;
        self.at = next_at(self.nodes, at);
        Some(at)
    }
}
