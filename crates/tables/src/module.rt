// A module in its tables, to be read.
ghost use Rattle.std.specs.Prelude.{◌≡◌, ◌+◌, ◌-◌, ◌^◌, ◌<◌};
ghost use Rattle.tables.specs.Modules.{node_at, bytes_at, snippet, same_ident, next_at};
ghost use Rattle.tables.specs.Siblings.{Between, first_part};

use crate::node::{Node, Place, Span};
use crate::siblings::Siblings;
use crate::text::same;

#[derive(Clone, Copy)]
pub struct Module<'n, 't, 's> {
    pub nodes: &'n [Node],
    pub text: &'t [u8],
    pub source: &'s [u8],
}

// Functions over a table of nodes or texts stand beside the methods that call them: the walk, and a run that appends, have no module at hand.

// The node at a place of the table; past its end there is a void one.
pub fn node_at(nodes: &[Node], at: usize) -> Node
    ensures { result ≡ node_at nodes.now at }
{
    nodes.get(at).copied().unwrap_or(Node::VOID)
}

// Where the next node stands that is not below the one at `at`.
pub fn next_at(nodes: &[Node], at: usize) -> usize
    ensures value { result ≡ next_at nodes.now at }
    ensures on { at < 2 ^ 64 - 1 → at < result }
{
    at.saturating_add(usize::from(node_at(nodes, at).size).max(1))
}

// The bytes at a place of the text table. The bounds here and below are those of the definitions.
pub fn bytes_at<'a>(text: &'a [u8], place: Place) -> &'a [u8]
    ensures { result.now ≡ bytes_at text.now place }
{
    let at = place.at as usize;
    let len = place.len as usize;
    if at + len <= text.len() {
        &text[at..at + len]
    } else {
        &[]
    }
}

// The bytes that a span covers.
pub fn snippet_of<'a>(source: &'a [u8], span: Span) -> &'a [u8]
    ensures { result.now ≡ snippet source.now span }
{
    let lo = span.lo as usize;
    let hi = span.hi as usize;
    if lo != 0 && lo <= hi && hi <= source.len() + 1 {
        &source[lo - 1..hi - 1]
    } else {
        &[]
    }
}

// Whether two identifiers are the same: by name and scope.
pub fn same_ident(text: &[u8], a: Node, b: Node) -> bool
    ensures { result ≡ same_ident text.now a b }
{
    a.scope == b.scope && same(bytes_at(text, a.text), bytes_at(text, b.text))
}

impl<'n, 't, 's> Module<'n, 't, 's> {
    pub fn node(&self, at: usize) -> Node
        ensures { result ≡ node_at self.now.nodes.now at }
    {
        node_at(self.nodes, at)
    }

    pub fn next(&self, at: usize) -> usize
        ensures value { result ≡ next_at self.now.nodes.now at }
        ensures on { at < 2 ^ 64 - 1 → at < result }
    {
        next_at(self.nodes, at)
    }

    // The nodes from one place to before another, each past what is below the one before it.
    pub fn siblings(&self, from: usize, end: usize) -> Siblings<'n>
        ensures { Between self.now.nodes.now from end result }
    {
        Siblings::new(self.nodes, from, end)
    }

    // The parts of the node at a place.
    pub fn parts(&self, at: usize) -> Siblings<'n>
        ensures { Between self.now.nodes.now (first_part at) (next_at self.now.nodes.now at) result }
    {
        self.siblings(at.saturating_add(1), self.next(at))
    }

    // The name or text of the node at a place.
    pub fn name(&self, at: usize) -> &'t [u8]
        ensures { result.now ≡ bytes_at self.now.text.now (node_at self.now.nodes.now at).text }
    {
        bytes_at(self.text, self.node(at).text)
    }

    // The bytes that the node at a place has in the source.
    pub fn snippet(&self, at: usize) -> &'s [u8]
        ensures { result.now ≡ snippet self.now.source.now (node_at self.now.nodes.now at).span }
    {
        snippet_of(self.source, self.node(at).span)
    }
}
