// One form of a module in the node table.
ghost use Rattle.std.specs.Prelude.{◌≡◌, min};
ghost use Rattle.tables.specs.Modules.{made};

use crate::kind::{Kind, Word};

// The bytes from `lo` to before `hi` of the source, whose first byte has position 1; 0 and 0 is the dummy.
#[derive(Clone, Copy, Debug, PartialEq, Eq)]
pub struct Span {
    pub lo: u32,
    pub hi: u32,
}

impl Span {
    // A span of its own and no missing one: it is printed, compared and copied as any other.
    pub const DUMMY: Span = Span { lo: 0, hi: 0 };
}

// Where a name or a text lies in the text table.
#[derive(Clone, Copy, Debug, PartialEq, Eq)]
pub struct Place {
    pub at: u16,
    pub len: u16,
}

impl Place {
    // No bytes at the front of the table, which is what a kind without a name has.
    pub const NONE: Place = Place { at: 0, len: 0 };
}

// The nodes of a module stand in preorder; `size` counts the nodes of the node's subtree, itself included. A tree in a table of lent memory, so no
// boxes; and one record for all kinds, as the reader fills it field by field and the printer reads it by what `label_of` says of the kind.
#[derive(Clone, Copy, Debug, PartialEq, Eq)]
pub struct Node {
    pub kind: Kind,
    pub word: Word,
    pub scope: u16,
    pub number: u16,
    pub text: Place,
    pub size: u16,
    pub span: Span,
}

impl Node {
    // What a table has past its end.
    pub const VOID: Node = Node {
        kind: Kind::Module,
        word: Word::Bare,
        scope: 0,
        number: 0,
        text: Place::NONE,
        size: 0,
        span: Span::DUMMY,
    };

    // A node of which only the kind is known: no span, scope 0, no text, and nothing below it yet.
    pub fn made(kind: Kind) -> Node
        ensures { result ≡ made kind }
    {
        Node {
            kind,
            size: 1,
            ..Node::VOID
        }
    }
}

// A count as an entry of a table stores it, the largest number where it is too large. Tables have at most 8,192 entries and 49,152 bytes, so it is the count itself there.
pub fn narrow(n: usize) -> u16
    ensures { result ≡ min n 65535 }
{
    u16::try_from(n).unwrap_or(u16::MAX)
}
