// The laws of every store, each on the contract of a function that does nothing else.
ghost use Rattle.comments.specs.Laws.{AddsOne, AnsweredAlike, ByteLimit, EqualExactly, FoundByItsText, HasIsStanding, NoteLimit, OrderAside, RefusedExactly, StaysFound, ToldExactly};

// The same notes in any order leave the same held, and every ask is answered alike.
pub fn order_aside() -> u8
    ensures equal { EqualExactly }
    ensures one { AddsOne }
    ensures held { OrderAside }
    ensures alike { AnsweredAlike }
{
    0
}

// An ask is told yes exactly if a note of its side and position has the needle as consecutive bytes.
pub fn told_exactly() -> u8
    ensures has { HasIsStanding }
    ensures told { ToldExactly }
{
    0
}

// A note is refused exactly if more than 512 notes or 16,384 bytes would stand.
pub fn refused_exactly() -> u8
    ensures refused { RefusedExactly }
    ensures notes { NoteLimit }
    ensures bytes { ByteLimit }
{
    0
}

// A note that was taken is found by its own text until the store is cleared.
pub fn found_again() -> u8
    ensures itself { FoundByItsText }
    ensures stays { StaysFound }
{
    0
}
