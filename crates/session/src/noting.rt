// A note as it reaches a store: side and position are checked first.
ghost use Rattle.std.specs.Prelude.{◌≡◌, length};
ghost use Rattle.session.specs.Noting.{note_answer, notes_after, within_source};

use comments::{Comments, Side};
use tables::Fault;

// Whether a position lies from 1 to one past the source's length.
fn is_placed(source: &[u8], position: u32) -> bool
    ensures { result ≡ within_source (length source.now) position }
{
    position >= 1 && position as usize <= source.len() + 1
}

// Notes a comment beside a module over `source`, and answers the notes held. The side is a number, since one that is no side has to be refused with the position.
pub fn note<C: Comments>(
    comments: &mut C,
    source: &[u8],
    side: u8,
    position: u32,
    text: &[u8],
) -> Result<usize, Fault>
    ensures answer { result ≡ note_answer (length source.now) (C.notes comments.old) side position text.now }
    ensures holds { C.notes comments.new ≡ notes_after (length source.now) (C.notes comments.old) side position text.now }
{
    let side = Side::try_from(side).map_err(|_| Fault::BadPosition(position))?;
    if !is_placed(source, position) {
        return Err(Fault::BadPosition(position));
    }
    Ok(comments.note(side, position, text)?)
}
