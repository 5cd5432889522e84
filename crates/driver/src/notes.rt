// The notes beside a module.
use crate::stop::{Call, Stop};
use comments::Comments;
use input::{BadLine, Lines, note_line};
use session::note;

// Notes the lines of a file, and answers the notes held. `scratch` has room for the longest text.
pub fn take_notes<C: Comments>(
    comments: &mut C,
    source: &[u8],
    notes: &[u8],
    scratch: &mut [u8],
) -> Result<usize, Stop> {
    let mut held = 0;
    for (i, line) in Lines::of(notes).enumerate() {
        let read = note_line(line, scratch).ok_or(Stop::NoteLine(BadLine(i + 1)))?;
        held = note(comments, source, read.side, read.position, read.text).map_err(
            |fault| Stop::Refused(Call::Note, fault),
        )?;
    }
    Ok(held)
}
