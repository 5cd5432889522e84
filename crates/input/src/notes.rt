// A line of notes: `SIDE POSITION "TEXT"`.
use crate::line::{split_once, unquote};
use lex::read_number;

#[derive(Clone, Copy, Debug, PartialEq, Eq)]
pub struct NoteLine<'o> {
    // a number, since one that no side has is no bad line, but refused when it is noted
    pub side: u8,
    pub position: u32,
    pub text: &'o [u8],
}

// Reads a line, and writes its text to `out`. A side that no store knows stands for one too large to write.
pub fn note_line<'o>(line: &[u8], out: &'o mut [u8]) -> Option<NoteLine<'o>> {
    let (side, rest) = split_once(line, b' ')?;
    let (position, quoted) = split_once(rest, b' ')?;
    let side = read_number(side, 999_999_999)?;
    Some(NoteLine {
        side: u8::try_from(side).unwrap_or(u8::MAX),
        position: read_number(position, 999_999_999)?,
        text: unquote(quoted, out)?,
    })
}
