use crate::types::Side;

// One note: its side and position, and where its text lies among the bytes of the table.
#[derive(Clone, Copy, Debug, PartialEq, Eq)]
pub(crate) struct Record {
    pub(crate) side: Side,
    pub(crate) position: u32,
    pub(crate) start: usize,
    pub(crate) size: usize,
}
