// The reader between two tokens. The tables are handed to its calls: as `&mut` fields they were tried, with clauses that the references stay, and the
// equation of `read` stayed open.
use crate::mode::{Frame, Mode};
use tables::{List, Node};

#[derive(Drop)]
pub struct Loader<'f> {
    // the highest position that a span may have
    pub(crate) limit: u32,
    pub(crate) mode: Mode,
    // the form whose beginning is being read
    pub(crate) node: Node,
    // the open forms, the innermost last
    pub(crate) frames: List<'f, Frame>,
    // counted on past what the tables hold
    pub(crate) count: usize,
    pub(crate) bytes: usize,
}
