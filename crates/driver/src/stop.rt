// What was done, or why a program stops.
use input::BadLine;
use std::error::Error;
use std::fmt;
use tables::Fault;

#[derive(Clone, Copy, Debug, PartialEq, Eq)]
pub enum Call {
    Load,
    Note,
    Run,
    Print,
}

impl fmt::Display for Call {
    fn fmt<W: fmt::Write>(&self, f: &mut fmt::Formatter<W>) -> fmt::Result {
        f.write_str(match self {
            Call::Load => "load",
            Call::Note => "note",
            Call::Run => "run",
            Call::Print => "print",
        })
    }
}

// Why a program stops: a call is refused, or a line of the notes is no note.
#[derive(Clone, Copy, Debug, PartialEq, Eq)]
pub enum Stop {
    Refused(Call, Fault),
    NoteLine(BadLine),
}

impl fmt::Display for Stop {
    fn fmt<W: fmt::Write>(&self, f: &mut fmt::Formatter<W>) -> fmt::Result {
        match self {
            Stop::Refused(call, fault) => {
                let number = fault.number();
                let place = fault.place();
                write!(f, "refused: {call} {number} at {place}: {fault}")
            }
            Stop::NoteLine(line) => write!(f, "{line}: expected SIDE POSITION \"TEXT\""),
        }
    }
}

impl Error for Stop {}

// What was done.
#[derive(Clone, Copy, Debug, PartialEq, Eq)]
pub struct Done {
    pub loaded: usize,
    pub notes: usize,
    pub added: usize,
    pub printed: usize,
}

impl fmt::Display for Done {
    fn fmt<W: fmt::Write>(&self, f: &mut fmt::Formatter<W>) -> fmt::Result {
        let Done {
            loaded,
            notes,
            added,
            printed,
        } = self;
        write!(
            f,
            "loaded {loaded} nodes, {notes} notes, added {added}, printed {printed} bytes"
        )
    }
}
