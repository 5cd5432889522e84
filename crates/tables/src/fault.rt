// Why a call is refused. Each refusal has a number and a place.
ghost use Rattle.std.specs.Prelude.{◌≡◌};
ghost use Rattle.tables.specs.declared.fault.Fault.TheVariants.{TooLarge};
ghost use Rattle.tables.specs.Faults.{number, place};

use crate::list::Full;
use std::error::Error;
use std::fmt;

#[derive(Clone, Copy, Debug, PartialEq, Eq)]
pub enum Phase {
    Blank,
    Loaded,
    Done,
}

#[derive(Clone, Copy, Debug, PartialEq, Eq)]
pub enum Fault {
    // a token with bytes that no text may have, at an offset
    Unlawful(usize),
    // a token that cannot stand at its offset, or is past its own limit
    Misplaced(usize),
    // the 65th open bracket, at an offset
    TooDeep(usize),
    // the tables, the source or the result have not the size that they may have
    TooLarge,
    // the session's state does not allow the call
    WrongState(Phase),
    // a note's side or position, told by the position
    BadPosition(u32),
    // the store of notes is full
    TooManyNotes,
    // a name in the options breaks the name rule, or full signatures are off
    BadOption,
    // the buffer is shorter than the bytes needed
    ShortBuffer(usize),
}

impl Fault {
    // The number of each refusal, which callers in C are told. Most cases hold a place, so no cast gives it.
    pub fn number(&self) -> u8
        ensures { result ≡ number self.now }
    {
        match *self {
            Fault::Unlawful(_) => 1,
            Fault::Misplaced(_) => 2,
            Fault::TooDeep(_) => 3,
            Fault::TooLarge => 4,
            Fault::WrongState(_) => 5,
            Fault::BadPosition(_) => 6,
            Fault::TooManyNotes => 7,
            Fault::BadOption => 8,
            Fault::ShortBuffer(_) => 9,
        }
    }

    // The place of each refusal, which callers in C are told too.
    pub fn place(&self) -> usize
        ensures { result ≡ place self.now }
    {
        match *self {
            Fault::Unlawful(at) | Fault::Misplaced(at) | Fault::TooDeep(at) => at,
            Fault::WrongState(phase) => phase as usize,
            Fault::BadPosition(position) => position as usize,
            Fault::ShortBuffer(needed) => needed,
            Fault::TooLarge | Fault::TooManyNotes | Fault::BadOption => 0,
        }
    }
}

// What a refusal means, in words.
impl fmt::Display for Fault {
    fn fmt<W: fmt::Write>(&self, f: &mut fmt::Formatter<W>) -> fmt::Result {
        f.write_str(match self {
            Fault::Unlawful(_) => "token has unlawful bytes",
            Fault::Misplaced(_) => "token cannot stand here",
            Fault::TooDeep(_) => "too many open brackets",
            Fault::TooLarge => "too large",
            Fault::WrongState(_) => "wrong state",
            Fault::BadPosition(_) => "bad side or position",
            Fault::TooManyNotes => "too many notes",
            Fault::BadOption => "bad option",
            Fault::ShortBuffer(_) => "buffer too short",
        })
    }
}

impl Error for Fault {}

// A list that is full holds as many entries as the tables may have.
impl From<Full> for Fault {
    ghost from_gives = { λ _ e. e ≡ TooLarge };

    fn from(_full: Full) -> Fault {
        Fault::TooLarge
    }
}
