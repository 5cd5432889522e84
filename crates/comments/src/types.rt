// The sides of a position, and what a store or a number is refused by.
ghost use Rattle.std.specs.Prelude.{◌≡◌};
ghost use Rattle.tables.specs.declared.fault.Fault.TheVariants.{TooManyNotes};
ghost use Rattle.comments.specs.Notes.{side_numbered};

use tables::Fault;

// On which side of its position a comment stands.
#[derive(Clone, Copy, Debug, PartialEq, Eq)]
pub enum Side {
    Leading,
    Trailing,
}

// The refusal of a number that no side has.
#[derive(Clone, Copy, Debug, PartialEq, Eq)]
pub struct NoSide;

impl TryFrom<u8> for Side {
    type Error = NoSide;

    ghost try_from_gives = { λ n r. r ≡ side_numbered n };

    fn try_from(n: u8) -> Result<Side, NoSide> {
        match n {
            0 => Ok(Side::Leading),
            1 => Ok(Side::Trailing),
            _ => Err(NoSide),
        }
    }
}

// The refusal of a note that the store has no room for. A type of its own, since under `?` it becomes another refusal than that of a full list.
#[derive(Clone, Copy, Debug, PartialEq, Eq)]
pub struct Full;

impl From<Full> for Fault {
    ghost from_gives = { λ _ e. e ≡ TooManyNotes };

    fn from(_full: Full) -> Fault {
        Fault::TooManyNotes
    }
}
