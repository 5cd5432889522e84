// A store of comments: each note has a side, a position and a text, and an ask looks for bytes in the notes of one side and position.
#![tactic(auto)]

ghost use Rattle.std.specs.Prelude.{◌≡◌, List, []};
ghost use Rattle.comments.specs.Notes.{Note, a_note, noted, noted_answer, told};

mod arrival;
mod by_position;
mod laws;
mod records;
mod search;
mod table;
mod table_methods;
mod types;

pub use arrival::Arrival;
pub use by_position::ByPosition;
pub use laws::{found_again, order_aside, refused_exactly, told_exactly};
pub use types::{Full, NoSide, Side};

pub trait Comments {
    // The notes since the last clear, order aside.
    ghost notes: { Self → List Note };

    // Takes one note more and answers how many are held, or refuses and alters none.
    fn note(&mut self, side: Side, position: u32, text: &[u8]) -> Result<usize, Full>
        ensures answer { result ≡ noted_answer (notes self.old) (a_note side position text.now) }
        ensures holds { notes self.new ≡ noted (notes self.old) (a_note side position text.now) };

    // Whether a note of this side and position has the needle as consecutive bytes.
    fn ask(&self, side: Side, position: u32, needle: &[u8]) -> bool
        ensures { result ≡ told (notes self.now) side position needle.now };

    // Lets every note go.
    fn clear(&mut self)
        ensures { notes self.new ≡ [] };
}
