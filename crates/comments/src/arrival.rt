ghost use Rattle.std.specs.Prelude.{◌≡◌, []};
ghost use Rattle.comments.specs.Tables.{held};

use crate::Comments;
use crate::table::Table;
use crate::types::{Full, Side};

// A store of comments in the order in which they arrived.
#[derive(Drop)]
pub struct Arrival {
    table: Table,
}

impl Arrival {
    // A store that holds no note.
    pub fn new() -> Arrival
        ensures { held result.table ≡ [] }
    {
        Arrival {
            table: Table::new(),
        }
    }
}

impl Comments for Arrival {
    ghost notes = { λ s. held s.table };

    fn note(&mut self, side: Side, position: u32, text: &[u8]) -> Result<usize, Full> {
        let end = self.table.count;
        self.table.insert(end, side, position, text)
    }

    fn ask(&self, side: Side, position: u32, needle: &[u8]) -> bool {
        // Searches are loops with labels, left from inside at a match.
        let mut found = false;
        'notes: for note in self.table.notes() {
            if self.table.answers(note, side, position, needle) {
                found = true;
                break 'notes;
            }
        }
        found
    }

    fn clear(&mut self) {
        self.table.clear();
    }
}
