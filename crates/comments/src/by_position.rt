ghost use Rattle.std.specs.Prelude.{◌≡◌, ◌≤◌, true, []};
ghost use Rattle.std.specs.List.{insert};
ghost use Rattle.comments.specs.Records.{ascending};
ghost use Rattle.comments.specs.Tables.{held, positions};

use crate::Comments;
use crate::table::Table;
use crate::types::{Full, Side};

// A store of comments in the order of their positions.
#[derive(Drop)]
pub struct ByPosition {
    table: Table,
    ghost order: { ascending (positions table) ≡ true },
}

impl ByPosition {
    // A store that holds no note.
    pub fn new() -> ByPosition
        ensures { held result.table ≡ [] }
    {
        ByPosition {
            table: Table::new(),
        }
    }

    // The place behind the notes of this position and before those of a later one.
    fn place_for(&self, position: u32) -> usize
        ensures within { result ≤ self.now.table.count }
        ensures order { ascending (insert (positions self.now.table) result position) ≡ true }
    {
        self.table
            .notes()
            .partition_point(|note| note.position <= position)
    }
}

impl Comments for ByPosition {
    ghost notes = { λ s. held s.table };

    fn note(&mut self, side: Side, position: u32, text: &[u8]) -> Result<usize, Full> {
        let at = self.place_for(position);
        self.table.insert(at, side, position, text)
    }

    fn ask(&self, side: Side, position: u32, needle: &[u8]) -> bool {
        // Searches are loops with labels, left from inside at a match. Not shared with the other store: this one leaves at a later position.
        let mut found = false;
        'notes: for note in self.table.notes() {
            if note.position > position {
                break 'notes;
            }
            if self.table.answers(note, side, position, needle) {
                found = true;
                break 'notes;
            }
        }
        found
    }

    fn clear(&mut self) {
        self.table.clear();
    }
}
