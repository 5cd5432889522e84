// What both stores do with their table.
ghost use Rattle.std.specs.Prelude.{◌≡◌, ◌+◌, ◌<◌, ◌≤◌, [], ◌++◌, length, take, drop, if◌then◌else◌, Decides};
ghost use Rattle.std.specs.List.{insert};
ghost use Rattle.comments.specs.Notes.{a_note, answers, noted, noted_answer, room};
ghost use Rattle.comments.specs.Records.{read};
ghost use Rattle.comments.specs.Tables.{held, positions};

use crate::records::Record;
use crate::search::contains;
use crate::table::{BYTES, NOTES, Table};
use crate::types::{Full, Side};

// Moves the records from a place on by one, and puts another there.
fn insert_record(records: &mut [Record], count: usize, at: usize, added: Record)
    requires count_in_bounds { count < length records.old }
    requires at_le_count { at ≤ count }
    ensures { take (count + 1) records.new ≡ insert (take count records.old) at added }
{
    records.copy_within(at..count, at + 1);
    records[at] = added;
}

// Writes a text over the bytes from a place on.
fn write_text(bytes: &mut [u8], start: usize, text: &[u8])
    requires { start + length text.now ≤ length bytes.old }
    ensures { bytes.new ≡ take start bytes.old ++ (text.now ++ drop (length text.now) (drop start bytes.old)) }
{
    let end = start + text.len();
    bytes[start..end].copy_from_slice(text);
}

impl Table {
    // A table that holds no note.
    pub(crate) fn new() -> Table
        ensures notes { held result ≡ [] }
        ensures positions { positions result ≡ [] }
    {
        Table {
            count: 0,
            used: 0,
            records: [Record {
                side: Side::Leading,
                position: 0,
                start: 0,
                size: 0,
            }; NOTES],
            bytes: [0; BYTES],
        }
    }

    // Whether one note more, with a text of this size, may stand.
    fn has_room(&self, size: usize) -> bool
        ensures { Decides result ((self.now.count < 512) × (self.now.used + size ≤ 16384)) }
    {
        self.count < NOTES && size <= BYTES - self.used
    }

    // Puts a note at a place among the records, and its text behind the others; refuses exactly if it has no room.
    // The parts of a note come one by one, as the trait hands them over: a struct would be made only to be taken apart here.
    pub(crate) fn insert(
        &mut self,
        at: usize,
        side: Side,
        position: u32,
        text: &[u8],
    ) -> Result<usize, Full>
        requires { at ≤ self.old.count }
        ensures answer { result ≡ noted_answer (held self.old) (a_note side position text.now) }
        ensures holds { held self.new ≡ noted (held self.old) (a_note side position text.now) }
        ensures positions { positions self.new ≡ (if room (held self.old) (length text.now) then insert (positions self.old) at position else positions self.old) }
    {
        if !self.has_room(text.len()) {
            return Err(Full);
        }
        let start = self.used;
        write_text(&mut self.bytes, start, text);
        let count = self.count;
        insert_record(
            &mut self.records,
            count,
            at,
            Record {
                side,
                position,
                start,
                size: text.len(),
            },
        );
        self.count = count + 1;
        self.used = start + text.len();
        Ok(count + 1)
    }

    // The records of the notes that stand.
    pub(crate) fn notes(&self) -> &[Record]
        ensures { result.now ≡ take self.now.count self.now.records }
    {
        &self.records[..self.count]
    }

    // Whether a note is of this side and position, and has the needle.
    pub(crate) fn answers(&self, note: &Record, side: Side, position: u32, needle: &[u8]) -> bool
        requires { note.now.start + note.now.size ≤ self.now.used }
        ensures { result ≡ answers side position needle.now (read self.now.bytes note.now) }
    {
        note.side == side
            && note.position == position
            && contains(&self.bytes[note.start..note.start + note.size], needle)
    }

    // Lets every note go.
    pub(crate) fn clear(&mut self)
        ensures notes { held self.new ≡ [] }
        ensures positions { positions self.new ≡ [] }
    {
        self.count = 0;
        self.used = 0;
    }
}
