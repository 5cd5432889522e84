// The records and the text bytes that both stores keep their notes in.
ghost use Rattle.std.specs.Prelude.{◌≡◌, ◌≤◌, length, take};
ghost use Rattle.comments.specs.Records.{Within, sizes};

use crate::records::Record;

// How many notes, and how many bytes of text, may stand.
pub(crate) const NOTES: usize = 512;

pub(crate) const BYTES: usize = 16384;

// Arrays with a count beside them: the memory of a store is fixed, and there is no heap.
#[derive(Drop)]
pub(crate) struct Table {
    pub(crate) count: usize,
    pub(crate) used: usize,
    pub(crate) records: [Record; NOTES],
    pub(crate) bytes: [u8; BYTES],
    ghost places: { length records ≡ 512 },
    ghost area: { length bytes ≡ 16384 },
    ghost few: { count ≤ 512 },
    ghost short: { used ≤ 16384 },
    ghost sum: { sizes (take count records) ≡ used },
    ghost within: { Within count used records },
}
