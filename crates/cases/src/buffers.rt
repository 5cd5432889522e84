// What the cases are written to, one after the other.
use std::alloc::{AllocError, Global};

// Longer than any source or form of the table.
const LINE: usize = 70000;

// More bytes than any module prints.
const OUT: usize = 393216;

#[derive(Drop)]
pub struct Buffers {
    pub source: Vec<u8>,
    pub form: Vec<u8>,
    pub note: Vec<u8>,
    pub printed: Vec<u8>,
}

impl Buffers {
    pub fn new(heap: Global) -> Result<Buffers, AllocError> {
        Ok(Buffers {
            source: vec![in heap; 0u8; LINE]?,
            form: vec![in heap; 0u8; LINE]?,
            note: vec![in heap; 0u8; LINE]?,
            printed: vec![in heap; 0u8; OUT]?,
        })
    }
}
