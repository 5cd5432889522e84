// Functions for programs in C or Rust: a module from its texts to its instrumented text, whole or step by step.
#![tactic(auto)]

mod answer;
mod steps;

use answer::{answer, bad_line};
use driver::{Files, instrument_in_tables};
use input::{Settings, read_settings};

// Longer than the texts of all notes that a store takes: a fixed array, as there is no heap.
const LINE: usize = 65536;

// A function of its own, so that a call with bad options does not pay for the array.
fn instrument_files(files: &Files, n: usize, out: &mut [u8]) -> u64 {
    let mut scratch = [0u8; LINE];
    answer(instrument_in_tables(files, n, &mut scratch, out))
}

// Instruments a module over tables for `n` nodes. Notes and options are the texts of their files. A bad line of options has
// number 0 and the line for its place.
#[unsafe(no_mangle)]
pub extern "C" fn hufalimpy_instrument(
    form: &[u8],
    source: &[u8],
    notes: &[u8],
    options: &[u8],
    n: usize,
    out: &mut [u8],
) -> u64 {
    match read_settings(options, Settings::default()) {
        Ok(settings) => {
            let files = Files {
                form,
                source,
                notes,
                settings,
            };
            instrument_files(&files, n, out)
        }
        Err(line) => bad_line(line),
    }
}
