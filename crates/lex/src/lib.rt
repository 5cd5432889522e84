// Reads tokens and numbers, and writes bytes and numbers.
#![tactic(auto)]

mod number;
mod put;
mod scan;
mod token;

pub use number::{put_number, read_number};
pub use put::{put_byte, put_bytes};
pub use token::{Reader, Token};
