// One module from its files to its instrumented text: load, notes, run, print, in tables that the program lends.
#![tactic(auto)]

mod in_tables;
mod lent;
mod notes;
mod steps;
mod stop;

pub use in_tables::{LARGEST, Tables, instrument_in_tables};
pub use lent::Lent;
pub use notes::take_notes;
pub use steps::{Files, instrument, print_module, run_module};
pub use stop::{Call, Done, Stop};
