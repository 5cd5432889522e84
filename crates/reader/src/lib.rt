// Reads the text form of a module into the node table and the text table.
#![tactic(auto)]

mod fields;
mod load;
mod loader;
mod mode;
mod steps;

pub use load::read;
