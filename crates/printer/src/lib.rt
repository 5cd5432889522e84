// The printer: writes a module in the text form.
#![tactic(auto)]

mod forms;
mod laws;
mod pieces;

pub use forms::print;
pub use laws::printed_alike_is_alike;
