// The files beside a module that the programs read: notes and options.
#![tactic(auto)]

mod line;
mod lines;
mod notes;
mod options;

pub use line::{split_once, unquote};
pub use lines::{BadLine, Lines};
pub use notes::{NoteLine, note_line};
pub use options::{Settings, read_settings};
