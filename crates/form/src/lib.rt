// The text form of a module: loading it into tables, and printing it from them.
#![tactic(auto)]

mod loading;
mod printing;

pub use loading::load;
pub use printing::print;
