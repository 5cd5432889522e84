// Whether a comment forces a reset, over any store of notes.
#![tactic(auto)]

mod forced;

pub use forced::is_forced;
