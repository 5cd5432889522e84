// Names that decide what the pass does: hooks and components.
#![tactic(auto)]

mod hook;
mod util;

pub use hook::is_hook_like;
pub use util::{begins_upper, is_builtin_hook};
