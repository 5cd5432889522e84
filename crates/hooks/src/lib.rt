// What the pass asks of a module as it was loaded: a function's hooks, the identifiers used in JSX, components.
#![tactic(auto)]

mod hook;
mod jsx;
mod persist;
mod util;

pub use hook::{Hook, HookCall, collect_hooks};
pub use jsx::collect_ident_in_jsx;
pub use persist::{Persist, persistent};
pub use util::last_part;
