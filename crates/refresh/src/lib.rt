// The pass: instruments a module for Fast Refresh.
#![tactic(auto)]

mod instrument;
mod options;
mod output;
mod pass;
mod pending;
mod plan;
mod register;
mod signature;

pub use options::RefreshOptions;
pub use pass::{HookRegister, Registration, WorkTables};
pub use plan::{Component, Plan, Signature};
