// The walk over the nodes of a table, proved once for every visitor.
#![tactic(auto)]

mod visit;

pub use visit::{Step, Visitor, walk};
