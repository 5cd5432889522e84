// The records that all layers share: nodes and their kinds, spans, text places, refusals, the bounded list over lent memory.
#![tactic(auto)]

mod fault;
mod kind;
mod list;
mod module;
mod node;
mod siblings;
mod sizes;
mod text;

pub use fault::{Fault, Phase};
pub use kind::{Kind, Word};
pub use list::{Full, List};
pub use module::{Module, bytes_at, next_at, node_at, same_ident, snippet_of};
pub use node::{Node, Place, Span, narrow};
pub use siblings::Siblings;
pub use sizes::{Sizes, fits};
pub use text::{Class, all_name_chars, class_of, is_name, same};
