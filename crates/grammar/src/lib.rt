// The grammar of the text form: the words of kinds, what a form of a kind says, which parts it has.
#![tactic(auto)]

mod group;
mod label;
mod laws;
mod rest;
mod words;

pub use group::{Group, Sort, belongs, group_of};
pub use label::{Label, label_of};
pub use laws::{states_can_end, table_is_read};
pub use rest::{Rest, after, closes, goes_on, inside, may_dash};
pub use words::{kind_of, kind_word, variables_of, word_text};
