// What a session adds to the layers below it. So far: noting.
#![tactic(auto)]

mod noting;

pub use noting::note;
