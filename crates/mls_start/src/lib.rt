//! The builder of starts: what it is given, what is wrong with that, and the secure start that it makes.
#![tactic(auto)]

mod counting;
mod counts;
mod object_row;
mod source;
mod start;
mod start_builder;

pub use mls_state::StartFault;
pub use start::{Start, StateRefused};
pub use start_builder::{BuildRefused, StartBuilder};
