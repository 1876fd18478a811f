//! Things in groups by a key, and in order by weight.
#![tactic(auto)]

mod grouping;
mod weight;

pub use grouping::{Group, Grouping, grouped};
pub use weight::by_weight;
