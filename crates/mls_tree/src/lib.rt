//! The tree of objects: each active object but the root has a parent, and by parents reaches the root.
#![tactic(auto)]

mod fields;
mod numbers;
mod profile;
mod reach;
mod tree;

pub use profile::Profile;
pub use reach::inferiors_reach;
pub use tree::{Tree, TreeFault};
