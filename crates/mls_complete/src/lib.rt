//! A start file made of a short one, in which members may be left out that have a usual value.
#![tactic(auto)]

mod completing;
mod looking;
mod placing;
mod rows;
mod short;

pub use completing::{CompleteFault, complete};
pub use placing::short_places;
