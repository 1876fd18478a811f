//! What the question could is answered: a script that brings an access about, or why nothing ever does.
#![tactic(auto)]

mod answer_row;
mod answered;
mod asked;
mod barrier;
mod barriers;
mod told;
mod written;

pub use answered::list_whether;
pub use barrier::{Barrier, Why};
pub use told::could;
