//! Where content could ever flow from an object, whatever some subjects do: each place with a shortest way.
#![tactic(auto)]

mod flowing;
mod ground;
mod numbering;
mod passing;
mod reached;
mod searching;
mod taking;
mod way;

pub use flowing::flows;
pub use numbering::{PLACES, place_of};
pub use reached::{Came, Hand, Hop, Reached};
pub use way::{is_same, way_to};
