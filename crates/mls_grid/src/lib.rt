//! What could come about, as a grid: of some objects and some subjects, each access as it stands.
#![tactic(auto)]

mod cell;
mod cells;
mod choosing;
mod grid;
mod prospect;
mod weighing;

pub use cell::Cell;
pub use grid::{Grid, grid_of};
pub use prospect::{Prospect, prospect_of};
