//! Where the fault of a start file that is refused applies, and where one that is accepted has a member or a permission
//! twice.
#![tactic(auto)]

mod accesses;
mod answering;
mod labels;
mod members;
mod name_fault;
mod naming;
mod permissions;
mod place;
mod place_row;
mod refused_json;
mod repeating;
mod repeats;
mod rows;
mod schemes;
mod seen;
mod starts;
mod unknowns;
mod writing;

pub use answering::{file_places, places};
pub use permissions::repeated_permissions;
pub use repeating::repeated_members;
