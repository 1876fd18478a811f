//! The rows and members that several answers share: what there is in a state, requests, and the kinds of rows.
#![tactic(auto)]

mod asked;
mod head_row;
mod kinds;
mod object_lines;
mod object_row;
mod request_row;
mod requests;
mod state_rows;
mod subject_lines;
mod subject_row;
mod things;
mod triple_row;
mod triples;

pub use asked::write_asked;
pub use kinds::{with_kind, with_kinds};
pub use requests::with_requests;
pub use state_rows::with_state;
pub use things::{with_object, with_subject};
pub use triples::{with_cell, with_row};
