//! What the question about is answered: what there is to tell of one subject or of one object, as rows.
#![tactic(auto)]

mod asked;
mod asked_row;
mod changing;
mod child_row;
mod entry_row;
mod getting;
mod giving;
mod object;
mod permission;
mod permit_row;
mod subject;
mod telling;
mod thing;
mod times;

pub use telling::list_about;
pub use thing::Thing;
