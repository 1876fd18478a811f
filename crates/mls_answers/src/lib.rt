//! What questions are answered over files: those about one state over what is seen, those about all entries over a
//! history; and what is said of a start that is checked, and of marks that are verified.
#![tactic(auto)]

mod asked;
mod changed;
mod checked;
mod checked_row;
mod described;
mod drawn;
mod entries;
mod ever;
mod explained;
mod listed;
mod marks_row;
mod snapshot_fault;
mod spans;
mod started;
mod theorems;
mod tightening;
mod told;
mod used;
mod used_of;

pub use asked::ask;
pub use changed::powers;
pub use checked::check;
pub use described::about;
pub use drawn::lattice;
pub use entries::{journal, journal_explained, journal_trusted};
pub use ever::who_ever;
pub use explained::explain;
pub use listed::state;
pub use marks_row::verification;
pub use snapshot_fault::SnapshotFault;
pub use spans::held;
pub use started::start_file;
pub use theorems::entries_are_explained_alike;
pub use tightening::tightened;
pub use told::who;
pub use used::usage;
pub use used_of::usage_of;
