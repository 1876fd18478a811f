//! Answers as rows: each row writes its line, and the members of its JSON object.
#![tactic(auto)]

mod accesses;
mod form;
mod listing;
mod members;
mod naming;
mod numbered;
mod output;
mod plain;
mod times;
mod told;
mod writing;

pub use accesses::{write_access, write_mode, write_object, write_subject};
pub use form::Form;
pub use listing::Listing;
pub use members::{write_mode_at, write_null, write_number, write_text, write_two};
pub use naming::{write_object_at, write_subject_at};
pub use output::Output;
pub use plain::Plain;
pub use times::{time_of, write_entry};
pub use told::Told;
pub use writing::{write_list, written};
