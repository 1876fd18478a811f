//! A start file's bytes, read as a start and the names that its lines may use.
#![tactic(auto)]

mod building;
mod loaded;
mod loading;
mod standard;
mod standard_rows;

pub use loaded::Loaded;
pub use loading::{load_file, read_start};
pub use mls_start_text::LoadFault;
pub use standard::standard_start;
