//! The commands over files and streams, but for the questions, the run of scripts in threads and the service.
mod beginning;
mod first_policy;
mod mistaken;
mod over_files;
mod policy;
mod readme;
mod run_journal;
mod scripts;
mod serving;
mod strictness;
mod verified_text;
mod verifying;
mod verifying_segments;

pub use beginning::complete;
pub use first_policy::init;
pub use mistaken::tell_starts;
pub use over_files::{check, replay};
pub use run_journal::{RunJournal, open_run_journal};
pub use scripts::{discard, ended_run, lent, read_scripts};
pub use serving::serve_standard;
pub use verifying::verify;
