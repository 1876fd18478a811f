//! The commands that answer questions about start files and journals, over files.
#![tactic(auto)]

mod acting;
mod answering;
mod comparison;
mod describing;
mod foreseeing;
mod form_meant;
mod listing;
mod named;
mod one_state;
mod part;
mod past;
mod renaming;
mod report;
mod report_counts;
mod report_parts;
mod report_rows;
mod row_answers;
mod seeing;
mod snapshots;
mod source_names;
mod sources;
mod spans;
mod starts;
mod state_findings;
mod usages;

pub use answering::answer;
pub use row_answers::form_of;
