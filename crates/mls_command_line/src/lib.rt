//! The words of the command line, and what they ask for.
#![tactic(auto)]

mod argument;
mod asked_arguments;
mod asked_words;
mod command_line;
mod command_rows;
mod compare_arguments;
mod compare_words;
mod job;
mod journal_arguments;
mod journal_words;
mod json_words;
mod number_words;
mod question;
mod question_words;
mod run_arguments;
mod shared_arguments;
mod short_help;
mod state_words;
mod times;
mod verify_words;
mod version;
mod words;
mod words_fault;

pub use job::{Asked, Job, RunWords, ServeWords, VerifyWords};
pub use question::{
    Actors, CompareWords, EverWords, FlowWords, HeldWords, JournalWords, Question, ReportWords,
    Source, Times, UsageWords,
};
pub use times::now;
pub use words::read_words;
