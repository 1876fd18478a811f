//! Start files and journals, read and replayed: what all commands over files begin with and come to.
#![tactic(auto)]

mod checking;
mod command;
mod endings;
mod fault_line;
mod fault_words;
mod naming;
mod passing;
mod question_fault;
mod replay;
mod replaying;
mod replaying_at;
mod run_text;
mod start_file;
mod state_before;
mod state_replay;
mod text_replay;

pub use checking::{START_LIMIT, check_start};
pub use command::{CommandFault, status};
pub use endings::ending;
pub use fault_line::write_fault;
pub use mls_journal::JOURNAL_LIMIT;
pub use naming::{named_object, named_subject};
pub use question_fault::QuestionFault;
pub use replay::Replay;
pub use replaying::{replay_journal, replay_over};
pub use replaying_at::replay_at;
pub use run_text::{MAX_SCRIPTS, RunText, push_ending, push_heading, with_journal};
pub use start_file::load_start;
pub use state_replay::{StateReplay, replay_state_at};
pub use text_replay::TextReplay;
