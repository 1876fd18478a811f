//! The commands of the program as calls, under one name: runs of scripts over one monitor, serial ones and ones in
//! threads; what the crates below offer of starts, lines, scripts and journals; and the law that joins the two kinds.
#![tactic(auto)]

mod fed;
mod running;
mod theorems;
mod threading;

pub use fed::{done_text, make_feeds};
pub use mls_journal::EntryFault;
pub use mls_lines::{
    Ask, Line, LineFault, MAX_LINE, Names, Vars, lines_law, numbers_law, read_line, tokens_law,
};
pub use mls_monitor::ReplayFault;
pub use mls_replay::{
    CommandFault, JOURNAL_LIMIT, MAX_SCRIPTS, RunText, START_LIMIT, check_start, replay_journal,
    status, write_fault,
};
pub use mls_scripts::{SCRIPT_LIMIT, ScriptFeed, ServeFault, scripts_are_served_by_halves, serve};
pub use mls_start_file::{LoadFault, Loaded, read_start, standard_start};
pub use running::run_serial;
pub use theorems::one_script_runs_alike;
pub use threading::run_threads;
