//! What a script does with a monitor: its lines are cut out, answered, and the answers written; and what it asks when
//! it is fed.
#![tactic(auto)]

mod access;
mod answer;
mod answering;
mod feed;
mod halves;
mod lines;
mod looking;
mod output;
mod served;
mod serving;
mod theorems;

pub use answer::{Answer, Script};
pub use feed::ScriptFeed;
pub use halves::push_answer;
pub use lines::{cut_line, keep};
pub use serving::{SCRIPT_LIMIT, ServeFault, serve};
pub use theorems::{a_script_alone_is_served, scripts_are_served_by_halves};
