//! Sessions: threads share one monitor through a gate, and each session knows its own part of the one journal.
#![tactic(auto)]

mod answering;
mod asked;
mod attend;
mod backoff;
mod cells;
mod closing;
mod consulting;
mod counts;
mod exchange;
mod forgetting;
mod gate;
mod gate_table;
mod holding;
mod homing;
mod limits;
mod lobby;
mod meeting;
mod office;
mod office_fault;
mod opening;
mod pace;
mod publishing;
mod question;
mod returns;
mod run;
mod run_fault;
mod session;
mod steps;
mod touch;
mod try_fault;
mod turn;
mod waiting;

pub use backoff::Backoff;
pub use consulting::Decision;
pub use limits::MAX_SESSIONS;
pub use mls_monitor::{Answer, Feed, Stage};
pub use office::Office;
pub use office_fault::{CloseFault, OfficeFault, OfficeFaultKind};
pub use question::Question;
pub use run::run_sessions;
pub use run_fault::{RunDone, RunFault, RunFaultKind};
pub use session::Session;
pub use try_fault::{Busy, TryFault};
