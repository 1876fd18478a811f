//! What a state of the monitor is, what makes one secure, and the audit that looks at all of it anew.
#![tactic(auto)]

mod audit;
mod conditions;
mod start_fault;
mod state;
mod subject;
mod table;

pub use audit::is_secure;
pub use conditions::{
    discretionary_holds, integrity_between, integrity_holds, simple_between, simple_holds,
    star_between, star_holds,
};
pub use start_fault::StartFault;
pub use state::State;
pub use subject::{ObjectLabels, Subject};
pub use table::Table;
