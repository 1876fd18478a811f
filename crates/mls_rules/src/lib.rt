//! The rules of the monitor: the reply to each request, and what it changes.
#![tactic(auto)]

mod applying;
mod authority;
mod deciding;
mod demand;
mod levels;
mod theorems;

pub use applying::{apply, carry_out};
pub use deciding::decide;
pub use demand::{LevelDemand, SimpleAtLabel, StarAtLabel, StarAtLevel};
pub use levels::{children_dominate, object_meets, subject_meets};
pub use mls_requests::{Action, Reason, Reply, Request};
pub use mls_state::{State, is_secure};
pub use theorems::tests_are_of_all;
