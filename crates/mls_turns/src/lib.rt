//! Turns of feeds: they take what a feed asks in one turn to a monitor in a box, and what it answers back to the feed.
#![tactic(auto)]

mod boxed_monitor;
mod gathering;
mod given;
mod limits;

pub use boxed_monitor::BoxedMonitor;
pub use gathering::{halt, take_asks, tell};
pub use given::Given;
pub use limits::AHEAD;
