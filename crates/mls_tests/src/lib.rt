//! Tests that cross crates, of what only calls show: streams that fail, allocations that are refused, journals and the
//! services over them, and sessions.
#![tactic(auto)]

#[cfg(test)]
mod faults;
mod journal;
#[cfg(test)]
mod monitors;
#[cfg(test)]
mod one_line;
#[cfg(test)]
mod seen;
#[cfg(test)]
mod segments;
#[cfg(test)]
mod serving;
#[cfg(test)]
mod sessions;
#[cfg(test)]
mod standard;
#[cfg(test)]
mod vars;

pub use journal::{Call, Memory};
