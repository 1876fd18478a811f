//! What is told of what could come about: who could get what of an object, whatever some subjects do.
#![tactic(auto)]

mod acting;
mod actors;
mod bringing;
mod brought_row;
mod choice;
mod foreseeing;
mod foreseen;
mod future;
mod linted;
mod listed;
mod outset;
mod told;

pub use acting::untrusted;
pub use actors::actors_of;
pub use bringing::brought;
pub use choice::Choice;
pub use foreseen::Foreseen;
pub use future::Future;
pub use linted::list_brought;
pub use listed::list_could;
pub use outset::{Outset, outset_of};
pub use told::who_could;
