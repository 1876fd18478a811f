//! What would have to come before a request that is denied: the requests after which it is granted, and who makes them.
#![tactic(auto)]

mod able;
mod behind;
mod changing;
mod ending;
mod finishing;
mod gate;
mod getting;
mod obstacles;
mod others;
mod owing;
mod playing;
mod pushing;
mod remedy;
mod remedying;
mod step;
mod who;

pub use ending::Ending;
pub use remedy::Remedy;
pub use remedying::remedy_for;
pub use step::Step;
pub use who::Who;
