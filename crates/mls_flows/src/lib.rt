//! Where content could ever flow, whatever some subjects do: the closure that decides it, and the laws that it is
//! exact.
#![tactic(auto)]

mod exact;
mod never;
mod place;

pub use exact::content_arrives_where_the_closure_has_it;
pub use never::no_content_arrives_where_the_closure_has_it_not;
pub use place::Place;
