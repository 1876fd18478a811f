//! What could ever come about, whatever some subjects do: the closure that decides it, and the laws that it is exact.
#![tactic(auto)]

mod actors;
mod closure;
mod exact;
mod never;
mod table;

pub use actors::has_trusted;
pub use closure::{could_get, could_get_where, could_give, qualifies};
pub use exact::{
    a_script_brings_it_about, labels_stay_within_the_bounds, what_the_closure_has_comes_about,
};
pub use never::{no_future_has_what_the_closure_has_not, what_could_come_only_shrinks};
pub use table::givable;
