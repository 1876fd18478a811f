//! The requests that bring an access about: first releases of all that is held, then no more than are needed.
#![tactic(auto)]

mod asking;
mod bringing;
mod giver;
mod giving;
mod leaning;
mod lowering;
mod obtaining;
mod releasing;
mod script;
mod within;
mod working;

pub use asking::ask;
pub use bringing::bring;
pub use releasing::release_all;
pub use script::{Script, script_of};
pub use within::are_within;
