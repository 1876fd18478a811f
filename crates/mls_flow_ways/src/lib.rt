//! The requests by which content flows: first releases of all that is held, then those that carry it from place to
//! place.
#![tactic(auto)]

mod bounds;
mod carrying;
mod handing;
mod making;
mod passing;
mod script;

pub use script::{FlowScript, flow_script_of};
