//! What the question flow is answered: where content of an object could flow, each place with a shortest way, and the
//! script that carries it to one.
#![tactic(auto)]

mod ending;
mod ends;
mod listed;
mod reaching;
mod route;
mod routing;
mod step;
mod stepping;
mod told;
mod visiting;

pub use ends::Ends;
pub use listed::list_flows;
pub use reaching::list_flow_to;
pub use route::Route;
pub use step::Step;
pub use told::flow;
