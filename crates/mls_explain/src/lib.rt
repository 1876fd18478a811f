//! Why a request is answered as it is: its conditions as values, what a denied get would take, and who may get what.
#![tactic(auto)]

mod condition;
mod controls;
mod demand;
mod failing;
mod get;
mod ground;
mod helping;
mod join;
mod judgement;
mod judging;
mod judging_levels;
mod least;
mod meet;
mod missing;
mod permitted;
mod plain;
mod plain_demand;
mod prospect;
mod releasing;
mod rule;
mod term;
mod unknown;
mod using_trust;
mod way;

pub use condition::Condition;
pub use demand::Demand;
pub use failing::{failing_of_object, failing_of_subject};
pub use ground::{Ground, Place, Relabelling};
pub use helping::remedy;
pub use judgement::Judgement;
pub use judging::judgements;
pub use missing::unknowns;
pub use permitted::{prospect_of, prospects};
pub use prospect::Prospect;
pub use releasing::{releases, way_of};
pub use rule::conditions;
pub use term::Term;
pub use unknown::Unknown;
pub use using_trust::uses_trust;
pub use way::Way;
