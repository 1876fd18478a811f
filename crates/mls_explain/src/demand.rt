//! What a change of levels demands of each access.
ghost use Rattle.std.specs.Prelude.{◌≡◌, IsTrue};
ghost use Rattle.mls_state.specs.State.{is_subject, is_active};
ghost use Rattle.mls_explain.specs.Demands.{meets};

use mls_labels::SecLabel;
use mls_rules::{LevelDemand, SimpleAtLabel, StarAtLabel, StarAtLevel};
use mls_state::State;
use mls_tables::{Mode, ObjectId, SubjectId};
use std::alloc::Allocator;

/// What is demanded of accesses where a label is to change.
#[derive(Clone, Copy, Debug)]
pub enum Demand {
    /// Star, with another current label of a subject.
    StarAtLevel(SubjectId, SecLabel),
    /// Simple security, with another label of an object.
    SimpleAtLabel(ObjectId, SecLabel),
    /// Star, with another label of an object.
    StarAtLabel(ObjectId, SecLabel),
}

impl Demand {
    /// Whether an access meets the demand.
    pub(crate) fn is_met<A: Allocator>(
        &self,
        state: &State<A>,
        s: SubjectId,
        o: ObjectId,
        x: Mode,
    ) -> bool
        requires subject { IsTrue (is_subject state.now s) }
        requires object { IsTrue (is_active state.now o) }
        ensures { result ≡ meets self.now state.now (s, o, x) }
    {
        match *self {
            Demand::StarAtLevel(subject, level) => {
                StarAtLevel { subject, level }.is_met(state, s, o, x)
            }
            Demand::SimpleAtLabel(object, label) => {
                SimpleAtLabel { object, label }.is_met(state, s, o, x)
            }
            Demand::StarAtLabel(object, label) => {
                StarAtLabel { object, label }.is_met(state, s, o, x)
            }
        }
    }
}
