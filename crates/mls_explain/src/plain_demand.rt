//! What a change of levels demands of each access, if the subject that asks were not trusted.
ghost use Rattle.std.specs.Prelude.{◌≡◌, IsTrue, Some};
ghost use Rattle.std.specs.FinMap as map;
ghost use Rattle.mls_state.specs.State.{is_subject, is_active};
ghost use Rattle.mls_state.specs.Properties.{star_holds};
ghost use Rattle.mls_state.specs.Changes.{with_current, with_object_label};
ghost use Rattle.mls_explain.specs.Trusting.{untrusted};

use mls_labels::SecLabel;
use mls_rules::{LevelDemand, StarAtLabel, StarAtLevel};
use mls_state::{State, star_between};
use mls_tables::{Mode, ObjectId, SubjectId};
use std::alloc::Allocator;

/// Star, with another current label of a subject that isn't trusted.
#[derive(Clone, Copy)]
pub(crate) struct PlainStarAtLevel {
    pub subject: SubjectId,
    pub level: SecLabel,
}

/// Star of an access of the subject that would have another current label, without trust.
fn own_at_level<A: Allocator>(
    state: &State<A>,
    s: SubjectId,
    level: SecLabel,
    o: ObjectId,
    x: Mode,
) -> bool
    requires { IsTrue (is_active state.now o) }
    ensures { result ≡ star_holds (with_current (untrusted state.now s) s level) (s, o, x) }
{
    star_between(&level, &state.object_label(o), x)
}

impl LevelDemand for PlainStarAtLevel {
    ghost asked = { λ d v t. star_holds (with_current (untrusted v d.subject) d.subject d.level) t };

    fn is_met<A: Allocator>(self, state: &State<A>, s: SubjectId, o: ObjectId, x: Mode) -> bool {
        if s == self.subject {
            own_at_level(state, s, self.level, o, x)
        } else {
            let star = StarAtLevel {
                subject: self.subject,
                level: self.level,
            };
            star.is_met(state, s, o, x)
        }
    }
}

/// Star, with another label of an object, if a subject were not trusted.
#[derive(Clone, Copy)]
pub(crate) struct PlainStarAtLabel {
    pub subject: SubjectId,
    pub object: ObjectId,
    pub label: SecLabel,
}

/// The label of `o` where that of the object `changed` is `label`.
#[tactic(auto, using(mls_facts::proofs::Entries::at_same, mls_facts::proofs::Entries::elsewhere))]
fn label_of<A: Allocator>(
    state: &State<A>,
    o: ObjectId,
    changed: ObjectId,
    label: SecLabel,
) -> SecLabel
    requires { IsTrue (is_active state.now o) }
    ensures { map.get (map.insert state.now.object_label changed label) o ≡ Some result }
{
    if o == changed {
        label
    } else {
        state.object_label(o)
    }
}

/// Star of an access of a subject to an object where another has this label, without trust.
fn own_at_label<A: Allocator>(
    state: &State<A>,
    s: SubjectId,
    o: ObjectId,
    x: Mode,
    changed: ObjectId,
    label: SecLabel,
) -> bool
    requires subject { IsTrue (is_subject state.now s) }
    requires object { IsTrue (is_active state.now o) }
    ensures { result ≡ star_holds (with_object_label (untrusted state.now s) changed label) (s, o, x) }
{
    star_between(&state.current(s), &label_of(state, o, changed, label), x)
}

impl LevelDemand for PlainStarAtLabel {
    ghost asked = { λ d v t. star_holds (with_object_label (untrusted v d.subject) d.object d.label) t };

    fn is_met<A: Allocator>(self, state: &State<A>, s: SubjectId, o: ObjectId, x: Mode) -> bool {
        if s == self.subject {
            own_at_label(state, s, o, x, self.object, self.label)
        } else {
            let star = StarAtLabel {
                object: self.object,
                label: self.label,
            };
            star.is_met(state, s, o, x)
        }
    }
}
