//! What a change of levels demands of each access: a property of the state with the new label.
ghost use Rattle.std.specs.Prelude.{◌≡◌, IsTrue, Some};
ghost use Rattle.std.specs.FinMap as map;
ghost use Rattle.mls_state.specs.State.{is_subject, is_active};
ghost use Rattle.mls_state.specs.Properties.{simple_holds, star_holds};
ghost use Rattle.mls_state.specs.Changes.{with_current, with_object_label};

use mls_labels::SecLabel;
use mls_state::{State, star_between};
use mls_tables::{Mode, ObjectId, SubjectId};
use std::alloc::Allocator;

/// A property that is demanded of each access. It goes by value, so that a loop over accesses keeps its label in
/// registers.
pub trait LevelDemand: Copy {
    ghost use Rattle.std.specs.Prelude.{Bool};
    ghost use Rattle.mls_tables.specs.Triples.{Triple};
    ghost use Rattle.mls_state.specs.State.{State};

    ghost asked: { Self → State → Triple → Bool };

    /// Whether the access has it.
    fn is_met<A: Allocator>(self, state: &State<A>, s: SubjectId, o: ObjectId, x: Mode) -> bool
        requires subject { IsTrue (is_subject state.now s) }
        requires object { IsTrue (is_active state.now o) }
        ensures { result ≡ asked self state.now (s, o, x) };
}

/// Star, with another current label of a subject.
#[derive(Clone, Copy)]
pub struct StarAtLevel {
    pub subject: SubjectId,
    pub level: SecLabel,
}

impl LevelDemand for StarAtLevel {
    ghost asked = { λ d v t. star_holds (with_current v d.subject d.level) t };

    fn is_met<A: Allocator>(self, state: &State<A>, s: SubjectId, o: ObjectId, x: Mode) -> bool {
        if state.subject(s).trusted {
            return true;
        }
        let level = level_of(state, s, self.subject, self.level);
        star_between(&level, &state.labels(o).security, x)
    }
}

/// Simple security, with another label of an object.
#[derive(Clone, Copy)]
pub struct SimpleAtLabel {
    pub object: ObjectId,
    pub label: SecLabel,
}

impl LevelDemand for SimpleAtLabel {
    ghost asked = { λ d v t. simple_holds (with_object_label v d.object d.label) t };

    fn is_met<A: Allocator>(self, state: &State<A>, s: SubjectId, o: ObjectId, x: Mode) -> bool {
        if !x.observes() {
            return true;
        }
        let label = label_of(state, o, self.object, self.label);
        state.subject(s).maximum.dominates(&label)
    }
}

/// Star, with another label of an object.
#[derive(Clone, Copy)]
pub struct StarAtLabel {
    pub object: ObjectId,
    pub label: SecLabel,
}

impl LevelDemand for StarAtLabel {
    ghost asked = { λ d v t. star_holds (with_object_label v d.object d.label) t };

    fn is_met<A: Allocator>(self, state: &State<A>, s: SubjectId, o: ObjectId, x: Mode) -> bool {
        let subject = state.subject(s);
        if subject.trusted {
            return true;
        }
        let label = label_of(state, o, self.object, self.label);
        star_between(&subject.current, &label, x)
    }
}

/// The current label of `s` where that of the subject `changed` is `level`.
#[tactic(auto, using(mls_facts::proofs::Entries::at_same, mls_facts::proofs::Entries::elsewhere))]
fn level_of<A: Allocator>(
    state: &State<A>,
    s: SubjectId,
    changed: SubjectId,
    level: SecLabel,
) -> SecLabel
    requires { IsTrue (is_subject state.now s) }
    ensures { map.get (map.insert state.now.current changed level) s ≡ Some result }
{
    if s == changed {
        level
    } else {
        state.current(s)
    }
}

/// The label of `o` where that of the object `changed` is `label`.
#[tactic(auto, using(mls_facts::proofs::Entries::at_same, mls_facts::proofs::Entries::elsewhere))]
fn label_of<A: Allocator>(
    state: &State<A>,
    o: ObjectId,
    changed: ObjectId,
    label: SecLabel,
) -> SecLabel
    requires { IsTrue (is_active state.now o) }
    ensures { map.get (map.insert state.now.object_label changed label) o ≡ Some result }
{
    if o == changed {
        label
    } else {
        state.object_label(o)
    }
}
