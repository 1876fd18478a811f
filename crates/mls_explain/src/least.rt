//! The least label that dominates those of all objects that a subject observes.
ghost use Rattle.std.specs.Prelude.{◌≡◌, IsTrue, Some};
ghost use Rattle.std.specs.FinMap as map;
ghost use Rattle.mls_labels.specs.Label.{Label, dominates};
ghost use Rattle.mls_state.specs.State.{is_subject, is_active, is_above};
ghost use Rattle.mls_explain.specs.Remedy.{HasCategories, is_observing, Covers};

use crate::join::join;
use mls_labels::SecLabel;
use mls_state::State;
use mls_tables::{Mode, ObjectId, SubjectId};
use std::alloc::Allocator;

/// The least label that dominates this one and, where the subject observes the object, the object's.
#[tactic(auto, using(mls_labels::proofs::Laws::reflexive))]
fn covering_object<A: Allocator>(
    state: &State<A>,
    s: SubjectId,
    o: ObjectId,
    level: SecLabel,
) -> SecLabel
    requires subject { IsTrue (is_subject state.now s) }
    requires object { IsTrue (is_active state.now o) }
    ensures least { (m : Label) → IsTrue (dominates m level) → Covers state.now s m → IsTrue (dominates m result) }
    ensures above { (m : Label) → HasCategories m → IsTrue (dominates m level) → Covers state.now s m
        → IsTrue (dominates result level) }
    ensures covers { (m : Label) → HasCategories m → IsTrue (dominates m level) → Covers state.now s m
        → IsTrue (is_observing state.now s o) → IsTrue (is_above (Some result) (map.get state.now.object_label o)) }
{
    let held = state.accesses(s, o);
    let observes = held.has(Mode::Read) || held.has(Mode::Write);
    if !observes {
        return level;
    }
    join(level, state.object_label(o))
}

/// The least label that dominates this one and those of all objects that the subject observes, where a label of the
/// program does.
pub(crate) fn covering<A: Allocator>(state: &State<A>, s: SubjectId, from: SecLabel) -> SecLabel
    requires { IsTrue (is_subject state.now s) }
    ensures least { (m : Label) → IsTrue (dominates m from) → Covers state.now s m → IsTrue (dominates m result) }
    ensures from { (m : Label) → HasCategories m → IsTrue (dominates m from) → Covers state.now s m
        → IsTrue (dominates result from) }
    ensures covers { (m : Label) → HasCategories m → IsTrue (dominates m from) → Covers state.now s m
        → Covers state.now s result }
{
    let mut level = from;
    for o in state.objects_of(s) {
        level = covering_object(state, s, *o, level);
    }
    level
}
