//! Whether the labels of a state are within its bounds.
ghost use Rattle.std.specs.Prelude.{ℕ, IsTrue};
ghost use Rattle.mls_state.specs.State.{is_subject, is_active};
ghost use Rattle.mls_snapshots.specs.Reading.{IsSubjectWithin, IsObjectWithin, HasLabelsWithin};

use mls_state::State;
use mls_tables::{MAX_OBJECTS, ObjectId, SubjectId};

/// Whether a subject is known, with labels that are within the bounds of a state.
#[tactic(auto, using(crate::proofs::Within::some_within, crate::proofs::Within::some_has))]
fn is_subject_within(state: &State, s: SubjectId) -> bool
    ensures within { IsTrue result → IsSubjectWithin state.now s }
    ensures accepted { IsTrue (is_subject state.now s) → IsSubjectWithin state.now s → IsTrue result }
{
    if !state.is_subject(s) {
        return false;
    }
    let subject = state.subject(s);
    let (security, integrity) = (state.security(), state.integrity());
    security.has(subject.maximum.label())
        && security.has(subject.current.label())
        && integrity.has(subject.integrity.label())
}

/// Whether the labels of an object are within the bounds of a state, where it is active.
#[tactic(auto, using(crate::proofs::Within::some_within, crate::proofs::Within::some_has))]
fn is_object_within(state: &State, o: ObjectId) -> bool
    ensures within { IsTrue result → IsTrue (is_active state.now o) → IsObjectWithin state.now o }
    ensures accepted { IsObjectWithin state.now o → IsTrue result }
{
    if !state.is_active(o) {
        return true;
    }
    let labels = state.labels(o);
    state.security().has(labels.security.label()) && state.integrity().has(labels.integrity.label())
}

/// Whether the labels of all subjects are within the bounds of a state.
fn are_subjects_within(state: &State) -> bool
    ensures within { IsTrue result → (s : ℕ) → IsSubjectWithin state.now s }
    ensures accepted { ((s : ℕ) → IsSubjectWithin state.now s) → IsTrue result }
{
    state.agrees();
    for s in 0..state.subject_count() {
        if !is_subject_within(state, SubjectId::new(s)) {
            return false;
        }
    }
    true
}

/// Whether the labels of all objects are within the bounds of a state.
fn are_objects_within(state: &State) -> bool
    ensures within { IsTrue result → (o : ℕ) → IsObjectWithin state.now o }
    ensures accepted { ((o : ℕ) → IsObjectWithin state.now o) → IsTrue result }
{
    state.agrees();
    for o in 0..MAX_OBJECTS {
        if !is_object_within(state, ObjectId::new(o)) {
            return false;
        }
    }
    true
}

/// Whether all labels of a state are within its bounds.
pub(crate) fn has_labels_within(state: &State) -> bool
    ensures within { IsTrue result → HasLabelsWithin state.now }
    ensures accepted { HasLabelsWithin state.now → IsTrue result }
{
    are_subjects_within(state) && are_objects_within(state)
}
