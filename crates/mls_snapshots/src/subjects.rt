//! Whether two states have the same subjects.
ghost use Rattle.std.specs.Prelude.{IsTrue};
ghost use Rattle.mls_state.specs.State.{is_subject};
ghost use Rattle.mls_snapshots.specs.Reading.{IsFixedSubject, HasFixedSubjects};
ghost use Rattle.mls_snapshots.specs.Renumbering.{IsSameSubject, HasSameSubjects};

use mls_state::State;
use mls_tables::SubjectId;

/// Whether a subject is known in two states, with the same labels, and is trusted in both or in neither.
#[tactic(auto, using(mls_labels::proofs::Laws::labels_same))]
fn is_same_subject(state: &State, other: &State, s: SubjectId) -> bool
    ensures { IsTrue result → IsSameSubject state.now other.now s }
{
    if !state.is_subject(s) || !other.is_subject(s) {
        return false;
    }
    let (a, b) = (state.subject(s), other.subject(s));
    a.maximum == b.maximum
        && a.current == b.current
        && a.integrity == b.integrity
        && a.trusted == b.trusted
}

/// Whether two states have the same subjects, with the same labels and trust.
pub(crate) fn has_same_subjects(state: &State, other: &State) -> bool
    ensures { IsTrue result → HasSameSubjects state.now other.now }
{
    state.agrees();
    other.agrees();
    let count = state.subject_count();
    if other.subject_count() != count {
        return false;
    }
    for s in 0..count {
        if !is_same_subject(state, other, SubjectId::new(s)) {
            return false;
        }
    }
    true
}

/// Whether a subject is known in two states, with the same maximum and integrity labels, and is trusted in both or in
/// neither.
#[tactic(auto, using(mls_labels::proofs::Laws::labels_same))]
fn is_fixed_subject(state: &State, other: &State, s: SubjectId) -> bool
    ensures fixed { IsTrue result → IsFixedSubject state.now other.now s }
    ensures accepted { IsTrue (is_subject state.now s) → IsTrue (is_subject other.now s)
        → IsFixedSubject state.now other.now s → IsTrue result }
{
    if !state.is_subject(s) || !other.is_subject(s) {
        return false;
    }
    let (a, b) = (state.subject(s), other.subject(s));
    a.maximum == b.maximum && a.integrity == b.integrity && a.trusted == b.trusted
}

/// Whether two states have the same subjects, with the same maximum and integrity labels and trust.
pub(crate) fn has_fixed_subjects(state: &State, other: &State) -> bool
    ensures fixed { IsTrue result → HasFixedSubjects state.now other.now }
    ensures accepted { HasFixedSubjects state.now other.now → IsTrue result }
{
    state.agrees();
    other.agrees();
    let count = state.subject_count();
    if other.subject_count() != count {
        return false;
    }
    for s in 0..count {
        if !is_fixed_subject(state, other, SubjectId::new(s)) {
            return false;
        }
    }
    true
}
