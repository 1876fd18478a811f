//! Whether the integrity labels of a state's subjects are within its bounds.
ghost use Rattle.std.specs.Prelude.{◌≡◌, ◌↔◌, IsTrue, Some};
ghost use Rattle.std.specs.FinMap as map;
ghost use Rattle.mls_labels.specs.Label.{Label, has_label};
ghost use Rattle.mls_flows.specs.Arriving.{HasIntegrityWithin};

use mls_rules::State;
use mls_tables::SubjectId;

/// Whether a subject isn't known, or its integrity label is within the bounds.
fn is_within(state: &State, s: SubjectId) -> bool
    ensures { IsTrue result ↔ ((l : Label) → map.get state.now.subject_integrity s ≡ Some l
        → IsTrue (has_label state.now.integrity l)) }
{
    state.agrees();
    if state.is_subject(s) {
        return state.integrity().has(state.subject_integrity(s).label());
    }
    true
}

/// Whether each subject's integrity label is within the bounds.
pub(crate) fn is_integrity_within(state: &State) -> bool
    ensures { IsTrue result ↔ HasIntegrityWithin state.now }
{
    state.agrees();
    for n in 0..state.subject_count() {
        if !is_within(state, SubjectId::new(n)) {
            return false;
        }
    }
    true
}
