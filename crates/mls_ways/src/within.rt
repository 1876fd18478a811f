//! Whether the labels of a state are within its bounds.
ghost use Rattle.std.specs.Prelude.{◌≡◌, ◌↔◌, IsTrue, Some};
ghost use Rattle.std.specs.FinMap as map;
ghost use Rattle.mls_labels.specs.Label.{Label, has_label};
ghost use Rattle.mls_futures.specs.Futures.{HasLabelsWithin};

use mls_rules::State;
use mls_tables::{MAX_OBJECTS, ObjectId};

/// Whether an object isn't active, or its label is within the bounds.
fn is_within(state: &State, o: ObjectId) -> bool
    ensures { IsTrue result ↔ ((l : Label) → map.get state.now.object_label o ≡ Some l
        → IsTrue (has_label state.now.security l)) }
{
    if state.is_active(o) {
        return state.security().has(state.object_label(o).label());
    }
    true
}

/// Whether each object's label is within the bounds.
pub fn are_within(state: &State) -> bool
    ensures { IsTrue result ↔ HasLabelsWithin state.now }
{
    state.agrees();
    for n in 0..MAX_OBJECTS {
        if !is_within(state, ObjectId::new(n)) {
            return false;
        }
    }
    true
}
