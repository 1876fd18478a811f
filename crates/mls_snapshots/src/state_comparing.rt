//! States compared with a start, and with the text of a state.
ghost use Rattle.std.specs.Prelude.{◌≡◌, IsTrue, IfOk};
ghost use Rattle.mls_snapshots.specs.Reading.{IsOfStart, IsOver, HasLabelsWithin};
ghost use Rattle.mls_snapshots.specs.States.{state_text};

use crate::labels::has_labels_within;
use crate::same::has_same_kind;
use crate::state_writing::state_text;
use crate::subjects::has_fixed_subjects;
use mls_lines::Names;
use mls_start::Start;
use mls_state::State;
use std::alloc::{AllocError, Global};

/// Whether a state stands over a start: what no rule changes is as there, and no label is outside the bounds.
pub(crate) fn is_over(alloc: Global, start: &Start, state: &State) -> Result<bool, AllocError>
    ensures start { IfOk result (λ is. IsTrue is → IsOfStart start.now state.now) }
    ensures within { IfOk result (λ is. IsTrue is → HasLabelsWithin state.now) }
    ensures over { IfOk result (λ is. IsTrue is → IsOver start.now state.now) }
    ensures accepted { IfOk result (λ is. IsOver start.now state.now → IsTrue is) }
{
    state.agrees();
    let opening = start.opening(alloc)?;
    let is = has_same_kind(&opening, state) && has_fixed_subjects(&opening, state);
    drop(opening);
    Ok(is && has_labels_within(state))
}

/// Whether bytes are the text of a state, with the names of a start over which the state stands.
///
/// # Errors
/// `AllocError` where an allocation failed.
pub fn is_text_of(
    alloc: Global,
    names: &Names,
    start: &Start,
    state: &State,
    bytes: &[u8],
) -> Result<bool, AllocError>
    ensures text { IfOk result (λ is. IsTrue is → state_text names.now state.now ≡ bytes.now) }
    ensures over { IfOk result (λ is. IsTrue is → IsOver start.now state.now) }
{
    let written = state_text(alloc, names, state)?;
    let is_same = *written.as_bytes() == *bytes;
    drop(written);
    if !is_same {
        return Ok(false);
    }
    is_over(alloc, start, state)
}
