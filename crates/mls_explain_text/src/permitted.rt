//! Who may get what of an object.
ghost use Rattle.std.specs.Prelude.{◌≡◌, [], false, string_bytes, IsTrue, IfOk};
ghost use Rattle.mls_state.specs.State.{is_active};
ghost use Rattle.mls_explain_text.specs.Who.{prospect_lines, is_open, TellsActive, TellsWho};

use crate::prospect_line::{is_open, push_prospects};
use mls_explain::{Prospect, prospects};
use mls_lines::Names;
use mls_rules::State;
use mls_tables::{Modes, ObjectId};
use mls_wording::Answer;
use std::alloc::{AllocError, Global};

/// The lines of what subjects may get.
fn prospects_text(
    alloc: Global,
    names: &Names,
    state: &State,
    prospects: &[Prospect],
) -> Result<String, AllocError>
    ensures { IfOk result (λ text. string_bytes text ≡ prospect_lines names.now state.now prospects.now) }
{
    let mut text = String::new(alloc);
    push_prospects(alloc, &mut text, names, state, prospects)?;
    Ok(text)
}

/// Who may get what of an active object.
fn who_active(
    alloc: Global,
    names: &Names,
    state: &State,
    object: ObjectId,
    modes: Modes,
) -> Result<Answer, AllocError>
    requires { IsTrue (is_active state.now object) }
    ensures { IfOk result (λ answer. TellsActive names.now state.now object modes (string_bytes answer.text)
        answer.is_positive) }
{
    // how many subjects there are
    let _ = state.subject_count();
    let found = prospects(alloc, state, object, modes)?;
    let text = prospects_text(alloc, names, state, &found)?;
    let is_positive = is_open(&found);
    drop(found);
    Ok(Answer { text, is_positive })
}

/// Who may get what of an object in this state: a line for each subject, by number, and mode, in their order, in which
/// the matrix permits the object, of the modes that are asked for. It tells the reply to the get, and after a denial
/// what it would take of the subject alone: a current label, after releases if need be, or that nothing does. An object
/// that isn't active has no line. The answer is positive where one of the gets would be granted.
///
/// # Errors
/// `AllocError` where an allocation failed.
pub fn who_in(
    alloc: Global,
    names: &Names,
    state: &State,
    object: ObjectId,
    modes: Modes,
) -> Result<Answer, AllocError>
    ensures { IfOk result (λ answer. TellsWho names.now state.now object modes (string_bytes answer.text)
        answer.is_positive) }
{
    if !state.is_active(object) {
        let text = String::new(alloc);
        return Ok(Answer {
            text,
            is_positive: false,
        });
    }
    who_active(alloc, names, state, object, modes)
}
