//! Who else is granted an action, or would be.
ghost use Rattle.std.specs.Prelude.{◌≡◌, IfOk, Some};
ghost use Rattle.mls_remedies.specs.Others.{IsLeading, IsLaterBy, IsOthers, others_steps};

use crate::able::step_by;
use crate::gate::own_get_of;
use crate::step::Step;
use mls_requests::Action;
use mls_rules::State;
use mls_tables::{ObjectId, SubjectId};
use std::alloc::{AllocError, Global};

/// Who is granted an action, or would be.
#[derive(Clone, Copy, Debug)]
pub enum Others {
    /// Those who make this step.
    Now(Step),
    /// A subject, once it has made this get.
    Later(SubjectId, Action),
    /// Nobody.
    Nobody,
}

/// The first subject that is granted an action after a get of append or write of an object, and that get.
#[tactic(auto, using(crate::proofs::Granting::none_get))]
fn next_leading(
    alloc: Global,
    state: &State,
    action: &Action,
    p: ObjectId,
) -> Result<Option<(SubjectId, Action)>, AllocError>
    ensures { IfOk result (λ found. IsLeading state.now action.now (Some p) found) }
{
    for n in 0..state.subject_count() {
        let s = SubjectId::new(n);
        match own_get_of(alloc, state, s, action, p)? {
            Some(first) => return Ok(Some((s, first))),
            None => {}
        }
    }
    Ok(None)
}

/// Who would be granted an action after a get of append or write of an object.
fn later_by(
    alloc: Global,
    state: &State,
    action: &Action,
    p: ObjectId,
) -> Result<Others, AllocError>
    ensures { IfOk result (λ found. IsLaterBy state.now action.now (Some p) found) }
{
    match next_leading(alloc, state, action, p)? {
        Some((s, first)) => Ok(Others::Later(s, first)),
        None => Ok(Others::Nobody),
    }
}

/// Who would be granted an action that nobody is granted now.
fn later(
    alloc: Global,
    state: &State,
    action: &Action,
    gate: &Option<ObjectId>,
) -> Result<Others, AllocError>
    ensures { IfOk result (λ found. IsLaterBy state.now action.now gate.now found) }
{
    match gate {
        Some(p) => later_by(alloc, state, action, *p),
        None => Ok(Others::Nobody),
    }
}

/// Who is granted an action, or would be after a get of append or write of an object.
pub(crate) fn others_of(
    alloc: Global,
    state: &State,
    action: &Action,
    gate: &Option<ObjectId>,
) -> Result<Others, AllocError>
    ensures { IfOk result (λ found. IsOthers state.now action.now gate.now found) }
{
    match step_by(state, action) {
        Some(step) => Ok(Others::Now(step)),
        None => later(alloc, state, action, gate),
    }
}

/// The steps of those who are granted an action, or would be.
pub(crate) fn others_steps(
    alloc: Global,
    others: Others,
    action: &Action,
) -> Result<Vec<Step>, AllocError>
    ensures { IfOk result (λ steps. steps.items ≡ others_steps action.now others) }
{
    match others {
        Others::Now(step) => Ok(Vec::from_array(alloc, [step])?),
        Others::Later(s, first) => {
            let both = [Step::of(s, first), Step::of(s, *action)];
            Ok(Vec::from_array(alloc, both)?)
        }
        Others::Nobody => Ok(Vec::new(alloc)),
    }
}
