//! The last steps of a remedy.
ghost use Rattle.std.specs.Prelude.{◌≡◌, ◌++◌, ◌∷◌, [], IfOk};
ghost use Rattle.mls_remedies.specs.Steps.{may};
ghost use Rattle.mls_remedies.specs.Authority.{own_get};
ghost use Rattle.mls_remedies.specs.Changes.{is_shared, IsByOthers, IsByOwn, IsFinished, IsWithLast};

use crate::able::may;
use crate::ending::Ending;
use crate::gate::own_get;
use crate::others::{Others, others_of};
use crate::remedy::Remedy;
use crate::step::Step;
use mls_requests::Action;
use mls_rules::State;
use mls_tables::{ObjectId, SubjectId};
use std::alloc::{AllocError, Global};

/// A remedy of these steps.
fn with_steps(alloc: Global, ways: &[Step], ending: Ending) -> Result<Remedy, AllocError>
    ensures steps { IfOk result (λ remedy. remedy.steps.items ≡ ways.now) }
    ensures ending { IfOk result (λ remedy. remedy.ending ≡ ending) }
{
    let steps = Vec::from_slice(alloc, ways)?;
    Ok(Remedy { steps, ending })
}

/// A remedy of these steps and one more.
fn with_last(alloc: Global, ways: &[Step], last: Step, ending: Ending) -> Result<Remedy, AllocError>
    ensures steps { IfOk result (λ remedy. remedy.steps.items ≡ ways.now ++ last ∷ []) }
    ensures ending { IfOk result (λ remedy. remedy.ending ≡ ending) }
{
    let mut steps = Vec::from_slice(alloc, ways)?;
    steps.push(last)?;
    Ok(Remedy { steps, ending })
}

/// Whether others may do it as well.
fn is_shared(action: &Action) -> bool
    ensures { result ≡ is_shared action.now }
{
    !matches!(action, Action::SubjectLevel(_))
}

/// A remedy of steps, and then the request of those who are granted an action, or would be.
fn with_others(
    alloc: Global,
    ways: &[Step],
    others: Others,
    action: &Action,
) -> Result<Remedy, AllocError>
    ensures { IfOk result (λ remedy. IsWithLast action.now ways.now others remedy.steps.items remedy.ending) }
{
    match others {
        Others::Now(step) => with_steps(alloc, ways, Ending::Instead(step)),
        Others::Later(s, first) => {
            let last = Ending::Instead(Step::of(s, *action));
            with_last(alloc, ways, Step::of(s, first), last)
        }
        Others::Nobody => Ok(Remedy::none(alloc, Ending::Nothing)),
    }
}

/// The remedy by others.
fn by_others(
    alloc: Global,
    state: &State,
    ways: &[Step],
    action: &Action,
    gate: &Option<ObjectId>,
) -> Result<Remedy, AllocError>
    ensures { IfOk result (λ remedy. IsByOthers (is_shared action.now) state.now action.now gate.now ways.now
        remedy.steps.items remedy.ending) }
{
    if !is_shared(action) {
        return Ok(Remedy::none(alloc, Ending::Nothing));
    }
    let others = others_of(alloc, state, action, gate)?;
    with_others(alloc, ways, others, action)
}

/// The remedy by a get of the subject's own, or else by others.
fn by_own(
    alloc: Global,
    state: &State,
    ways: &[Step],
    s: SubjectId,
    action: &Action,
    gate: &Option<ObjectId>,
) -> Result<Remedy, AllocError>
    ensures { IfOk result (λ remedy.
        IsByOwn (own_get state.now s action.now gate.now) state.now s action.now gate.now ways.now
        remedy.steps.items remedy.ending) }
{
    match own_get(alloc, state, s, action, gate)? {
        Some(first) => with_last(alloc, ways, Step::of(s, first), Ending::Asked),
        None => by_others(alloc, state, ways, action, gate),
    }
}

/// The remedy in the state after what stood in the way is released.
pub(crate) fn finish(
    alloc: Global,
    state: &State,
    ways: &[Step],
    s: SubjectId,
    action: &Action,
    gate: &Option<ObjectId>,
) -> Result<Remedy, AllocError>
    ensures { IfOk result (λ remedy. IsFinished (may state.now action.now s) state.now s action.now gate.now ways.now
        remedy.steps.items remedy.ending) }
{
    if may(state, s, action) {
        return with_steps(alloc, ways, Ending::Asked);
    }
    by_own(alloc, state, ways, s, action, gate)
}
