//! The remedy of a get.
ghost use Rattle.std.specs.Prelude.{◌≡◌, ◌&&◌, IsTrue, IfOk};
ghost use Rattle.std.specs.FinMap as map;
ghost use Rattle.mls_state.specs.State.{is_subject, is_active};
ghost use Rattle.mls_state.specs.Properties.{discretionary_holds, simple_holds, integrity_holds};
ghost use Rattle.mls_remedies.specs.Remedies.{IsLed};
ghost use Rattle.mls_remedies.specs.Steps.{are_open};
ghost use Rattle.mls_remedies.specs.Others.{IsOthers, others_steps};
ghost use Rattle.mls_remedies.specs.Gets.{IsGivenBy, IsGiven, IsGivenWhere, IsGetRemedy};

use crate::behind::given_remedy;
use crate::ending::Ending;
use crate::others::{Others, others_of, others_steps};
use crate::owing::own_remedy;
use crate::remedy::Remedy;
use crate::step::Step;
use mls_requests::Action;
use mls_rules::State;
use mls_state::{discretionary_holds, integrity_holds, simple_holds};
use mls_tables::{Mode, ObjectId, SubjectId};
use std::alloc::{AllocError, Global};

/// The remedy of a get whose permission is given by steps; by none nobody gives it.
fn given_by(
    alloc: Global,
    state: &State,
    giving: &[Step],
    s: SubjectId,
    o: ObjectId,
    x: Mode,
) -> Result<Remedy, AllocError>
    requires { IsTrue (are_open state.now giving.now) }
    ensures is { IfOk result (λ remedy. IsGivenBy state.now s o x giving.now remedy.steps.items remedy.ending) }
    ensures leads { IfOk result (λ remedy. IsLed state.now s (Action.Get x o) remedy.steps.items remedy.ending) }
{
    match giving {
        [] => Ok(Remedy::none(alloc, Ending::NoGiver(x, s, o))),
        [_, ..] => given_remedy(alloc, state, giving, s, o, x),
    }
}

/// The remedy of a get whose permission these give.
#[tactic(auto, using(crate::proofs::Givings::others_open))]
fn by_givers(
    alloc: Global,
    state: &State,
    givers: Others,
    s: SubjectId,
    o: ObjectId,
    x: Mode,
) -> Result<Remedy, AllocError>
    requires givers { IsOthers state.now (Action.Give x s o) (map.get state.now.parent o) givers }
    ensures is { IfOk result (λ remedy. IsGivenBy state.now s o x (others_steps (Action.Give x s o) givers)
        remedy.steps.items remedy.ending) }
    ensures leads { IfOk result (λ remedy. IsLed state.now s (Action.Get x o) remedy.steps.items remedy.ending) }
{
    let steps = others_steps(alloc, givers, &Action::Give(x, s, o))?;
    let remedy = given_by(alloc, state, &steps, s, o, x);
    drop(steps);
    remedy
}

/// The remedy of a get that lacks only its permission, and maybe a level.
fn given(
    alloc: Global,
    state: &State,
    s: SubjectId,
    o: ObjectId,
    x: Mode,
) -> Result<Remedy, AllocError>
    requires { IsTrue (is_active state.now o) }
    ensures is { IfOk result (λ remedy. IsGiven state.now s o x remedy.steps.items remedy.ending) }
    ensures leads { IfOk result (λ remedy. IsLed state.now s (Action.Get x o) remedy.steps.items remedy.ending) }
{
    let gate = state.parent(o);
    let givers = others_of(alloc, state, &Action::Give(x, s, o), &gate)?;
    by_givers(alloc, state, givers, s, o, x)
}

/// Whether a get meets the conditions that no permission and no label of the subject change.
fn is_clear(state: &State, s: SubjectId, o: ObjectId, x: Mode) -> bool
    requires subject { IsTrue (is_subject state.now s) }
    requires object { IsTrue (is_active state.now o) }
    ensures { result ≡ (simple_holds state.now (s, o, x) && integrity_holds state.now (s, o, x)) }
{
    simple_holds(state, s, o, x) && integrity_holds(state, s, o, x)
}

/// The remedy of a get that the matrix doesn't permit.
fn unpermitted(
    alloc: Global,
    state: &State,
    s: SubjectId,
    o: ObjectId,
    x: Mode,
) -> Result<Remedy, AllocError>
    requires subject { IsTrue (is_subject state.now s) }
    requires object { IsTrue (is_active state.now o) }
    ensures is { IfOk result (λ remedy. IsGivenWhere (simple_holds state.now (s, o, x)
        && integrity_holds state.now (s, o, x)) state.now s o x remedy.steps.items remedy.ending) }
    ensures leads { IfOk result (λ remedy. IsLed state.now s (Action.Get x o) remedy.steps.items remedy.ending) }
{
    if is_clear(state, s, o, x) {
        return given(alloc, state, s, o, x);
    }
    Ok(Remedy::none(alloc, Ending::NoLevel))
}

/// The remedy of a get in the domain.
#[tactic(auto, using(crate::proofs::Freeing::own_led))]
pub(crate) fn get_remedy(
    alloc: Global,
    state: &State,
    s: SubjectId,
    o: ObjectId,
    x: Mode,
) -> Result<Remedy, AllocError>
    requires subject { IsTrue (is_subject state.now s) }
    requires object { IsTrue (is_active state.now o) }
    ensures is { IfOk result (λ remedy. IsGetRemedy (discretionary_holds state.now (s, o, x)) state.now s o x
        remedy.steps.items remedy.ending) }
    ensures leads { IfOk result (λ remedy. IsLed state.now s (Action.Get x o) remedy.steps.items remedy.ending) }
{
    state.agrees();
    if discretionary_holds(state, s, o, x) {
        return own_remedy(alloc, state, s, o, x);
    }
    unpermitted(alloc, state, s, o, x)
}
