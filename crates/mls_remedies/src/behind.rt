//! What a get takes of its subject once its permission is given.
ghost use Rattle.std.specs.Prelude.{◌≡◌, IsTrue, IfOk};
ghost use Rattle.mls_state.specs.Properties.{HasTree};
ghost use Rattle.mls_remedies.specs.Remedies.{IsLed};
ghost use Rattle.mls_remedies.specs.Steps.{are_open, taken, may};
ghost use Rattle.mls_remedies.specs.Gets.{IsBehind, IsJoined, joined};

use crate::able::may;
use crate::ending::Ending;
use crate::owing::own_remedy;
use crate::playing::play;
use crate::remedy::Remedy;
use crate::step::Step;
use mls_requests::Action;
use mls_rules::State;
use mls_tables::{Mode, ObjectId, SubjectId};
use std::alloc::{AllocError, Global};

/// What a get still takes of its subject in a state: nothing where it is granted.
fn behind(
    alloc: Global,
    state: &State,
    s: SubjectId,
    o: ObjectId,
    x: Mode,
) -> Result<Remedy, AllocError>
    ensures { IfOk result (λ remedy. IsBehind (may state.now (Action.Get x o) s) state.now s o x remedy.steps.items
        remedy.ending) }
{
    if may(state, s, &Action::Get(x, o)) {
        return Ok(Remedy::none(alloc, Ending::Asked));
    }
    own_remedy(alloc, state, s, o, x)
}

/// The steps of a giving, and behind them those of what is still taken, where that helps.
fn joined(alloc: Global, giving: &[Step], rest: &Remedy) -> Result<Remedy, AllocError>
    ensures steps { IfOk result
        (λ remedy. remedy.steps.items ≡ joined rest.now.ending giving.now rest.now.steps.items) }
    ensures ending { IfOk result (λ remedy. remedy.ending ≡ rest.now.ending) }
{
    match rest.ending {
        Ending::Asked => {
            let mut steps = Vec::from_slice(alloc, giving)?;
            steps.extend_from_slice(&rest.steps)?;
            let ending = Ending::Asked;
            Ok(Remedy { steps, ending })
        }
        ending => Ok(Remedy::none(alloc, ending)),
    }
}

/// The remedy of a get in the state that a giving leads to, where the objects are a tree as in every state.
fn behind_giving(
    alloc: Global,
    given: &State,
    giving: &[Step],
    s: SubjectId,
    o: ObjectId,
    x: Mode,
) -> Result<Remedy, AllocError>
    ensures is { IfOk result (λ remedy. IsJoined given.now giving.now s o x remedy.steps.items remedy.ending) }
    ensures tree { HasTree given.now }
{
    given.agrees();
    let rest = behind(alloc, given, s, o, x)?;
    let whole = joined(alloc, giving, &rest);
    drop(rest);
    whole
}

/// The remedy of a get, over a copy of the state, which goes on to that after the giving.
#[tactic(auto, using(crate::proofs::Freeing::joined_led))]
fn given_in(
    alloc: Global,
    given: &mut State,
    giving: &[Step],
    s: SubjectId,
    o: ObjectId,
    x: Mode,
) -> Result<Remedy, AllocError>
    requires { IsTrue (are_open given.old giving.now) }
    ensures is { IfOk result (λ remedy. IsJoined (taken given.old giving.now) giving.now s o x remedy.steps.items
        remedy.ending) }
    ensures leads { IfOk result
        (λ remedy. IsLed given.old s (Action.Get x o) remedy.steps.items remedy.ending) }
{
    if !play(given, giving)? {
        return Ok(Remedy::none(alloc, Ending::Nothing));
    }
    behind_giving(alloc, given, giving, s, o, x)
}

/// The remedy of a get whose permission is given by steps, of which each is granted.
pub(crate) fn given_remedy(
    alloc: Global,
    state: &State,
    giving: &[Step],
    s: SubjectId,
    o: ObjectId,
    x: Mode,
) -> Result<Remedy, AllocError>
    requires { IsTrue (are_open state.now giving.now) }
    ensures is { IfOk result (λ remedy. IsJoined (taken state.now giving.now) giving.now s o x remedy.steps.items
        remedy.ending) }
    ensures leads { IfOk result
        (λ remedy. IsLed state.now s (Action.Get x o) remedy.steps.items remedy.ending) }
{
    let mut given = state.duplicate(alloc)?;
    let remedy = given_in(alloc, &mut given, giving, s, o, x);
    drop(given);
    remedy
}
