//! The remedy of a request that is no get.
ghost use Rattle.std.specs.Prelude.{◌≡◌, IsTrue, IfOk};
ghost use Rattle.mls_state.specs.State.{is_subject};
ghost use Rattle.mls_rules.specs.Rules.{names_known};
ghost use Rattle.mls_remedies.specs.Changes.{IsChangedBy, IsChangeRemedy};
ghost use Rattle.mls_remedies.specs.Remedies.{IsLed};

use crate::ending::Ending;
use crate::finishing::finish;
use crate::gate::gate_of;
use crate::obstacles::ways_free;
use crate::playing::play;
use crate::remedy::Remedy;
use crate::step::Step;
use mls_requests::Action;
use mls_rules::State;
use mls_tables::{ObjectId, SubjectId};
use std::alloc::{AllocError, Global};

/// The remedy by releases, over a copy of the state, which goes on to that after them.
fn changed_in(
    alloc: Global,
    state: &mut State,
    ways: &[Step],
    s: SubjectId,
    action: &Action,
    gate: &Option<ObjectId>,
) -> Result<Remedy, AllocError>
    ensures { IfOk result
        (λ remedy. IsChangedBy state.old s action.now gate.now ways.now remedy.steps.items remedy.ending) }
{
    if !play(state, ways)? {
        return Ok(Remedy::none(alloc, Ending::Nothing));
    }
    finish(alloc, state, ways, s, action, gate)
}

/// The remedy by releases. The state is copied only where there are some.
fn changed_by(
    alloc: Global,
    state: &State,
    ways: &[Step],
    s: SubjectId,
    action: &Action,
    gate: &Option<ObjectId>,
) -> Result<Remedy, AllocError>
    ensures { IfOk result
        (λ remedy. IsChangedBy state.now s action.now gate.now ways.now remedy.steps.items remedy.ending) }
{
    match ways {
        [] => finish(alloc, state, &[], s, action, gate),
        [_, ..] => {
            let mut then = state.duplicate(alloc)?;
            let remedy = changed_in(alloc, &mut then, ways, s, action, gate);
            drop(then);
            remedy
        }
    }
}

/// The remedy of a request in the domain that is no get.
#[tactic(auto, using(crate::proofs::Changed::changed_led))]
pub(crate) fn change_remedy(
    alloc: Global,
    state: &State,
    s: SubjectId,
    action: &Action,
) -> Result<Remedy, AllocError>
    requires subject { IsTrue (is_subject state.now s) }
    requires names { IsTrue (names_known state.now action.now) }
    ensures is { IfOk result (λ remedy. IsChangeRemedy state.now s action.now remedy.steps.items remedy.ending) }
    ensures leads { IfOk result (λ remedy. IsLed state.now s action.now remedy.steps.items remedy.ending) }
{
    let gate = gate_of(state, action);
    let ways = ways_free(alloc, state, s, action)?;
    let remedy = changed_by(alloc, state, &ways, s, action, &gate);
    drop(ways);
    remedy
}
