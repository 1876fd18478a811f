//! Steps, made one after the other.
ghost use Rattle.std.specs.Prelude.{◌≡◌, ◌&&◌, IsTrue, IfOk};
ghost use Rattle.mls_remedies.specs.Steps.{all_may, are_open, is_open, may, taken};

use crate::able::may;
use crate::step::Step;
use crate::who::Who;
use mls_requests::Action;
use mls_rules::{State, apply};
use std::alloc::AllocError;

/// Whether each of some subjects is granted an action.
fn all_may(state: &State, who: &Who, action: &Action) -> bool
    ensures { result ≡ all_may state.now action.now who.now }
{
    match who {
        Who::One(s) => may(state, *s, action),
        Who::Two(s, t) => may(state, *s, action) && may(state, *t, action),
        Who::Three(s, t, u) => {
            may(state, *s, action) && (may(state, *t, action) && may(state, *u, action))
        }
    }
}

/// Whether a step is granted, whoever of its subjects makes it.
fn is_open(state: &State, step: &Step) -> bool
    ensures { result ≡ is_open state.now step.now }
{
    all_may(state, &step.who, &step.action)
}

/// Makes steps, up to the first that isn't granted, and says whether all are granted.
pub(crate) fn play(state: &mut State, steps: &[Step]) -> Result<bool, AllocError>
    ensures open { IfOk result (λ all. all ≡ are_open state.old steps.now) }
    ensures state { IfOk result (λ all. IsTrue all → state.new ≡ taken state.old steps.now) }
{
    for step in steps {
        if !is_open(state, step) {
            return Ok(false);
        }
        apply(state, &step.request())?;
    }
    Ok(true)
}
