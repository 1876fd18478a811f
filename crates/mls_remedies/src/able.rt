//! Who is granted an action.
ghost use Rattle.std.specs.Prelude.{◌≡◌, ◌<◌, IfSome, Some};
ghost use Rattle.mls_tables.specs.declared.limits.TheConstants.{MAX_SUBJECTS};
ghost use Rattle.mls_explain.specs.Trusting.{grants};
ghost use Rattle.mls_remedies.specs.Steps.{may};
ghost use Rattle.mls_remedies.specs.Able.{IsNext, IsAfter, IsByFirst, IsStepBy, IsWho};

use crate::step::Step;
use crate::who::Who;
use mls_requests::{Action, Reply, Request};
use mls_rules::{State, decide};
use mls_tables::SubjectId;

/// Whether a reply grants.
fn grants(reply: Reply) -> bool
    ensures { result ≡ grants reply }
{
    match reply {
        Reply::Yes | Reply::Created(_) => true,
        Reply::No(_) | Reply::Undefined => false,
    }
}

/// Whether a subject is granted an action.
pub(crate) fn may(state: &State, s: SubjectId, action: &Action) -> bool
    ensures { result ≡ may state.now action.now s }
{
    let asked = Request {
        subject: s,
        action: *action,
    };
    grants(decide(state, &asked))
}

/// The first subject, from a number on, that is granted an action.
#[tactic(auto, using(crate::proofs::Granting::none_may))]
pub(crate) fn next_able(state: &State, action: &Action, from: u16) -> Option<SubjectId>
    ensures next { IsNext (may state.now action.now) from result }
    ensures few { IfSome result (λ s. s < MAX_SUBJECTS) }
{
    for n in from..state.subject_count() {
        let s = SubjectId::new(n);
        if may(state, s, action) {
            return Some(s);
        }
    }
    None
}

/// The next subject behind another one that is granted an action.
fn able_after(state: &State, action: &Action, s: SubjectId) -> Option<SubjectId>
    requires { s < MAX_SUBJECTS }
    ensures next { IsAfter (may state.now action.now) s result }
    ensures few { IfSome result (λ t. t < MAX_SUBJECTS) }
{
    next_able(state, action, s.number() + 1)
}

/// The first subjects that are granted an action, of whom these two are the first.
fn who_of_two(state: &State, action: &Action, a: SubjectId, b: SubjectId) -> Who
    requires first { IsNext (may state.now action.now) 0 (Some a) }
    requires second { IsAfter (may state.now action.now) a (Some b) }
    requires few { b < MAX_SUBJECTS }
    ensures { IsWho (may state.now action.now) result }
{
    match able_after(state, action, b) {
        Some(c) => Who::Three(a, b, c),
        None => Who::Two(a, b),
    }
}

/// The first subjects that are granted an action, of whom this is the first.
fn who_of_one(state: &State, action: &Action, a: SubjectId) -> Who
    requires first { IsNext (may state.now action.now) 0 (Some a) }
    requires few { a < MAX_SUBJECTS }
    ensures { IsWho (may state.now action.now) result }
{
    match able_after(state, action, a) {
        Some(b) => who_of_two(state, action, a, b),
        None => Who::One(a),
    }
}

/// The step of subjects of whom this is the first.
fn step_of(state: &State, action: &Action, a: SubjectId) -> Step
    requires first { IsNext (may state.now action.now) 0 (Some a) }
    requires few { a < MAX_SUBJECTS }
    ensures { IsByFirst state.now action.now result }
{
    Step {
        who: who_of_one(state, action, a),
        action: *action,
    }
}

/// The step of the first three subjects that are granted an action, where there is one.
pub(crate) fn step_by(state: &State, action: &Action) -> Option<Step>
    ensures { IsStepBy state.now action.now result }
{
    match next_able(state, action, 0) {
        Some(a) => Some(step_of(state, action, a)),
        None => None,
    }
}
