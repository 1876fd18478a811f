//! The get of append or write of a parent that gives authority.
ghost use Rattle.std.specs.Prelude.{◌≡◌, IsTrue, IfOk};
ghost use Rattle.std.specs.FinMap as map;
ghost use Rattle.mls_state.specs.State.{is_active};
ghost use Rattle.mls_tables.specs.declared.mode.Mode.TheVariants.{Append, Write};
ghost use Rattle.mls_rules.specs.Rules.{after, names_known};
ghost use Rattle.mls_remedies.specs.Steps.{asks, may};
ghost use Rattle.mls_remedies.specs.Authority.{first_of, gate_of, leads, own_get};

use crate::able::may;
use mls_requests::{Action, Request};
use mls_rules::{State, apply};
use mls_tables::{Mode, ObjectId, SubjectId};
use std::alloc::{AllocError, Global};

/// The parent of an object.
fn parent_of(state: &State, o: ObjectId) -> Option<ObjectId>
    requires { IsTrue (is_active state.now o) }
    ensures { result ≡ map.get state.now.parent o }
{
    state.parent(o)
}

/// The object of which a subject needs an access for an action.
pub(crate) fn gate_of(state: &State, action: &Action) -> Option<ObjectId>
    requires { IsTrue (names_known state.now action.now) }
    ensures { result ≡ gate_of state.now action.now }
{
    match action {
        Action::Create(p, _, _) => Some(*p),
        Action::Give(_, _, o)
        | Action::Rescind(_, _, o)
        | Action::Delete(o)
        | Action::ObjectLevel(o, _) => parent_of(state, *o),
        Action::Get(_, _) | Action::Release(_, _) | Action::SubjectLevel(_) => None,
    }
}

/// Whether a subject is granted an action once another is made, over a copy of the state, which goes on to that after
/// it.
fn leads_in(
    state: &mut State,
    s: SubjectId,
    action: &Action,
    first: &Action,
) -> Result<bool, AllocError>
    ensures { IfOk result (λ is. is ≡ may (after state.old (asks s first.now)) action.now s) }
{
    let request = Request {
        subject: s,
        action: *first,
    };
    apply(state, &request)?;
    Ok(may(state, s, action))
}

/// Whether a subject is granted an action, and after it another.
fn leads(
    alloc: Global,
    state: &State,
    s: SubjectId,
    action: &Action,
    first: &Action,
) -> Result<bool, AllocError>
    ensures { IfOk result (λ is. is ≡ leads state.now s action.now first.now) }
{
    if !may(state, s, first) {
        return Ok(false);
    }
    let mut then = state.duplicate(alloc)?;
    let is = leads_in(&mut then, s, action, first);
    drop(then);
    is
}

/// The get of append or write of an object after which a subject is granted an action.
pub(crate) fn own_get_of(
    alloc: Global,
    state: &State,
    s: SubjectId,
    action: &Action,
    p: ObjectId,
) -> Result<Option<Action>, AllocError>
    ensures { IfOk result (λ found. found ≡ first_of state.now s action.now (Action.Get Append p)
        (Action.Get Write p)) }
{
    if leads(alloc, state, s, action, &Action::Get(Mode::Append, p))? {
        return Ok(Some(Action::Get(Mode::Append, p)));
    }
    if leads(alloc, state, s, action, &Action::Get(Mode::Write, p))? {
        return Ok(Some(Action::Get(Mode::Write, p)));
    }
    Ok(None)
}

/// The same of an object, where there is one.
pub(crate) fn own_get(
    alloc: Global,
    state: &State,
    s: SubjectId,
    action: &Action,
    gate: &Option<ObjectId>,
) -> Result<Option<Action>, AllocError>
    ensures { IfOk result (λ found. found ≡ own_get state.now s action.now gate.now) }
{
    match gate {
        Some(p) => own_get_of(alloc, state, s, action, *p),
        None => Ok(None),
    }
}
