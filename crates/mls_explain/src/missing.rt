//! What a request names and isn't there, listed.
ghost use Rattle.std.specs.Prelude.{◌≡◌, ◌++◌, ◌↔◌, [], IsTrue, IfOk, OnOk};
ghost use Rattle.mls_rules.specs.Rules.{is_defined};
ghost use Rattle.mls_explain.specs.Unknowns.{unknown_subject, unknown_other, unknown_object, unknown_security};
ghost use Rattle.mls_explain.specs.Unknowns.{unknown_integrity, unknown_named, unknowns};

use crate::unknown::Unknown;
use mls_labels::{IntLabel, SecLabel};
use mls_requests::{Action, Request};
use mls_state::State;
use mls_tables::{ObjectId, SubjectId};
use std::alloc::{AllocError, Allocator};

/// Adds a subject that isn't known.
fn push_subject<B: Allocator, A: Allocator>(
    found: &mut Vec<Unknown, B>,
    state: &State<A>,
    s: SubjectId,
) -> Result<(), AllocError>
    ensures { OnOk result (found.new.items ≡ found.old.items ++ unknown_subject state.now s) }
{
    if !state.is_subject(s) {
        found.push(Unknown::Subject(s))?;
    }
    Ok(())
}

/// Adds a subject that isn't the caller and isn't known.
fn push_other<B: Allocator, A: Allocator>(
    found: &mut Vec<Unknown, B>,
    state: &State<A>,
    s: SubjectId,
    t: SubjectId,
) -> Result<(), AllocError>
    ensures { OnOk result (found.new.items ≡ found.old.items ++ unknown_other state.now s t) }
{
    if t == s {
        return Ok(());
    }
    push_subject(found, state, t)
}

/// Adds an object that isn't active.
fn push_object<B: Allocator, A: Allocator>(
    found: &mut Vec<Unknown, B>,
    state: &State<A>,
    o: ObjectId,
) -> Result<(), AllocError>
    ensures { OnOk result (found.new.items ≡ found.old.items ++ unknown_object state.now o) }
{
    if !state.is_active(o) {
        found.push(Unknown::Object(o))?;
    }
    Ok(())
}

/// Adds a security label that isn't within the bounds.
fn push_security<B: Allocator, A: Allocator>(
    found: &mut Vec<Unknown, B>,
    state: &State<A>,
    l: SecLabel,
) -> Result<(), AllocError>
    ensures { OnOk result (found.new.items ≡ found.old.items ++ unknown_security state.now l) }
{
    if !state.security().has(l.label()) {
        found.push(Unknown::Security(l))?;
    }
    Ok(())
}

/// Adds an integrity label that isn't within the bounds.
fn push_integrity<B: Allocator, A: Allocator>(
    found: &mut Vec<Unknown, B>,
    state: &State<A>,
    i: IntLabel,
) -> Result<(), AllocError>
    ensures { OnOk result (found.new.items ≡ found.old.items ++ unknown_integrity state.now i) }
{
    if !state.integrity().has(i.label()) {
        found.push(Unknown::Integrity(i))?;
    }
    Ok(())
}

/// Adds what an action names and isn't there.
fn push_named<B: Allocator, A: Allocator>(
    found: &mut Vec<Unknown, B>,
    state: &State<A>,
    s: SubjectId,
    action: Action,
) -> Result<(), AllocError>
    ensures { OnOk result (found.new.items ≡ found.old.items ++ unknown_named state.now s action) }
{
    match action {
        Action::Get(_, o) | Action::Release(_, o) | Action::Delete(o) => {
            push_object(found, state, o)
        }
        Action::Give(_, t, o) | Action::Rescind(_, t, o) => {
            push_other(found, state, s, t)?;
            push_object(found, state, o)
        }
        Action::Create(p, l, i) => {
            push_object(found, state, p)?;
            push_security(found, state, l)?;
            push_integrity(found, state, i)
        }
        Action::SubjectLevel(l) => push_security(found, state, l),
        Action::ObjectLevel(o, l) => {
            push_object(found, state, o)?;
            push_security(found, state, l)
        }
    }
}

/// What a request names and isn't there, each once, in the order of the request. There is nothing exactly where the
/// request is in the domain.
///
/// # Errors
/// `AllocError` where an allocation failed.
pub fn unknowns<B: Allocator, A: Allocator>(
    alloc: B,
    state: &State<A>,
    request: &Request,
) -> Result<Vec<Unknown, B>, AllocError>
    ensures list { IfOk result (λ found. found.items ≡ unknowns state.now request.now) }
    ensures none { IfOk result (λ found. (found.items ≡ []) ↔ IsTrue (is_defined state.now request.now)) }
{
    let mut found = Vec::new(alloc);
    push_subject(&mut found, state, request.subject)?;
    push_named(&mut found, state, request.subject, request.action)?;
    Ok(found)
}
