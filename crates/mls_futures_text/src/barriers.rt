//! Why an access never comes about: all reasons.
ghost use Rattle.std.specs.Prelude.{◌≡◌, ◌++◌, IsTrue, IfOk, OnOk, option_to_list};
ghost use Rattle.std.specs.FinMap as map;
ghost use Rattle.mls_state.specs.State.{is_subject, is_active};
ghost use Rattle.mls_futures.specs.Closure.{acts_in};
ghost use Rattle.mls_futures_text.specs.Reasons.{unless, actor_reason, permission_reason, simple_reason, using_reason};
ghost use Rattle.mls_futures_text.specs.Reasons.{altering_reason, unpermitted, reasons_missing};
ghost use Rattle.mls_futures_text.specs.Reasons.{AreReasonsThere, AreReasons};
ghost use Rattle.mls_futures_text.specs.declared.barrier.Why.TheVariants.{Unknown, Inactive};

use crate::barrier::Why;
use mls_futures::{could_give, has_trusted};
use mls_rules::State;
use mls_state::{discretionary_holds, simple_holds};
use mls_tables::{Mode, ObjectId, SubjectId};
use std::alloc::{AllocError, Global};

/// That the subject doesn't act.
fn actor_barrier(actors: &[bool], s: SubjectId) -> Option<Why>
    ensures { result ≡ actor_reason (acts_in actors.now) s }
{
    match actors.get(s.number() as usize) {
        Some(acts) if *acts => None,
        _ => Some(Why::Actor(s)),
    }
}

/// That the access isn't permitted, with the parent of the object.
fn unpermitted(state: &State, access: &(SubjectId, ObjectId, Mode)) -> Why
    requires { IsTrue (is_active state.now access.now.1) }
    ensures { result ≡ unpermitted access.now.0 access.now.1 access.now.2 (map.get state.now.parent access.now.1) }
{
    let (s, o, x) = *access;
    match state.parent(o) {
        Some(p) => Why::Permission(s, x, o, p),
        None => Why::Root(s, x, o),
    }
}

/// That a permission is missing, where nobody could give it.
fn permission_barrier(
    state: &State,
    gives: bool,
    access: &(SubjectId, ObjectId, Mode),
) -> Option<Why>
    requires subject { IsTrue (is_subject state.now access.now.0) }
    requires object { IsTrue (is_active state.now access.now.1) }
    ensures { result ≡ permission_reason state.now gives access.now }
{
    let (s, o, x) = *access;
    if discretionary_holds(state, s, o, x) || gives {
        return None;
    }
    Some(unpermitted(state, access))
}

/// That the subject's maximum doesn't dominate the object's label, where nobody could lower it.
fn simple_barrier(state: &State, trusted: bool, access: &(SubjectId, ObjectId, Mode)) -> Option<Why>
    requires subject { IsTrue (is_subject state.now access.now.0) }
    requires object { IsTrue (is_active state.now access.now.1) }
    ensures { result ≡ simple_reason state.now trusted access.now }
{
    let (s, o, x) = *access;
    if trusted || simple_holds(state, s, o, x) {
        return None;
    }
    Some(Why::Simple(state.maximum(s), s, state.object_label(o), o))
}

/// That the object's integrity doesn't dominate the subject's, which uses it.
fn using_barrier(state: &State, access: &(SubjectId, ObjectId, Mode)) -> Option<Why>
    requires subject { IsTrue (is_subject state.now access.now.0) }
    requires object { IsTrue (is_active state.now access.now.1) }
    ensures { result ≡ using_reason state.now access.now }
{
    let (s, o, x) = *access;
    let (own, label) = (state.subject_integrity(s), state.object_integrity(o));
    if !x.uses() || label.dominates(&own) {
        return None;
    }
    Some(Why::Using(label, o, own, s))
}

/// That the subject's integrity doesn't dominate the object's, which it alters.
fn altering_barrier(state: &State, access: &(SubjectId, ObjectId, Mode)) -> Option<Why>
    requires subject { IsTrue (is_subject state.now access.now.0) }
    requires object { IsTrue (is_active state.now access.now.1) }
    ensures { result ≡ altering_reason state.now access.now }
{
    let (s, o, x) = *access;
    let (own, label) = (state.subject_integrity(s), state.object_integrity(o));
    if !x.alters() || own.dominates(&label) {
        return None;
    }
    Some(Why::Altering(own, s, label, o))
}

/// Adds a reason, where there is one.
fn push(found: &mut Vec<Why>, why: Option<Why>) -> Result<(), AllocError>
    ensures { OnOk result (found.new.items ≡ found.old.items ++ option_to_list why) }
{
    if let Some(why) = why {
        found.push(why)?;
    }
    Ok(())
}

/// That there is no such subject.
fn unknown_barrier(state: &State, s: SubjectId) -> Option<Why>
    ensures { result ≡ unless (is_subject state.now s) (Unknown s) }
{
    if state.is_subject(s) {
        return None;
    }
    Some(Why::Unknown(s))
}

/// That there is no such object.
fn inactive_barrier(state: &State, o: ObjectId) -> Option<Why>
    ensures { result ≡ unless (is_active state.now o) (Inactive o) }
{
    if state.is_active(o) {
        return None;
    }
    Some(Why::Inactive(o))
}

/// Why an access to what is there never comes about.
fn barriers_there(
    alloc: Global,
    state: &State,
    actors: &[bool],
    access: &(SubjectId, ObjectId, Mode),
) -> Result<Vec<Why>, AllocError>
    requires subject { IsTrue (is_subject state.now access.now.0) }
    requires object { IsTrue (is_active state.now access.now.1) }
    ensures { IfOk result (λ found. AreReasonsThere state.now (acts_in actors.now) access.now found.items) }
{
    let trusted = has_trusted(state, actors);
    let gives = could_give(state, actors, trusted, access.1);
    let mut found = Vec::new(alloc);
    push(&mut found, actor_barrier(actors, access.0))?;
    push(&mut found, permission_barrier(state, gives, access))?;
    push(&mut found, simple_barrier(state, trusted, access))?;
    push(&mut found, using_barrier(state, access))?;
    push(&mut found, altering_barrier(state, access))?;
    Ok(found)
}

/// Why an access to what isn't there never comes about.
fn barriers_missing(
    alloc: Global,
    state: &State,
    s: SubjectId,
    o: ObjectId,
) -> Result<Vec<Why>, AllocError>
    ensures { IfOk result (λ found. found.items ≡ reasons_missing state.now s o) }
{
    let mut found = Vec::new(alloc);
    push(&mut found, unknown_barrier(state, s))?;
    push(&mut found, inactive_barrier(state, o))?;
    Ok(found)
}

/// Why an access never comes about, whatever the actors do: all reasons, none where it could.
pub(crate) fn barriers(
    alloc: Global,
    state: &State,
    actors: &[bool],
    access: &(SubjectId, ObjectId, Mode),
) -> Result<Vec<Why>, AllocError>
    ensures { IfOk result (λ found. AreReasons state.now (acts_in actors.now) access.now found.items) }
{
    let (s, o, _) = *access;
    if state.is_subject(s) && state.is_active(o) {
        return barriers_there(alloc, state, actors, access);
    }
    barriers_missing(alloc, state, s, o)
}
