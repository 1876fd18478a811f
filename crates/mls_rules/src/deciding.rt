//! The reply to a request.
ghost use Rattle.std.specs.Prelude.{◌≡◌, IsTrue, if◌then◌else◌};
ghost use Rattle.mls_requests.specs.declared.reply.Reply.TheVariants.{Yes, No};
ghost use Rattle.mls_requests.specs.declared.reason.Reason.TheVariants.{Authority};
ghost use Rattle.mls_state.specs.State.{is_subject, is_active};
ghost use Rattle.mls_rules.specs.Rules.{is_defined, verdict, reply, controls};

use crate::authority::{controls, writes_parent};
use crate::levels::{decide_object_level, decide_subject_level};
use mls_labels::{IntLabel, SecLabel};
use mls_requests::{Action, Reason, Reply, Request};
use mls_state::{State, discretionary_holds, integrity_holds, simple_holds, star_holds};
use mls_tables::{MAX_OBJECTS, Mode, ObjectId, SubjectId};
use std::alloc::Allocator;

/// Whether the caller is known and all that the action names is there.
fn is_defined<A: Allocator>(state: &State<A>, request: &Request) -> bool
    ensures { result ≡ is_defined state.now request.now }
{
    state.is_subject(request.subject)
        && match &request.action {
            Action::Get(_, o) | Action::Release(_, o) => state.is_active(*o),
            Action::Give(_, t, o) | Action::Rescind(_, t, o) => {
                state.is_subject(*t) && state.is_active(*o)
            }
            Action::Create(p, l, i) => {
                state.is_active(*p)
                    && state.security().has(l.label())
                    && state.integrity().has(i.label())
            }
            Action::Delete(o) => state.is_active(*o),
            Action::SubjectLevel(l) => state.security().has(l.label()),
            Action::ObjectLevel(o, l) => state.is_active(*o) && state.security().has(l.label()),
        }
}

/// The reply to a get in the domain.
fn decide_get<A: Allocator>(state: &State<A>, s: SubjectId, o: ObjectId, x: Mode) -> Reply
    requires subject { IsTrue (is_subject state.now s) }
    requires object { IsTrue (is_active state.now o) }
    ensures { result ≡ verdict state.now s (Action.Get x o) }
{
    if !discretionary_holds(state, s, o, x) {
        return Reply::No(Reason::Discretionary);
    }
    if !simple_holds(state, s, o, x) {
        return Reply::No(Reason::Simple);
    }
    if !star_holds(state, s, o, x) {
        return Reply::No(Reason::Star);
    }
    if !integrity_holds(state, s, o, x) {
        return Reply::No(Reason::Integrity);
    }
    Reply::Yes
}

/// The reply to an action in the domain that takes control of the object.
fn decide_control<A: Allocator>(state: &State<A>, s: SubjectId, o: ObjectId) -> Reply
    requires subject { IsTrue (is_subject state.now s) }
    requires object { IsTrue (is_active state.now o) }
    ensures { result ≡ if controls state.now s o then Yes else No Authority }
{
    if controls(state, s, o) {
        Reply::Yes
    } else {
        Reply::No(Reason::Authority)
    }
}

/// The reply to a create in the domain.
fn decide_create<A: Allocator>(
    state: &State<A>,
    s: SubjectId,
    p: ObjectId,
    l: &SecLabel,
    i: &IntLabel,
) -> Reply
    requires subject { IsTrue (is_subject state.now s) }
    requires object { IsTrue (is_active state.now p) }
    ensures { result ≡ verdict state.now s (Action.Create p l.now i.now) }
{
    let held = state.accesses(s, p);
    if !held.has(Mode::Append) && !held.has(Mode::Write) {
        return Reply::No(Reason::Authority);
    }
    let parent = state.labels(p);
    if !l.dominates(&parent.security) {
        return Reply::No(Reason::Compatibility);
    }
    if !parent.integrity.dominates(i) {
        return Reply::No(Reason::Integrity);
    }
    let next = state.next();
    if next >= MAX_OBJECTS {
        return Reply::No(Reason::Full);
    }
    Reply::Created(ObjectId::new(next))
}

/// The reply to a delete in the domain.
fn decide_delete<A: Allocator>(state: &State<A>, s: SubjectId, o: ObjectId) -> Reply
    requires subject { IsTrue (is_subject state.now s) }
    requires object { IsTrue (is_active state.now o) }
    ensures { result ≡ verdict state.now s (Action.Delete o) }
{
    if o.number() == 0 {
        return Reply::No(Reason::Root);
    }
    if !writes_parent(state, s, o) {
        return Reply::No(Reason::Authority);
    }
    Reply::Yes
}

/// The reply to a request: `Undefined` outside the domain, else `No` with the first condition of its rule that fails,
/// else the grant. It changes nothing and doesn't allocate.
pub fn decide<A: Allocator>(state: &State<A>, request: &Request) -> Reply
    ensures reply { result ≡ reply state.now request.now }
{
    if !is_defined(state, request) {
        return Reply::Undefined;
    }
    match &request.action {
        Action::Get(x, o) => decide_get(state, request.subject, *o, *x),
        Action::Release(_, _) => Reply::Yes,
        Action::Give(_, _, o) | Action::Rescind(_, _, o) => {
            decide_control(state, request.subject, *o)
        }
        Action::Create(p, l, i) => decide_create(state, request.subject, *p, l, i),
        Action::Delete(o) => decide_delete(state, request.subject, *o),
        Action::SubjectLevel(l) => decide_subject_level(state, request.subject, l),
        Action::ObjectLevel(o, l) => decide_object_level(state, request.subject, *o, l),
    }
}
