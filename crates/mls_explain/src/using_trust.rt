//! Whether a request is granted by trust alone.
ghost use Rattle.std.specs.Prelude.{◌≡◌, IsTrue};
ghost use Rattle.mls_state.specs.State.{is_subject, is_active};
ghost use Rattle.mls_rules.specs.Rules.{is_defined, reply, verdict};
ghost use Rattle.mls_explain.specs.Trusting.{grants, untrusted, uses_trust};

use crate::controls::fits;
use crate::get::{discretionary, integrity, simple};
use crate::plain::{plain_control, plain_holders, plain_holdings, plain_relabels, plain_star};
use crate::rule::{ceiling, observers};
use mls_labels::SecLabel;
use mls_requests::{Action, Reply, Request};
use mls_rules::decide;
use mls_state::State;
use mls_tables::{Mode, ObjectId, SubjectId};
use std::alloc::Allocator;

/// Whether a reply grants.
fn grants(reply: Reply) -> bool
    ensures { result ≡ grants reply }
{
    match reply {
        Reply::Yes | Reply::Created(_) => true,
        Reply::No(_) | Reply::Undefined => false,
    }
}

/// Whether a get would be granted without trust.
fn plain_get<A: Allocator>(state: &State<A>, s: SubjectId, o: ObjectId, x: Mode) -> bool
    requires subject { IsTrue (is_subject state.now s) }
    requires object { IsTrue (is_active state.now o) }
    ensures { result ≡ grants (verdict (untrusted state.now s) s (Action.Get x o)) }
{
    discretionary(state, s, o, x).holds
        && (simple(state, s, o, x).holds
            && (plain_star(state, s, o, x).holds && integrity(state, s, o, x).holds))
}

/// Whether a level would be granted without trust.
fn plain_level<A: Allocator>(state: &State<A>, s: SubjectId, l: SecLabel) -> bool
    requires { IsTrue (is_subject state.now s) }
    ensures { result ≡ grants (verdict (untrusted state.now s) s (Action.SubjectLevel l)) }
{
    ceiling(state, s, l).holds && plain_holdings(state, s, l).holds
}

/// Whether a relabelling would be granted without trust.
fn plain_relabel<A: Allocator>(state: &State<A>, s: SubjectId, o: ObjectId, l: SecLabel) -> bool
    requires subject { IsTrue (is_subject state.now s) }
    requires object { IsTrue (is_active state.now o) }
    ensures { result ≡ grants (verdict (untrusted state.now s) s (Action.ObjectLevel o l)) }
{
    plain_relabels(state, s, o, l).holds
        && (fits(state, o, l).holds
            && (observers(state, o, l).holds && plain_holders(state, s, o, l).holds))
}

/// Whether a request in the domain would be granted without trust in the subject that asks.
fn plain_grant<A: Allocator>(state: &State<A>, request: &Request) -> bool
    requires { IsTrue (is_defined state.now request.now) }
    ensures { result ≡ grants (reply (untrusted state.now request.now.subject) request.now) }
{
    let s = request.subject;
    match request.action {
        Action::Get(x, o) => plain_get(state, s, o, x),
        Action::Give(_, _, o) | Action::Rescind(_, _, o) => plain_control(state, s, o).holds,
        Action::SubjectLevel(l) => plain_level(state, s, l),
        Action::ObjectLevel(o, l) => plain_relabel(state, s, o, l),
        Action::Release(_, _) | Action::Create(_, _, _) | Action::Delete(_) => {
            grants(decide(state, request))
        }
    }
}

/// Whether a request is granted, and would not be if the subject that asks were not trusted. It doesn't allocate.
pub fn uses_trust<A: Allocator>(state: &State<A>, request: &Request) -> bool
    ensures { result ≡ uses_trust state.now request.now }
{
    match decide(state, request) {
        Reply::Yes | Reply::Created(_) => !plain_grant(state, request),
        Reply::No(_) | Reply::Undefined => false,
    }
}
