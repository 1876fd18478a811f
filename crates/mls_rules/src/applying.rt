//! The change that a request makes.
ghost use Rattle.std.specs.Prelude.{◌≡◌, IsTrue, IfOk, IsOk, OnOk, OnErr};
ghost use Rattle.mls_state.specs.State.{is_subject};
ghost use Rattle.mls_state.specs.Properties.{IsSecure};
ghost use Rattle.mls_rules.specs.Rules.{names_known, conditions, AllHold, reply, after, change, takes_no_room};
ghost use Rattle.mls_rules.specs.Rules.{needs_no_room};

use crate::deciding::decide;
use mls_requests::{Action, Reply, Request};
use mls_state::State;
use mls_tables::SubjectId;
use std::alloc::{AllocError, Allocator};

/// Makes the change of a granted action that makes nothing new.
fn change_in_place<A: Allocator>(state: &mut State<A>, s: SubjectId, action: &Action)
    requires subject { IsTrue (is_subject state.old s) }
    requires names { IsTrue (names_known state.old action.now) }
    requires memory { IsTrue (takes_no_room action.now) }
    ensures { state.new ≡ change state.old s action.now }
{
    match action {
        Action::Release(x, o) => {
            state.remove_access(s, *o, *x);
        }
        Action::Give(x, t, o) => state.give(*t, *o, *x),
        Action::Rescind(x, t, o) => state.rescind(*t, *o, *x),
        Action::SubjectLevel(l) => state.set_current(s, *l),
        Action::ObjectLevel(o, l) => state.set_object_label(*o, *l),
        Action::Get(_, _) | Action::Create(_, _, _) | Action::Delete(_) => {}
    }
}

/// Makes the change of a granted action.
fn make_change<A: Allocator>(
    state: &mut State<A>,
    s: SubjectId,
    action: &Action,
) -> Result<(), AllocError>
    requires subject { IsTrue (is_subject state.old s) }
    requires names { IsTrue (names_known state.old action.now) }
    requires granted { AllHold (conditions state.old s action.now) }
    ensures memory { IsTrue (takes_no_room action.now) → IsOk result }
    ensures ok { OnOk result (state.new ≡ change state.old s action.now) }
    ensures err { OnErr result (state.new ≡ state.old) }
{
    match action {
        Action::Get(x, o) => {
            state.put_access(s, *o, *x)?;
        }
        Action::Create(p, security, integrity) => {
            state.add_object(*p, security, integrity)?;
        }
        Action::Delete(o) => state.remove_object(*o)?,
        _ => change_in_place(state, s, action),
    }
    Ok(())
}

/// Changes the state by a request whose reply is known, where that is a grant.
#[tactic(auto, using(crate::proofs::AfterKeeps::grant_holds))]
fn change_where_granted<A: Allocator>(
    state: &mut State<A>,
    request: &Request,
    decided: Reply,
) -> Result<(), AllocError>
    requires { decided ≡ reply state.old request.now }
    ensures ok { OnOk result (state.new ≡ after state.old request.now) }
    ensures err { OnErr result (state.new ≡ state.old) }
    ensures memory { IsTrue (needs_no_room decided request.now.action) → IsOk result }
{
    match decided {
        Reply::Yes | Reply::Created(_) => make_change(state, request.subject, &request.action)?,
        Reply::No(_) | Reply::Undefined => {}
    }
    Ok(())
}

/// Changes the state by a request to which `decide` has replied so, in this state. From a secure state it leaves a
/// secure state. It decides nothing anew: who compares the reply with another one first makes no change where they
/// differ.
///
/// # Errors
/// `AllocError` where an allocation failed; the state is then as before. Where nothing is granted it doesn't allocate,
/// nor for a release, a give, a rescind or a change of a subject's or an object's level.
pub fn carry_out<A: Allocator>(
    state: &mut State<A>,
    request: &Request,
    decided: Reply,
) -> Result<(), AllocError>
    requires { decided ≡ reply state.old request.now }
    ensures ok { OnOk result (state.new ≡ after state.old request.now) }
    ensures err { OnErr result (state.new ≡ state.old) }
    ensures memory { IsTrue (needs_no_room decided request.now.action) → IsOk result }
    ensures secure { IsSecure state.old → IsSecure state.new }
{
    change_where_granted(state, request, decided)?;
    Ok(())
}

/// Replies to a request, and changes the state where it is granted. From a secure state it leaves a secure state.
///
/// # Errors
/// `AllocError` where an allocation failed; the state is then as before. Where nothing is granted it doesn't allocate,
/// nor for a release, a give, a rescind or a change of a subject's or an object's level.
pub fn apply<A: Allocator>(state: &mut State<A>, request: &Request) -> Result<Reply, AllocError>
    ensures reply { IfOk result (λ r. r ≡ reply state.old request.now) }
    ensures ok { OnOk result (state.new ≡ after state.old request.now) }
    ensures err { OnErr result (state.new ≡ state.old) }
    ensures memory { IsTrue (needs_no_room (reply state.old request.now) request.now.action) → IsOk result }
    ensures secure { IsSecure state.old → IsSecure state.new }
{
    let reply = decide(state, request);
    let decided = reply;
    carry_out(state, request, decided)?;
    Ok(reply)
}
