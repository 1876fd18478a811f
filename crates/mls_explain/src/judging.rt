//! The conditions of a request, each with the same without trust.
ghost use Rattle.std.specs.Prelude.{◌≡◌, IsTrue, IfOk};
ghost use Rattle.mls_state.specs.State.{is_subject, is_active};
ghost use Rattle.mls_rules.specs.Rules.{is_defined, names_known, conditions};
ghost use Rattle.mls_explain.specs.Grounds.{grounds, tests_of, grounds_of};
ghost use Rattle.mls_explain.specs.Trusting.{conditions_of, plain_of, untrusted};

use crate::controls::{alters, compatible, control, deletes, numbered, other, trustworthy};
use crate::get::{discretionary, integrity, simple, star};
use crate::judgement::Judgement;
use crate::judging_levels::{of_level, of_relabel};
use crate::plain::{plain_control, plain_star};
use mls_labels::{IntLabel, SecLabel};
use mls_requests::{Action, Request};
use mls_state::State;
use mls_tables::{Mode, ObjectId, SubjectId};
use std::alloc::{AllocError, Allocator};

/// The conditions of a get.
fn of_get<B: Allocator, A: Allocator>(
    alloc: B,
    state: &State<A>,
    s: SubjectId,
    o: ObjectId,
    x: Mode,
) -> Result<Vec<Judgement, B>, AllocError>
    requires subject { IsTrue (is_subject state.now s) }
    requires object { IsTrue (is_active state.now o) }
    ensures tests { IfOk result
        (λ js. tests_of (conditions_of js.items) ≡ conditions state.now s (Action.Get x o)) }
    ensures grounds { IfOk result
        (λ js. grounds_of (conditions_of js.items) ≡ grounds state.now s (Action.Get x o)) }
    ensures plain_tests { IfOk result
        (λ js. tests_of (plain_of js.items) ≡ conditions (untrusted state.now s) s (Action.Get x o)) }
    ensures plain_grounds { IfOk result
        (λ js. grounds_of (plain_of js.items) ≡ grounds (untrusted state.now s) s (Action.Get x o)) }
{
    let star = Judgement {
        condition: star(state, s, o, x),
        plain: plain_star(state, s, o, x),
    };
    let all = [
        Judgement::of(discretionary(state, s, o, x)),
        Judgement::of(simple(state, s, o, x)),
        star,
        Judgement::of(integrity(state, s, o, x)),
    ];
    Ok(Vec::from_array(alloc, all)?)
}

/// The conditions of a give or a rescind.
fn of_control<B: Allocator, A: Allocator>(
    alloc: B,
    state: &State<A>,
    s: SubjectId,
    t: SubjectId,
    o: ObjectId,
    x: Mode,
) -> Result<Vec<Judgement, B>, AllocError>
    requires subject { IsTrue (is_subject state.now s) }
    requires object { IsTrue (is_active state.now o) }
    ensures tests { IfOk result
        (λ js. tests_of (conditions_of js.items) ≡ conditions state.now s (Action.Give x t o)) }
    ensures grounds { IfOk result
        (λ js. grounds_of (conditions_of js.items) ≡ grounds state.now s (Action.Give x t o)) }
    ensures plain_tests { IfOk result
        (λ js. tests_of (plain_of js.items) ≡ conditions (untrusted state.now s) s (Action.Give x t o)) }
    ensures plain_grounds { IfOk result
        (λ js. grounds_of (plain_of js.items) ≡ grounds (untrusted state.now s) s (Action.Give x t o)) }
{
    let authority = Judgement {
        condition: control(state, s, o),
        plain: plain_control(state, s, o),
    };
    Ok(Vec::from_array(alloc, [authority])?)
}

/// The conditions of a create.
fn of_create<B: Allocator, A: Allocator>(
    alloc: B,
    state: &State<A>,
    s: SubjectId,
    p: ObjectId,
    l: SecLabel,
    i: IntLabel,
) -> Result<Vec<Judgement, B>, AllocError>
    requires subject { IsTrue (is_subject state.now s) }
    requires object { IsTrue (is_active state.now p) }
    ensures tests { IfOk result
        (λ js. tests_of (conditions_of js.items) ≡ conditions state.now s (Action.Create p l i)) }
    ensures grounds { IfOk result
        (λ js. grounds_of (conditions_of js.items) ≡ grounds state.now s (Action.Create p l i)) }
    ensures plain_tests { IfOk result
        (λ js. tests_of (plain_of js.items) ≡ conditions (untrusted state.now s) s (Action.Create p l i)) }
    ensures plain_grounds { IfOk result
        (λ js. grounds_of (plain_of js.items) ≡ grounds (untrusted state.now s) s (Action.Create p l i)) }
{
    let all = [
        Judgement::of(alters(state, s, p)),
        Judgement::of(compatible(state, p, l)),
        Judgement::of(trustworthy(state, p, i)),
        Judgement::of(numbered(state)),
    ];
    Ok(Vec::from_array(alloc, all)?)
}

/// The conditions of a delete.
fn of_delete<B: Allocator, A: Allocator>(
    alloc: B,
    state: &State<A>,
    s: SubjectId,
    o: ObjectId,
) -> Result<Vec<Judgement, B>, AllocError>
    requires subject { IsTrue (is_subject state.now s) }
    requires object { IsTrue (is_active state.now o) }
    ensures tests { IfOk result
        (λ js. tests_of (conditions_of js.items) ≡ conditions state.now s (Action.Delete o)) }
    ensures grounds { IfOk result
        (λ js. grounds_of (conditions_of js.items) ≡ grounds state.now s (Action.Delete o)) }
    ensures plain_tests { IfOk result
        (λ js. tests_of (plain_of js.items) ≡ conditions (untrusted state.now s) s (Action.Delete o)) }
    ensures plain_grounds { IfOk result
        (λ js. grounds_of (plain_of js.items) ≡ grounds (untrusted state.now s) s (Action.Delete o)) }
{
    let both = [Judgement::of(other(o)), Judgement::of(deletes(state, s, o))];
    Ok(Vec::from_array(alloc, both)?)
}

/// The conditions of an action.
fn of_action<B: Allocator, A: Allocator>(
    alloc: B,
    state: &State<A>,
    s: SubjectId,
    action: Action,
) -> Result<Vec<Judgement, B>, AllocError>
    requires subject { IsTrue (is_subject state.now s) }
    requires names { IsTrue (names_known state.now action) }
    ensures tests { IfOk result
        (λ js. tests_of (conditions_of js.items) ≡ conditions state.now s action) }
    ensures grounds { IfOk result
        (λ js. grounds_of (conditions_of js.items) ≡ grounds state.now s action) }
    ensures plain_tests { IfOk result
        (λ js. tests_of (plain_of js.items) ≡ conditions (untrusted state.now s) s action) }
    ensures plain_grounds { IfOk result
        (λ js. grounds_of (plain_of js.items) ≡ grounds (untrusted state.now s) s action) }
{
    match action {
        Action::Get(x, o) => of_get(alloc, state, s, o, x),
        Action::Release(_, _) => Ok(Vec::new(alloc)),
        Action::Give(x, t, o) | Action::Rescind(x, t, o) => of_control(alloc, state, s, t, o, x),
        Action::Create(p, l, i) => of_create(alloc, state, s, p, l, i),
        Action::Delete(o) => of_delete(alloc, state, s, o),
        Action::SubjectLevel(l) => of_level(alloc, state, s, l),
        Action::ObjectLevel(o, l) => of_relabel(alloc, state, s, o, l),
    }
}

/// The conditions of a request in the domain, as [`conditions`](crate::conditions) has them, each with the same
/// condition as it would be if the subject that asks were not trusted.
///
/// # Errors
/// `AllocError` where an allocation failed.
pub fn judgements<B: Allocator, A: Allocator>(
    alloc: B,
    state: &State<A>,
    request: &Request,
) -> Result<Vec<Judgement, B>, AllocError>
    requires { IsTrue (is_defined state.now request.now) }
    ensures tests { IfOk result
        (λ js. tests_of (conditions_of js.items) ≡ conditions state.now request.now.subject request.now.action) }
    ensures grounds { IfOk result
        (λ js. grounds_of (conditions_of js.items) ≡ grounds state.now request.now.subject request.now.action) }
    ensures plain_tests { IfOk result
        (λ js. tests_of (plain_of js.items)
        ≡ conditions (untrusted state.now request.now.subject) request.now.subject request.now.action) }
    ensures plain_grounds { IfOk result
        (λ js. grounds_of (plain_of js.items)
        ≡ grounds (untrusted state.now request.now.subject) request.now.subject request.now.action) }
{
    of_action(alloc, state, request.subject, request.action)
}
