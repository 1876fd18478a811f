//! The conditions of a request.
ghost use Rattle.std.specs.Prelude.{◌≡◌, IsTrue, IfOk, Some};
ghost use Rattle.std.specs.FinMap as map;
ghost use Rattle.mls_state.specs.State.{is_subject, is_active, is_above};
ghost use Rattle.mls_rules.specs.Levels.{each_of_subject, each_of_object};
ghost use Rattle.mls_rules.specs.Rules.{is_defined, names_known, conditions, first_failing, reply_unless, granted};
ghost use Rattle.mls_rules.specs.Rules.{reply};
ghost use Rattle.mls_explain.specs.Demands.{meets};
ghost use Rattle.mls_explain.specs.Grounds.{maximum_of, holdings_ground, grounds, tests_of, grounds_of};

use crate::condition::Condition;
use crate::controls::{
    alters, compatible, control, deletes, fits, numbered, other, relabels, trustworthy,
};
use crate::demand::Demand;
use crate::get::{discretionary, integrity, maximum_of, simple, star};
use crate::ground::Ground;
use crate::term::Term;
use mls_labels::{IntLabel, SecLabel};
use mls_requests::{Action, Reason, Request};
use mls_rules::{SimpleAtLabel, StarAtLabel, StarAtLevel, object_meets, subject_meets};
use mls_state::State;
use mls_tables::{Mode, ObjectId, SubjectId};
use std::alloc::{AllocError, Allocator};

/// That the subject's maximum label dominates the one that it would go to.
pub(crate) fn ceiling<A: Allocator>(state: &State<A>, s: SubjectId, l: SecLabel) -> Condition
    requires { IsTrue (is_subject state.now s) }
    ensures { result ≡ record {
      reason = Reason.Ceiling;
      holds = is_above (map.get state.now.maximum s) (Some l);
      basis = Ground.Dominance (maximum_of state.now s) (Term.Security l);
    } }
{
    let holds = state.maximum(s).dominates(&l);
    let basis = Ground::Dominance(maximum_of(state, s), Term::Security(l));
    Condition::new(Reason::Ceiling, holds, basis)
}

/// That star holds of all that the subject holds, with another current label.
pub(crate) fn holdings<A: Allocator>(state: &State<A>, s: SubjectId, l: SecLabel) -> Condition
    requires { IsTrue (is_subject state.now s) }
    ensures { result ≡ record {
      reason = Reason.Star;
      holds = each_of_subject state.now s (meets (Demand.StarAtLevel s l) state.now);
      basis = holdings_ground state.now s l;
    } }
{
    let star = StarAtLevel {
        subject: s,
        level: l,
    };
    let holds = subject_meets(state, s, star);
    let basis = if state.is_trusted(s) {
        Ground::Trust(s)
    } else {
        Ground::Holdings(s, l)
    };
    Condition::new(Reason::Star, holds, basis)
}

/// That simple security holds of all that is held of the object, with another label.
pub(crate) fn observers<A: Allocator>(state: &State<A>, o: ObjectId, l: SecLabel) -> Condition
    requires { IsTrue (is_active state.now o) }
    ensures { result ≡ record {
      reason = Reason.Simple;
      holds = each_of_object state.now o (meets (Demand.SimpleAtLabel o l) state.now);
      basis = Ground.Observers o l;
    } }
{
    let simple = SimpleAtLabel {
        object: o,
        label: l,
    };
    let holds = object_meets(state, o, simple);
    Condition::new(Reason::Simple, holds, Ground::Observers(o, l))
}

/// That star holds of all that is held of the object, with another label.
pub(crate) fn holders<A: Allocator>(state: &State<A>, o: ObjectId, l: SecLabel) -> Condition
    requires { IsTrue (is_active state.now o) }
    ensures { result ≡ record {
      reason = Reason.Star;
      holds = each_of_object state.now o (meets (Demand.StarAtLabel o l) state.now);
      basis = Ground.Holders o l;
    } }
{
    let star = StarAtLabel {
        object: o,
        label: l,
    };
    let holds = object_meets(state, o, star);
    Condition::new(Reason::Star, holds, Ground::Holders(o, l))
}

/// The conditions of a get.
fn of_get<B: Allocator, A: Allocator>(
    alloc: B,
    state: &State<A>,
    s: SubjectId,
    o: ObjectId,
    x: Mode,
) -> Result<Vec<Condition, B>, AllocError>
    requires subject { IsTrue (is_subject state.now s) }
    requires object { IsTrue (is_active state.now o) }
    ensures tests { IfOk result (λ cs. tests_of cs.items ≡ conditions state.now s (Action.Get x o)) }
    ensures grounds { IfOk result (λ cs. grounds_of cs.items ≡ grounds state.now s (Action.Get x o)) }
{
    let all = [
        discretionary(state, s, o, x),
        simple(state, s, o, x),
        star(state, s, o, x),
        integrity(state, s, o, x),
    ];
    Ok(Vec::from_array(alloc, all)?)
}

/// The conditions of a create.
fn of_create<B: Allocator, A: Allocator>(
    alloc: B,
    state: &State<A>,
    s: SubjectId,
    p: ObjectId,
    l: SecLabel,
    i: IntLabel,
) -> Result<Vec<Condition, B>, AllocError>
    requires subject { IsTrue (is_subject state.now s) }
    requires object { IsTrue (is_active state.now p) }
    ensures tests { IfOk result (λ cs. tests_of cs.items ≡ conditions state.now s (Action.Create p l i)) }
    ensures grounds { IfOk result (λ cs. grounds_of cs.items ≡ grounds state.now s (Action.Create p l i)) }
{
    let all = [
        alters(state, s, p),
        compatible(state, p, l),
        trustworthy(state, p, i),
        numbered(state),
    ];
    Ok(Vec::from_array(alloc, all)?)
}

/// The conditions of a relabelling.
fn of_relabel<B: Allocator, A: Allocator>(
    alloc: B,
    state: &State<A>,
    s: SubjectId,
    o: ObjectId,
    l: SecLabel,
) -> Result<Vec<Condition, B>, AllocError>
    requires subject { IsTrue (is_subject state.now s) }
    requires object { IsTrue (is_active state.now o) }
    ensures tests { IfOk result (λ cs. tests_of cs.items ≡ conditions state.now s (Action.ObjectLevel o l)) }
    ensures grounds { IfOk result (λ cs. grounds_of cs.items ≡ grounds state.now s (Action.ObjectLevel o l)) }
{
    let all = [
        relabels(state, s, o, l),
        fits(state, o, l),
        observers(state, o, l),
        holders(state, o, l),
    ];
    Ok(Vec::from_array(alloc, all)?)
}

/// The conditions of an action.
fn of_action<B: Allocator, A: Allocator>(
    alloc: B,
    state: &State<A>,
    s: SubjectId,
    action: Action,
) -> Result<Vec<Condition, B>, AllocError>
    requires subject { IsTrue (is_subject state.now s) }
    requires names { IsTrue (names_known state.now action) }
    ensures tests { IfOk result (λ cs. tests_of cs.items ≡ conditions state.now s action) }
    ensures grounds { IfOk result (λ cs. grounds_of cs.items ≡ grounds state.now s action) }
{
    match action {
        Action::Get(x, o) => of_get(alloc, state, s, o, x),
        Action::Release(_, _) => Ok(Vec::new(alloc)),
        Action::Give(_, _, o) | Action::Rescind(_, _, o) => {
            Ok(Vec::from_array(alloc, [control(state, s, o)])?)
        }
        Action::Create(p, l, i) => of_create(alloc, state, s, p, l, i),
        Action::Delete(o) => Ok(Vec::from_array(alloc, [other(o), deletes(state, s, o)])?),
        Action::SubjectLevel(l) => {
            let both = [ceiling(state, s, l), holdings(state, s, l)];
            Ok(Vec::from_array(alloc, both)?)
        }
        Action::ObjectLevel(o, l) => of_relabel(alloc, state, s, o, l),
    }
}

/// The conditions of a request in the domain: just those of its rule, in its order, each with whether it holds by its
/// definition and with the values that it compares. The first that fails is the reason of the reply, and none fails
/// exactly where the request is granted.
///
/// # Errors
/// `AllocError` where an allocation failed.
pub fn conditions<B: Allocator, A: Allocator>(
    alloc: B,
    state: &State<A>,
    request: &Request,
) -> Result<Vec<Condition, B>, AllocError>
    requires { IsTrue (is_defined state.now request.now) }
    ensures tests { IfOk result
        (λ cs. tests_of cs.items ≡ conditions state.now request.now.subject request.now.action) }
    ensures grounds { IfOk result
        (λ cs. grounds_of cs.items ≡ grounds state.now request.now.subject request.now.action) }
    ensures reply { IfOk result
        (λ cs. reply state.now request.now
        ≡ reply_unless (first_failing (tests_of cs.items)) (granted state.now request.now.action)) }
{
    of_action(alloc, state, request.subject, request.action)
}
