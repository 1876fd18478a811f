//! The conditions of a change of levels, each with the same without trust.
ghost use Rattle.std.specs.Prelude.{◌≡◌, IsTrue, IfOk};
ghost use Rattle.mls_state.specs.State.{is_subject, is_active};
ghost use Rattle.mls_rules.specs.Rules.{conditions};
ghost use Rattle.mls_explain.specs.Grounds.{grounds, tests_of, grounds_of};
ghost use Rattle.mls_explain.specs.Trusting.{conditions_of, plain_of, untrusted};

use crate::controls::{fits, relabels};
use crate::judgement::Judgement;
use crate::plain::{plain_holders, plain_holdings, plain_relabels};
use crate::rule::{ceiling, holders, holdings, observers};
use mls_labels::SecLabel;
use mls_requests::Action;
use mls_state::State;
use mls_tables::{ObjectId, SubjectId};
use std::alloc::{AllocError, Allocator};

/// The conditions of a level.
pub(crate) fn of_level<B: Allocator, A: Allocator>(
    alloc: B,
    state: &State<A>,
    s: SubjectId,
    l: SecLabel,
) -> Result<Vec<Judgement, B>, AllocError>
    requires { IsTrue (is_subject state.now s) }
    ensures tests { IfOk result
        (λ js. tests_of (conditions_of js.items) ≡ conditions state.now s (Action.SubjectLevel l)) }
    ensures grounds { IfOk result
        (λ js. grounds_of (conditions_of js.items) ≡ grounds state.now s (Action.SubjectLevel l)) }
    ensures plain_tests { IfOk result
        (λ js. tests_of (plain_of js.items) ≡ conditions (untrusted state.now s) s (Action.SubjectLevel l)) }
    ensures plain_grounds { IfOk result
        (λ js. grounds_of (plain_of js.items) ≡ grounds (untrusted state.now s) s (Action.SubjectLevel l)) }
{
    let star = Judgement {
        condition: holdings(state, s, l),
        plain: plain_holdings(state, s, l),
    };
    Ok(Vec::from_array(alloc, [Judgement::of(ceiling(state, s, l)), star])?)
}

/// The conditions of a relabelling.
pub(crate) fn of_relabel<B: Allocator, A: Allocator>(
    alloc: B,
    state: &State<A>,
    s: SubjectId,
    o: ObjectId,
    l: SecLabel,
) -> Result<Vec<Judgement, B>, AllocError>
    requires subject { IsTrue (is_subject state.now s) }
    requires object { IsTrue (is_active state.now o) }
    ensures tests { IfOk result
        (λ js. tests_of (conditions_of js.items) ≡ conditions state.now s (Action.ObjectLevel o l)) }
    ensures grounds { IfOk result
        (λ js. grounds_of (conditions_of js.items) ≡ grounds state.now s (Action.ObjectLevel o l)) }
    ensures plain_tests { IfOk result
        (λ js. tests_of (plain_of js.items) ≡ conditions (untrusted state.now s) s (Action.ObjectLevel o l)) }
    ensures plain_grounds { IfOk result
        (λ js. grounds_of (plain_of js.items) ≡ grounds (untrusted state.now s) s (Action.ObjectLevel o l)) }
{
    let authority = Judgement {
        condition: relabels(state, s, o, l),
        plain: plain_relabels(state, s, o, l),
    };
    let star = Judgement {
        condition: holders(state, o, l),
        plain: plain_holders(state, s, o, l),
    };
    let all = [
        authority,
        Judgement::of(fits(state, o, l)),
        Judgement::of(observers(state, o, l)),
        star,
    ];
    Ok(Vec::from_array(alloc, all)?)
}
