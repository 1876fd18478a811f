//! The conditions that look at trust, as they would be if the subject that asks were not trusted.
ghost use Rattle.std.specs.Prelude.{◌≡◌, IsTrue};
ghost use Rattle.std.specs.FinMap as map;
ghost use Rattle.mls_state.specs.State.{is_subject, is_active};
ghost use Rattle.mls_state.specs.Properties.{star_holds};
ghost use Rattle.mls_rules.specs.Levels.{each_of_subject, each_of_object};
ghost use Rattle.mls_rules.specs.Rules.{controls, may_relabel};
ghost use Rattle.mls_explain.specs.Demands.{meets};
ghost use Rattle.mls_explain.specs.Grounds.{control_ground, holdings_ground, relabel_ground, star_ground};
ghost use Rattle.mls_explain.specs.Trusting.{untrusted};

use crate::condition::Condition;
use crate::controls::{parent_of, relabels_alone, writes_parent};
use crate::demand::Demand;
use crate::get::{current_of, security_of, star_between_ground};
use crate::ground::Ground;
use crate::plain_demand::{PlainStarAtLabel, PlainStarAtLevel};
use mls_labels::SecLabel;
use mls_requests::Reason;
use mls_rules::{object_meets, subject_meets};
use mls_state::{State, star_between};
use mls_tables::{Mode, ObjectId, SubjectId};
use std::alloc::Allocator;

/// That star holds of the access, without trust.
pub(crate) fn plain_star<A: Allocator>(
    state: &State<A>,
    s: SubjectId,
    o: ObjectId,
    x: Mode,
) -> Condition
    requires subject { IsTrue (is_subject state.now s) }
    requires object { IsTrue (is_active state.now o) }
    ensures { result ≡ record {
      reason = Reason.Star;
      holds = star_holds (untrusted state.now s) (s, o, x);
      basis = star_ground (untrusted state.now s) s o x;
    } }
{
    let holds = star_between(&state.current(s), &state.object_label(o), x);
    let basis = star_between_ground(current_of(state, s), security_of(state, o), x);
    Condition::new(Reason::Star, holds, basis)
}

/// That the subject controls who may access the object, without trust.
pub(crate) fn plain_control<A: Allocator>(state: &State<A>, s: SubjectId, o: ObjectId) -> Condition
    requires subject { IsTrue (is_subject state.now s) }
    requires object { IsTrue (is_active state.now o) }
    ensures { result ≡ record {
      reason = Reason.Authority;
      holds = controls (untrusted state.now s) s o;
      basis = control_ground (untrusted state.now s) s o;
    } }
{
    if o.number() == 0 {
        Condition::new(Reason::Authority, false, Ground::Trust(s))
    } else {
        let basis = Ground::Writing(s, parent_of(state, o));
        Condition::new(Reason::Authority, writes_parent(state, s, o), basis)
    }
}

/// That star holds of all that the subject holds, with another current label, without trust.
pub(crate) fn plain_holdings<A: Allocator>(state: &State<A>, s: SubjectId, l: SecLabel) -> Condition
    requires { IsTrue (is_subject state.now s) }
    ensures { result ≡ record {
      reason = Reason.Star;
      holds = each_of_subject (untrusted state.now s) s (meets (Demand.StarAtLevel s l) (untrusted state.now s));
      basis = holdings_ground (untrusted state.now s) s l;
    } }
{
    let star = PlainStarAtLevel {
        subject: s,
        level: l,
    };
    let holds = subject_meets(state, s, star);
    Condition::new(Reason::Star, holds, Ground::Holdings(s, l))
}

/// That the subject may give the object this label, without trust.
pub(crate) fn plain_relabels<A: Allocator>(
    state: &State<A>,
    s: SubjectId,
    o: ObjectId,
    l: SecLabel,
) -> Condition
    requires subject { IsTrue (is_subject state.now s) }
    requires object { IsTrue (is_active state.now o) }
    ensures { result ≡ record {
      reason = Reason.Authority;
      holds = may_relabel (untrusted state.now s) s o l;
      basis = relabel_ground (untrusted state.now s) s o l;
    } }
{
    relabels_alone(state, s, o, l)
}

/// That star holds of all that is held of the object, with another label, without trust in a subject.
pub(crate) fn plain_holders<A: Allocator>(
    state: &State<A>,
    s: SubjectId,
    o: ObjectId,
    l: SecLabel,
) -> Condition
    requires { IsTrue (is_active state.now o) }
    ensures { result ≡ record {
      reason = Reason.Star;
      holds = each_of_object (untrusted state.now s) o (meets (Demand.StarAtLabel o l) (untrusted state.now s));
      basis = Ground.Holders o l;
    } }
{
    let star = PlainStarAtLabel {
        subject: s,
        object: o,
        label: l,
    };
    let holds = object_meets(state, o, star);
    Condition::new(Reason::Star, holds, Ground::Holders(o, l))
}
