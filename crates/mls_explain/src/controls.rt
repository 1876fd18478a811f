//! The conditions of the actions that need authority over an object.
ghost use Rattle.std.specs.Prelude.{◌≡◌, ◌||◌, ◌==◌, not, IsTrue, Some, nat_lt};
ghost use Rattle.std.specs.FinMap as map;
ghost use Rattle.std.specs.FinSet as set;
ghost use Rattle.mls_tables.specs.declared.limits.TheConstants.{MAX_OBJECTS};
ghost use Rattle.mls_tables.specs.declared.mode.Mode.TheVariants.{Append, Write};
ghost use Rattle.mls_state.specs.State.{is_subject, is_active, is_above};
ghost use Rattle.mls_rules.specs.Levels.{label_fits};
ghost use Rattle.mls_rules.specs.Rules.{writes_parent, controls, may_relabel};
ghost use Rattle.mls_explain.specs.Grounds.{parent_of, security_of, trust_of_object, control_ground, delete_ground};
ghost use Rattle.mls_explain.specs.Grounds.{plain_relabel_ground, relabel_ground, place_ground};
ghost use Rattle.mls_explain.specs.Trusting.{may_relabel_alone};

use crate::condition::Condition;
use crate::get::{security_of, trust_of_object};
use crate::ground::{Ground, Place, Relabelling};
use crate::term::Term;
use mls_labels::{IntLabel, SecLabel};
use mls_requests::Reason;
use mls_rules::children_dominate;
use mls_state::State;
use mls_tables::{MAX_OBJECTS, Mode, ObjectId, SubjectId};
use std::alloc::Allocator;

/// Whether the subject writes the parent of an object that has one.
pub(crate) fn writes_parent<A: Allocator>(state: &State<A>, s: SubjectId, o: ObjectId) -> bool
    requires subject { IsTrue (is_subject state.now s) }
    requires object { IsTrue (is_active state.now o) }
    ensures { result ≡ writes_parent state.now s (map.get state.now.parent o) }
{
    match state.parent(o) {
        Some(p) => state.has_access(s, p, Mode::Write),
        None => false,
    }
}

/// The parent of an object, the root where it has none.
pub(crate) fn parent_of<A: Allocator>(state: &State<A>, o: ObjectId) -> ObjectId
    requires { IsTrue (is_active state.now o) }
    ensures { result ≡ parent_of state.now o }
{
    match state.parent(o) {
        Some(p) => p,
        None => ObjectId::new(0),
    }
}

/// That the subject controls who may access the object.
pub(crate) fn control<A: Allocator>(state: &State<A>, s: SubjectId, o: ObjectId) -> Condition
    requires subject { IsTrue (is_subject state.now s) }
    requires object { IsTrue (is_active state.now o) }
    ensures { result ≡ record {
      reason = Reason.Authority;
      holds = controls state.now s o;
      basis = control_ground state.now s o;
    } }
{
    if o.number() == 0 {
        Condition::new(Reason::Authority, state.is_trusted(s), Ground::Trust(s))
    } else {
        let basis = Ground::Writing(s, parent_of(state, o));
        Condition::new(Reason::Authority, writes_parent(state, s, o), basis)
    }
}

/// That the subject holds append or write on the parent of an object to come.
pub(crate) fn alters<A: Allocator>(state: &State<A>, s: SubjectId, p: ObjectId) -> Condition
    requires subject { IsTrue (is_subject state.now s) }
    requires object { IsTrue (is_active state.now p) }
    ensures { result ≡ record {
      reason = Reason.Authority;
      holds = set.contains state.now.accesses (s, p, Append) || set.contains state.now.accesses (s, p, Write);
      basis = Ground.Altering s p;
    } }
{
    let held = state.accesses(s, p);
    let holds = held.has(Mode::Append) || held.has(Mode::Write);
    Condition::new(Reason::Authority, holds, Ground::Altering(s, p))
}

/// That the label of an object to come dominates its parent's.
pub(crate) fn compatible<A: Allocator>(state: &State<A>, p: ObjectId, l: SecLabel) -> Condition
    requires { IsTrue (is_active state.now p) }
    ensures { result ≡ record {
      reason = Reason.Compatibility;
      holds = is_above (Some l) (map.get state.now.object_label p);
      basis = Ground.Dominance (Term.Security l) (security_of state.now p);
    } }
{
    let holds = l.dominates(&state.object_label(p));
    let basis = Ground::Dominance(Term::Security(l), security_of(state, p));
    Condition::new(Reason::Compatibility, holds, basis)
}

/// That the parent's integrity label dominates that of an object to come.
pub(crate) fn trustworthy<A: Allocator>(state: &State<A>, p: ObjectId, i: IntLabel) -> Condition
    requires { IsTrue (is_active state.now p) }
    ensures { result ≡ record {
      reason = Reason.Integrity;
      holds = is_above (map.get state.now.object_integrity p) (Some i);
      basis = Ground.Dominance (trust_of_object state.now p) (Term.Integrity i);
    } }
{
    let holds = state.object_integrity(p).dominates(&i);
    let basis = Ground::Dominance(trust_of_object(state, p), Term::Integrity(i));
    Condition::new(Reason::Integrity, holds, basis)
}

/// That a number is left for an object to come.
pub(crate) fn numbered<A: Allocator>(state: &State<A>) -> Condition
    ensures { result ≡ record {
      reason = Reason.Full;
      holds = nat_lt state.now.next MAX_OBJECTS;
      basis = Ground.Number state.now.next;
    } }
{
    let next = state.next();
    Condition::new(Reason::Full, next < MAX_OBJECTS, Ground::Number(next))
}

/// That an object to be deleted isn't the root.
pub(crate) fn other(o: ObjectId) -> Condition
    ensures { result ≡ record { reason = Reason.Root; holds = not (o == 0); basis = Ground.Root o } }
{
    Condition::new(Reason::Root, o.number() != 0, Ground::Root(o))
}

/// That the subject writes the parent of an object to be deleted.
pub(crate) fn deletes<A: Allocator>(state: &State<A>, s: SubjectId, o: ObjectId) -> Condition
    requires subject { IsTrue (is_subject state.now s) }
    requires object { IsTrue (is_active state.now o) }
    ensures { result ≡ record {
      reason = Reason.Authority;
      holds = writes_parent state.now s (map.get state.now.parent o);
      basis = delete_ground state.now s o (map.get state.now.parent o);
    } }
{
    match state.parent(o) {
        Some(p) => {
            let holds = state.has_access(s, p, Mode::Write);
            Condition::new(Reason::Authority, holds, Ground::Writing(s, p))
        }
        None => Condition::new(Reason::Authority, false, Ground::Parentless(o)),
    }
}

/// What authority to relabel an object that isn't the root rests on, for a subject that isn't trusted.
fn relabelling<A: Allocator>(
    state: &State<A>,
    s: SubjectId,
    o: ObjectId,
    l: SecLabel,
) -> Relabelling
    requires subject { IsTrue (is_subject state.now s) }
    requires object { IsTrue (is_active state.now o) }
    ensures subject { result.subject ≡ s }
    ensures parent { result.parent ≡ parent_of state.now o }
    ensures writes { result.writes ≡ writes_parent state.now s (map.get state.now.parent o) }
    ensures object { result.object ≡ o }
    ensures current { map.get state.now.current s ≡ Some result.current }
    ensures label { map.get state.now.object_label o ≡ Some result.label }
    ensures new { result.new ≡ l }
{
    Relabelling {
        subject: s,
        parent: parent_of(state, o),
        writes: writes_parent(state, s, o),
        object: o,
        current: state.current(s),
        label: state.object_label(o),
        new: l,
    }
}

/// That the subject may give the object this label, without trust.
pub(crate) fn relabels_alone<A: Allocator>(
    state: &State<A>,
    s: SubjectId,
    o: ObjectId,
    l: SecLabel,
) -> Condition
    requires subject { IsTrue (is_subject state.now s) }
    requires object { IsTrue (is_active state.now o) }
    ensures { result ≡ record {
      reason = Reason.Authority;
      holds = may_relabel_alone state.now s o l;
      basis = plain_relabel_ground state.now s o l;
    } }
{
    if o.number() == 0 {
        return Condition::new(Reason::Authority, false, Ground::Trust(s));
    }
    let parts = relabelling(state, s, o, l);
    let holds = parts.writes && parts.current.dominates(&parts.label) && l.dominates(&parts.label);
    Condition::new(Reason::Authority, holds, Ground::Relabelling(parts))
}

/// That the subject may give the object this label.
pub(crate) fn relabels<A: Allocator>(
    state: &State<A>,
    s: SubjectId,
    o: ObjectId,
    l: SecLabel,
) -> Condition
    requires subject { IsTrue (is_subject state.now s) }
    requires object { IsTrue (is_active state.now o) }
    ensures { result ≡ record {
      reason = Reason.Authority;
      holds = may_relabel state.now s o l;
      basis = relabel_ground state.now s o l;
    } }
{
    if state.is_trusted(s) {
        return Condition::new(Reason::Authority, true, Ground::Trust(s));
    }
    relabels_alone(state, s, o, l)
}

/// That the label fits between those of the object's parent and of its children.
pub(crate) fn fits<A: Allocator>(state: &State<A>, o: ObjectId, l: SecLabel) -> Condition
    requires { IsTrue (is_active state.now o) }
    ensures { result ≡ record {
      reason = Reason.Compatibility;
      holds = label_fits state.now o l;
      basis = place_ground state.now o l (map.get state.now.parent o);
    } }
{
    let below = children_dominate(state, o, &l);
    match state.parent(o) {
        None => Condition::new(Reason::Compatibility, below, Ground::Children(o, l)),
        Some(parent) => {
            let label = state.object_label(parent);
            let place = Place {
                object: o,
                new: l,
                parent,
                label,
                below,
            };
            let holds = l.dominates(&label) && below;
            Condition::new(Reason::Compatibility, holds, Ground::Place(place))
        }
    }
}
