//! What would be replied to a get or a release, with no request in between.
ghost use Rattle.std.specs.Prelude.{◌≡◌, IsTrue, Some};
ghost use Rattle.mls_labels.specs.Label.{dominates};
ghost use Rattle.mls_state.specs.Properties.{IsSecure, simple_between, star_between, integrity_between};
ghost use Rattle.mls_rules.specs.Rules.{reply};
ghost use Rattle.mls_requests.specs.declared.action.Action.TheVariants.{Get, Release};

use mls_labels::{IntLabel, SecLabel};
use mls_requests::{Reason, Reply};
use mls_state::{State, Subject, discretionary_holds, simple_between};
use mls_tables::{Mode, ObjectId, SubjectId};

/// Whether a label dominates another, with no call.
#[inline(always)]
fn is_above(a: &SecLabel, b: &SecLabel) -> bool
    ensures { result ≡ dominates a.now b.now }
{
    let (a, b) = (a.label(), b.label());
    a.dominates(&b)
}

/// Whether simple security holds between two labels, as `simple_between` of the state says, with no call.
#[inline(always)]
pub(crate) fn maximum_meets(maximum: &SecLabel, label: &SecLabel, x: Mode) -> bool
    ensures { result ≡ simple_between (Some maximum.now) (Some label.now) x }
{
    !x.observes() || is_above(maximum, label)
}

/// Whether star holds between two labels, as `star_between` of the state says, with no call.
#[inline(always)]
pub(crate) fn star_meets(own: &SecLabel, label: &SecLabel, x: Mode) -> bool
    ensures { result ≡ star_between (Some own.now) (Some label.now) x }
{
    match x {
        Mode::Append => is_above(label, own),
        Mode::Write => is_above(label, own) && is_above(own, label),
        Mode::Read => is_above(own, label),
        Mode::Execute => true,
    }
}

/// Whether simple security holds between the labels of a subject and a label, where star does or doesn't: what star
/// grants below the subject's current label is below its maximum, too, which is then not looked at.
#[inline(always)]
#[tactic(auto, using(crate::proofs::Ceilings::star_is_simple))]
fn simple_meets(subject: &Subject, label: &SecLabel, x: Mode, star: bool) -> bool
    requires ceiling { IsTrue (dominates subject.now.maximum subject.now.current) }
    requires star { star ≡ star_between (Some subject.now.current) (Some label.now) x }
    ensures { result ≡ simple_between (Some subject.now.maximum) (Some label.now) x }
{
    star || simple_between(&subject.maximum, label, x)
}

/// Whether strict integrity holds between two labels, as `integrity_between` of the state says, with no call.
#[inline(always)]
pub(crate) fn integrity_meets(own: &IntLabel, label: &IntLabel, x: Mode) -> bool
    ensures { result ≡ integrity_between (Some own.now) (Some label.now) x }
{
    let (own, label) = (own.label(), label.label());
    (!x.uses() || label.dominates(&own)) && (!x.alters() || own.dominates(&label))
}

/// The reply to a get of what is there. Where the mode is known when this is compiled, nothing is asked of it when it
/// runs.
#[inline(always)]
#[tactic(auto, using(crate::proofs::Ceilings::ceiling_of))]
pub(crate) fn decide_in(state: &State, s: SubjectId, o: ObjectId, x: Mode) -> Reply
    requires { IsSecure state.now }
    ensures { result ≡ reply state.now (record { subject = s; action = Get x o }) }
{
    if !state.is_subject(s) || !state.is_active(o) {
        return Reply::Undefined;
    }
    if !discretionary_holds(state, s, o, x) {
        return Reply::No(Reason::Discretionary);
    }
    let subject = state.subject(s);
    let labels = state.labels(o);
    let star = star_meets(&subject.current, &labels.security, x);
    if !simple_meets(subject, &labels.security, x, star) {
        return Reply::No(Reason::Simple);
    }
    if !star && !subject.trusted {
        return Reply::No(Reason::Star);
    }
    if !integrity_meets(&subject.integrity, &labels.integrity, x) {
        return Reply::No(Reason::Integrity);
    }
    Reply::Yes
}

/// The reply to a get.
pub(crate) fn decide_get(state: &State, s: SubjectId, o: ObjectId, x: Mode) -> Reply
    requires { IsSecure state.now }
    ensures { result ≡ reply state.now (record { subject = s; action = Get x o }) }
{
    match x {
        Mode::Execute => decide_in(state, s, o, Mode::Execute),
        Mode::Read => decide_in(state, s, o, Mode::Read),
        Mode::Append => decide_in(state, s, o, Mode::Append),
        Mode::Write => decide_in(state, s, o, Mode::Write),
    }
}

/// The reply to a release.
#[inline(always)]
pub(crate) fn decide_release(state: &State, s: SubjectId, o: ObjectId, x: Mode) -> Reply
    ensures { result ≡ reply state.now (record { subject = s; action = Release x o }) }
{
    if state.is_subject(s) && state.is_active(o) {
        Reply::Yes
    } else {
        Reply::Undefined
    }
}
