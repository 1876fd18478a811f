//! What a get would take of the subject alone.
ghost use Rattle.std.specs.Prelude.{◌≡◌, ◌&&◌, [], IsTrue, None, IfOk, if◌then◌else◌};
ghost use Rattle.std.specs.FinMap as map;
ghost use Rattle.mls_labels.specs.Label.{has_label};
ghost use Rattle.mls_state.specs.State.{is_subject, is_active};
ghost use Rattle.mls_state.specs.Properties.{discretionary_holds, simple_holds, integrity_holds};
ghost use Rattle.mls_explain.specs.Remedy.{HasRemedy};
ghost use Rattle.mls_explain.specs.Ways.{IsMeet, IsOwnLevel, IsWay, refused_at, releases_for};

use crate::demand::Demand;
use crate::failing::failing_of_subject;
use crate::helping::{is_known, remedy};
use crate::meet::meet;
use crate::way::Way;
use mls_labels::SecLabel;
use mls_state::{State, discretionary_holds, integrity_holds, simple_holds};
use mls_tables::{Mode, ObjectId, SubjectId};
use std::alloc::{AllocError, Allocator};

/// The greatest label that the subject's maximum and the object's label dominate.
fn shared_level<A: Allocator>(state: &State<A>, s: SubjectId, o: ObjectId) -> SecLabel
    requires subject { IsTrue (is_subject state.now s) }
    requires object { IsTrue (is_active state.now o) }
    ensures { IsMeet (map.get state.now.maximum s) (map.get state.now.object_label o) result }
{
    meet(state.maximum(s), state.object_label(o))
}

/// The current label with which a subject that holds nothing gets an object.
fn own_level<A: Allocator>(state: &State<A>, s: SubjectId, o: ObjectId, x: Mode) -> SecLabel
    requires subject { IsTrue (is_subject state.now s) }
    requires object { IsTrue (is_active state.now o) }
    ensures { IsOwnLevel (map.get state.now.maximum s) (map.get state.now.object_label o) x result }
{
    match x {
        Mode::Execute | Mode::Append => shared_level(state, s, o),
        Mode::Read | Mode::Write => state.object_label(o),
    }
}

/// Whether a get meets the conditions that no current label changes.
fn is_open<A: Allocator>(state: &State<A>, s: SubjectId, o: ObjectId, x: Mode) -> bool
    requires subject { IsTrue (is_subject state.now s) }
    requires object { IsTrue (is_active state.now o) }
    ensures { result ≡ (discretionary_holds state.now (s, o, x)
        && (simple_holds state.now (s, o, x) && integrity_holds state.now (s, o, x))) }
{
    discretionary_holds(state, s, o, x)
        && (simple_holds(state, s, o, x) && integrity_holds(state, s, o, x))
}

/// Whether a label is within the bounds, and a get meets the conditions that no current label changes.
fn opens<A: Allocator>(
    state: &State<A>,
    s: SubjectId,
    o: ObjectId,
    x: Mode,
    level: SecLabel,
) -> bool
    requires subject { IsTrue (is_subject state.now s) }
    requires object { IsTrue (is_active state.now o) }
    ensures { result ≡ (has_label state.now.security level && (discretionary_holds state.now (s, o, x)
        && (simple_holds state.now (s, o, x) && integrity_holds state.now (s, o, x)))) }
{
    state.security().has(level.label()) && is_open(state, s, o, x)
}

/// What a get would take where no current label helps with all that the subject holds.
fn way_by_release<A: Allocator>(state: &State<A>, s: SubjectId, o: ObjectId, x: Mode) -> Way
    requires subject { IsTrue (is_subject state.now s) }
    requires object { IsTrue (is_active state.now o) }
    requires alone { HasRemedy state.now s o x None }
    ensures { IsWay state.now s o x result }
{
    // what the subject holds is listed
    let _ = state.objects_of(s);
    let level = own_level(state, s, o, x);
    if opens(state, s, o, x, level) {
        Way::Released(level)
    } else {
        Way::Never
    }
}

/// The remedy of a get, as an option.
fn remedy_of<A: Allocator>(state: &State<A>, s: SubjectId, o: ObjectId, x: Mode) -> Option<SecLabel>
    ensures { HasRemedy state.now s o x result }
{
    remedy(state, s, o, x)
}

/// What a get would take where the subject has no current label that helps.
fn way_without_level<A: Allocator>(state: &State<A>, s: SubjectId, o: ObjectId, x: Mode) -> Way
    requires { HasRemedy state.now s o x None }
    ensures { IsWay state.now s o x result }
{
    if is_known(state, s, o) {
        way_by_release(state, s, o, x)
    } else {
        Way::Never
    }
}

/// What a get would take of the subject alone, without another's leave: the least current label with which it is
/// granted, with all that the subject holds; where there is none the object's label, or for an append the greatest that
/// the object's and the subject's maximum dominate, once the subject has released what star refuses at it; or more than
/// releases and labels. It doesn't allocate.
pub fn way_of<A: Allocator>(state: &State<A>, s: SubjectId, o: ObjectId, x: Mode) -> Way
    ensures { IsWay state.now s o x result }
{
    match remedy_of(state, s, o, x) {
        Some(level) => Way::Level(level),
        None => way_without_level(state, s, o, x),
    }
}

/// What a subject holds that star refuses at a label, where the subject is known.
fn refused_at<B: Allocator, A: Allocator>(
    alloc: B,
    state: &State<A>,
    s: SubjectId,
    level: SecLabel,
) -> Result<Vec<(SubjectId, ObjectId, Mode), B>, AllocError>
    ensures { IfOk result
        (λ found. found.items ≡ (if is_subject state.now s then refused_at state.now s level else [])) }
{
    if state.is_subject(s) {
        failing_of_subject(alloc, state, s, &Demand::StarAtLevel(s, level))
    } else {
        Ok(Vec::new(alloc))
    }
}

/// What a subject has to release before it takes the label of a way, by object and mode: nothing, where the way is that
/// label alone, or more than releases.
///
/// # Errors
/// `AllocError` where an allocation failed.
pub fn releases<B: Allocator, A: Allocator>(
    alloc: B,
    state: &State<A>,
    s: SubjectId,
    way: &Way,
) -> Result<Vec<(SubjectId, ObjectId, Mode), B>, AllocError>
    ensures { IfOk result (λ found. found.items ≡ releases_for state.now s way.now) }
{
    match way {
        Way::Released(level) => refused_at(alloc, state, s, *level),
        Way::Level(_) | Way::Never => Ok(Vec::new(alloc)),
    }
}
