//! Objects and subjects that have no permission of use.
ghost use Rattle.std.specs.Prelude.{◌≡◌, IsTrue, IfOk, All, filter};
ghost use Rattle.std.specs.List.{list_any};
ghost use Rattle.mls_state.specs.State.{is_subject, is_active};
ghost use Rattle.mls_review.specs.Findings.{may_use, is_unused_by, is_idle_on, unused, idle};

use crate::known::{objects, subjects};
use crate::live::may_use;
use mls_state::State;
use mls_tables::{ObjectId, SubjectId};
use std::alloc::{AllocError, Allocator, Global};

/// Whether one of some subjects has a permission on the object that isn't dead.
fn is_used<A: Allocator>(state: &State<A>, subjects: &[SubjectId], o: ObjectId) -> bool
    requires subjects { All (λ s. IsTrue (is_subject state.now s)) subjects.now }
    requires object { IsTrue (is_active state.now o) }
    ensures { result ≡ list_any (λ s. may_use state.now s o) subjects.now }
{
    for s in subjects {
        if may_use(state, *s, o) {
            return true;
        }
    }
    false
}

/// Whether the subject has a permission on one of some objects that isn't dead.
fn is_busy<A: Allocator>(state: &State<A>, objects: &[ObjectId], s: SubjectId) -> bool
    requires objects { All (λ o. IsTrue (is_active state.now o)) objects.now }
    requires subject { IsTrue (is_subject state.now s) }
    ensures { result ≡ list_any (may_use state.now s) objects.now }
{
    for o in objects {
        if may_use(state, s, *o) {
            return true;
        }
    }
    false
}

/// Whether none of some subjects has a permission on the object that isn't dead.
fn is_unused<A: Allocator>(state: &State<A>, subjects: &[SubjectId], o: ObjectId) -> bool
    requires subjects { All (λ s. IsTrue (is_subject state.now s)) subjects.now }
    requires object { IsTrue (is_active state.now o) }
    ensures { result ≡ is_unused_by state.now subjects.now o }
{
    !is_used(state, subjects, o)
}

/// Whether the subject has no permission on some objects that isn't dead.
fn is_idle<A: Allocator>(state: &State<A>, objects: &[ObjectId], s: SubjectId) -> bool
    requires objects { All (λ o. IsTrue (is_active state.now o)) objects.now }
    requires subject { IsTrue (is_subject state.now s) }
    ensures { result ≡ is_idle_on state.now objects.now s }
{
    !is_busy(state, objects, s)
}

/// Those of some objects that none of some subjects has a permission on that isn't dead.
fn unused_among<A: Allocator>(
    alloc: Global,
    state: &State<A>,
    subjects: &[SubjectId],
    objects: &[ObjectId],
) -> Result<Vec<ObjectId>, AllocError>
    requires subjects { All (λ s. IsTrue (is_subject state.now s)) subjects.now }
    requires objects { All (λ o. IsTrue (is_active state.now o)) objects.now }
    ensures { IfOk result (λ found. found.items ≡ filter (is_unused_by state.now subjects.now) objects.now) }
{
    let mut found = Vec::new(alloc);
    for o in objects {
        if is_unused(state, subjects, *o) {
            found.push(*o)?;
        }
    }
    Ok(found)
}

/// Those of some subjects that have no permission on some objects that isn't dead.
fn idle_among<A: Allocator>(
    alloc: Global,
    state: &State<A>,
    subjects: &[SubjectId],
    objects: &[ObjectId],
) -> Result<Vec<SubjectId>, AllocError>
    requires subjects { All (λ s. IsTrue (is_subject state.now s)) subjects.now }
    requires objects { All (λ o. IsTrue (is_active state.now o)) objects.now }
    ensures { IfOk result (λ found. found.items ≡ filter (is_idle_on state.now objects.now) subjects.now) }
{
    let mut found = Vec::new(alloc);
    for s in subjects {
        if is_idle(state, objects, *s) {
            found.push(*s)?;
        }
    }
    Ok(found)
}

/// Just the objects with no permission that isn't dead, by number.
///
/// # Errors
/// `AllocError` where an allocation failed.
pub fn unused_objects<A: Allocator>(
    alloc: Global,
    state: &State<A>,
) -> Result<Vec<ObjectId>, AllocError>
    ensures { IfOk result (λ found. found.items ≡ unused state.now) }
{
    let subjects = subjects(alloc, state)?;
    let objects = objects(alloc, state)?;
    unused_among(alloc, state, &subjects, &objects)
}

/// Just the subjects with no permission that isn't dead, by number.
///
/// # Errors
/// `AllocError` where an allocation failed.
pub fn idle_subjects<A: Allocator>(
    alloc: Global,
    state: &State<A>,
) -> Result<Vec<SubjectId>, AllocError>
    ensures { IfOk result (λ found. found.items ≡ idle state.now) }
{
    let subjects = subjects(alloc, state)?;
    let objects = objects(alloc, state)?;
    idle_among(alloc, state, &subjects, &objects)
}
