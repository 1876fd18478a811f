//! Permissions of no use.
ghost use Rattle.std.specs.Prelude.{◌≡◌, ◌++◌, IsTrue, IfOk, OnOk, All};
ghost use Rattle.std.specs.FinSet as set;
ghost use Rattle.std.specs.List.{flat_map};
ghost use Rattle.mls_state.specs.State.{is_subject, is_active};
ghost use Rattle.mls_review.specs.Findings.{dead_in, dead_at, dead, IsTrueOf};

use crate::known::{objects, subjects};
use crate::live::obstacle;
use mls_requests::Reason;
use mls_state::State;
use mls_tables::{Mode, Modes, ObjectId, SubjectId};
use std::alloc::{AllocError, Allocator, Global};

/// A permission with which the get is granted at no current label that the subject can have.
#[derive(Clone, Copy, Debug, PartialEq, Eq)]
pub struct Dead {
    pub subject: SubjectId,
    pub object: ObjectId,
    pub mode: Mode,
    /// The reason of the first condition that fails at each such label.
    pub reason: Reason,
}

/// Adds the finding that a permission is dead, where the mode is one of those that are permitted, and it is.
fn push_mode<A: Allocator>(
    found: &mut Vec<Dead>,
    state: &State<A>,
    modes: Modes,
    s: SubjectId,
    o: ObjectId,
    x: Mode,
) -> Result<(), AllocError>
    requires subject { IsTrue (is_subject state.now s) }
    requires object { IsTrue (is_active state.now o) }
    requires modes { set.contains modes x ≡ set.contains state.now.matrix (s, o, x) }
    ensures { OnOk result (found.new.items ≡ found.old.items ++ dead_in state.now s o x) }
{
    if !modes.has(x) {
        return Ok(());
    }
    if let Some(reason) = obstacle(state, s, o, x) {
        found.push(Dead {
            subject: s,
            object: o,
            mode: x,
            reason,
        })?;
    }
    Ok(())
}

/// Adds the dead permissions of a subject on an object.
fn push_cell<A: Allocator>(
    found: &mut Vec<Dead>,
    state: &State<A>,
    s: SubjectId,
    o: ObjectId,
) -> Result<(), AllocError>
    requires subject { IsTrue (is_subject state.now s) }
    requires object { IsTrue (is_active state.now o) }
    ensures { OnOk result (found.new.items ≡ found.old.items ++ dead_at state.now s o) }
{
    let modes = state.allowed(s, o);
    push_mode(found, state, modes, s, o, Mode::Execute)?;
    push_mode(found, state, modes, s, o, Mode::Read)?;
    push_mode(found, state, modes, s, o, Mode::Append)?;
    push_mode(found, state, modes, s, o, Mode::Write)?;
    Ok(())
}

/// Adds the dead permissions of a subject on some objects.
fn push_row<A: Allocator>(
    found: &mut Vec<Dead>,
    state: &State<A>,
    s: SubjectId,
    objects: &[ObjectId],
) -> Result<(), AllocError>
    requires subject { IsTrue (is_subject state.now s) }
    requires objects { All (λ o. IsTrue (is_active state.now o)) objects.now }
    ensures { OnOk result (found.new.items ≡ found.old.items ++ flat_map (dead_at state.now s) objects.now) }
{
    for o in objects {
        push_cell(found, state, s, *o)?;
    }
    Ok(())
}

/// The dead permissions of some subjects on some objects.
fn dead_among<A: Allocator>(
    alloc: Global,
    state: &State<A>,
    subjects: &[SubjectId],
    objects: &[ObjectId],
) -> Result<Vec<Dead>, AllocError>
    requires subjects { All (λ s. IsTrue (is_subject state.now s)) subjects.now }
    requires objects { All (λ o. IsTrue (is_active state.now o)) objects.now }
    ensures { IfOk result
        (λ found. found.items ≡ flat_map (λ s. flat_map (dead_at state.now s) objects.now) subjects.now) }
{
    let mut found = Vec::new(alloc);
    for s in subjects {
        push_row(&mut found, state, *s, objects)?;
    }
    Ok(found)
}

/// The dead permissions of a state.
fn dead_of_all<A: Allocator>(alloc: Global, state: &State<A>) -> Result<Vec<Dead>, AllocError>
    ensures { IfOk result (λ found. found.items ≡ dead state.now) }
{
    let subjects = subjects(alloc, state)?;
    let objects = objects(alloc, state)?;
    dead_among(alloc, state, &subjects, &objects)
}

/// Just the permissions that are dead, by subject, object and mode, each with its reason: with each of them the get is
/// granted at no current label that the subject's maximum dominates, nothing being held.
///
/// # Errors
/// `AllocError` where an allocation failed.
pub fn dead_permissions<A: Allocator>(
    alloc: Global,
    state: &State<A>,
) -> Result<Vec<Dead>, AllocError>
    ensures list { IfOk result (λ found. found.items ≡ dead state.now) }
    ensures each { IfOk result (λ found. All (IsTrueOf state.now) found.items) }
{
    state.agrees();
    let found = dead_of_all(alloc, state)?;
    Ok(found)
}
