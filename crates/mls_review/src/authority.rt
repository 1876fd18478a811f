//! What subjects may change.
ghost use Rattle.std.specs.Prelude.{◌≡◌, ◌++◌, ◌==◌, not, IsTrue, IfOk, OnOk, All, Some, length, map};
ghost use Rattle.std.specs.List.{flat_map};
ghost use Rattle.mls_state.specs.State.{is_subject, is_active};
ghost use Rattle.mls_review.specs.Distinct.{distinct};
ghost use Rattle.mls_review.specs.Findings.{objects as active_objects};
ghost use Rattle.mls_review.specs.Granted.{change_view};
ghost use Rattle.mls_review.specs.Powers.{object_relabelings, downgrades_of, subject_powers, subject_downgrades};
ghost use Rattle.mls_review.specs.Powers.{asked_subjects, granted_of, powers as powers_in};

use crate::change::Change;
use crate::distinct::distinct_labels;
use crate::known::{objects, subjects};
use crate::power::Power;
use crate::relabeling::Relabeling;
use mls_labels::SecLabel;
use mls_state::State;
use mls_tables::{ObjectId, SubjectId};
use std::alloc::{AllocError, Allocator, Global};

/// Of whom it is asked what they may change, and whether only what they may downgrade.
#[derive(Clone, Copy, Debug)]
pub struct Asked {
    /// The subject that is asked for; where there is none, all.
    pub subject: Option<SubjectId>,
    /// Only labels of objects are asked for, and of them only those that don't dominate the present one.
    pub downgrades: bool,
}

/// Adds the labels that don't dominate an object's and that a subject may give it.
fn push_lower<A: Allocator>(
    alloc: Global,
    found: &mut Vec<Change>,
    state: &State<A>,
    labels: &[SecLabel],
    s: SubjectId,
    o: ObjectId,
) -> Result<(), AllocError>
    requires subject { IsTrue (is_subject state.now s) }
    requires object { IsTrue (is_active state.now o) }
    ensures { OnOk result (map change_view found.new.items
        ≡ map change_view found.old.items ++ downgrades_of state.now labels.now s o) }
{
    Relabeling::Down(o).push_taken(alloc, found, state, s, labels)?;
    Relabeling::Aside(o).push_taken(alloc, found, state, s, labels)
}

/// Adds the labels that a subject may give to an object.
fn push_object<A: Allocator>(
    alloc: Global,
    found: &mut Vec<Change>,
    state: &State<A>,
    labels: &[SecLabel],
    s: SubjectId,
    o: ObjectId,
) -> Result<(), AllocError>
    requires subject { IsTrue (is_subject state.now s) }
    requires object { IsTrue (is_active state.now o) }
    ensures { OnOk result (map change_view found.new.items
        ≡ map change_view found.old.items ++ object_relabelings state.now labels.now s o) }
{
    push_lower(alloc, found, state, labels, s, o)?;
    Relabeling::Up(o).push_taken(alloc, found, state, s, labels)
}

/// Adds the labels that a subject may give to some objects.
fn push_objects<A: Allocator>(
    alloc: Global,
    found: &mut Vec<Change>,
    state: &State<A>,
    labels: &[SecLabel],
    s: SubjectId,
    objects: &[ObjectId],
) -> Result<(), AllocError>
    requires subject { IsTrue (is_subject state.now s) }
    requires objects { All (λ o. IsTrue (is_active state.now o)) objects.now }
    ensures { OnOk result (map change_view found.new.items
        ≡ map change_view found.old.items ++ flat_map (object_relabelings state.now labels.now s) objects.now) }
{
    for o in objects {
        push_object(alloc, found, state, labels, s, *o)?;
    }
    Ok(())
}

/// Adds the labels that don't dominate those of some objects and that a subject may give them.
fn push_downgrades<A: Allocator>(
    alloc: Global,
    found: &mut Vec<Change>,
    state: &State<A>,
    labels: &[SecLabel],
    s: SubjectId,
    objects: &[ObjectId],
) -> Result<(), AllocError>
    requires subject { IsTrue (is_subject state.now s) }
    requires objects { All (λ o. IsTrue (is_active state.now o)) objects.now }
    ensures { OnOk result (map change_view found.new.items
        ≡ map change_view found.old.items ++ flat_map (downgrades_of state.now labels.now s) objects.now) }
{
    for o in objects {
        push_lower(alloc, found, state, labels, s, *o)?;
    }
    Ok(())
}

/// Adds all that a subject may change.
fn push_powers<A: Allocator>(
    alloc: Global,
    found: &mut Vec<Change>,
    state: &State<A>,
    labels: &[SecLabel],
    s: SubjectId,
    objects: &[ObjectId],
) -> Result<(), AllocError>
    requires subject { IsTrue (is_subject state.now s) }
    requires active { All (λ o. IsTrue (is_active state.now o)) objects.now }
    requires all { objects.now ≡ active_objects state.now }
    ensures { OnOk result (map change_view found.new.items
        ≡ map change_view found.old.items ++ subject_powers state.now labels.now s) }
{
    Power::Gives.push_all_had(found, state, s, objects)?;
    Power::Creates.push_all_had(found, state, s, objects)?;
    Power::Deletes.push_all_had(found, state, s, objects)?;
    Relabeling::Level.push_taken(alloc, found, state, s, labels)?;
    push_objects(alloc, found, state, labels, s, objects)
}

/// Adds what is asked for of a subject.
fn push_subject<A: Allocator>(
    alloc: Global,
    found: &mut Vec<Change>,
    state: &State<A>,
    labels: &[SecLabel],
    s: SubjectId,
    objects: &[ObjectId],
    downgrades: bool,
) -> Result<(), AllocError>
    requires subject { IsTrue (is_subject state.now s) }
    requires active { All (λ o. IsTrue (is_active state.now o)) objects.now }
    requires all { objects.now ≡ active_objects state.now }
    requires labels { labels.now ≡ distinct state.now }
    ensures { OnOk result
        (map change_view found.new.items ≡ map change_view found.old.items ++ granted_of state.now downgrades s) }
{
    if downgrades {
        push_downgrades(alloc, found, state, labels, s, objects)
    } else {
        push_powers(alloc, found, state, labels, s, objects)
    }
}

/// Adds what is asked for of some subjects.
fn push_subjects<A: Allocator>(
    alloc: Global,
    found: &mut Vec<Change>,
    state: &State<A>,
    subjects: &[SubjectId],
    downgrades: bool,
) -> Result<(), AllocError>
    requires { All (λ s. IsTrue (is_subject state.now s)) subjects.now }
    ensures { OnOk result (map change_view found.new.items
        ≡ map change_view found.old.items ++ flat_map (granted_of state.now downgrades) subjects.now) }
{
    let objects = objects(alloc, state)?;
    let labels = distinct_labels(alloc, state)?;
    for s in subjects {
        push_subject(alloc, found, state, &labels, *s, &objects, downgrades)?;
    }
    Ok(())
}

/// The subject, where it is known.
fn only<A: Allocator>(
    alloc: Global,
    state: &State<A>,
    s: SubjectId,
) -> Result<Vec<SubjectId>, AllocError>
    ensures list { IfOk result (λ found. found.items ≡ asked_subjects state.now (Some s)) }
    ensures known { IfOk result (λ found. All (λ s. IsTrue (is_subject state.now s)) found.items) }
{
    let mut found = Vec::new(alloc);
    if state.is_subject(s) {
        found.push(s)?;
    }
    Ok(found)
}

/// The subjects that are asked for, by number.
fn asked_subjects<A: Allocator>(
    alloc: Global,
    state: &State<A>,
    subject: Option<SubjectId>,
) -> Result<Vec<SubjectId>, AllocError>
    ensures list { IfOk result (λ found. found.items ≡ asked_subjects state.now subject) }
    ensures known { IfOk result (λ found. All (λ s. IsTrue (is_subject state.now s)) found.items) }
{
    match subject {
        Some(s) => only(alloc, state, s),
        None => subjects(alloc, state),
    }
}

/// What subjects may change in a state: over which objects they may give and rescind permissions, under which they may
/// create, which they may delete; which labels they may take, and which they may give to an object, of those in use in
/// the state, in the order of `distinct_labels`. By subject, then in the order of the rules, then by object.
///
/// # Errors
/// `AllocError` where an allocation failed.
pub fn changes<A: Allocator>(
    alloc: Global,
    state: &State<A>,
    asked: Asked,
) -> Result<Vec<Change>, AllocError>
    ensures { IfOk result (λ found. map change_view found.items ≡ powers_in state.now asked) }
{
    let subjects = asked_subjects(alloc, state, asked.subject)?;
    let mut found = Vec::new(alloc);
    push_subjects(alloc, &mut found, state, &subjects, asked.downgrades)?;
    Ok(found)
}
