//! The heaviest objects and subjects of a state.
ghost use Rattle.std.specs.Prelude.{All, IsTrue, IfOk};
ghost use Rattle.mls_state.specs.State.{is_active, is_subject};

use mls_groups::by_weight;
use mls_rules::State;
use mls_tables::{ObjectId, SubjectId};
use std::alloc::{AllocError, Global};

/// The object of a place.
fn object_at(place: usize) -> ObjectId {
    ObjectId::new((place % 65_536) as u16)
}

/// The subject of a place.
fn subject_at(place: usize) -> SubjectId {
    SubjectId::new((place % 65_536) as u16)
}

/// The active objects of some places, the first of them.
fn objects_at(
    alloc: Global,
    state: &State,
    places: &[usize],
    most: usize,
) -> Result<Vec<ObjectId>, AllocError>
    ensures { IfOk result (λ found. All (λ o. IsTrue (is_active state.now o)) found.items) }
{
    let mut found = Vec::new(alloc);
    for place in places {
        let o = object_at(*place);
        if found.len() < most && state.is_active(o) {
            found.push(o)?;
        }
    }
    Ok(found)
}

/// The subjects of some places, the first of them.
fn subjects_at(
    alloc: Global,
    state: &State,
    places: &[usize],
    most: usize,
) -> Result<Vec<SubjectId>, AllocError>
    ensures { IfOk result (λ found. All (λ s. IsTrue (is_subject state.now s)) found.items) }
{
    let mut found = Vec::new(alloc);
    for place in places {
        let s = subject_at(*place);
        if found.len() < most && state.is_subject(s) {
            found.push(s)?;
        }
    }
    Ok(found)
}

/// So many of a state's objects, by what they weigh.
///
/// # Errors
/// `AllocError` where an allocation failed.
pub(crate) fn heaviest_objects(
    alloc: Global,
    state: &State,
    weights: &[u64],
    most: usize,
) -> Result<Vec<ObjectId>, AllocError>
    ensures { IfOk result (λ found. All (λ o. IsTrue (is_active state.now o)) found.items) }
{
    let places = by_weight(alloc, weights)?;
    let found = objects_at(alloc, state, &places, most);
    drop(places);
    found
}

/// So many of a state's subjects, by what they weigh.
///
/// # Errors
/// `AllocError` where an allocation failed.
pub(crate) fn heaviest_subjects(
    alloc: Global,
    state: &State,
    weights: &[u64],
    most: usize,
) -> Result<Vec<SubjectId>, AllocError>
    ensures { IfOk result (λ found. All (λ s. IsTrue (is_subject state.now s)) found.items) }
{
    let places = by_weight(alloc, weights)?;
    let found = subjects_at(alloc, state, &places, most);
    drop(places);
    found
}
