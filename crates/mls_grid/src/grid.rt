//! A grid of objects and subjects.
ghost use Rattle.std.specs.Prelude.{All, IfOk, IsTrue};
ghost use Rattle.mls_state.specs.State.{is_active, is_subject};
ghost use Rattle.mls_could.specs.Brought.{is_untrusted};
ghost use Rattle.mls_could.specs.Outsets.{acts_of, IsOutset};
ghost use Rattle.mls_grid.specs.Grids.{IsGrid};

use crate::cell::Cell;
use crate::cells::cells_of;
use crate::choosing::{heaviest_objects, heaviest_subjects};
use crate::weighing::{Weights, weigh};
use mls_could::{Outset, untrusted};
use mls_rules::State;
use mls_tables::{MAX_OBJECTS, ObjectId, SubjectId};
use std::alloc::{AllocError, Global};

/// What is to be expected of the accesses of some subjects to some objects.
#[derive(Drop)]
pub struct Grid {
    pub objects: Vec<ObjectId>,
    pub subjects: Vec<SubjectId>,
    /// The cells, by object and subject, in their order.
    pub cells: Vec<Cell>,
    /// How many objects and subjects there are beside these.
    pub more_objects: u64,
    pub more_subjects: u64,
}

/// How many objects a state has.
fn object_count(state: &State) -> u64 {
    let mut count = 0u64;
    for n in 0..MAX_OBJECTS {
        if state.is_active(ObjectId::new(n)) {
            count = count.saturating_add(1);
        }
    }
    count
}

/// The grid of some objects and subjects.
fn filled(
    alloc: Global,
    state: &State,
    outset: &Outset,
    objects: Vec<ObjectId>,
    subjects: Vec<SubjectId>,
) -> Result<Grid, AllocError>
    requires outset { IsOutset state.now outset.now }
    requires objects { All (λ o. IsTrue (is_active state.now o)) objects.items }
    requires subjects { All (λ s. IsTrue (is_subject state.now s)) subjects.items }
    ensures { IfOk result (λ grid. IsGrid state.now (acts_of outset.now) grid) }
{
    let more_objects = object_count(state).saturating_sub(objects.len() as u64);
    let more_subjects = u64::from(state.subject_count()).saturating_sub(subjects.len() as u64);
    match cells_of(alloc, state, outset, &objects, &subjects) {
        Ok(cells) => Ok(Grid {
            objects,
            subjects,
            cells,
            more_objects,
            more_subjects,
        }),
        Err(fault) => {
            drop(objects);
            drop(subjects);
            Err(fault)
        }
    }
}

/// The grid of the heaviest objects and subjects.
fn weighed(
    alloc: Global,
    state: &State,
    outset: &Outset,
    weights: &Weights,
    rows: usize,
    columns: usize,
) -> Result<Grid, AllocError>
    requires { IsOutset state.now outset.now }
    ensures { IfOk result (λ grid. IsGrid state.now (acts_of outset.now) grid) }
{
    let objects = heaviest_objects(alloc, state, &weights.objects, rows)?;
    match heaviest_subjects(alloc, state, &weights.subjects, columns) {
        Ok(subjects) => filled(alloc, state, outset, objects, subjects),
        Err(fault) => {
            drop(objects);
            Err(fault)
        }
    }
}

/// The grid of a state of which so much is known.
fn grid_where(
    alloc: Global,
    state: &State,
    outset: &Outset,
    rows: usize,
    columns: usize,
) -> Result<Grid, AllocError>
    requires { IsOutset state.now outset.now }
    ensures { IfOk result (λ grid. IsGrid state.now (acts_of outset.now) grid) }
{
    let weights = weigh(alloc, state, outset)?;
    let found = weighed(alloc, state, outset, &weights, rows, columns);
    drop(weights);
    found
}

/// What is to be expected of the accesses of so many subjects to so many objects at most, where all subjects act that
/// aren't trusted: of the heaviest. An object or a subject weighs by its accesses: first by those that are neither held
/// nor permitted and could be got, then by the others that are held or could be. The closure is made once, and each
/// access is looked at once; what is kept is a number for each object and each subject, and the cells.
///
/// # Errors
/// `AllocError` where an allocation failed.
pub fn grid_of(
    alloc: Global,
    state: &State,
    rows: usize,
    columns: usize,
) -> Result<Grid, AllocError>
    ensures { IfOk result (λ grid. IsGrid state.now (is_untrusted state.now) grid) }
{
    let outset = untrusted(alloc, state)?;
    let found = grid_where(alloc, state, &outset, rows, columns);
    drop(outset);
    found
}
