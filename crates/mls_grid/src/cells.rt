//! The cells of some objects and subjects.
ghost use Rattle.std.specs.Prelude.{◌≡◌, ◌++◌, ◌∷◌, [], All, IfOk, OnOk, map};
ghost use Rattle.mls_could.specs.Outsets.{acts_of, IsOutset};
ghost use Rattle.mls_grid.specs.Grids.{IsCell, place_of, places_of, row_of, rows_of};

use crate::cell::{Cell, cell_of};
use mls_could::Outset;
use mls_rules::State;
use mls_tables::{ObjectId, SubjectId};
use std::alloc::{AllocError, Global};

/// Adds the cells of an object, by subject.
fn push_row(
    cells: &mut Vec<Cell>,
    state: &State,
    outset: &Outset,
    subjects: &[SubjectId],
    o: ObjectId,
) -> Result<(), AllocError>
    requires outset { IsOutset state.now outset.now }
    requires each { All (IsCell state.now (acts_of outset.now)) cells.old.items }
    ensures places { OnOk result (places_of cells.new.items ≡ places_of cells.old.items ++ row_of subjects.now o) }
    ensures each { OnOk result (All (IsCell state.now (acts_of outset.now)) cells.new.items) }
{
    for s in subjects {
        let cell = cell_of(state, outset, *s, o);
        cells.push(cell)?;
    }
    Ok(())
}

/// The cells of some objects, each of which has one of each of some subjects, in their order.
///
/// # Errors
/// `AllocError` where an allocation failed.
pub(crate) fn cells_of(
    alloc: Global,
    state: &State,
    outset: &Outset,
    objects: &[ObjectId],
    subjects: &[SubjectId],
) -> Result<Vec<Cell>, AllocError>
    requires { IsOutset state.now outset.now }
    ensures places { IfOk result (λ cells. places_of cells.items ≡ rows_of objects.now subjects.now) }
    ensures each { IfOk result (λ cells. All (IsCell state.now (acts_of outset.now)) cells.items) }
{
    let mut cells = Vec::new(alloc);
    for o in objects {
        push_row(&mut cells, state, outset, subjects, *o)?;
    }
    Ok(cells)
}
