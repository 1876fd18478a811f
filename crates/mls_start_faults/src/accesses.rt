//! Where a file has accesses that break a property.
ghost use Rattle.std.specs.Prelude.{◌≡◌, ◌++◌, map, IsTrue, OnOk, IfOk};
ghost use Rattle.mls_state.specs.State.{is_subject, is_active};
ghost use Rattle.mls_start_file.specs.Ties.{Loaded};
ghost use Rattle.mls_start_file.specs.Ties.{AreTied};
ghost use Rattle.mls_start_text.specs.Views.{text_view, cell_view, file_view};
ghost use Rattle.mls_start_faults.specs.Accesses.{broken, access_place, cell_accesses, accesses_places, accesses_found};
ghost use Rattle.mls_start_faults.specs.Each.{at_each};
ghost use Rattle.mls_start_faults.specs.Places.{located_view};

use crate::place::Place;
use crate::place_row::PlaceRow;
use crate::writing::push_place;
use mls_lines::Names;
use mls_requests::Reason;
use mls_start_file::{Loaded, load_file};
use mls_start_text::{CellText, FileText, mode_of};
use mls_state::{State, discretionary_holds, integrity_holds, simple_holds, star_holds};
use mls_tables::{Mode, ObjectId, SubjectId};
use serde_json::Value;
use std::alloc::{AllocError, Global};
use std::mem;

/// The first property that an access breaks, if any.
fn broken(state: &State, s: SubjectId, o: ObjectId, x: Mode) -> Option<Reason>
    requires subject { IsTrue (is_subject state.now s) }
    requires object { IsTrue (is_active state.now o) }
    ensures { result ≡ broken state.now (s, o, x) }
{
    if !discretionary_holds(state, s, o, x) {
        Some(Reason::Discretionary)
    } else if !simple_holds(state, s, o, x) {
        Some(Reason::Simple)
    } else if !star_holds(state, s, o, x) {
        Some(Reason::Star)
    } else if !integrity_holds(state, s, o, x) {
        Some(Reason::Integrity)
    } else {
        None
    }
}

/// A subject and an object of a state, and the number of their cell among the accesses.
#[derive(Clone, Copy)]
struct Pair {
    subject: SubjectId,
    object: ObjectId,
    row: usize,
}

/// Adds the place of an access that breaks a property.
fn push_access(
    found: &mut Vec<PlaceRow>,
    state: &State,
    pair: &Pair,
    k: usize,
    word: &Value,
) -> Result<(), AllocError>
    requires subject { IsTrue (is_subject state.now pair.now.subject) }
    requires object { IsTrue (is_active state.now pair.now.object) }
    ensures { OnOk result
        (map located_view found.new.items
        ≡ map located_view found.old.items
        ++ access_place state.now pair.now.subject pair.now.object pair.now.row k (text_view word.now)) }
{
    let Some(mode) = mode_of(word) else {
        return Ok(());
    };
    match broken(state, pair.subject, pair.object, mode) {
        Some(reason) => {
            push_place(
                found,
                Place::item("accesses", pair.row, "modes", k, reason.word()),
            )
        }
        None => Ok(()),
    }
}

/// Adds the places of the accesses of a pair, in the modes of these words.
fn push_modes(
    found: &mut Vec<PlaceRow>,
    state: &State,
    pair: &Pair,
    words: &[Value],
) -> Result<(), AllocError>
    requires subject { IsTrue (is_subject state.now pair.now.subject) }
    requires object { IsTrue (is_active state.now pair.now.object) }
    ensures { OnOk result
        (map located_view found.new.items
        ≡ map located_view found.old.items
        ++ at_each (access_place state.now pair.now.subject pair.now.object pair.now.row) 0 (map text_view words.now)) }
{
    for (k, word) in words.iter().enumerate() {
        push_access(found, state, pair, k, word)?;
    }
    Ok(())
}

/// Adds the places of the accesses of a cell.
#[tactic(auto, using(crate::proofs::Known::subject_known, crate::proofs::Known::object_known))]
fn push_cell(
    found: &mut Vec<PlaceRow>,
    names: &Names,
    state: &State,
    row: usize,
    cell: &CellText<'_>,
) -> Result<(), AllocError>
    requires { AreTied names.now state.now }
    ensures { OnOk result
        (map located_view found.new.items
        ≡ map located_view found.old.items ++ cell_accesses names.now state.now row (cell_view cell.now)) }
{
    let Some(subject) = names.subject(cell.subject) else {
        return Ok(());
    };
    let Some(object) = names.object(cell.object) else {
        return Ok(());
    };
    let pair = Pair {
        subject,
        object,
        row,
    };
    push_modes(found, state, &pair, cell.modes)
}

/// Adds the places of the accesses of cells.
fn push_cells(
    found: &mut Vec<PlaceRow>,
    names: &Names,
    state: &State,
    cells: &[CellText<'_>],
) -> Result<(), AllocError>
    requires { AreTied names.now state.now }
    ensures { OnOk result
        (map located_view found.new.items
        ≡ map located_view found.old.items ++ at_each (cell_accesses names.now state.now) 0 (map cell_view cells.now)) }
{
    for (row, cell) in cells.iter().enumerate() {
        push_cell(found, names, state, row, cell)?;
    }
    Ok(())
}

/// The places of accesses that break a property in the state that a start opens with.
fn accesses_places(
    alloc: Global,
    cells: &[CellText<'_>],
    loaded: &Loaded,
) -> Result<Vec<PlaceRow>, AllocError>
    ensures { IfOk result
        (λ found. map located_view found.items ≡ accesses_places (map cell_view cells.now) loaded.now) }
{
    let state = loaded.start().opening(alloc)?;
    let mut found = Vec::new(alloc);
    let pushed = push_cells(&mut found, loaded.names(), &state, cells);
    drop(state);
    pushed?;
    Ok(found)
}

/// The places of a file's accesses that break a property.
///
/// # Errors
/// `AllocError` where an allocation failed; also where the file is refused without its accesses, which no caller's is.
pub(crate) fn accesses_found(alloc: Global, file: FileText<'_>) -> Result<Vec<PlaceRow>, AllocError>
    ensures { IfOk result (λ found. map located_view found.items ≡ accesses_found (file_view file.entry)) }
{
    let mut file = file;
    let accesses = mem::replace(&mut file.accesses, Vec::new(alloc));
    let loaded = load_file(alloc, &file);
    drop(file);
    match loaded {
        Ok(loaded) => {
            let found = accesses_places(alloc, &accesses, &loaded);
            drop(loaded);
            found
        }
        Err(_) => Err(AllocError),
    }
}
