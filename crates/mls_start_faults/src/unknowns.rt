//! Where a file names what isn't there.
ghost use Rattle.std.specs.Prelude.{◌≡◌, ◌++◌, [], map, codes, is_some, if◌then◌else◌, OnOk, IfOk};
ghost use Rattle.mls_labels.specs.Reading.{place_of};
ghost use Rattle.mls_start_text.specs.Views.{text_view, child_view, cell_view, file_view};
ghost use Rattle.mls_start_faults.specs.Each.{at_each};
ghost use Rattle.mls_start_faults.specs.Unknowns.{named_place, parent_place, mode_place, cell_places, unknown_places};
ghost use Rattle.mls_start_faults.specs.Unknowns.{unknowns_found};
ghost use Rattle.mls_start_faults.specs.Places.{located, located_view, place_view};

use crate::labels::known_names;
use crate::place::Place;
use crate::place_row::PlaceRow;
use crate::writing::push_place;
use mls_labels::NameSet;
use mls_start_text::{CellText, ChildText, FileText, NameSets, mode_of};
use serde_json::Value;
use std::alloc::{AllocError, Global};

/// Adds the place of a member that is to be one of the names, where it is none.
fn push_named(
    found: &mut Vec<PlaceRow>,
    names: &NameSet,
    place: Place<'_>,
    name: &str,
) -> Result<(), AllocError>
    ensures { OnOk result
        (map located_view found.new.items
        ≡ map located_view found.old.items
        ++ (if is_some (place_of names.now name.now) then [] else located (place_view place.entry))) }
{
    match names.place(name) {
        Some(_) => Ok(()),
        None => push_place(found, place),
    }
}

/// Adds the place of a parent that isn't there.
fn push_parent(
    found: &mut Vec<PlaceRow>,
    objects: &NameSet,
    n: usize,
    child: &ChildText<'_>,
) -> Result<(), AllocError>
    ensures { OnOk result
        (map located_view found.new.items
        ≡ map located_view found.old.items ++ parent_place objects.now n (child_view child.now)) }
{
    let place = Place::member("objects", n, "parent", "no such object");
    push_named(found, objects, place, child.parent)
}

/// Adds the places of parents that aren't there.
fn push_parents(
    found: &mut Vec<PlaceRow>,
    objects: &NameSet,
    children: &[ChildText<'_>],
) -> Result<(), AllocError>
    ensures { OnOk result
        (map located_view found.new.items
        ≡ map located_view found.old.items ++ at_each (parent_place objects.now) 1 (map child_view children.now)) }
{
    for (n, child) in children.iter().enumerate() {
        push_parent(found, objects, n + 1, child)?;
    }
    Ok(())
}

/// Adds the place of a word that is no mode's.
fn push_mode(
    found: &mut Vec<PlaceRow>,
    list: &str,
    n: usize,
    k: usize,
    word: &Value,
) -> Result<(), AllocError>
    ensures { OnOk result
        (map located_view found.new.items
        ≡ map located_view found.old.items ++ mode_place list.now n k (text_view word.now)) }
{
    match mode_of(word) {
        Some(_) => Ok(()),
        None => push_place(found, Place::item(list, n, "modes", k, "no such mode")),
    }
}

/// Adds the places of words that are no modes'.
fn push_modes(
    found: &mut Vec<PlaceRow>,
    list: &str,
    n: usize,
    words: &[Value],
) -> Result<(), AllocError>
    ensures { OnOk result
        (map located_view found.new.items
        ≡ map located_view found.old.items ++ at_each (mode_place list.now n) 0 (map text_view words.now)) }
{
    for (k, word) in words.iter().enumerate() {
        push_mode(found, list, n, k, word)?;
    }
    Ok(())
}

/// Adds the place of a cell's subject that isn't there.
fn push_subject(
    found: &mut Vec<PlaceRow>,
    subjects: &NameSet,
    list: &str,
    n: usize,
    subject: &str,
) -> Result<(), AllocError>
    ensures { OnOk result
        (map located_view found.new.items
        ≡ map located_view found.old.items
        ++ named_place subjects.now list.now n (codes "subject") (codes "no such subject") subject.now) }
{
    let place = Place::member(list, n, "subject", "no such subject");
    push_named(found, subjects, place, subject)
}

/// Adds the place of a cell's object that isn't there.
fn push_object(
    found: &mut Vec<PlaceRow>,
    objects: &NameSet,
    list: &str,
    n: usize,
    object: &str,
) -> Result<(), AllocError>
    ensures { OnOk result
        (map located_view found.new.items
        ≡ map located_view found.old.items
        ++ named_place objects.now list.now n (codes "object") (codes "no such object") object.now) }
{
    let place = Place::member(list, n, "object", "no such object");
    push_named(found, objects, place, object)
}

/// Adds the places of what isn't there of a cell.
fn push_cell(
    found: &mut Vec<PlaceRow>,
    names: &NameSets,
    list: &str,
    n: usize,
    cell: &CellText<'_>,
) -> Result<(), AllocError>
    ensures { OnOk result
        (map located_view found.new.items
        ≡ map located_view found.old.items
        ++ cell_places names.now.subjects names.now.objects list.now n (cell_view cell.now)) }
{
    push_subject(found, &names.subjects, list, n, cell.subject)?;
    push_object(found, &names.objects, list, n, cell.object)?;
    push_modes(found, list, n, cell.modes)
}

/// Adds the places of what isn't there of cells.
fn push_cells(
    found: &mut Vec<PlaceRow>,
    names: &NameSets,
    list: &str,
    cells: &[CellText<'_>],
) -> Result<(), AllocError>
    ensures { OnOk result
        (map located_view found.new.items
        ≡ map located_view found.old.items
        ++ at_each (cell_places names.now.subjects names.now.objects list.now) 0 (map cell_view cells.now)) }
{
    for (n, cell) in cells.iter().enumerate() {
        push_cell(found, names, list, n, cell)?;
    }
    Ok(())
}

/// The places of what isn't there of a file, by these names.
fn unknowns_by(
    alloc: Global,
    names: &NameSets,
    file: &FileText<'_>,
) -> Result<Vec<PlaceRow>, AllocError>
    ensures { IfOk result
        (λ found. map located_view found.items
        ≡ unknown_places names.now.subjects names.now.objects (file_view file.now)) }
{
    let mut found = Vec::new(alloc);
    push_parents(&mut found, &names.objects, &file.children)?;
    push_cells(&mut found, names, "matrix", &file.cells)?;
    push_cells(&mut found, names, "accesses", &file.accesses)?;
    Ok(found)
}

/// The places of what isn't there of a file.
///
/// # Errors
/// As `known_names`.
pub(crate) fn unknowns_found(
    alloc: Global,
    file: &FileText<'_>,
) -> Result<Vec<PlaceRow>, AllocError>
    ensures { IfOk result (λ found. map located_view found.items ≡ unknowns_found (file_view file.now)) }
{
    let names = known_names(alloc, file)?;
    let found = unknowns_by(alloc, &names.sets, file);
    drop(names);
    found
}
