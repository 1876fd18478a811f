//! Where the matrix of a start file has a permission more than once.
ghost use Rattle.std.specs.Prelude.{◌≡◌, ◌++◌, ◌==◌, [], codes, length, map, string_bytes, IfOk, OnOk};
ghost use Rattle.serde_json.specs.Data.{Data};
ghost use Rattle.serde_json.specs.View.{view};
ghost use Rattle.mls_start_text.specs.Looking.{IsReadAs};
ghost use Rattle.mls_start_text.specs.Views.{text_view, cell_view, file_view};
ghost use Rattle.mls_start_faults.specs.Found.{by_file};
ghost use Rattle.mls_start_faults.specs.Permissions.{by_each, permission_text, looked_at, mode_looked, cell_looked};
ghost use Rattle.mls_start_faults.specs.Permissions.{permissions_found, permissions_bytes};
ghost use Rattle.mls_start_faults.specs.Places.{located_view};

use crate::place::Place;
use crate::place_row::{PlaceRow, listed};
use crate::seen::SeenNames;
use crate::writing::push_place;
use mls_rows::{Form, Listing};
use mls_start_text::{CellText, FileText, LoadFault, read_tree};
use serde_json::Value;
use std::alloc::{AllocError, Global};

/// The text of a permission.
fn permission_text(alloc: Global, cell: &CellText<'_>, word: &str) -> Result<String, AllocError>
    ensures { IfOk result (λ text. string_bytes text ≡ permission_text (cell_view cell.now) word.now) }
{
    let mut text = String::new(alloc);
    text.push_str(cell.subject)?;
    text.push_str(" ")?;
    text.push_str(word)?;
    text.push_str(" ")?;
    text.push_str(cell.object)?;
    Ok(text)
}

/// Looks at a permission of a text.
fn look_at(
    found: &mut Vec<PlaceRow>,
    seen: &mut SeenNames,
    row: usize,
    k: usize,
    text: &str,
) -> Result<(), AllocError>
    ensures { OnOk result
        ((map located_view found.new.items, seen.new)
        ≡ looked_at row k text.now (map located_view found.old.items, seen.old)) }
{
    if seen.insert(*found.allocator(), text)? {
        Ok(())
    } else {
        let place = Place::item("matrix", row, "modes", k, "repeated permission");
        push_place(found, place)
    }
}

/// Looks at a mode of a cell.
fn look_at_mode(
    found: &mut Vec<PlaceRow>,
    seen: &mut SeenNames,
    row: usize,
    cell: &CellText<'_>,
    k: usize,
    word: &Value,
) -> Result<(), AllocError>
    ensures { OnOk result
        ((map located_view found.new.items, seen.new)
        ≡ mode_looked row (cell_view cell.now) k (text_view word.now)
        (map located_view found.old.items, seen.old)) }
{
    let text = permission_text(*found.allocator(), cell, word.as_str().unwrap_or(""))?;
    let looked = look_at(found, seen, row, k, &text);
    drop(text);
    looked
}

/// Looks at a cell.
fn look_at_cell(
    found: &mut Vec<PlaceRow>,
    seen: &mut SeenNames,
    row: usize,
    cell: &CellText<'_>,
) -> Result<(), AllocError>
    ensures { OnOk result
        ((map located_view found.new.items, seen.new)
        ≡ cell_looked row (cell_view cell.now) (map located_view found.old.items, seen.old)) }
{
    for (k, word) in cell.modes.iter().enumerate() {
        look_at_mode(found, seen, row, cell, k, word)?;
    }
    Ok(())
}

/// Looks at cells.
fn look_at_cells(
    found: &mut Vec<PlaceRow>,
    seen: &mut SeenNames,
    cells: &[CellText<'_>],
) -> Result<(), AllocError>
    ensures { OnOk result
        ((map located_view found.new.items, seen.new)
        ≡ by_each cell_looked 0 (map cell_view cells.now) (map located_view found.old.items, seen.old)) }
{
    for (row, cell) in cells.iter().enumerate() {
        look_at_cell(found, seen, row, cell)?;
    }
    Ok(())
}

/// The places of a file.
fn permissions_found(alloc: Global, file: &FileText<'_>) -> Result<Vec<PlaceRow>, AllocError>
    ensures { IfOk result
        (λ found. map located_view found.items ≡ permissions_found (file_view file.now)) }
{
    let mut found = Vec::new(alloc);
    let mut seen = SeenNames::with_room(alloc, file.cells.len())?;
    look_at_cells(&mut found, &mut seen, &file.cells)?;
    drop(seen);
    Ok(found)
}

/// The places of a tree: none where it hasn't the members of a start file.
fn tree_found(alloc: Global, tree: &Value) -> Result<Vec<PlaceRow>, AllocError>
    ensures { IfOk result
        (λ found. map located_view found.items ≡ by_file permissions_found (view tree.now)) }
{
    match FileText::read(alloc, tree) {
        Ok(file) => {
            let found = permissions_found(alloc, &file);
            drop(file);
            found
        }
        Err(LoadFault::Memory) => Err(AllocError),
        Err(_) => Ok(Vec::new(alloc)),
    }
}

/// The places of bytes that are JSON.
fn bytes_found(alloc: Global, bytes: &[u8]) -> Result<Vec<PlaceRow>, AllocError>
    ensures { IfOk result
        (λ found. (d : Data) → IsReadAs bytes.now d → map located_view found.items ≡ by_file permissions_found d) }
{
    match read_tree(alloc, bytes) {
        Ok(tree) => {
            let found = tree_found(alloc, &tree);
            drop(tree);
            found
        }
        Err(_) => Err(AllocError),
    }
}

/// The permissions that the matrix of a start file has more than once, a row each in this form: a JSON pointer to the
/// mode and `repeated permission`, in the file's order, without the first of each. The answer is positive where there
/// is no row.
///
/// # Errors
/// `AllocError` where an allocation failed; also where the bytes aren't JSON, which no caller's are.
pub fn repeated_permissions(alloc: Global, form: Form, bytes: &[u8]) -> Result<Listing, AllocError>
    ensures bytes { IfOk result (λ listing. (d : Data) → IsReadAs bytes.now d
        → listing.bytes.items ≡ permissions_bytes form d) }
    ensures positive { IfOk result (λ listing. (d : Data) → IsReadAs bytes.now d
        → listing.is_positive ≡ (length (by_file permissions_found d) == 0)) }
{
    let found = bytes_found(alloc, bytes)?;
    let listing = listed(alloc, form, &found);
    drop(found);
    listing
}
