//! The places where the fault of a start file applies.
ghost use Rattle.std.specs.Prelude.{◌≡◌, IfOk, map};
ghost use Rattle.serde_json.specs.Data.{Data};
ghost use Rattle.serde_json.specs.View.{view};
ghost use Rattle.mls_start_text.specs.Looking.{IsReadAs};
ghost use Rattle.mls_start_file.specs.Says.{RefusesStart};
ghost use Rattle.mls_start_text.specs.Views.{file_view};
ghost use Rattle.mls_start_faults.specs.JsonPlaces.{TellsJson};
ghost use Rattle.mls_start_faults.specs.Found.{file_found, by_file, places_found};
ghost use Rattle.mls_start_faults.specs.PlaceRows.{file_bytes, places_bytes};
ghost use Rattle.mls_start_faults.specs.Places.{located_view};

use crate::labels::labels_found;
use crate::members::members_found;
use crate::naming::names_found;
use crate::place_row::{PlaceRow, places_written};
use crate::refused_json::json_written;
use crate::schemes::schemes_found;
use crate::starts::start_found;
use crate::unknowns::unknowns_found;
use mls_rows::Form;
use mls_start_text::{FileText, LoadFault, read_tree};
use serde_json::Value;
use std::alloc::{AllocError, Global};

/// The places of a file that has the members of one.
fn file_found(
    alloc: Global,
    fault: LoadFault,
    file: FileText<'_>,
) -> Result<Vec<PlaceRow>, AllocError>
    ensures { IfOk result (λ found. map located_view found.items ≡ file_found fault (file_view file.entry)) }
{
    match fault {
        LoadFault::Scheme(cause) => schemes_found(alloc, cause, &file),
        LoadFault::Name => names_found(alloc, &file),
        LoadFault::Label => labels_found(alloc, &file),
        LoadFault::Unknown => unknowns_found(alloc, &file),
        LoadFault::Start(cause) => start_found(alloc, cause, file),
        LoadFault::Json | LoadFault::Members | LoadFault::Memory => Ok(Vec::new(alloc)),
    }
}

/// The places of a tree for a fault of its file.
///
/// # Errors
/// `AllocError` where an allocation failed; also where the tree hasn't the members of a file, as each caller's has.
fn read_found(alloc: Global, fault: LoadFault, tree: &Value) -> Result<Vec<PlaceRow>, AllocError>
    ensures { IfOk result (λ found. map located_view found.items ≡ by_file (file_found fault) (view tree.now)) }
{
    match FileText::read(alloc, tree) {
        Ok(file) => file_found(alloc, fault, file),
        Err(_) => Err(AllocError),
    }
}

/// The places of a tree.
fn tree_found(alloc: Global, fault: LoadFault, tree: &Value) -> Result<Vec<PlaceRow>, AllocError>
    ensures { IfOk result (λ found. map located_view found.items ≡ places_found fault (view tree.now)) }
{
    match fault {
        LoadFault::Members => members_found(alloc, tree),
        fault => read_found(alloc, fault, tree),
    }
}

/// The places of bytes that are JSON.
fn bytes_found(alloc: Global, bytes: &[u8], fault: LoadFault) -> Result<Vec<PlaceRow>, AllocError>
    ensures { IfOk result
        (λ found. (d : Data) → IsReadAs bytes.now d → map located_view found.items ≡ places_found fault d) }
{
    match read_tree(alloc, bytes) {
        Ok(tree) => {
            let found = tree_found(alloc, fault, &tree);
            drop(tree);
            found
        }
        Err(_) => Err(AllocError),
    }
}

/// The places of bytes that are JSON, in a form.
fn bytes_written(
    alloc: Global,
    form: Form,
    bytes: &[u8],
    fault: LoadFault,
) -> Result<Vec<u8>, AllocError>
    ensures { IfOk result
        (λ out. (d : Data) → IsReadAs bytes.now d → out.items ≡ places_bytes form fault d) }
{
    let found = bytes_found(alloc, bytes, fault)?;
    let written = places_written(alloc, form, &found);
    drop(found);
    written
}

/// The places where the fault applies for which [`read_start`](mls_start_file::read_start) refuses the bytes of a start
/// file, a row each in this form: a JSON pointer and some words, in the file's order. Of `Json` it is the line and the
/// column where the JSON breaks off, and no clause says that these are the right ones.
///
/// # Errors
/// `AllocError` where an allocation failed.
pub fn places(
    alloc: Global,
    form: Form,
    bytes: &[u8],
    fault: LoadFault,
) -> Result<Vec<u8>, AllocError>
    requires refused { RefusesStart bytes.now fault }
    ensures bytes { IfOk result
        (λ out. (d : Data) → IsReadAs bytes.now d → out.items ≡ places_bytes form fault d) }
    ensures json { fault ≡ LoadFault.Json → IfOk result (λ out. TellsJson form bytes.now out.items) }
{
    match fault {
        LoadFault::Json => json_written(alloc, form, bytes),
        fault => bytes_written(alloc, form, bytes, fault),
    }
}

/// The places where a fault applies for which the texts of a file are refused, a row each in this form, as
/// [`places`] has them of a start file with these texts.
///
/// # Errors
/// `AllocError` where an allocation failed.
pub fn file_places(
    alloc: Global,
    form: Form,
    fault: LoadFault,
    file: FileText<'_>,
) -> Result<Vec<u8>, AllocError>
    ensures { IfOk result (λ out. out.items ≡ file_bytes form fault (file_view file.entry)) }
{
    let found = file_found(alloc, fault, file)?;
    let written = places_written(alloc, form, &found);
    drop(found);
    written
}
