//! Where a start file has a member more than once in one object. The last one counts, and is accepted.
ghost use Rattle.std.specs.Prelude.{◌≡◌, ◌==◌, length, map, Some, IfOk};
ghost use Rattle.std.specs.Str.{IsUtf8};
ghost use Rattle.json.specs.Json.{Json, document};
ghost use Rattle.mls_start_faults.specs.PlaceRows.{repeated_bytes};
ghost use Rattle.mls_start_faults.specs.Places.{located_view};
ghost use Rattle.mls_start_faults.specs.Repeated.{repeated_found};

use crate::place_row::{PlaceRow, listed};
use crate::repeats::file_found;
use json::{Error, Scratch, Value};
use mls_rows::{Form, Listing};
use std::alloc::{AllocError, Global};

/// The places of the members that an object of a file has more than once; none of bytes that aren't JSON.
fn bytes_found(alloc: Global, bytes: &[u8]) -> Result<Vec<PlaceRow>, AllocError>
    ensures { IfOk result (λ found. (j : Json) → IsUtf8 bytes.now → document bytes.now ≡ Some j
        → map located_view found.items ≡ repeated_found j) }
{
    let mut scratch = Scratch::new(alloc);
    match Value::from_slice(alloc, bytes, &mut scratch) {
        Ok(file) => file_found(alloc, &file),
        Err(Error::OutOfMemory) => Err(AllocError),
        Err(_) => Ok(Vec::new(alloc)),
    }
}

/// The members that an object of a start file has more than once, a row each in this form: a JSON pointer and
/// `repeated member`, in the file's order. Of each the last counts; what stands within the others isn't looked at.
/// Bytes that aren't JSON have no row. The answer is positive where there is no row.
///
/// # Errors
/// `AllocError` where an allocation failed.
pub fn repeated_members(alloc: Global, form: Form, bytes: &[u8]) -> Result<Listing, AllocError>
    ensures bytes { IfOk result (λ listing. (j : Json) → IsUtf8 bytes.now → document bytes.now ≡ Some j
        → listing.bytes.items ≡ repeated_bytes form j) }
    ensures positive { IfOk result (λ listing. (j : Json) → IsUtf8 bytes.now → document bytes.now ≡ Some j
        → listing.is_positive ≡ (length (repeated_found j) == 0)) }
{
    let found = bytes_found(alloc, bytes)?;
    let listing = listed(alloc, form, &found);
    drop(found);
    listing
}
