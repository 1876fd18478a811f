//! What is wrong with the members of a start file.
ghost use Rattle.std.specs.Prelude.{◌≡◌, ◌++◌, codes, map, OnOk, IfOk};
ghost use Rattle.serde_json.specs.Find.{get, as_array};
ghost use Rattle.serde_json.specs.View.{view, members_view};
ghost use Rattle.mls_start_faults.specs.Each.{at_each};
ghost use Rattle.mls_start_faults.specs.Members.{scheme_at, listed_at, list_at, has_none, objects_at, accesses_at};
ghost use Rattle.mls_start_faults.specs.Members.{is_profile, profile_at, schemes_at, known_at, cells_at, lists_at};
ghost use Rattle.mls_start_faults.specs.Members.{rest_at, file_at, members_found};
ghost use Rattle.mls_start_faults.specs.Places.{located_view};
ghost use Rattle.mls_start_faults.specs.Rows.{rows_at};

use crate::place::{Part, Place};
use crate::place_row::{PlaceRow, push_whole};
use crate::rows::{Row, push_others, push_row, push_scheme};
use crate::writing::push_place;
use serde_json::{Map, Value};
use std::alloc::{AllocError, Global};

/// Adds the places of a required scheme of the file.
fn push_scheme_at(found: &mut Vec<PlaceRow>, file: &Value, scheme: &str) -> Result<(), AllocError>
    ensures { OnOk result
        (map located_view found.new.items
        ≡ map located_view found.old.items ++ scheme_at scheme.now (get scheme.now (view file.now))) }
{
    match file.get(scheme) {
        Some(value) => push_scheme(found, scheme, value),
        None => push_place(found, Place::list(scheme, "missing")),
    }
}

/// Adds the places of the rows of a list.
fn push_rows(
    found: &mut Vec<PlaceRow>,
    row: Row,
    list: &str,
    rows: &[Value],
) -> Result<(), AllocError>
    ensures { OnOk result
        (map located_view found.new.items
        ≡ map located_view found.old.items ++ at_each (rows_at row list.now) 0 (map view rows.now)) }
{
    for (n, value) in rows.iter().enumerate() {
        push_row(found, row, list, n, value)?;
    }
    Ok(())
}

/// Adds the places of what is to be a list of rows.
#[tactic(auto, using(crate::proofs::Trees::listed))]
fn push_listed(
    found: &mut Vec<PlaceRow>,
    row: Row,
    list: &str,
    value: &Value,
) -> Result<(), AllocError>
    ensures { OnOk result
        (map located_view found.new.items
        ≡ map located_view found.old.items ++ listed_at row list.now (as_array (view value.now))) }
{
    match value.as_array() {
        Some(rows) => push_rows(found, row, list, rows),
        None => push_place(found, Place::list(list, "not a list")),
    }
}

/// Adds the places of a required list of rows.
fn push_list(
    found: &mut Vec<PlaceRow>,
    row: Row,
    file: &Value,
    list: &str,
) -> Result<(), AllocError>
    ensures { OnOk result
        (map located_view found.new.items
        ≡ map located_view found.old.items ++ list_at row list.now (get list.now (view file.now))) }
{
    match file.get(list) {
        Some(value) => push_listed(found, row, list, value),
        None => push_place(found, Place::list(list, "missing")),
    }
}

/// Whether a value is a list without items.
fn has_none(value: &Value) -> bool
    ensures { result ≡ has_none (as_array (view value.now)) }
{
    match value.as_array() {
        Some(items) => items.as_slice().is_empty(),
        None => false,
    }
}

/// Adds the places of the objects.
fn push_objects(found: &mut Vec<PlaceRow>, file: &Value) -> Result<(), AllocError>
    ensures { OnOk result
        (map located_view found.new.items
        ≡ map located_view found.old.items ++ objects_at (get (codes "objects") (view file.now))) }
{
    match file.get("objects") {
        Some(value) if has_none(value) => push_place(found, Place::list("objects", "empty")),
        Some(value) => push_listed(found, Row::Object, "objects", value),
        None => push_place(found, Place::list("objects", "missing")),
    }
}

/// Adds the places of the accesses.
fn push_accesses(found: &mut Vec<PlaceRow>, file: &Value) -> Result<(), AllocError>
    ensures { OnOk result
        (map located_view found.new.items
        ≡ map located_view found.old.items ++ accesses_at (get (codes "accesses") (view file.now))) }
{
    match file.get("accesses") {
        Some(value) => push_listed(found, Row::Cell, "accesses", value),
        None => Ok(()),
    }
}

/// Whether a value is the number of a profile.
fn is_profile(value: &Value) -> bool
    ensures { result ≡ is_profile (view value.now) }
{
    match value.as_u64() {
        Some(number) => number == 1 || number == 2,
        None => false,
    }
}

/// Adds the place of the profile.
fn push_profile(found: &mut Vec<PlaceRow>, file: &Value) -> Result<(), AllocError>
    ensures { OnOk result
        (map located_view found.new.items
        ≡ map located_view found.old.items ++ profile_at (get (codes "profile") (view file.now))) }
{
    match file.get("profile") {
        Some(value) if !is_profile(value) => {
            push_place(found, Place::list("profile", "not 1 or 2"))
        }
        _ => Ok(()),
    }
}

/// Adds the places of the schemes.
fn push_schemes(found: &mut Vec<PlaceRow>, file: &Value) -> Result<(), AllocError>
    ensures { OnOk result
        (map located_view found.new.items
        ≡ map located_view found.old.items ++ schemes_at (view file.now)) }
{
    push_scheme_at(found, file, "security")?;
    push_scheme_at(found, file, "integrity")
}

/// Adds the places of the subjects and the objects.
fn push_known(found: &mut Vec<PlaceRow>, file: &Value) -> Result<(), AllocError>
    ensures { OnOk result
        (map located_view found.new.items
        ≡ map located_view found.old.items ++ known_at (view file.now)) }
{
    push_list(found, Row::Subject, file, "subjects")?;
    push_objects(found, file)
}

/// Adds the places of the matrix and the accesses.
fn push_cells(found: &mut Vec<PlaceRow>, file: &Value) -> Result<(), AllocError>
    ensures { OnOk result
        (map located_view found.new.items
        ≡ map located_view found.old.items ++ cells_at (view file.now)) }
{
    push_list(found, Row::Cell, file, "matrix")?;
    push_accesses(found, file)
}

/// Adds the places of the lists.
fn push_lists(found: &mut Vec<PlaceRow>, file: &Value) -> Result<(), AllocError>
    ensures { OnOk result
        (map located_view found.new.items
        ≡ map located_view found.old.items ++ lists_at (view file.now)) }
{
    push_known(found, file)?;
    push_cells(found, file)
}

/// Adds the places of the profile and of the members that no file has.
fn push_rest(
    found: &mut Vec<PlaceRow>,
    file: &Value,
    members: &Map<String, Value>,
) -> Result<(), AllocError>
    ensures { OnOk result
        (map located_view found.new.items
        ≡ map located_view found.old.items ++ rest_at (view file.now) (members_view members.now.entries)) }
{
    let known = [
        "security",
        "integrity",
        "subjects",
        "objects",
        "matrix",
        "accesses",
        "profile",
    ];
    push_profile(found, file)?;
    push_others(found, Part::File, members, &known)
}

/// Adds the places of a file that is an object.
fn push_file(
    found: &mut Vec<PlaceRow>,
    file: &Value,
    members: &Map<String, Value>,
) -> Result<(), AllocError>
    ensures { OnOk result
        (map located_view found.new.items
        ≡ map located_view found.old.items ++ file_at (view file.now) (members_view members.now.entries)) }
{
    push_schemes(found, file)?;
    push_lists(found, file)?;
    push_rest(found, file, members)
}

/// The places of what is wrong with the members of a file.
pub(crate) fn members_found(alloc: Global, file: &Value) -> Result<Vec<PlaceRow>, AllocError>
    ensures { IfOk result (λ found. map located_view found.items ≡ members_found (view file.now)) }
{
    let mut found = Vec::new(alloc);
    match file.as_object() {
        Some(members) => push_file(&mut found, file, members)?,
        None => push_whole(&mut found, "not an object")?,
    }
    Ok(found)
}
