//! Where the tree of a start file has a member more than once in one object.
ghost use Rattle.std.specs.Prelude.{◌≡◌, ◌++◌, nat_lt, map, option_map, Some, IfOk, OnOk};
ghost use Rattle.json.specs.Find.{get};
ghost use Rattle.json.specs.Value.{value_view, members_view};
ghost use Rattle.mls_start_faults.specs.Each.{at_each};
ghost use Rattle.mls_start_faults.specs.Places.{located_view, place_view};
ghost use Rattle.mls_start_faults.specs.Repeated.{count_of, is_repeated, place_where, file_place, name_place};
ghost use Rattle.mls_start_faults.specs.Repeated.{member_place};
ghost use Rattle.mls_start_faults.specs.Repeated.{scheme_places, row_places, list_places, scheme_part, list_part};
ghost use Rattle.mls_start_faults.specs.Repeated.{schemes_part, known_part, cells_part, lists_part, repeated_found};

use crate::place::Place;
use crate::place_row::PlaceRow;
use crate::writing::push_place;
use json::Value;
use std::alloc::{AllocError, Global};

/// What the objects in a list of the file tell of.
#[derive(Clone, Copy)]
enum Kept {
    Subject,
    Object,
    Cell,
}

/// What is told of a member that is repeated.
const REPEATED: &str = "repeated member";

/// Whether a key is that of more than one of these members.
fn is_twice(members: &[(&str, Value<'_>)], key: &str) -> bool
    ensures { result ≡ nat_lt 1 (count_of key.now (members_view members.now)) }
{
    let mut is_found = false;
    for member in members {
        if member.0 == key {
            if is_found {
                return true;
            }
            is_found = true;
        }
    }
    false
}

/// Whether a value is an object that has more than one member of a key.
fn is_repeated(value: &Value<'_>, key: &str) -> bool
    ensures { result ≡ is_repeated key.now (value_view value.now) }
{
    match value {
        Value::Object(members) => is_twice(members, key),
        _ => false,
    }
}

/// Adds a place, where something is so.
fn push_where(found: &mut Vec<PlaceRow>, so: bool, place: Place<'_>) -> Result<(), AllocError>
    ensures { OnOk result
        (map located_view found.new.items
        ≡ map located_view found.old.items ++ place_where so (place_view place.entry)) }
{
    if so { push_place(found, place) } else { Ok(()) }
}

/// Adds the place of a member of the file, where it is repeated.
fn push_file(found: &mut Vec<PlaceRow>, file: &Value<'_>, key: &str) -> Result<(), AllocError>
    ensures { OnOk result
        (map located_view found.new.items
        ≡ map located_view found.old.items ++ file_place (value_view file.now) key.now) }
{
    push_where(found, is_repeated(file, key), Place::list(key, REPEATED))
}

/// Adds the place of a member of a scheme, where it is repeated.
fn push_name(
    found: &mut Vec<PlaceRow>,
    scheme: &str,
    value: &Value<'_>,
    key: &str,
) -> Result<(), AllocError>
    ensures { OnOk result
        (map located_view found.new.items
        ≡ map located_view found.old.items ++ name_place scheme.now (value_view value.now) key.now) }
{
    push_where(
        found,
        is_repeated(value, key),
        Place::names(scheme, key, REPEATED),
    )
}

/// Adds the place of a member of an object in a list, where it is repeated.
fn push_member(
    found: &mut Vec<PlaceRow>,
    list: &str,
    n: usize,
    value: &Value<'_>,
    key: &str,
) -> Result<(), AllocError>
    ensures { OnOk result
        (map located_view found.new.items
        ≡ map located_view found.old.items ++ member_place list.now n (value_view value.now) key.now) }
{
    push_where(
        found,
        is_repeated(value, key),
        Place::member(list, n, key, REPEATED),
    )
}

/// Adds the places within a scheme.
fn push_scheme(found: &mut Vec<PlaceRow>, scheme: &str, value: &Value<'_>) -> Result<(), AllocError>
    ensures { OnOk result
        (map located_view found.new.items
        ≡ map located_view found.old.items ++ scheme_places scheme.now (Some (value_view value.now))) }
{
    push_name(found, scheme, value, "levels")?;
    push_name(found, scheme, value, "categories")
}

/// Adds the places of an object in a list.
fn push_row(
    found: &mut Vec<PlaceRow>,
    kept: Kept,
    list: &str,
    n: usize,
    value: &Value<'_>,
) -> Result<(), AllocError>
    ensures { OnOk result
        (map located_view found.new.items
        ≡ map located_view found.old.items ++ row_places kept list.now n (value_view value.now)) }
{
    match kept {
        Kept::Subject => {
            push_member(found, list, n, value, "name")?;
            push_member(found, list, n, value, "maximum")?;
            push_member(found, list, n, value, "current")?;
            push_member(found, list, n, value, "integrity")?;
            push_member(found, list, n, value, "trusted")
        }
        Kept::Object => {
            push_member(found, list, n, value, "name")?;
            push_member(found, list, n, value, "parent")?;
            push_member(found, list, n, value, "security")?;
            push_member(found, list, n, value, "integrity")
        }
        Kept::Cell => {
            push_member(found, list, n, value, "subject")?;
            push_member(found, list, n, value, "object")?;
            push_member(found, list, n, value, "modes")
        }
    }
}

/// Adds the places of the objects in a list.
fn push_rows(
    found: &mut Vec<PlaceRow>,
    kept: Kept,
    list: &str,
    rows: &[Value<'_>],
) -> Result<(), AllocError>
    ensures { OnOk result
        (map located_view found.new.items
        ≡ map located_view found.old.items ++ at_each (row_places kept list.now) 0 (map value_view rows.now)) }
{
    for n in 0..rows.len() {
        push_row(found, kept, list, n, &rows[n])?;
    }
    Ok(())
}

/// Adds the places of a scheme that is a member of the file, and of its members.
fn push_scheme_part(
    found: &mut Vec<PlaceRow>,
    file: &Value<'_>,
    key: &str,
) -> Result<(), AllocError>
    ensures { OnOk result
        (map located_view found.new.items
        ≡ map located_view found.old.items ++ scheme_part (value_view file.now) key.now) }
{
    push_file(found, file, key)?;
    match file.get(key) {
        Some(value) => push_scheme(found, key, value),
        None => Ok(()),
    }
}

/// Adds the places within a value that is to be a list.
fn push_list(
    found: &mut Vec<PlaceRow>,
    kept: Kept,
    list: &str,
    value: &Value<'_>,
) -> Result<(), AllocError>
    ensures { OnOk result
        (map located_view found.new.items
        ≡ map located_view found.old.items ++ list_places kept list.now (Some (value_view value.now))) }
{
    match value {
        Value::Array(rows) => push_rows(found, kept, list, rows),
        _ => Ok(()),
    }
}

/// Adds the places of a list that is a member of the file, and of the objects in it.
fn push_list_part(
    found: &mut Vec<PlaceRow>,
    file: &Value<'_>,
    kept: Kept,
    key: &str,
) -> Result<(), AllocError>
    ensures { OnOk result
        (map located_view found.new.items
        ≡ map located_view found.old.items ++ list_part (value_view file.now) kept key.now) }
{
    push_file(found, file, key)?;
    match file.get(key) {
        Some(value) => push_list(found, kept, key, value),
        None => Ok(()),
    }
}

/// Adds the places of the schemes of a file.
fn push_schemes(found: &mut Vec<PlaceRow>, file: &Value<'_>) -> Result<(), AllocError>
    ensures { OnOk result
        (map located_view found.new.items
        ≡ map located_view found.old.items ++ schemes_part (value_view file.now)) }
{
    push_scheme_part(found, file, "security")?;
    push_scheme_part(found, file, "integrity")
}

/// Adds the places of the subjects and the objects of a file.
fn push_known(found: &mut Vec<PlaceRow>, file: &Value<'_>) -> Result<(), AllocError>
    ensures { OnOk result
        (map located_view found.new.items
        ≡ map located_view found.old.items ++ known_part (value_view file.now)) }
{
    push_list_part(found, file, Kept::Subject, "subjects")?;
    push_list_part(found, file, Kept::Object, "objects")
}

/// Adds the places of the matrix and the accesses of a file.
fn push_cells(found: &mut Vec<PlaceRow>, file: &Value<'_>) -> Result<(), AllocError>
    ensures { OnOk result
        (map located_view found.new.items
        ≡ map located_view found.old.items ++ cells_part (value_view file.now)) }
{
    push_list_part(found, file, Kept::Cell, "matrix")?;
    push_list_part(found, file, Kept::Cell, "accesses")
}

/// Adds the places of the lists of a file.
fn push_lists(found: &mut Vec<PlaceRow>, file: &Value<'_>) -> Result<(), AllocError>
    ensures { OnOk result
        (map located_view found.new.items
        ≡ map located_view found.old.items ++ lists_part (value_view file.now)) }
{
    push_known(found, file)?;
    push_cells(found, file)
}

/// The places of a file.
pub(crate) fn file_found(alloc: Global, file: &Value<'_>) -> Result<Vec<PlaceRow>, AllocError>
    ensures { IfOk result (λ found. map located_view found.items ≡ repeated_found (value_view file.now)) }
{
    let mut found = Vec::new(alloc);
    push_schemes(&mut found, file)?;
    push_lists(&mut found, file)?;
    push_file(&mut found, file, "profile")?;
    Ok(found)
}
