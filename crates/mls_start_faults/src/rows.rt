//! What is wrong with the members of a part of a start file.
ghost use Rattle.std.specs.Prelude.{◌≡◌, ◌++◌, [], ◌∷◌, codes, map, option_map, OnOk};
ghost use Rattle.std.specs.List.{flat_map, list_any};
ghost use Rattle.std.specs.Str.{bytes_eq};
ghost use Rattle.serde_json.specs.Find.{get, as_object};
ghost use Rattle.serde_json.specs.View.{view, members_view};
ghost use Rattle.mls_start_faults.specs.Each.{at_each};
ghost use Rattle.mls_start_faults.specs.Places.{key, located_view, part_steps};
ghost use Rattle.mls_start_faults.specs.Rows.{text_words, bool_words, parent_words, member_places, item_places};
ghost use Rattle.mls_start_faults.specs.Rows.{texts_places, unknown_places, keys_of, others_places, text_places};
ghost use Rattle.mls_start_faults.specs.Rows.{scheme_places, subject_places, object_places, cell_places, row_places};
ghost use Rattle.mls_start_faults.specs.Rows.{part_places, rows_at};

use crate::place::{Part, Place};
use crate::place_row::PlaceRow;
use crate::writing::push_place;
use serde_json::{Map, Value};
use std::alloc::AllocError;

/// What a value in a list of the file is to be.
#[derive(Clone, Copy)]
pub(crate) enum Row {
    Subject,
    Object,
    Cell,
}

/// The words for a required member that is to be a text, where it isn't.
fn text_words(value: &Value, member: &str) -> Option<&'static str>
    ensures { option_map (λ words. words.now) result ≡ text_words (get member.now (view value.now)) }
{
    match value.get(member) {
        None => Some("missing"),
        Some(found) if found.is_string() => None,
        Some(_) => Some("not a string"),
    }
}

/// The words for the required member that is to be true or false, where it isn't.
fn trusted_words(value: &Value) -> Option<&'static str>
    ensures { option_map (λ words. words.now) result ≡ bool_words (get (codes "trusted") (view value.now)) }
{
    match value.get("trusted") {
        None => Some("missing"),
        Some(found) if found.is_boolean() => None,
        Some(_) => Some("not true or false"),
    }
}

/// The words for the parent of the object of a number, where it isn't one.
fn parent_words(value: &Value, n: usize) -> Option<&'static str>
    ensures { option_map (λ words. words.now) result ≡ parent_words n (get (codes "parent") (view value.now)) }
{
    if n > 0 {
        return text_words(value, "parent");
    }
    match value.get("parent") {
        None => Some("missing"),
        Some(found) if found.is_null() => None,
        Some(_) => Some("not null"),
    }
}

/// Adds the place of a member of a part, where there are words for it.
fn push_member(
    found: &mut Vec<PlaceRow>,
    part: Part<'_>,
    member: &str,
    words: Option<&'static str>,
) -> Result<(), AllocError>
    ensures { OnOk result
        (map located_view found.new.items
        ≡ map located_view found.old.items
        ++ member_places (part_steps part.entry) member.now (option_map (λ words. words.now) words.entry)) }
{
    match words {
        Some(words) => push_place(found, part.member(member, words)),
        None => Ok(()),
    }
}

/// Adds the place of a required member of a part that is to be a text.
fn push_text(
    found: &mut Vec<PlaceRow>,
    part: Part<'_>,
    value: &Value,
    member: &str,
) -> Result<(), AllocError>
    ensures { OnOk result
        (map located_view found.new.items
        ≡ map located_view found.old.items ++ text_places (part_steps part.entry) member.now (view value.now)) }
{
    push_member(found, part, member, text_words(value, member))
}

/// Adds the place of an item that is to be a text, of a member of a part.
fn push_item(
    found: &mut Vec<PlaceRow>,
    part: Part<'_>,
    member: &str,
    k: usize,
    item: &Value,
) -> Result<(), AllocError>
    ensures { OnOk result
        (map located_view found.new.items
        ≡ map located_view found.old.items ++ item_places (part_steps part.entry) member.now k (view item.now)) }
{
    if item.is_string() {
        Ok(())
    } else {
        push_place(found, part.item(member, k, "not a string"))
    }
}

/// Adds the places of items that are to be texts, of a member of a part.
fn push_items(
    found: &mut Vec<PlaceRow>,
    part: Part<'_>,
    member: &str,
    items: &[Value],
) -> Result<(), AllocError>
    ensures { OnOk result
        (map located_view found.new.items
        ≡ map located_view found.old.items
        ++ at_each (item_places (part_steps part.entry) member.now) 0 (map view items.now)) }
{
    for (k, item) in items.iter().enumerate() {
        push_item(found, part, member, k, item)?;
    }
    Ok(())
}

/// Adds the places of a required member of a part that is to be a list of texts.
#[tactic(auto, using(crate::proofs::Trees::listed))]
fn push_texts(
    found: &mut Vec<PlaceRow>,
    part: Part<'_>,
    value: &Value,
    member: &str,
) -> Result<(), AllocError>
    ensures { OnOk result
        (map located_view found.new.items
        ≡ map located_view found.old.items
        ++ texts_places (part_steps part.entry) member.now (get member.now (view value.now))) }
{
    let Some(list) = value.get(member) else {
        return push_member(found, part, member, Some("missing"));
    };
    match list.as_array() {
        Some(items) => push_items(found, part, member, items),
        None => push_member(found, part, member, Some("not a list")),
    }
}

/// Whether a key is one of these.
fn is_among(key: &str, known: &[&str]) -> bool
    ensures { result ≡ list_any (bytes_eq key.now) (map (λ key. key.now) known.now) }
{
    known.contains(&key)
}

/// Adds the place of a member of a part whose key isn't one of these.
fn push_unknown(
    found: &mut Vec<PlaceRow>,
    part: Part<'_>,
    member: &str,
    known: &[&str],
) -> Result<(), AllocError>
    ensures { OnOk result
        (map located_view found.new.items
        ≡ map located_view found.old.items
        ++ unknown_places (part_steps part.entry) (map (λ key. key.now) known.now) member.now) }
{
    if is_among(member, known) {
        Ok(())
    } else {
        push_place(found, part.member(member, "unknown member"))
    }
}

/// Adds the places of the members of a part beside those of these keys.
#[tactic(auto, using(crate::proofs::Trees::keys_listed))]
pub(crate) fn push_others(
    found: &mut Vec<PlaceRow>,
    part: Part<'_>,
    members: &Map<String, Value>,
    known: &[&str],
) -> Result<(), AllocError>
    ensures { OnOk result
        (map located_view found.new.items
        ≡ map located_view found.old.items
        ++ others_places (part_steps part.entry) (map (λ key. key.now) known.now)
        (members_view members.now.entries)) }
{
    for member in members.keys() {
        push_unknown(found, part, member, known)?;
    }
    Ok(())
}

/// Adds the places of a scheme that is an object.
fn push_scheme_members(
    found: &mut Vec<PlaceRow>,
    part: Part<'_>,
    value: &Value,
    members: &Map<String, Value>,
) -> Result<(), AllocError>
    ensures { OnOk result
        (map located_view found.new.items
        ≡ map located_view found.old.items
        ++ scheme_places (part_steps part.entry) (view value.now) (members_view members.now.entries)) }
{
    push_texts(found, part, value, "levels")?;
    push_texts(found, part, value, "categories")?;
    push_others(found, part, members, &["levels", "categories"])
}

/// Adds the places of a scheme.
pub(crate) fn push_scheme(
    found: &mut Vec<PlaceRow>,
    scheme: &str,
    value: &Value,
) -> Result<(), AllocError>
    ensures { OnOk result
        (map located_view found.new.items
        ≡ map located_view found.old.items
        ++ part_places (key scheme.now ∷ []) (scheme_places (key scheme.now ∷ []) (view value.now))
        (as_object (view value.now))) }
{
    match value.as_object() {
        Some(members) => push_scheme_members(found, Part::Scheme(scheme), value, members),
        None => push_place(found, Place::list(scheme, "not an object")),
    }
}

/// Adds the places of a subject that is an object.
fn push_subject(
    found: &mut Vec<PlaceRow>,
    part: Part<'_>,
    value: &Value,
    members: &Map<String, Value>,
) -> Result<(), AllocError>
    ensures { OnOk result
        (map located_view found.new.items
        ≡ map located_view found.old.items
        ++ subject_places (part_steps part.entry) (view value.now) (members_view members.now.entries)) }
{
    push_text(found, part, value, "name")?;
    push_text(found, part, value, "maximum")?;
    push_text(found, part, value, "current")?;
    push_text(found, part, value, "integrity")?;
    push_member(found, part, "trusted", trusted_words(value))?;
    let known = ["name", "maximum", "current", "integrity", "trusted"];
    push_others(found, part, members, &known)
}

/// Adds the places of the object of a number that is a JSON object.
fn push_object(
    found: &mut Vec<PlaceRow>,
    part: Part<'_>,
    n: usize,
    value: &Value,
    members: &Map<String, Value>,
) -> Result<(), AllocError>
    ensures { OnOk result
        (map located_view found.new.items
        ≡ map located_view found.old.items
        ++ object_places (part_steps part.entry) n (view value.now) (members_view members.now.entries)) }
{
    push_text(found, part, value, "name")?;
    push_member(found, part, "parent", parent_words(value, n))?;
    push_text(found, part, value, "security")?;
    push_text(found, part, value, "integrity")?;
    let known = ["name", "parent", "security", "integrity"];
    push_others(found, part, members, &known)
}

/// Adds the places of a cell that is an object.
fn push_cell(
    found: &mut Vec<PlaceRow>,
    part: Part<'_>,
    value: &Value,
    members: &Map<String, Value>,
) -> Result<(), AllocError>
    ensures { OnOk result
        (map located_view found.new.items
        ≡ map located_view found.old.items
        ++ cell_places (part_steps part.entry) (view value.now) (members_view members.now.entries)) }
{
    push_text(found, part, value, "subject")?;
    push_text(found, part, value, "object")?;
    push_texts(found, part, value, "modes")?;
    push_others(found, part, members, &["subject", "object", "modes"])
}

/// Adds the places of a row of a number that is an object.
fn push_row_members(
    found: &mut Vec<PlaceRow>,
    row: Row,
    part: Part<'_>,
    n: usize,
    value: &Value,
    members: &Map<String, Value>,
) -> Result<(), AllocError>
    ensures { OnOk result
        (map located_view found.new.items
        ≡ map located_view found.old.items
        ++ row_places row (part_steps part.entry) n (view value.now) (members_view members.now.entries)) }
{
    match row {
        Row::Subject => push_subject(found, part, value, members),
        Row::Object => push_object(found, part, n, value, members),
        Row::Cell => push_cell(found, part, value, members),
    }
}

/// Adds the places of the row of a number in a list.
pub(crate) fn push_row(
    found: &mut Vec<PlaceRow>,
    row: Row,
    list: &str,
    n: usize,
    value: &Value,
) -> Result<(), AllocError>
    ensures { OnOk result
        (map located_view found.new.items
        ≡ map located_view found.old.items ++ rows_at row list.now n (view value.now)) }
{
    match value.as_object() {
        Some(members) => push_row_members(found, row, Part::Row(list, n), n, value, members),
        None => push_place(found, Place::row(list, n, "not an object")),
    }
}
