//! A short start file's subjects, objects and cells, with what is left out filled in.
ghost use Rattle.std.specs.Prelude.{◌≡◌, ◌≢◌, map, option_map, IfOk, IfErr, Some, None};
ghost use Rattle.serde_json.specs.View.{view};
ghost use Rattle.mls_start_text.specs.Each.{each_of};
ghost use Rattle.mls_start_text.specs.Texts.{cell_of};
ghost use Rattle.mls_start_text.specs.Views.{subject_view, object_view, child_view, cell_view};
ghost use Rattle.mls_complete.specs.Short.{short_subject, subject_extras, short_object, object_extras, short_root};
ghost use Rattle.mls_complete.specs.Short.{short_child};

use crate::looking::{
    are_texts, bool_or, is_bare, list_in, member_count, one_where, text_in, text_or,
};
use mls_start_text::{CellText, ChildText, LoadFault, ObjectText, SubjectText};
use serde_json::Value;
use std::alloc::Global;

/// How many members of a subject are there that may be left out.
fn subject_extras(value: &Value) -> usize
    ensures { result ≡ subject_extras (view value.now) }
{
    one_where(value, "current") + one_where(value, "integrity") + one_where(value, "trusted")
}

/// The subject of a value, with the least integrity where none is told.
fn subject_of<'a>(value: &'a Value, least: &'a str) -> Option<SubjectText<'a>>
    ensures { option_map subject_view result ≡ short_subject least.now (view value.now) }
{
    if member_count(value) != 2 + subject_extras(value) {
        return None;
    }
    let name = text_in(value, "name")?;
    let maximum = text_in(value, "maximum")?;
    let current = text_or(value, "current", maximum)?;
    let integrity = text_or(value, "integrity", least)?;
    let trusted = bool_or(value, "trusted", false)?;
    Some(SubjectText {
        name,
        maximum,
        current,
        integrity,
        trusted,
    })
}

/// The subjects of a list.
///
/// # Errors
/// `Members` where a value hasn't a subject's members, `Memory` where an allocation failed.
pub(crate) fn read_subjects<'a>(
    alloc: Global,
    list: &'a [Value],
    least: &'a str,
) -> Result<Vec<SubjectText<'a>>, LoadFault>
    ensures ok { IfOk result
        (λ rows. each_of (short_subject least.now) (map view list.now) ≡ Some (map subject_view rows.items)) }
    ensures fault { IfErr result
        (λ fault. fault ≢ LoadFault.Memory → (fault ≡ LoadFault.Members)
        × (each_of (short_subject least.now) (map view list.now) ≡ None)) }
{
    let mut rows = Vec::with_capacity(alloc, list.len())?;
    for value in list {
        let Some(row) = subject_of(value, least) else {
            return Err(LoadFault::Members);
        };
        rows.push(row)?;
    }
    Ok(rows)
}

/// How many members of an object are there that may be left out.
fn object_extras(value: &Value) -> usize
    ensures { result ≡ object_extras (view value.now) }
{
    one_where(value, "parent") + one_where(value, "integrity")
}

/// The object of a value, whatever its parent, with the least integrity where none is told.
fn object_of<'a>(value: &'a Value, least: &'a str) -> Option<ObjectText<'a>>
    ensures { option_map object_view result ≡ short_object least.now (view value.now) }
{
    if member_count(value) != 2 + object_extras(value) {
        return None;
    }
    Some(ObjectText {
        name: text_in(value, "name")?,
        security: text_in(value, "security")?,
        integrity: text_or(value, "integrity", least)?,
    })
}

/// The root of a value, where it tells no parent.
pub(crate) fn root_of<'a>(value: &'a Value, least: &'a str) -> Option<ObjectText<'a>>
    ensures { option_map object_view result ≡ short_root least.now (view value.now) }
{
    if is_bare(value) {
        object_of(value, least)
    } else {
        None
    }
}

/// The object of a value below the root, whose name is the parent where none is told.
fn child_of<'a>(value: &'a Value, least: &'a str, root: &'a str) -> Option<ChildText<'a>>
    ensures { option_map child_view result ≡ short_child least.now root.now (view value.now) }
{
    Some(ChildText {
        parent: text_or(value, "parent", root)?,
        object: object_of(value, least)?,
    })
}

/// The objects below the root of a list.
///
/// # Errors
/// `Members` where a value hasn't the members of one, `Memory` where an allocation failed.
pub(crate) fn read_children<'a>(
    alloc: Global,
    list: &'a [Value],
    least: &'a str,
    root: &'a str,
) -> Result<Vec<ChildText<'a>>, LoadFault>
    ensures ok { IfOk result
        (λ rows. each_of (short_child least.now root.now) (map view list.now) ≡ Some (map child_view rows.items)) }
    ensures fault { IfErr result
        (λ fault. fault ≢ LoadFault.Memory → (fault ≡ LoadFault.Members)
        × (each_of (short_child least.now root.now) (map view list.now) ≡ None)) }
{
    let mut rows = Vec::with_capacity(alloc, list.len())?;
    for value in list {
        let Some(row) = child_of(value, least, root) else {
            return Err(LoadFault::Members);
        };
        rows.push(row)?;
    }
    Ok(rows)
}

/// The cell of a value.
#[tactic(auto, using(mls_start_text::proofs::Trees::texts_seen))]
fn cell_of<'a>(value: &'a Value) -> Option<CellText<'a>>
    ensures { option_map cell_view result ≡ cell_of (view value.now) }
{
    if member_count(value) != 3 {
        return None;
    }
    let subject = text_in(value, "subject")?;
    let object = text_in(value, "object")?;
    let modes = list_in(value, "modes")?;
    if !are_texts(modes) {
        return None;
    }
    Some(CellText {
        subject,
        object,
        modes,
    })
}

/// The cells of a list.
///
/// # Errors
/// `Members` where a value hasn't a cell's members, `Memory` where an allocation failed.
pub(crate) fn read_cells<'a>(
    alloc: Global,
    list: &'a [Value],
) -> Result<Vec<CellText<'a>>, LoadFault>
    ensures ok { IfOk result (λ rows. each_of cell_of (map view list.now) ≡ Some (map cell_view rows.items)) }
    ensures fault { IfErr result
        (λ fault. fault ≢ LoadFault.Memory → (fault ≡ LoadFault.Members)
        × (each_of cell_of (map view list.now) ≡ None)) }
{
    let mut rows = Vec::with_capacity(alloc, list.len())?;
    for value in list {
        let Some(row) = cell_of(value) else {
            return Err(LoadFault::Members);
        };
        rows.push(row)?;
    }
    Ok(rows)
}
