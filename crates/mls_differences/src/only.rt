//! The names that only one of two starts has.
ghost use Rattle.std.specs.Prelude.{◌≡◌, ◌++◌, slice_get, OnOk};
ghost use Rattle.mls_tables.specs.declared.limits.TheConstants.{MAX_OBJECTS, MAX_SUBJECTS};
ghost use Rattle.mls_differences.specs.Singles.{kind_rows, name_rows, names_rows, only_rows};

use crate::only_listed::{push_categories, push_levels, push_name};
use crate::side::{Area, Side};
use crate::single::{Kind, Single};
use mls_lines::Names;
use mls_tables::{MAX_OBJECTS, MAX_SUBJECTS, ObjectId, SubjectId};
use std::alloc::{AllocError, Global};

/// Adds the row of the subject of a number, where a start has it and the other hasn't.
fn push_subject(
    rows: &mut Vec<Single>,
    side: Side,
    names: &Names,
    others: &Names,
    n: u16,
) -> Result<(), AllocError>
    ensures { OnOk result (rows.new.items ≡ rows.old.items
        ++ name_rows side Kind.Subject others.now.subjects n (slice_get names.now.subjects n)) }
{
    if let Some(name) = names.subject_name(SubjectId(n)) {
        push_name(rows, side, Kind::Subject, n, others.subject(name).is_some())?;
    }
    Ok(())
}

/// Adds the row of the object of a number, where a start has it and the other hasn't.
fn push_object(
    rows: &mut Vec<Single>,
    side: Side,
    names: &Names,
    others: &Names,
    n: u16,
) -> Result<(), AllocError>
    ensures { OnOk result (rows.new.items ≡ rows.old.items
        ++ name_rows side Kind.Object others.now.objects n (slice_get names.now.objects n)) }
{
    if let Some(name) = names.object_name(ObjectId(n)) {
        push_name(rows, side, Kind::Object, n, others.object(name).is_some())?;
    }
    Ok(())
}

/// Adds the rows of the subjects that a start has and the other hasn't, by number.
fn push_subjects(
    rows: &mut Vec<Single>,
    side: Side,
    names: &Names,
    others: &Names,
) -> Result<(), AllocError>
    ensures { OnOk result (rows.new.items ≡ rows.old.items
        ++ names_rows side Kind.Subject names.now.subjects others.now.subjects MAX_SUBJECTS) }
{
    for n in 0..MAX_SUBJECTS {
        push_subject(rows, side, names, others, n)?;
    }
    Ok(())
}

/// Adds the rows of the objects that a start has and the other hasn't, by number.
fn push_objects(
    rows: &mut Vec<Single>,
    side: Side,
    names: &Names,
    others: &Names,
) -> Result<(), AllocError>
    ensures { OnOk result (rows.new.items ≡ rows.old.items
        ++ names_rows side Kind.Object names.now.objects others.now.objects MAX_OBJECTS) }
{
    for n in 0..MAX_OBJECTS {
        push_object(rows, side, names, others, n)?;
    }
    Ok(())
}

/// Adds the rows of the subjects, then of the objects, that only one of two starts has, of each kind the first start's
/// first.
fn push_things(rows: &mut Vec<Single>, names: (&Names, &Names)) -> Result<(), AllocError>
    ensures { OnOk result (rows.new.items ≡ rows.old.items
        ++ kind_rows names.entry.0.now names.entry.1.now Kind.Subject
        ++ kind_rows names.entry.0.now names.entry.1.now Kind.Object) }
{
    push_subjects(rows, Side::First, names.0, names.1)?;
    push_subjects(rows, Side::Second, names.1, names.0)?;
    push_objects(rows, Side::First, names.0, names.1)?;
    push_objects(rows, Side::Second, names.1, names.0)
}

/// Adds the rows of the names that only one of two starts has: levels and categories of security, then of integrity,
/// subjects, objects; of each kind the first start's first.
pub(crate) fn push_only(
    alloc: Global,
    rows: &mut Vec<Single>,
    names: (&Names, &Names),
) -> Result<(), AllocError>
    ensures { OnOk result (rows.new.items ≡ rows.old.items ++ only_rows names.entry.0.now names.entry.1.now) }
{
    push_levels(alloc, rows, names, Area::Security)?;
    push_categories(alloc, rows, names, Area::Security)?;
    push_levels(alloc, rows, names, Area::Integrity)?;
    push_categories(alloc, rows, names, Area::Integrity)?;
    push_things(rows, names)
}
