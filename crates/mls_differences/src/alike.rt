//! Labels that two starts have otherwise.
ghost use Rattle.std.specs.Prelude.{◌≡◌, ◌++◌, IfOk, OnOk};
ghost use Rattle.mls_differences.specs.Alike.{carried_label, is_like, label_read};
ghost use Rattle.mls_differences.specs.Sides.{row_unless};

use crate::change::{Change, push_change};
use mls_labels::{IntLabel, Label, LabelFault, Scheme, SecLabel};
use mls_lines::Names;
use std::alloc::{AllocError, Global};

/// The label that was read, where one was.
fn label_read(read: Result<Label, LabelFault>) -> Option<Label>
    ensures { result ≡ label_read read }
{
    match read {
        Ok(label) => Some(label),
        Err(_) => None,
    }
}

/// The counterpart of a label, looked up by the names that it has.
///
/// # Errors
/// `AllocError` where an allocation failed.
pub fn carried_label(
    alloc: Global,
    scheme: &Scheme,
    other: &Scheme,
    label: Label,
) -> Result<Option<Label>, AllocError>
    ensures { IfOk result (λ to. to ≡ carried_label scheme.now other.now label) }
{
    if !scheme.has(label) {
        return Ok(None);
    }
    let mut text = String::new(alloc);
    scheme.write(label, &mut text)?;
    Ok(label_read(other.read(&text)))
}

/// Whether a label of another scheme is the counterpart of a label.
fn is_like(
    alloc: Global,
    scheme: &Scheme,
    other: &Scheme,
    label: Label,
    there: &Label,
) -> Result<bool, AllocError>
    ensures { IfOk result (λ like. like ≡ is_like scheme.now other.now label there.now) }
{
    match carried_label(alloc, scheme, other, label)? {
        Some(carried) => Ok(carried == *there),
        None => Ok(false),
    }
}

/// Adds a row of two security labels, where they aren't alike by name.
pub(crate) fn push_security(
    alloc: Global,
    rows: &mut Vec<Change>,
    names: (&Names, &Names),
    here: &SecLabel,
    there: &SecLabel,
    change: Change,
) -> Result<(), AllocError>
    ensures { OnOk result (rows.new.items ≡ rows.old.items ++ row_unless
        (is_like names.entry.0.now.security names.entry.1.now.security here.now there.now) change) }
{
    let like = is_like(
        alloc,
        names.0.security(),
        names.1.security(),
        here.label(),
        &there.label(),
    )?;
    if like {
        return Ok(());
    }
    push_change(rows, change)
}

/// Adds a row of two integrity labels, where they aren't alike by name.
pub(crate) fn push_integrity(
    alloc: Global,
    rows: &mut Vec<Change>,
    names: (&Names, &Names),
    here: &IntLabel,
    there: &IntLabel,
    change: Change,
) -> Result<(), AllocError>
    ensures { OnOk result (rows.new.items ≡ rows.old.items ++ row_unless
        (is_like names.entry.0.now.integrity names.entry.1.now.integrity here.now there.now) change) }
{
    let like = is_like(
        alloc,
        names.0.integrity(),
        names.1.integrity(),
        here.label(),
        &there.label(),
    )?;
    if like {
        return Ok(());
    }
    push_change(rows, change)
}
