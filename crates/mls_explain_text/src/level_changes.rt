//! What conditions rest on that speak of many accesses, or of all children, at a new label.
ghost use Rattle.std.specs.Prelude.{◌≡◌, ◌++◌, codes, string_bytes, OnOk};
ghost use Rattle.mls_wording.specs.Wording.{object_text, subject_text, security_text};
ghost use Rattle.mls_explain_text.specs.Bases.{all_text, holdings_text, children_text, observers_text, holders_text};

use crate::term::either;
use mls_labels::SecLabel;
use mls_lines::Names;
use mls_tables::{ObjectId, SubjectId};
use mls_wording::{push_object, push_security, push_subject};
use std::alloc::AllocError;

/// Appends an object between words, and a label after them.
fn push_all(
    text: &mut String,
    names: &Names,
    before: &str,
    o: ObjectId,
    after: &str,
    l: SecLabel,
) -> Result<(), AllocError>
    ensures { OnOk result (string_bytes text.new
        ≡ string_bytes text.old ++ all_text names.now before.now o after.now l) }
{
    text.push_str(before)?;
    push_object(text, names, o)?;
    text.push_str(after)?;
    push_security(text, names, l)
}

/// Appends whether all that a subject holds meets star at a new label.
pub(crate) fn push_holdings(
    text: &mut String,
    names: &Names,
    holds: bool,
    s: SubjectId,
    l: SecLabel,
) -> Result<(), AllocError>
    ensures { OnOk result (string_bytes text.new ≡ string_bytes text.old ++ holdings_text names.now holds s l) }
{
    text.push_str(either(holds, "all that ", "not all that "))?;
    push_subject(text, names, s)?;
    text.push_str(" holds meets star at new ")?;
    push_security(text, names, l)
}

/// Appends whether each child of an object dominates a new label.
pub(crate) fn push_children(
    text: &mut String,
    names: &Names,
    holds: bool,
    o: ObjectId,
    l: SecLabel,
) -> Result<(), AllocError>
    ensures { OnOk result (string_bytes text.new ≡ string_bytes text.old ++ children_text names.now holds o l) }
{
    let before = either(holds, "each child of ", "not each child of ");
    push_all(text, names, before, o, " dominates new ", l)
}

/// Appends whether all that observe an object meet simple security at a new label.
pub(crate) fn push_observers(
    text: &mut String,
    names: &Names,
    holds: bool,
    o: ObjectId,
    l: SecLabel,
) -> Result<(), AllocError>
    ensures { OnOk result (string_bytes text.new ≡ string_bytes text.old ++ observers_text names.now holds o l) }
{
    let before = either(holds, "all that observe ", "not all that observe ");
    push_all(text, names, before, o, " meet simple at new ", l)
}

/// Appends whether all that hold an object meet star at a new label.
pub(crate) fn push_holders(
    text: &mut String,
    names: &Names,
    holds: bool,
    o: ObjectId,
    l: SecLabel,
) -> Result<(), AllocError>
    ensures { OnOk result (string_bytes text.new ≡ string_bytes text.old ++ holders_text names.now holds o l) }
{
    let before = either(holds, "all that hold ", "not all that hold ");
    push_all(text, names, before, o, " meet star at new ", l)
}
