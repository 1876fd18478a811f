//! The lines of what one of two starts alone has.
ghost use Rattle.std.specs.Prelude.{◌≡◌, ◌++◌, string_bytes, OnOk};
ghost use Rattle.mls_differences.specs.SingleForms.{area_text, get_text, only_line, triple_line};

use crate::side::Area;
use crate::single::{Kind, table_word};
use mls_lines::Names;
use mls_requests::mode_word;
use mls_state::Table;
use mls_tables::{Mode, ObjectId, SubjectId};
use mls_wording::{push_object, push_subject};
use std::alloc::AllocError;

/// Appends a subject, a mode and an object.
pub(crate) fn push_get(
    text: &mut String,
    names: &Names,
    s: SubjectId,
    o: ObjectId,
    x: Mode,
) -> Result<(), AllocError>
    ensures { OnOk result (string_bytes text.new ≡ string_bytes text.old ++ get_text names.now s o x) }
{
    push_subject(text, names, s)?;
    text.push_str(" ")?;
    text.push_str(mode_word(x))?;
    text.push_str(" ")?;
    push_object(text, names, o)
}

/// Appends the line of a triple of a table that a file alone has.
pub(crate) fn push_triple(
    text: &mut String,
    table: Table,
    names: &Names,
    access: (SubjectId, ObjectId, Mode),
    file: &str,
) -> Result<(), AllocError>
    ensures { OnOk result (string_bytes text.new ≡ string_bytes text.old
        ++ triple_line table names.now access.0 access.1 access.2 file.now) }
{
    text.push_str(table_word(table))?;
    text.push_str(" ")?;
    push_get(text, names, access.0, access.1, access.2)?;
    text.push_str(": only in ")?;
    text.push_str(file)?;
    text.push_str("\n")
}

/// Appends the word of a scheme, and a space.
fn push_area(text: &mut String, area: Option<Area>) -> Result<(), AllocError>
    ensures { OnOk result (string_bytes text.new ≡ string_bytes text.old ++ area_text area) }
{
    if let Some(area) = area {
        text.push_str(area.word())?;
        text.push_str(" ")?;
    }
    Ok(())
}

/// Appends the line of a name of a kind that a file alone has.
pub(crate) fn push_only(
    text: &mut String,
    file: &str,
    kind: Kind,
    name: &str,
) -> Result<(), AllocError>
    ensures { OnOk result (string_bytes text.new ≡ string_bytes text.old ++ only_line file.now kind name.now) }
{
    text.push_str("only in ")?;
    text.push_str(file)?;
    text.push_str(": ")?;
    push_area(text, kind.area())?;
    text.push_str(kind.word())?;
    text.push_str(" ")?;
    text.push_str(name)?;
    text.push_str("\n")
}
