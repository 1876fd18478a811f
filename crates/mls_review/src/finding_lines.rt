//! The lines of findings.
ghost use Rattle.std.specs.Prelude.{◌≡◌, ◌++◌, string_bytes, OnOk};
ghost use Rattle.mls_review.specs.LintRows.{dead_line, unused_line, idle_line, pairs_word, downflow_line};

use crate::dead::Dead;
use crate::downflow::Downflow;
use mls_lines::Names;
use mls_requests::mode_word;
use mls_tables::{ObjectId, SubjectId};
use mls_wording::{push_number, push_object, push_subject};
use std::alloc::AllocError;

/// Appends the line of a dead permission.
pub(crate) fn push_dead(text: &mut String, names: &Names, d: &Dead) -> Result<(), AllocError>
    ensures { OnOk result (string_bytes text.new ≡ string_bytes text.old ++ dead_line names.now d.now) }
{
    text.push_str("dead: ")?;
    push_subject(text, names, d.subject)?;
    text.push_str(" ")?;
    text.push_str(mode_word(d.mode))?;
    text.push_str(" ")?;
    push_object(text, names, d.object)?;
    text.push_str(": ")?;
    text.push_str(d.reason.word())?;
    text.push_str("\n")
}

/// Appends the line of an object without a permission of use.
pub(crate) fn push_unused(text: &mut String, names: &Names, o: ObjectId) -> Result<(), AllocError>
    ensures { OnOk result (string_bytes text.new ≡ string_bytes text.old ++ unused_line names.now o) }
{
    text.push_str("unused: ")?;
    push_object(text, names, o)?;
    text.push_str("\n")
}

/// Appends the line of a subject without a permission of use.
pub(crate) fn push_idle(text: &mut String, names: &Names, s: SubjectId) -> Result<(), AllocError>
    ensures { OnOk result (string_bytes text.new ≡ string_bytes text.old ++ idle_line names.now s) }
{
    text.push_str("idle: ")?;
    push_subject(text, names, s)?;
    text.push_str("\n")
}

/// The word for so many pairs.
fn pairs_word(count: u32) -> &'static str
    ensures { result.now ≡ pairs_word count }
{
    if count == 1 {
        " pair, as "
    } else {
        " pairs, as "
    }
}

/// Appends the line of a flow downwards.
pub(crate) fn push_downflow(
    text: &mut String,
    names: &Names,
    f: &Downflow,
) -> Result<(), AllocError>
    ensures { OnOk result (string_bytes text.new ≡ string_bytes text.old ++ downflow_line names.now f.now) }
{
    text.push_str("downflow: ")?;
    push_subject(text, names, f.subject)?;
    text.push_str(": ")?;
    push_number(text, u64::from(f.pairs))?;
    text.push_str(pairs_word(f.pairs))?;
    push_object(text, names, f.from)?;
    text.push_str(" to ")?;
    push_object(text, names, f.to)?;
    text.push_str("\n")
}
