//! The lines of remedies.
ghost use Rattle.std.specs.Prelude.{◌≡◌, ◌++◌, codes, string_bytes, OnOk};
ghost use Rattle.mls_explain_text.specs.Remedies.{ending_line, gives_text, remedy_lines, step_text};

use crate::step_line::{push_gives, push_step, push_step_lines};
use mls_lines::Names;
use mls_remedies::{Ending, Remedy, Step};
use mls_tables::{Mode, ObjectId, SubjectId};
use std::alloc::AllocError;

/// Appends the line of a request that is granted to others in place of the one that was asked.
fn push_instead(text: &mut String, names: &Names, step: &Step) -> Result<(), AllocError>
    ensures { OnOk result (string_bytes text.new
        ≡ string_bytes text.old ++ codes "remedy: " ++ step_text names.now step.now ++ codes " instead\n") }
{
    text.push_str("remedy: ")?;
    push_step(text, names, step)?;
    text.push_str(" instead\n")
}

/// Appends the line that says that nobody gives a permission.
fn push_nobody(
    text: &mut String,
    names: &Names,
    x: Mode,
    s: SubjectId,
    o: ObjectId,
) -> Result<(), AllocError>
    ensures { OnOk result (string_bytes text.new ≡ string_bytes text.old
        ++ codes "remedy: none now: nobody" ++ gives_text names.now x s o ++ codes "\n") }
{
    text.push_str("remedy: none now: nobody")?;
    push_gives(text, names, x, s, o)?;
    text.push_str("\n")
}

/// Appends the line of what the steps of a remedy lead to.
fn push_ending(text: &mut String, names: &Names, ending: &Ending) -> Result<(), AllocError>
    ensures { OnOk result (string_bytes text.new ≡ string_bytes text.old ++ ending_line names.now ending.now) }
{
    match ending {
        Ending::Asked => Ok(()),
        Ending::Instead(step) => push_instead(text, names, step),
        Ending::NoLevel => text.push_str("remedy: none by level\n"),
        Ending::NoGiver(x, s, o) => push_nobody(text, names, *x, *s, *o),
        Ending::Nothing => text.push_str("remedy: none found\n"),
    }
}

/// Appends the lines of a remedy.
pub(crate) fn push_remedy(
    text: &mut String,
    names: &Names,
    remedy: &Remedy,
) -> Result<(), AllocError>
    ensures { OnOk result (string_bytes text.new ≡ string_bytes text.old
        ++ remedy_lines names.now remedy.now.steps.items remedy.now.ending) }
{
    push_step_lines(text, names, &remedy.steps)?;
    push_ending(text, names, &remedy.ending)
}
