//! The steps of remedies.
ghost use Rattle.std.specs.Prelude.{◌≡◌, ◌++◌, codes, string_bytes, OnOk};
ghost use Rattle.mls_requests.specs.ModeWords.{mode_word};
ghost use Rattle.mls_wording.specs.RequestText.{request_text};
ghost use Rattle.mls_wording.specs.Wording.{object_text, subject_text};
ghost use Rattle.mls_explain_text.specs.Remedies.{asking_text, gives_text, or_text, step_line, step_lines, step_text};

use mls_lines::Names;
use mls_remedies::{Step, Who};
use mls_requests::{Action, Request, mode_word};
use mls_tables::{Mode, ObjectId, SubjectId};
use mls_wording::{push_object, push_request, push_subject};
use std::alloc::AllocError;

/// Appends who gives what to whom, behind the giver.
pub(crate) fn push_gives(
    text: &mut String,
    names: &Names,
    x: Mode,
    t: SubjectId,
    o: ObjectId,
) -> Result<(), AllocError>
    ensures { OnOk result (string_bytes text.new ≡ string_bytes text.old ++ gives_text names.now x t o) }
{
    text.push_str(" gives ")?;
    text.push_str(mode_word(x))?;
    text.push_str(" ")?;
    push_object(text, names, o)?;
    text.push_str(" to ")?;
    push_subject(text, names, t)
}

/// Appends a give that a subject is to ask for.
fn push_giver(
    text: &mut String,
    names: &Names,
    s: SubjectId,
    x: Mode,
    t: SubjectId,
    o: ObjectId,
) -> Result<(), AllocError>
    ensures { OnOk result (string_bytes text.new
        ≡ string_bytes text.old ++ subject_text names.now s ++ gives_text names.now x t o) }
{
    push_subject(text, names, s)?;
    push_gives(text, names, x, t, o)
}

/// Appends an action that a subject is to ask for, as a script has it.
fn push_asked(
    text: &mut String,
    names: &Names,
    subject: SubjectId,
    action: &Action,
) -> Result<(), AllocError>
    ensures { OnOk result (string_bytes text.new
        ≡ string_bytes text.old ++ request_text names.now (record { subject = subject; action = action.now })) }
{
    let action = *action;
    push_request(text, names, &Request { subject, action })
}

/// Appends an action that a subject is to ask for.
fn push_asking(
    text: &mut String,
    names: &Names,
    s: SubjectId,
    action: &Action,
) -> Result<(), AllocError>
    ensures { OnOk result (string_bytes text.new ≡ string_bytes text.old ++ asking_text names.now s action.now) }
{
    match action {
        Action::Give(x, t, o) => push_giver(text, names, s, *x, *t, *o),
        action => push_asked(text, names, s, action),
    }
}

/// Appends a subject before another that may ask for the same.
fn push_or(text: &mut String, names: &Names, s: SubjectId) -> Result<(), AllocError>
    ensures { OnOk result (string_bytes text.new ≡ string_bytes text.old ++ or_text names.now s) }
{
    push_subject(text, names, s)?;
    text.push_str(" or ")
}

/// Appends the last two of the subjects that may ask for an action.
fn push_two(
    text: &mut String,
    names: &Names,
    a: SubjectId,
    b: SubjectId,
    action: &Action,
) -> Result<(), AllocError>
    ensures { OnOk result (string_bytes text.new
        ≡ string_bytes text.old ++ or_text names.now a ++ asking_text names.now b action.now) }
{
    push_or(text, names, a)?;
    push_asking(text, names, b, action)
}

/// Appends three subjects that may ask for an action.
fn push_three(
    text: &mut String,
    names: &Names,
    a: SubjectId,
    b: SubjectId,
    c: SubjectId,
    action: &Action,
) -> Result<(), AllocError>
    ensures { OnOk result (string_bytes text.new
        ≡ string_bytes text.old ++ or_text names.now a ++ or_text names.now b ++ asking_text names.now c action.now) }
{
    push_or(text, names, a)?;
    push_two(text, names, b, c, action)
}

/// Appends a step, with the subjects that may make it.
pub(crate) fn push_step(text: &mut String, names: &Names, step: &Step) -> Result<(), AllocError>
    ensures { OnOk result (string_bytes text.new ≡ string_bytes text.old ++ step_text names.now step.now) }
{
    let action = &step.action;
    match &step.who {
        Who::One(a) => push_asking(text, names, *a, action),
        Who::Two(a, b) => push_two(text, names, *a, *b, action),
        Who::Three(a, b, c) => push_three(text, names, *a, *b, *c, action),
    }
}

/// Appends the line of a step.
fn push_step_line(text: &mut String, names: &Names, step: &Step) -> Result<(), AllocError>
    ensures { OnOk result (string_bytes text.new ≡ string_bytes text.old ++ step_line names.now step.now) }
{
    text.push_str("remedy: ")?;
    push_step(text, names, step)?;
    text.push_str("\n")
}

/// Appends the lines of steps.
pub(crate) fn push_step_lines(
    text: &mut String,
    names: &Names,
    steps: &[Step],
) -> Result<(), AllocError>
    ensures { OnOk result (string_bytes text.new ≡ string_bytes text.old ++ step_lines names.now steps.now) }
{
    for step in steps {
        push_step_line(text, names, step)?;
    }
    Ok(())
}
