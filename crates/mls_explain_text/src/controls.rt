//! What conditions rest on that compare no two labels.
ghost use Rattle.std.specs.Prelude.{◌≡◌, ◌++◌, codes, string_bytes, OnOk};
ghost use Rattle.mls_requests.specs.ModeWords.{mode_word};
ghost use Rattle.mls_wording.specs.Wording.{object_text, subject_text};
ghost use Rattle.mls_explain_text.specs.Terms.{worded};
ghost use Rattle.mls_explain_text.specs.Bases.{permission_text, trust_text, writing_text, altering_text, root_text};
ghost use Rattle.mls_explain_text.specs.Bases.{parentless_text, unobserving_text, number_text};

use crate::term::either;
use crate::worded::push_worded_number;
use mls_lines::Names;
use mls_requests::mode_word;
use mls_tables::{Mode, ObjectId, SubjectId};
use mls_wording::{push_object, push_subject};
use std::alloc::AllocError;

/// Appends whether a subject is permitted a mode of an object.
pub(crate) fn push_permission(
    text: &mut String,
    names: &Names,
    holds: bool,
    s: SubjectId,
    x: Mode,
    o: ObjectId,
) -> Result<(), AllocError>
    ensures { OnOk result
        (string_bytes text.new ≡ string_bytes text.old ++ permission_text names.now holds s x o) }
{
    push_subject(text, names, s)?;
    text.push_str(either(holds, " is permitted ", " is not permitted "))?;
    text.push_str(mode_word(x))?;
    text.push_str(" of ")?;
    push_object(text, names, o)
}

/// Appends whether a subject is trusted.
pub(crate) fn push_trust(
    text: &mut String,
    names: &Names,
    holds: bool,
    s: SubjectId,
) -> Result<(), AllocError>
    ensures { OnOk result (string_bytes text.new ≡ string_bytes text.old ++ trust_text names.now holds s) }
{
    push_subject(text, names, s)?;
    text.push_str(either(holds, " is trusted", " is not trusted"))
}

/// Appends whether a subject holds write on an object.
pub(crate) fn push_writing(
    text: &mut String,
    names: &Names,
    holds: bool,
    s: SubjectId,
    o: ObjectId,
) -> Result<(), AllocError>
    ensures { OnOk result (string_bytes text.new ≡ string_bytes text.old ++ writing_text names.now holds s o) }
{
    push_subject(text, names, s)?;
    text.push_str(either(holds, " holds write on ", " does not hold write on "))?;
    push_object(text, names, o)
}

/// Appends whether a subject holds append or write on an object.
pub(crate) fn push_altering(
    text: &mut String,
    names: &Names,
    holds: bool,
    s: SubjectId,
    o: ObjectId,
) -> Result<(), AllocError>
    ensures { OnOk result (string_bytes text.new ≡ string_bytes text.old ++ altering_text names.now holds s o) }
{
    push_subject(text, names, s)?;
    text.push_str(either(
        holds,
        " holds append or write on ",
        " holds neither append nor write on ",
    ))?;
    push_object(text, names, o)
}

/// Appends whether an object isn't the root.
pub(crate) fn push_root(
    text: &mut String,
    names: &Names,
    holds: bool,
    o: ObjectId,
) -> Result<(), AllocError>
    ensures { OnOk result (string_bytes text.new ≡ string_bytes text.old ++ root_text names.now holds o) }
{
    push_object(text, names, o)?;
    text.push_str(either(holds, " is not the root", " is the root"))
}

/// Appends that an object has no parent.
pub(crate) fn push_parentless(
    text: &mut String,
    names: &Names,
    o: ObjectId,
) -> Result<(), AllocError>
    ensures { OnOk result (string_bytes text.new ≡ string_bytes text.old ++ parentless_text names.now o) }
{
    push_object(text, names, o)?;
    text.push_str(" has no parent")
}

/// Appends that a mode doesn't observe.
pub(crate) fn push_unobserving(text: &mut String, x: Mode) -> Result<(), AllocError>
    ensures { OnOk result (string_bytes text.new ≡ string_bytes text.old ++ unobserving_text x) }
{
    text.push_str(mode_word(x))?;
    text.push_str(" does not observe")
}

/// Appends whether a number is left, and which is next.
pub(crate) fn push_next(text: &mut String, holds: bool, number: u16) -> Result<(), AllocError>
    ensures { OnOk result (string_bytes text.new ≡ string_bytes text.old ++ number_text holds number) }
{
    if holds {
        push_worded_number(text, "next number is ", number)
    } else {
        text.push_str("no number is left")
    }
}
