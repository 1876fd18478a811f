//! Words and what they introduce.
ghost use Rattle.std.specs.Prelude.{◌≡◌, ◌++◌, string_bytes, OnOk};
ghost use Rattle.std.specs.Fmt.{decimal};
ghost use Rattle.mls_wording.specs.Wording.{object_text, subject_text, security_text, integrity_text};
ghost use Rattle.mls_explain_text.specs.Terms.{worded};

use mls_labels::{IntLabel, SecLabel};
use mls_lines::Names;
use mls_tables::{ObjectId, SubjectId};
use mls_wording::{push_integrity, push_number, push_object, push_security, push_subject};
use std::alloc::AllocError;

/// Appends words and a number.
pub(crate) fn push_worded_number(
    text: &mut String,
    words: &str,
    number: u16,
) -> Result<(), AllocError>
    ensures { OnOk result (string_bytes text.new ≡ string_bytes text.old ++ worded words.now (decimal number)) }
{
    text.push_str(words)?;
    push_number(text, u64::from(number))
}

/// Appends words and a subject.
pub(crate) fn push_worded_subject(
    text: &mut String,
    names: &Names,
    words: &str,
    s: SubjectId,
) -> Result<(), AllocError>
    ensures { OnOk result
        (string_bytes text.new ≡ string_bytes text.old ++ worded words.now (subject_text names.now s)) }
{
    text.push_str(words)?;
    push_subject(text, names, s)
}

/// Appends words and an object.
pub(crate) fn push_worded_object(
    text: &mut String,
    names: &Names,
    words: &str,
    o: ObjectId,
) -> Result<(), AllocError>
    ensures { OnOk result
        (string_bytes text.new ≡ string_bytes text.old ++ worded words.now (object_text names.now o)) }
{
    text.push_str(words)?;
    push_object(text, names, o)
}

/// Appends words and a security label.
pub(crate) fn push_worded_security(
    text: &mut String,
    names: &Names,
    words: &str,
    l: SecLabel,
) -> Result<(), AllocError>
    ensures { OnOk result
        (string_bytes text.new ≡ string_bytes text.old ++ worded words.now (security_text names.now l)) }
{
    text.push_str(words)?;
    push_security(text, names, l)
}

/// Appends words and an integrity label.
pub(crate) fn push_worded_integrity(
    text: &mut String,
    names: &Names,
    words: &str,
    i: IntLabel,
) -> Result<(), AllocError>
    ensures { OnOk result
        (string_bytes text.new ≡ string_bytes text.old ++ worded words.now (integrity_text names.now i)) }
{
    text.push_str(words)?;
    push_integrity(text, names, i)
}
