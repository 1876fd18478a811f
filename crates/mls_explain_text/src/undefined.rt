//! What a request names and isn't there.
ghost use Rattle.std.specs.Prelude.{◌≡◌, ◌++◌, codes, string_bytes, OnOk};
ghost use Rattle.mls_explain.specs.Unknowns.{unknowns};
ghost use Rattle.mls_explain_text.specs.Terms.{worded};
ghost use Rattle.mls_explain_text.specs.Explained.{unknown_text, unknown_line, unknown_lines, undefined_text};

use crate::worded::{
    push_worded_integrity, push_worded_object, push_worded_security, push_worded_subject,
};
use mls_explain::Unknown;
use mls_lines::Names;
use std::alloc::AllocError;

/// Appends what isn't there.
fn push_unknown(text: &mut String, names: &Names, unknown: &Unknown) -> Result<(), AllocError>
    ensures { OnOk result (string_bytes text.new ≡ string_bytes text.old ++ unknown_text names.now unknown.now) }
{
    match *unknown {
        Unknown::Subject(s) => push_worded_subject(text, names, "unknown subject: ", s),
        Unknown::Object(o) => push_worded_object(text, names, "inactive object: ", o),
        Unknown::Security(l) => {
            push_worded_security(text, names, "security label outside the scheme: ", l)
        }
        Unknown::Integrity(i) => {
            push_worded_integrity(text, names, "integrity label outside the scheme: ", i)
        }
    }
}

/// Appends the line of what isn't there.
fn push_line(text: &mut String, names: &Names, unknown: &Unknown) -> Result<(), AllocError>
    ensures { OnOk result (string_bytes text.new ≡ string_bytes text.old ++ unknown_line names.now unknown.now) }
{
    push_unknown(text, names, unknown)?;
    text.push_str("\n")
}

/// Appends the lines of what isn't there.
fn push_lines(text: &mut String, names: &Names, unknown: &[Unknown]) -> Result<(), AllocError>
    ensures { OnOk result (string_bytes text.new ≡ string_bytes text.old ++ unknown_lines names.now unknown.now) }
{
    for one in unknown {
        push_line(text, names, one)?;
    }
    Ok(())
}

/// Appends the explanation of a request outside the domain, which names these things that aren't there.
pub(crate) fn push_undefined(
    text: &mut String,
    names: &Names,
    unknown: &[Unknown],
) -> Result<(), AllocError>
    ensures { OnOk result (string_bytes text.new ≡ string_bytes text.old ++ undefined_text names.now unknown.now) }
{
    text.push_str("undefined\n")?;
    push_lines(text, names, unknown)
}
