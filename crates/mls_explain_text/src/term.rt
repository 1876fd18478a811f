//! Terms, and how two of them compare.
ghost use Rattle.std.specs.Prelude.{◌≡◌, ◌++◌, codes, string_bytes, OnOk, if◌then◌else◌};
ghost use Rattle.mls_explain_text.specs.Terms.{either, worded, term_text, dominance_text, equality_text};

use crate::worded::{
    push_worded_integrity, push_worded_object, push_worded_security, push_worded_subject,
};
use mls_explain::Term;
use mls_lines::Names;
use mls_wording::{push_integrity, push_security};
use std::alloc::AllocError;

/// The first of two texts where it holds, else the second.
pub(crate) fn either(holds: bool, first: &'static str, second: &'static str) -> &'static str
    ensures { result.now ≡ either holds first.now second.now }
{
    if holds { first } else { second }
}

/// Appends a term: a label and what it is the label of.
pub(crate) fn push_term(text: &mut String, names: &Names, term: &Term) -> Result<(), AllocError>
    ensures { OnOk result (string_bytes text.new ≡ string_bytes text.old ++ term_text names.now term.now) }
{
    match *term {
        Term::Maximum(l) => push_worded_security(text, names, "maximum ", l),
        Term::Current(l) => push_worded_security(text, names, "current ", l),
        Term::Security(l) => push_worded_security(text, names, "new ", l),
        Term::Object(l, o) => {
            push_security(text, names, l)?;
            push_worded_object(text, names, " of ", o)
        }
        Term::Integrity(i) => push_worded_integrity(text, names, "new ", i),
        Term::ObjectIntegrity(i, o) => {
            push_integrity(text, names, i)?;
            push_worded_object(text, names, " of ", o)
        }
        Term::SubjectIntegrity(i, s) => {
            push_integrity(text, names, i)?;
            push_worded_subject(text, names, " of ", s)
        }
    }
}

/// Appends that a term dominates another, or that it doesn't.
pub(crate) fn push_dominance(
    text: &mut String,
    names: &Names,
    holds: bool,
    upper: &Term,
    lower: &Term,
) -> Result<(), AllocError>
    ensures { OnOk result (string_bytes text.new
        ≡ string_bytes text.old ++ dominance_text names.now holds upper.now lower.now) }
{
    push_term(text, names, upper)?;
    text.push_str(either(holds, " dominates ", " does not dominate "))?;
    push_term(text, names, lower)
}

/// Appends that a term equals another, or that it doesn't.
pub(crate) fn push_equality(
    text: &mut String,
    names: &Names,
    holds: bool,
    one: &Term,
    other: &Term,
) -> Result<(), AllocError>
    ensures { OnOk result (string_bytes text.new
        ≡ string_bytes text.old ++ equality_text names.now holds one.now other.now) }
{
    push_term(text, names, one)?;
    text.push_str(either(holds, " equals ", " does not equal "))?;
    push_term(text, names, other)
}
