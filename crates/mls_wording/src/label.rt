//! Labels.
ghost use Rattle.std.specs.Prelude.{◌≡◌, ◌++◌, ◌∷◌, ◌<◌, map, string_bytes, OnErr, OnOk};
ghost use Rattle.mls_labels.specs.Ascending.{ascending};
ghost use Rattle.mls_labels.specs.LabelText.{Extends, words_after};
ghost use Rattle.mls_wording.specs.Wording.{numbered, label_numbers, label_within, security_text, integrity_text};

use crate::number::push_numbered;
use mls_labels::{CatSet, IntLabel, Label, Scheme, SecLabel};
use mls_lines::Names;
use std::alloc::AllocError;

/// Appends a byte, `#` and the number of a category.
#[tactic(auto, using(crate::proofs::Extending::stays, crate::proofs::Extending::grows))]
fn push_category(text: &mut String, before: char, number: u8) -> Result<(), AllocError>
    requires { before < 128 }
    ensures ok { OnOk result (string_bytes text.new ≡ string_bytes text.old ++ before ∷ numbered number) }
    ensures err { OnErr result (Extends (string_bytes text.old) (string_bytes text.new)) }
{
    text.push(before)?;
    push_numbered(text, u64::from(number))
}

/// Appends a colon and the numbers of the categories, each behind a `#`, with commas between them; nothing where there
/// is none.
fn push_categories(text: &mut String, categories: CatSet) -> Result<(), AllocError>
    ensures ok { OnOk result (string_bytes text.new
        ≡ string_bytes text.old ++ words_after 58 (map numbered (ascending categories))) }
    ensures err { OnErr result (Extends (string_bytes text.old) (string_bytes text.new)) }
{
    let mut separator = ':';
    let mut rest = categories;
    while let Some(number) = rest.pop_first() {
        push_category(text, separator, number)?;
        separator = ',';
    }
    Ok(())
}

/// Appends a label by numbers, each behind a `#`.
#[tactic(auto, using(crate::proofs::Extending::stays, crate::proofs::Extending::grows))]
fn push_numbers(text: &mut String, label: Label) -> Result<(), AllocError>
    ensures ok { OnOk result (string_bytes text.new ≡ string_bytes text.old ++ label_numbers label) }
    ensures err { OnErr result (Extends (string_bytes text.old) (string_bytes text.new)) }
{
    push_numbered(text, u64::from(label.level()))?;
    push_categories(text, label.categories())
}

/// Appends a label as its text in a scheme, or by numbers where it isn't within the scheme's bounds.
#[tactic(auto, using(crate::proofs::Extending::stays, crate::proofs::Extending::grows))]
fn push_label(text: &mut String, scheme: &Scheme, label: Label) -> Result<(), AllocError>
    ensures ok { OnOk result (string_bytes text.new ≡ string_bytes text.old ++ label_within scheme.now label) }
    ensures err { OnErr result (Extends (string_bytes text.old) (string_bytes text.new)) }
{
    if scheme.has(label) {
        scheme.write(label, text)
    } else {
        push_numbers(text, label)
    }
}

/// Appends a security label as its text in the start's scheme, or by numbers where it isn't within the scheme's bounds.
/// A number is written behind a `#`, which no name has.
///
/// # Errors
/// `AllocError` where an allocation failed. A part of it may then stand at the end of the text.
pub fn push_security(text: &mut String, names: &Names, l: SecLabel) -> Result<(), AllocError>
    ensures ok { OnOk result (string_bytes text.new ≡ string_bytes text.old ++ security_text names.now l) }
    ensures err { OnErr result (Extends (string_bytes text.old) (string_bytes text.new)) }
{
    push_label(text, names.security(), l.label())
}

/// Appends an integrity label as its text in the start's scheme, or by numbers where it isn't within the scheme's
/// bounds. A number is written behind a `#`, which no name has.
///
/// # Errors
/// `AllocError` where an allocation failed. A part of it may then stand at the end of the text.
pub fn push_integrity(text: &mut String, names: &Names, i: IntLabel) -> Result<(), AllocError>
    ensures ok { OnOk result (string_bytes text.new ≡ string_bytes text.old ++ integrity_text names.now i) }
    ensures err { OnErr result (Extends (string_bytes text.old) (string_bytes text.new)) }
{
    push_label(text, names.integrity(), i.label())
}
