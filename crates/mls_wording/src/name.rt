//! Subjects and objects.
ghost use Rattle.std.specs.Prelude.{◌≡◌, ◌++◌, string_bytes, option_map, OnErr, OnOk};
ghost use Rattle.mls_labels.specs.LabelText.{Extends};
ghost use Rattle.mls_wording.specs.Wording.{name_or, subject_text, object_text};

use crate::number::push_numbered;
use mls_lines::Names;
use mls_tables::{ObjectId, SubjectId};
use std::alloc::AllocError;

/// Appends a name, or `#` and the number of what has no name.
///
/// # Errors
/// `AllocError` where an allocation failed. A part may then stand at the end.
#[tactic(auto, using(crate::proofs::Extending::stays, crate::proofs::Extending::grows))]
fn push_named(text: &mut String, name: Option<&str>, number: u16) -> Result<(), AllocError>
    ensures ok { OnOk result (string_bytes text.new
        ≡ string_bytes text.old ++ name_or (option_map (λ name. name.now) name.entry) number) }
    ensures err { OnErr result (Extends (string_bytes text.old) (string_bytes text.new)) }
{
    match name {
        Some(name) => text.push_str(name),
        None => push_numbered(text, u64::from(number)),
    }
}

/// Appends the name that the start has for the number of a subject, or `#` and the number where it has none.
///
/// # Errors
/// `AllocError` where an allocation failed. A part of it may then stand at the end of the text.
pub fn push_subject(text: &mut String, names: &Names, s: SubjectId) -> Result<(), AllocError>
    ensures ok { OnOk result (string_bytes text.new ≡ string_bytes text.old ++ subject_text names.now s) }
    ensures err { OnErr result (Extends (string_bytes text.old) (string_bytes text.new)) }
{
    push_named(text, names.subject_name(s), s.number())
}

/// Appends the name that the start has for the number of an object, whatever has that number now, or `#` and the number
/// where it has none.
///
/// # Errors
/// `AllocError` where an allocation failed. A part of it may then stand at the end of the text.
pub fn push_object(text: &mut String, names: &Names, o: ObjectId) -> Result<(), AllocError>
    ensures ok { OnOk result (string_bytes text.new ≡ string_bytes text.old ++ object_text names.now o) }
    ensures err { OnErr result (Extends (string_bytes text.old) (string_bytes text.new)) }
{
    push_named(text, names.object_name(o), o.number())
}
