//! The operands of actions.
ghost use Rattle.std.specs.Prelude.{◌≡◌, ◌++◌, ◌∷◌, string_bytes, OnErr, OnOk};
ghost use Rattle.mls_labels.specs.LabelText.{Extends};
ghost use Rattle.mls_requests.specs.ModeWords.{mode_word};
ghost use Rattle.mls_wording.specs.Wording.{object_text, security_text, integrity_text, subject_text};
ghost use Rattle.mls_wording.specs.RequestText.{operands_text};

use crate::label::{push_integrity, push_security};
use crate::name::{push_object, push_subject};
use mls_labels::{IntLabel, SecLabel};
use mls_lines::Names;
use mls_requests::{Action, mode_word};
use mls_tables::{Mode, ObjectId, SubjectId};
use std::alloc::AllocError;

/// Appends `MODE OBJ`.
#[tactic(auto, using(crate::proofs::Extending::stays, crate::proofs::Extending::grows))]
fn push_access(text: &mut String, names: &Names, x: Mode, o: ObjectId) -> Result<(), AllocError>
    ensures ok { OnOk result (string_bytes text.new
        ≡ string_bytes text.old ++ mode_word x ++ 32 ∷ object_text names.now o) }
    ensures err { OnErr result (Extends (string_bytes text.old) (string_bytes text.new)) }
{
    text.push_str(mode_word(x))?;
    text.push_str(" ")?;
    push_object(text, names, o)
}

/// Appends `MODE SUBJ OBJ`.
#[tactic(auto, using(crate::proofs::Extending::stays, crate::proofs::Extending::grows))]
fn push_cell(
    text: &mut String,
    names: &Names,
    x: Mode,
    s: SubjectId,
    o: ObjectId,
) -> Result<(), AllocError>
    ensures ok { OnOk result (string_bytes text.new
        ≡ string_bytes text.old ++ mode_word x ++ 32 ∷ subject_text names.now s ++ 32 ∷ object_text names.now o) }
    ensures err { OnErr result (Extends (string_bytes text.old) (string_bytes text.new)) }
{
    text.push_str(mode_word(x))?;
    text.push_str(" ")?;
    push_subject(text, names, s)?;
    text.push_str(" ")?;
    push_object(text, names, o)
}

/// Appends `OBJ LABEL`.
#[tactic(auto, using(crate::proofs::Extending::stays, crate::proofs::Extending::grows))]
fn push_labelled(
    text: &mut String,
    names: &Names,
    o: ObjectId,
    l: SecLabel,
) -> Result<(), AllocError>
    ensures ok { OnOk result (string_bytes text.new
        ≡ string_bytes text.old ++ object_text names.now o ++ 32 ∷ security_text names.now l) }
    ensures err { OnErr result (Extends (string_bytes text.old) (string_bytes text.new)) }
{
    push_object(text, names, o)?;
    text.push_str(" ")?;
    push_security(text, names, l)
}

/// Appends `OBJ LABEL LABEL`.
#[tactic(auto, using(crate::proofs::Extending::stays, crate::proofs::Extending::grows))]
fn push_child(
    text: &mut String,
    names: &Names,
    p: ObjectId,
    l: SecLabel,
    i: IntLabel,
) -> Result<(), AllocError>
    ensures ok { OnOk result (string_bytes text.new
        ≡ string_bytes text.old ++ object_text names.now p ++ 32 ∷ security_text names.now l
        ++ 32 ∷ integrity_text names.now i) }
    ensures err { OnErr result (Extends (string_bytes text.old) (string_bytes text.new)) }
{
    push_labelled(text, names, p, l)?;
    text.push_str(" ")?;
    push_integrity(text, names, i)
}

/// Appends the operands of an action, with a space between each two.
pub(crate) fn push_operands(
    text: &mut String,
    names: &Names,
    action: &Action,
) -> Result<(), AllocError>
    ensures ok { OnOk result (string_bytes text.new ≡ string_bytes text.old ++ operands_text names.now action.now) }
    ensures err { OnErr result (Extends (string_bytes text.old) (string_bytes text.new)) }
{
    match *action {
        Action::Get(_, o) | Action::Delete(o) => push_object(text, names, o),
        Action::Release(x, o) => push_access(text, names, x, o),
        Action::Give(x, s, o) | Action::Rescind(x, s, o) => push_cell(text, names, x, s, o),
        Action::Create(p, l, i) => push_child(text, names, p, l, i),
        Action::SubjectLevel(l) => push_security(text, names, l),
        Action::ObjectLevel(o, l) => push_labelled(text, names, o, l),
    }
}
