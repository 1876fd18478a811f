//! What keeps an access from ever coming about.
ghost use Rattle.std.specs.Prelude.{◌≡◌, ◌++◌, string_bytes, OnOk};
ghost use Rattle.mls_requests.specs.ModeWords.{mode_word};
ghost use Rattle.mls_futures_text.specs.Barriers.{altering_text, barrier_members, barrier_word, barrier_text};
ghost use Rattle.mls_futures_text.specs.Barriers.{basis_text, label_text, maximum_text, uncleared_text};
ghost use Rattle.mls_futures_text.specs.Barriers.{unpermitted_text, using_text};

use json::Writer;
use mls_labels::{IntLabel, SecLabel};
use mls_lines::Names;
use mls_marks::Marks;
use mls_requests::mode_word;
use mls_rows::{Told, write_text};
use mls_tables::{Mode, ObjectId, SubjectId};
use mls_wording::{push_integrity, push_object, push_security, push_subject};
use std::alloc::{AllocError, Global};

/// Why an access never comes about.
#[derive(Clone, Copy, Debug)]
pub enum Why {
    /// There is no such subject.
    Unknown(SubjectId),
    /// There is no such object.
    Inactive(ObjectId),
    /// The subject doesn't act.
    Actor(SubjectId),
    /// The subject isn't permitted the mode of the root, and no trusted subject acts.
    Root(SubjectId, Mode, ObjectId),
    /// The subject isn't permitted the mode of the object, and nobody acts who could ever write its parent.
    Permission(SubjectId, Mode, ObjectId, ObjectId),
    /// The subject's maximum doesn't dominate the object's label, and no trusted subject acts.
    Simple(SecLabel, SubjectId, SecLabel, ObjectId),
    /// The object's integrity doesn't dominate the subject's, which uses it.
    Using(IntLabel, ObjectId, IntLabel, SubjectId),
    /// The subject's integrity doesn't dominate the object's, which it alters.
    Altering(IntLabel, SubjectId, IntLabel, ObjectId),
}

/// Why an access never comes about, as a row of an answer.
#[derive(Clone, Copy)]
pub struct Barrier {
    pub alloc: Global,
    pub why: Why,
}

/// The word of a reason.
fn why_word(why: &Why) -> &'static str
    ensures { result.now ≡ barrier_word why.now }
{
    match why {
        Why::Unknown(_) => "subject",
        Why::Inactive(_) => "object",
        Why::Actor(_) => "actor",
        Why::Root(_, _, _) | Why::Permission(_, _, _, _) => "permission",
        Why::Simple(_, _, _, _) => "simple",
        Why::Using(_, _, _, _) | Why::Altering(_, _, _, _) => "integrity",
    }
}

/// Appends the word of a mode.
fn push_mode(text: &mut String, x: Mode) -> Result<(), AllocError>
    ensures { OnOk result (string_bytes text.new ≡ string_bytes text.old ++ mode_word x) }
{
    text.push_str(mode_word(x))
}

/// Appends that a subject isn't permitted a mode of an object.
fn push_unpermitted(
    text: &mut String,
    names: &Names,
    s: SubjectId,
    x: Mode,
    o: ObjectId,
) -> Result<(), AllocError>
    ensures { OnOk result (string_bytes text.new ≡ string_bytes text.old ++ unpermitted_text names.now s x o) }
{
    push_subject(text, names, s)?;
    text.push_str(" is not permitted ")?;
    push_mode(text, x)?;
    text.push_str(" of ")?;
    push_object(text, names, o)
}

/// Appends a subject's maximum.
#[tactic(auto, unfolding(crate::specs::Barriers::maximum_text))]
fn push_maximum(
    text: &mut String,
    names: &Names,
    maximum: SecLabel,
    s: SubjectId,
) -> Result<(), AllocError>
    ensures { OnOk result (string_bytes text.new ≡ string_bytes text.old ++ maximum_text names.now maximum s) }
{
    text.push_str("maximum ")?;
    push_security(text, names, maximum)?;
    text.push_str(" of ")?;
    push_subject(text, names, s)
}

/// Appends an object's label.
#[tactic(auto, unfolding(crate::specs::Barriers::label_text))]
fn push_label(
    text: &mut String,
    names: &Names,
    label: SecLabel,
    o: ObjectId,
) -> Result<(), AllocError>
    ensures { OnOk result (string_bytes text.new ≡ string_bytes text.old ++ label_text names.now label o) }
{
    push_security(text, names, label)?;
    text.push_str(" of ")?;
    push_object(text, names, o)
}

/// Appends that a subject's maximum doesn't dominate an object's label.
fn push_uncleared(
    text: &mut String,
    names: &Names,
    maximum: SecLabel,
    s: SubjectId,
    label: SecLabel,
    o: ObjectId,
) -> Result<(), AllocError>
    ensures { OnOk result
        (string_bytes text.new ≡ string_bytes text.old ++ uncleared_text names.now maximum s label o) }
{
    push_maximum(text, names, maximum, s)?;
    text.push_str(" does not dominate ")?;
    push_label(text, names, label, o)?;
    text.push_str(", and no trusted subject acts")
}

/// Appends that an object's integrity doesn't dominate a subject's.
fn push_using(
    text: &mut String,
    names: &Names,
    upper: IntLabel,
    o: ObjectId,
    lower: IntLabel,
    s: SubjectId,
) -> Result<(), AllocError>
    ensures { OnOk result (string_bytes text.new ≡ string_bytes text.old ++ using_text names.now upper o lower s) }
{
    push_integrity(text, names, upper)?;
    text.push_str(" of ")?;
    push_object(text, names, o)?;
    text.push_str(" does not dominate ")?;
    push_integrity(text, names, lower)?;
    text.push_str(" of ")?;
    push_subject(text, names, s)
}

/// Appends that a subject's integrity doesn't dominate an object's.
fn push_altering(
    text: &mut String,
    names: &Names,
    upper: IntLabel,
    s: SubjectId,
    lower: IntLabel,
    o: ObjectId,
) -> Result<(), AllocError>
    ensures { OnOk result (string_bytes text.new ≡ string_bytes text.old ++ altering_text names.now upper s lower o) }
{
    push_integrity(text, names, upper)?;
    text.push_str(" of ")?;
    push_subject(text, names, s)?;
    text.push_str(" does not dominate ")?;
    push_integrity(text, names, lower)?;
    text.push_str(" of ")?;
    push_object(text, names, o)
}

/// Appends a reason with its values.
fn push_why(text: &mut String, names: &Names, why: &Why) -> Result<(), AllocError>
    ensures { OnOk result (string_bytes text.new ≡ string_bytes text.old ++ basis_text names.now why.now) }
{
    match *why {
        Why::Unknown(s) => {
            push_subject(text, names, s)?;
            text.push_str(" is unknown")
        }
        Why::Inactive(o) => {
            push_object(text, names, o)?;
            text.push_str(" is not active")
        }
        Why::Actor(s) => {
            push_subject(text, names, s)?;
            text.push_str(" does not act")
        }
        Why::Root(s, x, o) => {
            push_unpermitted(text, names, s, x, o)?;
            text.push_str(", and no trusted subject acts")
        }
        Why::Permission(s, x, o, p) => {
            push_unpermitted(text, names, s, x, o)?;
            text.push_str(", and nobody acts who could ever write ")?;
            push_object(text, names, p)
        }
        Why::Simple(maximum, s, label, o) => push_uncleared(text, names, maximum, s, label, o),
        Why::Using(upper, o, lower, s) => push_using(text, names, upper, o, lower, s),
        Why::Altering(upper, s, lower, o) => push_altering(text, names, upper, s, lower, o),
    }
}

impl Told for Barrier {
    ghost line = { λ names marks r. barrier_text names r.why };

    ghost members = { λ names marks r. barrier_members names r.why };

    fn push_line(
        &self,
        text: &mut String,
        names: &Names,
        _marks: Option<&Marks>,
    ) -> Result<(), AllocError> {
        text.push_str(why_word(&self.why))?;
        text.push_str(": ")?;
        push_why(text, names, &self.why)?;
        text.push_str("\n")
    }

    fn write_members(
        &self,
        writer: &mut Writer,
        names: &Names,
        _marks: Option<&Marks>,
    ) -> Result<(), AllocError> {
        write_text(writer, "reason", why_word(&self.why))?;
        let mut basis = String::new(self.alloc);
        push_why(&mut basis, names, &self.why)?;
        let done = write_text(writer, "basis", &basis);
        drop(basis);
        done
    }
}
