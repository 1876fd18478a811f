//! The lines of what subjects may change.
ghost use Rattle.std.specs.Prelude.{◌≡◌, ◌++◌, codes, string_bytes, OnOk};
ghost use Rattle.std.specs.List.{flat_map};
ghost use Rattle.mls_wording.specs.Wording.{object_text};
ghost use Rattle.mls_review.specs.Granted.{change_view};
ghost use Rattle.mls_review.specs.PowerRows.{granted_line, granted_text, one_more_label};
ghost use Rattle.mls_review.specs.PowerRows.{power_word, relabeling_front};

use crate::change::Change;
use crate::power::Power;
use crate::relabeling::Relabeling;
use mls_labels::SecLabel;
use mls_lines::Names;
use mls_tables::ObjectId;
use mls_wording::{push_object, push_security, push_subject};
use std::alloc::AllocError;

/// The words for a power, before what it is over.
fn power_word(power: Power) -> &'static str
    ensures { result.now ≡ power_word power }
{
    match power {
        Power::Gives => "gives and rescinds ",
        Power::Creates => "creates under ",
        Power::Deletes => "deletes ",
    }
}

/// Appends a power over an object.
fn push_over(text: &mut String, names: &Names, power: Power, o: ObjectId) -> Result<(), AllocError>
    ensures { OnOk result
        (string_bytes text.new ≡ string_bytes text.old ++ power_word power ++ object_text names.now o) }
{
    text.push_str(power_word(power))?;
    push_object(text, names, o)
}

/// Appends an object that is relabelled, and in which direction.
fn push_direction(
    text: &mut String,
    names: &Names,
    o: ObjectId,
    direction: &str,
) -> Result<(), AllocError>
    ensures { OnOk result (string_bytes text.new
        ≡ string_bytes text.old ++ codes "relabels " ++ object_text names.now o ++ direction.now) }
{
    text.push_str("relabels ")?;
    push_object(text, names, o)?;
    text.push_str(direction)
}

/// Appends what stands before the labels.
fn push_front(text: &mut String, names: &Names, change: Relabeling) -> Result<(), AllocError>
    ensures { OnOk result (string_bytes text.new ≡ string_bytes text.old ++ relabeling_front names.now change) }
{
    match change {
        Relabeling::Level => text.push_str("level"),
        Relabeling::Down(o) => push_direction(text, names, o, " down to"),
        Relabeling::Aside(o) => push_direction(text, names, o, " aside to"),
        Relabeling::Up(o) => push_direction(text, names, o, " up to"),
    }
}

/// Appends labels, each after a space.
fn push_all(text: &mut String, names: &Names, labels: &[SecLabel]) -> Result<(), AllocError>
    ensures { OnOk result
        (string_bytes text.new ≡ string_bytes text.old ++ flat_map (one_more_label names.now) labels.now) }
{
    for l in labels {
        text.push_str(" ")?;
        push_security(text, names, *l)?;
    }
    Ok(())
}

/// Appends what a subject may change, as a line tells it behind the subject.
///
/// # Errors
/// `AllocError` where an allocation failed. The text may then have a part of it.
pub fn push_change(text: &mut String, names: &Names, change: &Change) -> Result<(), AllocError>
    ensures { OnOk result (string_bytes text.new
        ≡ string_bytes text.old ++ granted_text names.now (change_view change.now)) }
{
    match change {
        Change::Over(_, power, o) => push_over(text, names, *power, *o),
        Change::Labels(_, change, labels) => {
            push_front(text, names, *change)?;
            push_all(text, names, labels)
        }
    }
}

/// Appends the line of what a subject may change.
pub(crate) fn push_change_line(
    text: &mut String,
    names: &Names,
    change: &Change,
) -> Result<(), AllocError>
    ensures { OnOk result (string_bytes text.new
        ≡ string_bytes text.old ++ granted_line names.now (change_view change.now)) }
{
    push_subject(text, names, change.subject())?;
    text.push_str(" ")?;
    push_change(text, names, change)?;
    text.push_str("\n")
}
