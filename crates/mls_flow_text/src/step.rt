//! Rows of the hands of a way.
ghost use Rattle.std.specs.Prelude.{◌≡◌, ◌++◌, string_bytes, OnOk};
ghost use Rattle.mls_rows.specs.Members.{Adds};
ghost use Rattle.mls_flow_text.specs.Steps.{down_members, down_text, hand_members, hand_text, made_members, made_text};
ghost use Rattle.mls_flow_text.specs.Steps.{maker_member, mode_text, new_text, parent_member, place_members, place_text};
ghost use Rattle.mls_flow_text.specs.Steps.{step_members, step_text};

use json::Writer;
use mls_flows::Place;
use mls_lines::Names;
use mls_marks::Marks;
use mls_paths::Hand;
use mls_requests::mode_word;
use mls_rows::{Told, write_mode, write_object, write_object_at, write_subject, write_subject_at};
use mls_tables::{Mode, ObjectId, SubjectId};
use mls_wording::{push_object, push_subject};
use std::alloc::AllocError;

/// A hand of a way and the place to which content comes by it, as a row of an answer.
#[derive(Clone, Copy)]
pub struct Step {
    pub hand: Hand,
    pub place: Place,
    /// Whether the place is an object whose label doesn't dominate that of the object before.
    pub down: bool,
}

/// Appends a place.
pub(crate) fn push_place(text: &mut String, names: &Names, place: &Place) -> Result<(), AllocError>
    ensures { OnOk result (string_bytes text.new ≡ string_bytes text.old ++ place_text names.now place.now) }
{
    match *place {
        Place::Subject(s) => push_subject(text, names, s),
        Place::Object(o) => push_object(text, names, o),
    }
}

/// Writes a place.
pub(crate) fn write_place(
    writer: &mut Writer,
    names: &Names,
    place: &Place,
) -> Result<(), AllocError>
    ensures { Adds result writer.old writer.new (place_members names.now place.now) }
{
    match *place {
        Place::Subject(s) => write_subject(writer, names, s),
        Place::Object(o) => write_object(writer, names, o),
    }
}

/// Appends a place that content comes to by an access of a mode.
fn push_by(text: &mut String, names: &Names, place: &Place, x: Mode) -> Result<(), AllocError>
    ensures { OnOk result (string_bytes text.new ≡ string_bytes text.old ++ mode_text names.now place.now x) }
{
    push_place(text, names, place)?;
    text.push_str(" (")?;
    text.push_str(mode_word(x))?;
    text.push_str(")")
}

/// Appends an object that is made below another one, and that a subject alters.
fn push_new(text: &mut String, names: &Names, parent: ObjectId) -> Result<(), AllocError>
    ensures { OnOk result (string_bytes text.new ≡ string_bytes text.old ++ new_text names.now parent) }
{
    text.push_str("a new object below ")?;
    push_object(text, names, parent)?;
    text.push_str(" (append)")
}

/// Appends a place that content comes to through an object that is made below another one.
fn push_made(
    text: &mut String,
    names: &Names,
    place: &Place,
    parent: ObjectId,
) -> Result<(), AllocError>
    ensures { OnOk result (string_bytes text.new ≡ string_bytes text.old ++ made_text names.now place.now parent) }
{
    push_new(text, names, parent)?;
    text.push_str(" > ")?;
    push_place(text, names, place)?;
    text.push_str(" (read)")
}

/// Appends a place and how content comes to it.
fn push_hand(text: &mut String, names: &Names, place: &Place, hand: &Hand) -> Result<(), AllocError>
    ensures { OnOk result
        (string_bytes text.new ≡ string_bytes text.old ++ hand_text names.now place.now hand.now) }
{
    match *hand {
        Hand::By(x) => push_by(text, names, place, x),
        Hand::Made(_, parent) => push_made(text, names, place, parent),
    }
}

/// The word of an object that content comes down to.
fn down_word(down: bool) -> &'static str
    ensures { result.now ≡ down_text down }
{
    if down { ", down" } else { "" }
}

/// Writes the object above one that is made.
fn write_parent(writer: &mut Writer, names: &Names, parent: ObjectId) -> Result<(), AllocError>
    ensures { Adds result writer.old writer.new (parent_member names.now parent) }
{
    write_object_at(writer, ("parent", "parent_name"), names, parent)
}

/// Writes the subject that makes an object.
fn write_maker(writer: &mut Writer, names: &Names, maker: SubjectId) -> Result<(), AllocError>
    ensures { Adds result writer.old writer.new (maker_member names.now maker) }
{
    write_subject_at(writer, ("maker", "maker_name"), names, maker)
}

/// Writes the object above one that is made, and who makes it.
fn write_made(
    writer: &mut Writer,
    names: &Names,
    maker: SubjectId,
    parent: ObjectId,
) -> Result<(), AllocError>
    ensures { Adds result writer.old writer.new (made_members names.now maker parent) }
{
    write_parent(writer, names, parent)?;
    write_maker(writer, names, maker)
}

/// Writes how content comes to a place.
fn write_hand(writer: &mut Writer, names: &Names, hand: &Hand) -> Result<(), AllocError>
    ensures { Adds result writer.old writer.new (hand_members names.now hand.now) }
{
    match *hand {
        Hand::By(x) => write_mode(writer, x),
        Hand::Made(maker, parent) => write_made(writer, names, maker, parent),
    }
}

/// Writes that content comes down to an object, where it does.
fn write_down(writer: &mut Writer, down: bool) -> Result<(), AllocError>
    ensures { Adds result writer.old writer.new (down_members down) }
{
    if !down {
        return Ok(());
    }
    writer.key("down")?;
    writer.boolean(true)
}

impl Told for Step {
    ghost line = { λ names marks r. step_text names r };

    ghost members = { λ names marks r. step_members names r };

    fn push_line(
        &self,
        text: &mut String,
        names: &Names,
        _marks: Option<&Marks>,
    ) -> Result<(), AllocError> {
        text.push_str(" > ")?;
        push_hand(text, names, &self.place, &self.hand)?;
        text.push_str(down_word(self.down))
    }

    fn write_members(
        &self,
        writer: &mut Writer,
        names: &Names,
        _marks: Option<&Marks>,
    ) -> Result<(), AllocError> {
        write_place(writer, names, &self.place)?;
        write_hand(writer, names, &self.hand)?;
        write_down(writer, self.down)
    }
}
