//! Rows of ways.
ghost use Rattle.std.specs.Prelude.{◌≡◌, ◌++◌, string_bytes, OnOk};
ghost use Rattle.std.specs.List.{flat_map};
ghost use Rattle.mls_flow_text.specs.Steps.{step_text};
ghost use Rattle.mls_flow_text.specs.Routes.{head_text, kind_word, route_line, route_members};

use crate::step::{Step, push_place, write_place};
use json::Writer;
use mls_flows::Place;
use mls_lines::Names;
use mls_marks::Marks;
use mls_rows::{Told, write_list, write_object_at};
use mls_tables::ObjectId;
use mls_wording::push_object;
use std::alloc::AllocError;

/// How content of an object comes to a place, as a row of an answer.
#[derive(Drop)]
pub struct Route {
    pub place: Place,
    pub from: ObjectId,
    pub steps: Vec<Step>,
}

/// The word of what a place is.
fn kind_word(place: &Place) -> &'static str
    ensures { result.now ≡ kind_word place.now }
{
    match *place {
        Place::Subject(_) => "subject ",
        Place::Object(_) => "object ",
    }
}

/// Appends a place and the object from which content comes there.
fn push_head(
    text: &mut String,
    names: &Names,
    place: &Place,
    from: ObjectId,
) -> Result<(), AllocError>
    ensures { OnOk result (string_bytes text.new ≡ string_bytes text.old ++ head_text names.now place.now from) }
{
    text.push_str(kind_word(place))?;
    push_place(text, names, place)?;
    text.push_str(": ")?;
    push_object(text, names, from)
}

/// Appends hands.
fn push_steps(text: &mut String, names: &Names, steps: &[Step]) -> Result<(), AllocError>
    ensures { OnOk result (string_bytes text.new
        ≡ string_bytes text.old ++ flat_map (step_text names.now) steps.now) }
{
    for step in steps {
        step.push_line(text, names, None)?;
    }
    Ok(())
}

impl Told for Route {
    ghost line = { λ names marks r. route_line names r.place r.from r.steps.items };

    ghost members = { λ names marks r. route_members names r.place r.from r.steps.items };

    fn push_line(
        &self,
        text: &mut String,
        names: &Names,
        _marks: Option<&Marks>,
    ) -> Result<(), AllocError> {
        push_head(text, names, &self.place, self.from)?;
        push_steps(text, names, &self.steps)?;
        text.push_str("\n")
    }

    fn write_members(
        &self,
        writer: &mut Writer,
        names: &Names,
        _marks: Option<&Marks>,
    ) -> Result<(), AllocError> {
        write_place(writer, names, &self.place)?;
        write_object_at(writer, ("from", "from_name"), names, self.from)?;
        write_list(writer, "hands", names, None, &self.steps)
    }
}
