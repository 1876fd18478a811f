//! The members of remedies.
ghost use Rattle.json.specs.Token.{begin_array, key};
ghost use Rattle.std.specs.Prelude.{◌≡◌, ◌++◌, ◌∷◌, [], codes};
ghost use Rattle.std.specs.List.{flat_map};
ghost use Rattle.mls_rows.specs.Members.{Adds};
ghost use Rattle.mls_explain_text.specs.Holdings.{some_list};
ghost use Rattle.mls_explain_text.specs.StepMembers.{ending_members, other_object, others, remedy_steps};
ghost use Rattle.mls_explain_text.specs.StepMembers.{lacks_member, none_member, step_members, step_object};
ghost use Rattle.mls_shared_rows.specs.Requests.{of_mode, of_object, of_whose};

use json::Writer;
use mls_lines::Names;
use mls_remedies::{Ending, Remedy, Step, Who};
use mls_rows::{write_mode, write_object, write_subject, write_subject_at, write_text};
use mls_shared_rows::write_asked;
use mls_tables::{Mode, ObjectId, SubjectId};
use std::alloc::{AllocError, Global};

/// Writes a subject that may make a step too.
fn write_other(writer: &mut Writer, names: &Names, s: SubjectId) -> Result<(), AllocError>
    ensures { Adds result writer.old writer.new (other_object names.now s) }
{
    writer.begin_object()?;
    write_subject(writer, names, s)?;
    writer.end_object()
}

/// Begins the list of who may make a step too.
fn begin_others(writer: &mut Writer) -> Result<(), AllocError>
    ensures { Adds result writer.old writer.new (key (codes "or") ∷ begin_array ∷ []) }
{
    writer.key("or")?;
    writer.begin_array()
}

/// Writes the list of one subject that may make a step too.
fn list_one(writer: &mut Writer, names: &Names, b: SubjectId) -> Result<(), AllocError>
    ensures { Adds result writer.old writer.new (some_list (codes "or") (other_object names.now) (b ∷ [])) }
{
    begin_others(writer)?;
    write_other(writer, names, b)?;
    writer.end_array()
}

/// Writes the list of two subjects that may make a step too.
fn list_two(
    writer: &mut Writer,
    names: &Names,
    b: SubjectId,
    c: SubjectId,
) -> Result<(), AllocError>
    ensures { Adds result writer.old writer.new (some_list (codes "or") (other_object names.now) (b ∷ c ∷ [])) }
{
    begin_others(writer)?;
    write_other(writer, names, b)?;
    write_other(writer, names, c)?;
    writer.end_array()
}

/// Writes the list of who may make a step too, where there are some.
fn write_others(writer: &mut Writer, names: &Names, who: &Who) -> Result<(), AllocError>
    ensures { Adds result writer.old writer.new
        (some_list (codes "or") (other_object names.now) (others who.now)) }
{
    match who {
        Who::One(_) => Ok(()),
        Who::Two(_, b) => list_one(writer, names, *b),
        Who::Three(_, b, c) => list_two(writer, names, *b, *c),
    }
}

/// Writes the members of a step.
fn write_members(
    alloc: Global,
    writer: &mut Writer,
    names: &Names,
    step: &Step,
) -> Result<(), AllocError>
    ensures { Adds result writer.old writer.new (step_members names.now step.now) }
{
    write_asked(alloc, writer, names, &step.request())?;
    write_others(writer, names, &step.who)
}

/// Writes a step.
fn write_step(
    alloc: Global,
    writer: &mut Writer,
    names: &Names,
    step: &Step,
) -> Result<(), AllocError>
    ensures { Adds result writer.old writer.new (step_object names.now step.now) }
{
    writer.begin_object()?;
    write_members(alloc, writer, names, step)?;
    writer.end_object()
}

/// Writes steps.
fn write_each(
    alloc: Global,
    writer: &mut Writer,
    names: &Names,
    steps: &[Step],
) -> Result<(), AllocError>
    ensures { Adds result writer.old writer.new (flat_map (step_object names.now) steps.now) }
{
    for step in steps {
        write_step(alloc, writer, names, step)?;
    }
    Ok(())
}

/// Begins the list of steps.
fn begin_steps(writer: &mut Writer) -> Result<(), AllocError>
    ensures { Adds result writer.old writer.new (key (codes "steps") ∷ begin_array ∷ []) }
{
    writer.key("steps")?;
    writer.begin_array()
}

/// Writes the list of steps, where there are some.
fn list_steps(
    alloc: Global,
    writer: &mut Writer,
    names: &Names,
    steps: &[Step],
) -> Result<(), AllocError>
    ensures { Adds result writer.old writer.new (some_list (codes "steps") (step_object names.now) steps.now) }
{
    match steps {
        [] => Ok(()),
        [_, ..] => {
            begin_steps(writer)?;
            write_each(alloc, writer, names, steps)?;
            writer.end_array()
        }
    }
}

/// Writes the request of others in place of the one that was asked.
fn write_instead(
    alloc: Global,
    writer: &mut Writer,
    names: &Names,
    step: &Step,
) -> Result<(), AllocError>
    ensures { Adds result writer.old writer.new (key (codes "instead") ∷ step_object names.now step.now) }
{
    writer.key("instead")?;
    write_step(alloc, writer, names, step)
}

/// Writes why there is no remedy.
fn write_none(writer: &mut Writer, why: &str) -> Result<(), AllocError>
    ensures { Adds result writer.old writer.new (none_member why.now) }
{
    write_text(writer, "none", why)
}

/// Writes a mode, the subject of a permission and its object.
fn write_permission(
    writer: &mut Writer,
    names: &Names,
    x: Mode,
    s: SubjectId,
    o: ObjectId,
) -> Result<(), AllocError>
    ensures { Adds result writer.old writer.new (of_mode x ++ of_whose names.now s ++ of_object names.now o) }
{
    write_mode(writer, x)?;
    write_subject_at(writer, ("whose", "whose_name"), names, s)?;
    write_object(writer, names, o)
}

/// Writes a permission that nobody gives.
fn write_lacks(
    writer: &mut Writer,
    names: &Names,
    x: Mode,
    s: SubjectId,
    o: ObjectId,
) -> Result<(), AllocError>
    ensures { Adds result writer.old writer.new (lacks_member names.now x s o) }
{
    writer.key("lacks")?;
    writer.begin_object()?;
    write_permission(writer, names, x, s, o)?;
    writer.end_object()
}

/// Writes that nobody gives a permission.
fn write_no_giver(
    writer: &mut Writer,
    names: &Names,
    x: Mode,
    s: SubjectId,
    o: ObjectId,
) -> Result<(), AllocError>
    ensures { Adds result writer.old writer.new (none_member (codes "giver") ++ lacks_member names.now x s o) }
{
    write_none(writer, "giver")?;
    write_lacks(writer, names, x, s, o)
}

/// Writes what the steps of a remedy lead to.
fn write_ending(
    alloc: Global,
    writer: &mut Writer,
    names: &Names,
    ending: &Ending,
) -> Result<(), AllocError>
    ensures { Adds result writer.old writer.new (ending_members names.now ending.now) }
{
    match ending {
        Ending::Asked => Ok(()),
        Ending::Instead(step) => write_instead(alloc, writer, names, step),
        Ending::NoLevel => write_none(writer, "level"),
        Ending::NoGiver(x, s, o) => write_no_giver(writer, names, *x, *s, *o),
        Ending::Nothing => write_none(writer, "request"),
    }
}

/// Writes the members of a remedy.
pub(crate) fn write_steps(
    alloc: Global,
    writer: &mut Writer,
    names: &Names,
    remedy: &Remedy,
) -> Result<(), AllocError>
    ensures { Adds result writer.old writer.new
        (remedy_steps names.now remedy.now.steps.items remedy.now.ending) }
{
    list_steps(alloc, writer, names, &remedy.steps)?;
    write_ending(alloc, writer, names, &remedy.ending)
}
