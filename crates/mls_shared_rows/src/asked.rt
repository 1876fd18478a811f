//! The members of requests.
ghost use Rattle.std.specs.Prelude.{◌≡◌, ◌++◌, codes};
ghost use Rattle.mls_rows.specs.Members.{Adds, text_member};
ghost use Rattle.mls_shared_rows.specs.Requests.{action_member, asked_members, of_integrity, of_mode, of_object};
ghost use Rattle.mls_shared_rows.specs.Requests.{of_parent, of_security, of_whose, operand_members};

use json::Writer;
use mls_labels::{IntLabel, SecLabel};
use mls_lines::Names;
use mls_requests::{Action, ActionWord, Request};
use mls_rows::{
    write_mode, write_object, write_object_at, write_subject, write_subject_at, write_text,
};
use mls_tables::{Mode, ObjectId, SubjectId};
use mls_wording::{push_integrity, push_security};
use std::alloc::{AllocError, Global};

/// Writes the parent of an object that is made.
pub(crate) fn write_parent(
    writer: &mut Writer,
    names: &Names,
    o: ObjectId,
) -> Result<(), AllocError>
    ensures { Adds result writer.old writer.new (of_parent names.now o) }
{
    write_object_at(writer, ("parent", "parent_name"), names, o)
}

/// Writes the subject whose permission is given or rescinded.
fn write_whose(writer: &mut Writer, names: &Names, s: SubjectId) -> Result<(), AllocError>
    ensures { Adds result writer.old writer.new (of_whose names.now s) }
{
    write_subject_at(writer, ("whose", "whose_name"), names, s)
}

/// Writes the text of a security label.
fn write_security_word(writer: &mut Writer, word: &str) -> Result<(), AllocError>
    ensures { Adds result writer.old writer.new (text_member (codes "security") word.now) }
{
    write_text(writer, "security", word)
}

/// Writes a security label.
pub(crate) fn write_security(
    alloc: Global,
    writer: &mut Writer,
    names: &Names,
    label: SecLabel,
) -> Result<(), AllocError>
    ensures { Adds result writer.old writer.new (of_security names.now label) }
{
    let mut word = String::new(alloc);
    push_security(&mut word, names, label)?;
    let written = write_security_word(writer, word.as_str());
    drop(word);
    written
}

/// Writes the text of an integrity label.
fn write_integrity_word(writer: &mut Writer, word: &str) -> Result<(), AllocError>
    ensures { Adds result writer.old writer.new (text_member (codes "integrity") word.now) }
{
    write_text(writer, "integrity", word)
}

/// Writes an integrity label.
pub(crate) fn write_integrity(
    alloc: Global,
    writer: &mut Writer,
    names: &Names,
    label: IntLabel,
) -> Result<(), AllocError>
    ensures { Adds result writer.old writer.new (of_integrity names.now label) }
{
    let mut word = String::new(alloc);
    push_integrity(&mut word, names, label)?;
    let written = write_integrity_word(writer, word.as_str());
    drop(word);
    written
}

/// Writes a mode, whose permission it is, and an object.
fn write_cell(
    writer: &mut Writer,
    names: &Names,
    x: Mode,
    s: SubjectId,
    o: ObjectId,
) -> Result<(), AllocError>
    ensures { Adds result writer.old writer.new (of_mode x ++ of_whose names.now s ++ of_object names.now o) }
{
    write_mode(writer, x)?;
    write_whose(writer, names, s)?;
    write_object(writer, names, o)
}

/// Writes a mode and an object.
fn write_release(writer: &mut Writer, names: &Names, x: Mode, o: ObjectId) -> Result<(), AllocError>
    ensures { Adds result writer.old writer.new (of_mode x ++ of_object names.now o) }
{
    write_mode(writer, x)?;
    write_object(writer, names, o)
}

/// Writes a parent and two labels.
fn write_create(
    alloc: Global,
    writer: &mut Writer,
    names: &Names,
    p: ObjectId,
    l: SecLabel,
    i: IntLabel,
) -> Result<(), AllocError>
    ensures { Adds result writer.old writer.new
        (of_parent names.now p ++ of_security names.now l ++ of_integrity names.now i) }
{
    write_parent(writer, names, p)?;
    write_security(alloc, writer, names, l)?;
    write_integrity(alloc, writer, names, i)
}

/// Writes an object and a label.
fn write_relabel(
    alloc: Global,
    writer: &mut Writer,
    names: &Names,
    o: ObjectId,
    l: SecLabel,
) -> Result<(), AllocError>
    ensures { Adds result writer.old writer.new (of_object names.now o ++ of_security names.now l) }
{
    write_object(writer, names, o)?;
    write_security(alloc, writer, names, l)
}

/// Writes the operands of an action.
fn write_operands(
    alloc: Global,
    writer: &mut Writer,
    names: &Names,
    action: &Action,
) -> Result<(), AllocError>
    ensures { Adds result writer.old writer.new (operand_members names.now action.now) }
{
    match action {
        Action::Get(_, o) | Action::Delete(o) => write_object(writer, names, *o),
        Action::Release(x, o) => write_release(writer, names, *x, *o),
        Action::Give(x, s, o) | Action::Rescind(x, s, o) => {
            write_cell(writer, names, *x, *s, *o)
        }
        Action::Create(p, l, i) => write_create(alloc, writer, names, *p, *l, *i),
        Action::SubjectLevel(l) => write_security(alloc, writer, names, *l),
        Action::ObjectLevel(o, l) => write_relabel(alloc, writer, names, *o, *l),
    }
}

/// Writes the word of an action.
fn write_action(writer: &mut Writer, action: Action) -> Result<(), AllocError>
    ensures { Adds result writer.old writer.new (action_member action) }
{
    write_text(writer, "action", ActionWord::of(action).word())
}

/// Writes a request: who asks, the word of the action, and its operands.
///
/// # Errors
/// `AllocError` where an allocation failed. The writer may then have a part of it.
pub fn write_asked(
    alloc: Global,
    writer: &mut Writer,
    names: &Names,
    request: &Request,
) -> Result<(), AllocError>
    ensures { Adds result writer.old writer.new (asked_members names.now request.now) }
{
    write_subject(writer, names, request.subject)?;
    write_action(writer, request.action)?;
    write_operands(alloc, writer, names, &request.action)
}
