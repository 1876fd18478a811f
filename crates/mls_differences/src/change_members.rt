//! The members of what two starts both have, but otherwise.
ghost use Rattle.std.specs.Prelude.{◌≡◌, ◌++◌, codes, string_bytes, IfOk};
ghost use Rattle.mls_rows.specs.Members.{Adds, two_members};
ghost use Rattle.mls_wording.specs.Wording.{integrity_text, security_text};
ghost use Rattle.mls_differences.specs.ChangeForms.{parent_member, parent_members, profile_number};
ghost use Rattle.mls_differences.specs.Things.{both_texts, thing_member, truth_members};
ghost use Rattle.mls_differences.specs.declared.thing.Thing.TheVariants.{Object, Subject};

use crate::change_lines::name_at;
use crate::thing::{Thing, write_both, write_thing, write_truths};
use json::Writer;
use mls_labels::{IntLabel, SecLabel};
use mls_lines::Names;
use mls_rows::{write_null, write_text, write_two};
use mls_tables::{ObjectId, SubjectId};
use mls_tree::Profile;
use mls_wording::{push_integrity, push_security};
use std::alloc::{AllocError, Global};

/// The number of a profile.
fn profile_number(profile: Profile) -> u64
    ensures { result ≡ profile_number profile }
{
    match profile {
        Profile::One => 1,
        Profile::Two => 2,
    }
}

/// Writes two profiles.
pub(crate) fn write_profiles(
    writer: &mut Writer,
    here: Profile,
    there: Profile,
) -> Result<(), AllocError>
    ensures { Adds result writer.old writer.new
        (two_members (codes "first") (codes "second") (profile_number here) (profile_number there)) }
{
    let numbers = (profile_number(here), profile_number(there));
    write_sides(writer, numbers)
}

/// Writes both sides as numbers, the first start's first.
fn write_sides(writer: &mut Writer, numbers: (u64, u64)) -> Result<(), AllocError>
    ensures { Adds result writer.old writer.new
        (two_members (codes "first") (codes "second") numbers.0 numbers.1) }
{
    write_two(writer, ("first", "second"), numbers)
}

/// What is written of a security label.
fn security_word(alloc: Global, names: &Names, label: SecLabel) -> Result<String, AllocError>
    ensures { IfOk result (λ word. string_bytes word ≡ security_text names.now label) }
{
    let mut word = String::new(alloc);
    push_security(&mut word, names, label)?;
    Ok(word)
}

/// What is written of an integrity label.
fn integrity_word(alloc: Global, names: &Names, label: IntLabel) -> Result<String, AllocError>
    ensures { IfOk result (λ word. string_bytes word ≡ integrity_text names.now label) }
{
    let mut word = String::new(alloc);
    push_integrity(&mut word, names, label)?;
    Ok(word)
}

/// Writes two security labels of a subject or an object.
pub(crate) fn write_securities(
    alloc: Global,
    writer: &mut Writer,
    names: (&Names, &Names),
    thing: Thing,
    here: SecLabel,
    there: SecLabel,
) -> Result<(), AllocError>
    ensures { Adds result writer.old writer.new (thing_member names.entry.0.now thing
        ++ both_texts (security_text names.entry.0.now here) (security_text names.entry.1.now there)) }
{
    write_thing(writer, names.0, thing)?;
    let first = security_word(alloc, names.0, here)?;
    let second = security_word(alloc, names.1, there)?;
    let written = write_both(writer, first.as_str(), second.as_str());
    drop(second);
    drop(first);
    written
}

/// Writes two integrity labels of a subject or an object.
pub(crate) fn write_integrities(
    alloc: Global,
    writer: &mut Writer,
    names: (&Names, &Names),
    thing: Thing,
    here: IntLabel,
    there: IntLabel,
) -> Result<(), AllocError>
    ensures { Adds result writer.old writer.new (thing_member names.entry.0.now thing
        ++ both_texts (integrity_text names.entry.0.now here) (integrity_text names.entry.1.now there)) }
{
    write_thing(writer, names.0, thing)?;
    let first = integrity_word(alloc, names.0, here)?;
    let second = integrity_word(alloc, names.1, there)?;
    let written = write_both(writer, first.as_str(), second.as_str());
    drop(second);
    drop(first);
    written
}

/// Writes both sides of what is so or isn't, the first start's first.
fn write_both_truths(writer: &mut Writer, here: bool, there: bool) -> Result<(), AllocError>
    ensures { Adds result writer.old writer.new (truth_members (codes "first") (codes "second") here there) }
{
    write_truths(writer, ("first", "second"), here, there)
}

/// Writes whether a subject is trusted.
pub(crate) fn write_trusted(
    writer: &mut Writer,
    names: &Names,
    s: SubjectId,
    here: bool,
    there: bool,
) -> Result<(), AllocError>
    ensures { Adds result writer.old writer.new (thing_member names.now (Subject s)
        ++ truth_members (codes "first") (codes "second") here there) }
{
    write_thing(writer, names, Thing::Subject(s))?;
    write_both_truths(writer, here, there)
}

/// Writes a parent, by its name; null where there is none.
fn write_parent(
    writer: &mut Writer,
    at: &str,
    names: &Names,
    parent: Option<ObjectId>,
) -> Result<(), AllocError>
    ensures { Adds result writer.old writer.new (parent_member at.now names.now parent) }
{
    match parent {
        Some(p) => write_text(writer, at, name_at(names, p)),
        None => write_null(writer, at),
    }
}

/// Writes two parents.
fn write_two_parents(
    writer: &mut Writer,
    keys: (&str, &str),
    names: (&Names, &Names),
    here: Option<ObjectId>,
    there: Option<ObjectId>,
) -> Result<(), AllocError>
    ensures { Adds result writer.old writer.new (parent_members keys.entry.0.now keys.entry.1.now
        names.entry.0.now names.entry.1.now here there) }
{
    write_parent(writer, keys.0, names.0, here)?;
    write_parent(writer, keys.1, names.1, there)
}

/// Writes both parents, the first start's first.
fn write_both_parents(
    writer: &mut Writer,
    names: (&Names, &Names),
    here: Option<ObjectId>,
    there: Option<ObjectId>,
) -> Result<(), AllocError>
    ensures { Adds result writer.old writer.new (parent_members (codes "first") (codes "second")
        names.entry.0.now names.entry.1.now here there) }
{
    write_two_parents(writer, ("first", "second"), names, here, there)
}

/// Writes the parents of an object.
pub(crate) fn write_parents(
    writer: &mut Writer,
    names: (&Names, &Names),
    o: ObjectId,
    here: Option<ObjectId>,
    there: Option<ObjectId>,
) -> Result<(), AllocError>
    ensures { Adds result writer.old writer.new (thing_member names.entry.0.now (Object o)
        ++ parent_members (codes "first") (codes "second") names.entry.0.now names.entry.1.now here there) }
{
    write_thing(writer, names.0, Thing::Object(o))?;
    write_both_parents(writer, names, here, there)
}
