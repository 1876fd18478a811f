//! The members of what a request names and isn't there.
ghost use Rattle.json.specs.Token.{begin_array, key};
ghost use Rattle.std.specs.Prelude.{◌≡◌, ◌∷◌, [], codes, OnOk};
ghost use Rattle.std.specs.List.{flat_map};
ghost use Rattle.mls_rows.specs.Members.{Adds, text_member};
ghost use Rattle.mls_wording.specs.Wording.{integrity_text, security_text};
ghost use Rattle.mls_explain_text.specs.ExplainMembers.{undefined_members, unknown_members};
ghost use Rattle.mls_explain_text.specs.Holdings.{some_list};
ghost use Rattle.mls_explain_text.specs.ExplainMembers.{unknown_object};

use crate::answer_row::write_reply;
use json::Writer;
use mls_explain::Unknown;
use mls_labels::{IntLabel, SecLabel};
use mls_lines::Names;
use mls_requests::Reply;
use mls_rows::{write_object, write_subject, write_text};
use mls_wording::{push_integrity, push_security};
use std::alloc::{AllocError, Global};

/// Writes what it is that isn't there.
fn write_what(writer: &mut Writer, what: &str) -> Result<(), AllocError>
    ensures { Adds result writer.old writer.new (text_member (codes "what") what.now) }
{
    write_text(writer, "what", what)
}

/// Writes a security label.
fn write_security(
    alloc: Global,
    writer: &mut Writer,
    names: &Names,
    l: SecLabel,
) -> Result<(), AllocError>
    ensures { Adds result writer.old writer.new (text_member (codes "security") (security_text names.now l)) }
{
    let mut text = String::new(alloc);
    push_security(&mut text, names, l)?;
    let done = write_text(writer, "security", &text);
    drop(text);
    done
}

/// Writes an integrity label under a key.
fn write_integrity_at(
    alloc: Global,
    writer: &mut Writer,
    names: &Names,
    at: &str,
    i: IntLabel,
) -> Result<(), AllocError>
    ensures { Adds result writer.old writer.new (text_member at.now (integrity_text names.now i)) }
{
    let mut text = String::new(alloc);
    push_integrity(&mut text, names, i)?;
    let done = write_text(writer, at, &text);
    drop(text);
    done
}

/// Writes an integrity label.
fn write_integrity(
    alloc: Global,
    writer: &mut Writer,
    names: &Names,
    i: IntLabel,
) -> Result<(), AllocError>
    ensures { Adds result writer.old writer.new (text_member (codes "integrity") (integrity_text names.now i)) }
{
    write_integrity_at(alloc, writer, names, "integrity", i)
}

/// Writes that an integrity label isn't there.
fn write_no_integrity(writer: &mut Writer) -> Result<(), AllocError>
    ensures { Adds result writer.old writer.new (text_member (codes "what") (codes "integrity")) }
{
    write_what(writer, "integrity")
}

/// Writes the members of what isn't there.
fn write_members(
    alloc: Global,
    writer: &mut Writer,
    names: &Names,
    unknown: &Unknown,
) -> Result<(), AllocError>
    ensures { Adds result writer.old writer.new (unknown_members names.now unknown.now) }
{
    match *unknown {
        Unknown::Subject(s) => {
            write_what(writer, "subject")?;
            write_subject(writer, names, s)
        }
        Unknown::Object(o) => {
            write_what(writer, "object")?;
            write_object(writer, names, o)
        }
        Unknown::Security(l) => {
            write_what(writer, "security")?;
            write_security(alloc, writer, names, l)
        }
        Unknown::Integrity(i) => {
            write_no_integrity(writer)?;
            write_integrity(alloc, writer, names, i)
        }
    }
}

/// Writes the object of what isn't there.
fn write_unknown(
    alloc: Global,
    writer: &mut Writer,
    names: &Names,
    unknown: &Unknown,
) -> Result<(), AllocError>
    ensures { Adds result writer.old writer.new (unknown_object names.now unknown.now) }
{
    writer.begin_object()?;
    write_members(alloc, writer, names, unknown)?;
    writer.end_object()
}

/// Writes the objects of what isn't there.
fn write_each(
    alloc: Global,
    writer: &mut Writer,
    names: &Names,
    unknown: &[Unknown],
) -> Result<(), AllocError>
    ensures { Adds result writer.old writer.new (flat_map (unknown_object names.now) unknown.now) }
{
    for one in unknown {
        write_unknown(alloc, writer, names, one)?;
    }
    Ok(())
}

/// Begins the list of what isn't there.
fn begin_missing(writer: &mut Writer) -> Result<(), AllocError>
    ensures { Adds result writer.old writer.new (key (codes "missing") ∷ begin_array ∷ []) }
{
    writer.key("missing")?;
    writer.begin_array()
}

/// Writes the list of what isn't there, where there is something.
fn write_missing(
    alloc: Global,
    writer: &mut Writer,
    names: &Names,
    unknown: &[Unknown],
) -> Result<(), AllocError>
    ensures { Adds result writer.old writer.new
        (some_list (codes "missing") (unknown_object names.now) unknown.now) }
{
    match unknown {
        [] => Ok(()),
        [_, ..] => {
            begin_missing(writer)?;
            write_each(alloc, writer, names, unknown)?;
            writer.end_array()
        }
    }
}

/// Writes the explanation of a request outside the domain, which names these things that aren't there.
pub(crate) fn write_undefined(
    alloc: Global,
    writer: &mut Writer,
    names: &Names,
    unknown: &[Unknown],
) -> Result<(), AllocError>
    ensures { Adds result writer.old writer.new (undefined_members names.now unknown.now) }
{
    write_reply(writer, &Reply::Undefined)?;
    write_missing(alloc, writer, names, unknown)
}
