//! What one of two starts alone has, as rows.
ghost use Rattle.std.specs.Prelude.{◌≡◌, ◌++◌, string_bytes, OnOk};
ghost use Rattle.mls_labels.specs.LabelText.{name_at};
ghost use Rattle.mls_rows.specs.Members.{Adds};
ghost use Rattle.mls_differences.specs.SingleForms.{alone_members, name_members, only_line, side_member};
ghost use Rattle.mls_differences.specs.SingleForms.{single_line, single_members};
ghost use Rattle.mls_differences.specs.Singles.{names_in};

use crate::compared::Compared;
use crate::kind_names::name_in;
use crate::side::Side;
use crate::single::{Kind, Single};
use crate::single_lines::{push_only, push_triple};
use crate::single_members::{write_name, write_triple};
use crate::thing::write_difference;
use json::Writer;
use mls_lines::Names;
use std::alloc::{AllocError, Global};

/// Appends the line of the name of a number of a start with these names, which is said by this file.
fn push_name(
    alloc: Global,
    text: &mut String,
    file: &str,
    names: &Names,
    kind: Kind,
    n: u16,
) -> Result<(), AllocError>
    ensures { OnOk result (string_bytes text.new ≡ string_bytes text.old
        ++ only_line file.now kind (name_at (names_in names.now kind) n)) }
{
    let name = name_in(alloc, names, kind, n)?;
    let pushed = push_only(text, file, kind, name.as_str());
    drop(name);
    pushed
}

/// Writes the name of a number of a start with these names.
fn write_number(
    alloc: Global,
    writer: &mut Writer,
    side: Side,
    names: &Names,
    kind: Kind,
    n: u16,
) -> Result<(), AllocError>
    ensures { Adds result writer.old writer.new
        (side_member side ++ name_members kind (name_at (names_in names.now kind) n)) }
{
    let name = name_in(alloc, names, kind, n)?;
    let written = write_name(writer, side, kind, name.as_str());
    drop(name);
    written
}

/// Writes the members of a row behind the word of what differs.
fn write_alone(
    alloc: Global,
    writer: &mut Writer,
    names: (&Names, &Names),
    single: &Single,
) -> Result<(), AllocError>
    ensures { Adds result writer.old writer.new
        (alone_members names.entry.0.now names.entry.1.now single.now) }
{
    match single {
        Single::Triple(_, side, s, o, x) => write_triple(writer, *side, names.0, (*s, *o, *x)),
        Single::Name(side, kind, n) => {
            write_number(alloc, writer, *side, side.names(names), *kind, *n)
        }
    }
}

impl Compared for Single {
    ghost line = { single_line };

    ghost members = { single_members };

    fn push_line(
        &self,
        alloc: Global,
        text: &mut String,
        words: (&str, &str),
        names: (&Names, &Names),
    ) -> Result<(), AllocError> {
        match self {
            Single::Triple(table, side, s, o, x) => {
                push_triple(text, *table, names.0, (*s, *o, *x), side.file(words))
            }
            Single::Name(side, kind, n) => {
                push_name(alloc, text, side.file(words), side.names(names), *kind, *n)
            }
        }
    }

    fn write_members(
        &self,
        alloc: Global,
        writer: &mut Writer,
        names: (&Names, &Names),
    ) -> Result<(), AllocError> {
        write_difference(writer, self.word())?;
        write_alone(alloc, writer, names, self)
    }
}
