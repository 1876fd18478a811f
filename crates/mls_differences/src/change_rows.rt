//! What two starts both have, but otherwise, as rows.
ghost use Rattle.mls_rows.specs.Members.{Adds};
ghost use Rattle.mls_differences.specs.ChangeForms.{change_line, change_members, sides_members};

use crate::change::Change;
use crate::change_lines::{
    push_integrities, push_parents, push_profiles, push_securities, push_trusted,
};
use crate::change_members::{
    write_integrities, write_parents, write_profiles, write_securities, write_trusted,
};
use crate::compared::Compared;
use crate::level_lists::write_levels;
use crate::levels::push_levels_line;
use crate::thing::{Thing, write_difference};
use json::Writer;
use mls_lines::Names;
use std::alloc::{AllocError, Global};

/// Writes the members of a row behind the word of what differs.
fn write_sides(
    alloc: Global,
    writer: &mut Writer,
    names: (&Names, &Names),
    change: &Change,
) -> Result<(), AllocError>
    ensures { Adds result writer.old writer.new
        (sides_members names.entry.0.now names.entry.1.now change.now) }
{
    match change {
        Change::Profile(here, there) => write_profiles(writer, *here, *there),
        Change::Levels(area) => write_levels(alloc, writer, names, *area),
        Change::Maximum(s, l, m) => {
            write_securities(alloc, writer, names, Thing::Subject(*s), *l, *m)
        }
        Change::Current(s, l, m) => {
            write_securities(alloc, writer, names, Thing::Subject(*s), *l, *m)
        }
        Change::Own(s, i, j) => write_integrities(alloc, writer, names, Thing::Subject(*s), *i, *j),
        Change::Trusted(s, here, there) => write_trusted(writer, names.0, *s, *here, *there),
        Change::Parent(o, p, q) => write_parents(writer, names, *o, Some(*p), Some(*q)),
        Change::Placed(o, q) => write_parents(writer, names, *o, None, Some(*q)),
        Change::Freed(o, p) => write_parents(writer, names, *o, Some(*p), None),
        Change::Security(o, l, m) => {
            write_securities(alloc, writer, names, Thing::Object(*o), *l, *m)
        }
        Change::Integrity(o, i, j) => {
            write_integrities(alloc, writer, names, Thing::Object(*o), *i, *j)
        }
    }
}

impl Compared for Change {
    ghost line = { λ file other a b row. change_line a b row };

    ghost members = { change_members };

    fn push_line(
        &self,
        alloc: Global,
        text: &mut String,
        _words: (&str, &str),
        names: (&Names, &Names),
    ) -> Result<(), AllocError> {
        match self {
            Change::Profile(here, there) => push_profiles(text, *here, *there),
            Change::Levels(area) => push_levels_line(alloc, text, names, *area),
            Change::Maximum(s, l, m) => {
                push_securities(text, names, Thing::Subject(*s), "maximum", *l, *m)
            }
            Change::Current(s, l, m) => {
                push_securities(text, names, Thing::Subject(*s), "current", *l, *m)
            }
            Change::Own(s, i, j) => push_integrities(text, names, Thing::Subject(*s), *i, *j),
            Change::Trusted(s, here, there) => push_trusted(text, names.0, *s, *here, *there),
            Change::Parent(o, p, q) => push_parents(text, names, *o, Some(*p), Some(*q)),
            Change::Placed(o, q) => push_parents(text, names, *o, None, Some(*q)),
            Change::Freed(o, p) => push_parents(text, names, *o, Some(*p), None),
            Change::Security(o, l, m) => {
                push_securities(text, names, Thing::Object(*o), "security", *l, *m)
            }
            Change::Integrity(o, i, j) => push_integrities(text, names, Thing::Object(*o), *i, *j),
        }
    }

    fn write_members(
        &self,
        alloc: Global,
        writer: &mut Writer,
        names: (&Names, &Names),
    ) -> Result<(), AllocError> {
        write_difference(writer, self.word())?;
        write_sides(alloc, writer, names, self)
    }
}
