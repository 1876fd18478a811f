//! The members of the levels that two starts share, by the order in each.
ghost use Rattle.std.specs.Prelude.{◌≡◌, ◌∷◌, [], codes, map, string_bytes, if◌then◌else◌};
ghost use Rattle.std.specs.List.{flat_map};
ghost use Rattle.json.specs.Token.{string};
ghost use Rattle.mls_rows.specs.Members.{Adds, text_member};
ghost use Rattle.mls_differences.specs.ChangeForms.{common_member, common_members, levels_members};
ghost use Rattle.mls_differences.specs.Counterparts.{is_among};
ghost use Rattle.mls_differences.specs.Sides.{area_word, common, levels_of};

use crate::name_lists::is_among;
use crate::side::Area;
use json::Writer;
use mls_lines::Names;
use mls_rows::write_text;
use std::alloc::{AllocError, Global};

/// Writes a name that two lists share.
fn write_where(writer: &mut Writer, name: &str, is_common: bool) -> Result<(), AllocError>
    ensures { Adds result writer.old writer.new (if is_common then string name.now ∷ [] else []) }
{
    if !is_common {
        return Ok(());
    }
    writer.string(name)
}

/// Writes those of some names that are among others.
fn write_names(writer: &mut Writer, names: &[String], others: &[String]) -> Result<(), AllocError>
    ensures { Adds result writer.old writer.new (flat_map
        (λ name. if is_among (map string_bytes others.now) (string_bytes name) then string (string_bytes name) ∷ []
        else []) names.now) }
{
    for name in names {
        let is_common = is_among(others, name.as_str());
        write_where(writer, name.as_str(), is_common)?;
    }
    Ok(())
}

/// Writes those of some names that are among others, in their order.
fn write_shared(writer: &mut Writer, names: &[String], others: &[String]) -> Result<(), AllocError>
    ensures { Adds result writer.old writer.new
        (map string (common (map string_bytes names.now) (map string_bytes others.now))) }
{
    write_names(writer, names, others)
}

/// Writes the list of those of some names that are among others.
fn write_common(
    writer: &mut Writer,
    at: &str,
    names: &[String],
    others: &[String],
) -> Result<(), AllocError>
    ensures { Adds result writer.old writer.new
        (common_member at.now (map string_bytes names.now) (map string_bytes others.now)) }
{
    writer.key(at)?;
    writer.begin_array()?;
    write_shared(writer, names, others)?;
    writer.end_array()
}

/// Writes the two orders of the levels that two lists share.
fn write_orders(
    writer: &mut Writer,
    keys: (&str, &str),
    levels: &[String],
    others: &[String],
) -> Result<(), AllocError>
    ensures { Adds result writer.old writer.new (common_members keys.entry.0.now keys.entry.1.now
        (map string_bytes levels.now) (map string_bytes others.now)) }
{
    write_common(writer, keys.0, levels, others)?;
    write_common(writer, keys.1, others, levels)
}

/// Writes the two orders of the levels that two lists share, the first start's first.
fn write_both_orders(
    writer: &mut Writer,
    levels: &[String],
    others: &[String],
) -> Result<(), AllocError>
    ensures { Adds result writer.old writer.new (common_members (codes "first") (codes "second")
        (map string_bytes levels.now) (map string_bytes others.now)) }
{
    write_orders(writer, ("first", "second"), levels, others)
}

/// Writes which scheme it is.
pub(crate) fn write_area(writer: &mut Writer, area: Area) -> Result<(), AllocError>
    ensures { Adds result writer.old writer.new (text_member (codes "scheme") (area_word area)) }
{
    write_text(writer, "scheme", area.word())
}

/// Writes the two orders of the levels that two lists share, and of which scheme.
fn write_lists(
    writer: &mut Writer,
    area: Area,
    levels: &[String],
    others: &[String],
) -> Result<(), AllocError>
    ensures { Adds result writer.old writer.new (levels_members (area_word area)
        (map string_bytes levels.now) (map string_bytes others.now)) }
{
    write_area(writer, area)?;
    write_both_orders(writer, levels, others)
}

/// Writes the two orders of the levels that the schemes of two starts share.
pub(crate) fn write_levels(
    alloc: Global,
    writer: &mut Writer,
    names: (&Names, &Names),
    area: Area,
) -> Result<(), AllocError>
    ensures { Adds result writer.old writer.new (levels_members (area_word area)
        (levels_of names.entry.0.now area) (levels_of names.entry.1.now area)) }
{
    let levels = area.levels(alloc, names.0)?;
    let others = area.levels(alloc, names.1)?;
    let written = write_lists(writer, area, &levels, &others);
    drop(others);
    drop(levels);
    written
}
