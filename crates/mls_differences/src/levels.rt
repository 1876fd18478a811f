//! The line of the levels that two starts share, by the order in each.
ghost use Rattle.std.specs.Prelude.{◌≡◌, ◌++◌, ◌<◌, ◌∷◌, [], map, string_bytes, IfOk, OnOk, if◌then◌else◌};
ghost use Rattle.mls_differences.specs.ChangeForms.{order_line, orders_line};
ghost use Rattle.mls_differences.specs.Sides.{area_word, common_text, levels_of};

use crate::name_lists::is_among;
use crate::side::Area;
use mls_lines::Names;
use std::alloc::{AllocError, Global};

/// Appends a separator and a name that two lists share, and gives the separator before the next.
fn push_where(
    text: &mut String,
    separator: char,
    name: &str,
    is_common: bool,
) -> Result<char, AllocError>
    requires { separator < 128 }
    ensures text { OnOk result (string_bytes text.new
        ≡ string_bytes text.old ++ (if is_common then separator ∷ name.now else [])) }
    ensures next { IfOk result (λ next. next ≡ (if is_common then 44 else separator)) }
{
    if !is_common {
        return Ok(separator);
    }
    text.push(separator)?;
    text.push_str(name)?;
    Ok(',')
}

/// Appends those of some names that are among others.
fn push_common(text: &mut String, names: &[String], others: &[String]) -> Result<(), AllocError>
    ensures { OnOk result (string_bytes text.new ≡ string_bytes text.old
        ++ common_text (map string_bytes names.now) (map string_bytes others.now)) }
{
    let mut separator = ' ';
    for name in names {
        let is_common = is_among(others, name.as_str());
        separator = push_where(text, separator, name.as_str(), is_common)?;
    }
    Ok(())
}

/// Those of some names that are among others, in a text.
pub(crate) fn common_text(
    alloc: Global,
    names: &[String],
    others: &[String],
) -> Result<String, AllocError>
    ensures { IfOk result (λ text. string_bytes text
        ≡ common_text (map string_bytes names.now) (map string_bytes others.now)) }
{
    let mut text = String::new(alloc);
    push_common(&mut text, names, others)?;
    Ok(text)
}

/// Appends the line of two orders of levels.
fn push_orders(text: &mut String, kind: &str, here: &str, there: &str) -> Result<(), AllocError>
    ensures { OnOk result (string_bytes text.new
        ≡ string_bytes text.old ++ orders_line kind.now here.now there.now) }
{
    text.push_str(kind)?;
    text.push_str(" levels:")?;
    text.push_str(here)?;
    text.push_str(" >")?;
    text.push_str(there)?;
    text.push_str("\n")
}

/// Appends the line of the levels that two lists share.
fn push_order(
    alloc: Global,
    text: &mut String,
    kind: &str,
    levels: &[String],
    others: &[String],
) -> Result<(), AllocError>
    ensures { OnOk result (string_bytes text.new ≡ string_bytes text.old
        ++ order_line kind.now (map string_bytes levels.now) (map string_bytes others.now)) }
{
    let here = common_text(alloc, levels, others)?;
    let there = common_text(alloc, others, levels)?;
    let pushed = push_orders(text, kind, here.as_str(), there.as_str());
    drop(there);
    drop(here);
    pushed
}

/// Appends the line of the levels that the schemes of two starts share.
pub(crate) fn push_levels_line(
    alloc: Global,
    text: &mut String,
    names: (&Names, &Names),
    area: Area,
) -> Result<(), AllocError>
    ensures { OnOk result (string_bytes text.new ≡ string_bytes text.old ++ order_line (area_word area)
        (levels_of names.entry.0.now area) (levels_of names.entry.1.now area)) }
{
    let levels = area.levels(alloc, names.0)?;
    let others = area.levels(alloc, names.1)?;
    let pushed = push_order(alloc, text, area.word(), &levels, &others);
    drop(others);
    drop(levels);
    pushed
}
