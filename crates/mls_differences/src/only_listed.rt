//! The names of levels and categories that only one of two starts has.
ghost use Rattle.std.specs.Prelude.{◌≡◌, ◌++◌, map, option_map, slice_get, string_bytes, OnOk};
ghost use Rattle.mls_differences.specs.Sides.{row_unless};
ghost use Rattle.mls_differences.specs.Singles.{kind_rows, name_rows, names_rows};
ghost use Rattle.mls_differences.specs.declared.single.Single.TheVariants.{Name};

use crate::name_lists::is_among;
use crate::side::{Area, Side};
use crate::single::{Kind, Single};
use mls_labels::{MAX_CATEGORIES, MAX_LEVELS};
use mls_lines::Names;
use std::alloc::{AllocError, Global};

/// Adds the row of the name of a number, where it isn't found in the other start.
pub(crate) fn push_name(
    rows: &mut Vec<Single>,
    side: Side,
    kind: Kind,
    n: u16,
    is_found: bool,
) -> Result<(), AllocError>
    ensures { OnOk result (rows.new.items ≡ rows.old.items ++ row_unless is_found (Name side kind n)) }
{
    if !is_found {
        rows.push(Single::Name(side, kind, n))?;
    }
    Ok(())
}

/// The name in a place of a list, where there is one.
#[tactic(auto, using(crate::proofs::NameLists::named_place))]
fn place(names: &[String], n: u16) -> Option<&str>
    ensures { option_map (λ name. name.now) result ≡ slice_get (map string_bytes names.now) n }
{
    match names.get(n as usize) {
        Some(name) => Some(name.as_str()),
        None => None,
    }
}

/// Adds the row of the name of a number in a list, where the other list hasn't got it.
fn push_place(
    rows: &mut Vec<Single>,
    side: Side,
    kind: Kind,
    names: &[String],
    others: &[String],
    n: u16,
) -> Result<(), AllocError>
    ensures { OnOk result (rows.new.items ≡ rows.old.items
        ++ name_rows side kind (map string_bytes others.now) n (slice_get (map string_bytes names.now) n)) }
{
    if let Some(name) = place(names, n) {
        let is_found = is_among(others, name);
        push_name(rows, side, kind, n, is_found)?;
    }
    Ok(())
}

/// Adds the rows of the names of the numbers below a count that are in a list, and not in the other.
fn push_places(
    rows: &mut Vec<Single>,
    side: Side,
    kind: Kind,
    names: &[String],
    others: &[String],
    count: u16,
) -> Result<(), AllocError>
    ensures { OnOk result (rows.new.items ≡ rows.old.items
        ++ names_rows side kind (map string_bytes names.now) (map string_bytes others.now) count) }
{
    for n in 0..count {
        push_place(rows, side, kind, names, others, n)?;
    }
    Ok(())
}

/// Adds the rows of the names that only one of two lists has, the first start's first.
fn push_lists(
    rows: &mut Vec<Single>,
    kind: Kind,
    here: &[String],
    there: &[String],
    count: u16,
) -> Result<(), AllocError>
    ensures { OnOk result (rows.new.items ≡ rows.old.items
        ++ names_rows Side.First kind (map string_bytes here.now) (map string_bytes there.now) count
        ++ names_rows Side.Second kind (map string_bytes there.now) (map string_bytes here.now) count) }
{
    push_places(rows, Side::First, kind, here, there, count)?;
    push_places(rows, Side::Second, kind, there, here, count)
}

/// Adds the rows of the levels that only one of two schemes has, the first start's first.
pub(crate) fn push_levels(
    alloc: Global,
    rows: &mut Vec<Single>,
    names: (&Names, &Names),
    area: Area,
) -> Result<(), AllocError>
    ensures { OnOk result (rows.new.items ≡ rows.old.items
        ++ kind_rows names.entry.0.now names.entry.1.now (Kind.Level area)) }
{
    let here = area.levels(alloc, names.0)?;
    let there = area.levels(alloc, names.1)?;
    let pushed = push_lists(rows, Kind::Level(area), &here, &there, MAX_LEVELS as u16);
    drop(there);
    drop(here);
    pushed
}

/// Adds the rows of the categories that only one of two schemes has, the first start's first.
pub(crate) fn push_categories(
    alloc: Global,
    rows: &mut Vec<Single>,
    names: (&Names, &Names),
    area: Area,
) -> Result<(), AllocError>
    ensures { OnOk result (rows.new.items ≡ rows.old.items
        ++ kind_rows names.entry.0.now names.entry.1.now (Kind.Category area)) }
{
    let here = area.categories(alloc, names.0)?;
    let there = area.categories(alloc, names.1)?;
    let pushed = push_lists(
        rows,
        Kind::Category(area),
        &here,
        &there,
        MAX_CATEGORIES as u16,
    );
    drop(there);
    drop(here);
    pushed
}
