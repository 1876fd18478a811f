//! The names of numbers, by their kinds.
ghost use Rattle.std.specs.Prelude.{◌≡◌, [], map, option_map, string_bytes, unwrap_or, IfOk};
ghost use Rattle.mls_labels.specs.LabelText.{name_at};
ghost use Rattle.mls_differences.specs.Sides.{categories_of, levels_of};
ghost use Rattle.mls_differences.specs.Singles.{names_in};

use crate::side::Area;
use crate::single::Kind;
use mls_lines::Names;
use mls_tables::{ObjectId, SubjectId};
use std::alloc::{AllocError, Global};

/// The name in a place, nothing where there is none.
fn name_of(alloc: Global, names: &[String], n: u16) -> Result<String, AllocError>
    ensures { IfOk result (λ name. string_bytes name ≡ name_at (map string_bytes names.now) n) }
{
    match names.get(n as usize) {
        Some(name) => String::from_str(alloc, name.as_str()),
        None => Ok(String::new(alloc)),
    }
}

/// A name, nothing where there is none.
fn named(alloc: Global, name: Option<&str>) -> Result<String, AllocError>
    ensures { IfOk result (λ text. string_bytes text
        ≡ unwrap_or (option_map (λ name. name.now) name.entry) []) }
{
    match name {
        Some(name) => String::from_str(alloc, name),
        None => Ok(String::new(alloc)),
    }
}

/// The name of the level of a number.
fn level_in(alloc: Global, names: &Names, area: Area, n: u16) -> Result<String, AllocError>
    ensures { IfOk result (λ name. string_bytes name ≡ name_at (levels_of names.now area) n) }
{
    let levels = area.levels(alloc, names)?;
    let name = name_of(alloc, &levels, n);
    drop(levels);
    name
}

/// The name of the category of a number.
fn category_in(alloc: Global, names: &Names, area: Area, n: u16) -> Result<String, AllocError>
    ensures { IfOk result (λ name. string_bytes name ≡ name_at (categories_of names.now area) n) }
{
    let categories = area.categories(alloc, names)?;
    let name = name_of(alloc, &categories, n);
    drop(categories);
    name
}

/// The name of a number.
pub(crate) fn name_in(
    alloc: Global,
    names: &Names,
    kind: Kind,
    n: u16,
) -> Result<String, AllocError>
    ensures { IfOk result (λ name. string_bytes name ≡ name_at (names_in names.now kind) n) }
{
    match kind {
        Kind::Level(area) => level_in(alloc, names, area, n),
        Kind::Category(area) => category_in(alloc, names, area, n),
        Kind::Subject => named(alloc, names.subject_name(SubjectId(n))),
        Kind::Object => named(alloc, names.object_name(ObjectId(n))),
    }
}
