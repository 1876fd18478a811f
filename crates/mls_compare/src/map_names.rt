//! The names of a start by the map that it was made with.
use crate::map_reading::{called, count_of};
use mls_labels::Scheme;
use mls_lines::{Names, NamesFault};
use mls_snapshots::{category_names, level_names};
use mls_tables::{MAX_OBJECTS, MAX_SUBJECTS, SubjectId};
use mls_wording::push_number;
use std::alloc::{AllocError, Global};
use std::str;

/// Why there are no names of a map.
#[derive(Clone, Copy, Debug, PartialEq, Eq)]
pub enum MapFault {
    /// It is no map of the start.
    Map,
    /// An allocation failed.
    Memory,
}

impl From<AllocError> for MapFault {
    fn from(_: AllocError) -> MapFault {
        MapFault::Memory
    }
}

/// The name of an object that was made since a map.
fn made_name(alloc: Global, o: u16) -> Result<String, AllocError> {
    let mut name = String::new(alloc);
    name.push_str("+#")?;
    push_number(&mut name, u64::from(o))?;
    Ok(name)
}

/// The names of the objects that were made since a map, by number, from this one on.
fn made_since(alloc: Global, first: u16) -> Result<Vec<String>, AllocError> {
    let mut found = Vec::new(alloc);
    for o in first..MAX_OBJECTS {
        found.push(made_name(alloc, o)?)?;
    }
    Ok(found)
}

/// Adds texts that are lent.
fn lend<'a>(texts: &mut Vec<&'a str>, owned: &'a [String]) -> Result<(), AllocError> {
    for text in owned {
        texts.push(text.as_str())?;
    }
    Ok(())
}

/// The names of a start's subjects.
fn subject_names<'a>(alloc: Global, names: &'a Names) -> Result<Vec<&'a str>, AllocError> {
    let mut found = Vec::new(alloc);
    for s in 0..MAX_SUBJECTS {
        if let Some(name) = names.subject_name(SubjectId(s)) {
            found.push(name)?;
        }
    }
    Ok(found)
}

/// A scheme of these levels and categories.
fn scheme_of(alloc: Global, levels: &[String], categories: &[String]) -> Result<Scheme, MapFault> {
    let mut of_levels = Vec::new(alloc);
    lend(&mut of_levels, levels)?;
    let mut of_categories = Vec::new(alloc);
    lend(&mut of_categories, categories)?;
    let made = Scheme::new(alloc, &of_levels, &of_categories);
    drop(of_categories);
    drop(of_levels);
    match made {
        Ok(scheme) => Ok(scheme),
        Err(_) => Err(MapFault::Memory),
    }
}

/// A scheme of the same names.
fn same_scheme(alloc: Global, scheme: &Scheme) -> Result<Scheme, MapFault> {
    let levels = level_names(alloc, scheme)?;
    let categories = category_names(alloc, scheme)?;
    let made = scheme_of(alloc, &levels, &categories);
    drop(categories);
    drop(levels);
    made
}

/// The names of a start's levels and categories, with these of its subjects and of its objects.
fn with_things(
    alloc: Global,
    names: &Names,
    subjects: &[&str],
    objects: &[&str],
) -> Result<Names, MapFault> {
    let security = same_scheme(alloc, names.security())?;
    let integrity = same_scheme(alloc, names.integrity())?;
    match Names::new(alloc, subjects, objects, security, integrity) {
        Ok(found) => Ok(found),
        Err(NamesFault::Memory) => Err(MapFault::Memory),
        Err(_) => Err(MapFault::Map),
    }
}

/// The names of a start, but these of its objects, and behind them those of objects that were made since.
fn with_objects(
    alloc: Global,
    names: &Names,
    called: &[&str],
    made: &[String],
) -> Result<Names, MapFault> {
    let subjects = subject_names(alloc, names)?;
    let mut objects = Vec::new(alloc);
    objects.extend_from_slice(called)?;
    lend(&mut objects, made)?;
    let found = with_things(alloc, names, &subjects, &objects);
    drop(objects);
    drop(subjects);
    found
}

/// The names of a start, but these of its objects, where there are such.
fn with_called(alloc: Global, names: &Names, called: &[&str]) -> Result<Names, MapFault> {
    if called.is_empty() {
        return Err(MapFault::Map);
    }
    let made = made_since(alloc, count_of(called))?;
    let found = with_objects(alloc, names, called, &made);
    drop(made);
    found
}

/// The names of a start by the map that it was made with: its objects have those that they had before, and each other
/// number below `MAX_OBJECTS`, of what was or will be made since, is `+#` and the number. No clause says so: it is
/// tested.
///
/// # Errors
/// - `Map` where it is no map of the start: its lines aren't those of all objects of the start, by number, or an
///   object of the start has neither the name that the map has nor, where that is a number behind a `#`, the name of an
///   `o` and this number or a greater one.
/// - `Memory` where an allocation failed.
pub fn names_after(alloc: Global, names: &Names, map: &[u8]) -> Result<Names, MapFault> {
    let Ok(map) = str::from_utf8(map) else {
        return Err(MapFault::Map);
    };
    let called = called(alloc, names, map)?;
    let found = with_called(alloc, names, &called);
    drop(called);
    found
}
