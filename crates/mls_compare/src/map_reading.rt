//! A map of objects, read for the start that it was made with.
use mls_lines::Names;
use mls_requests::read_decimal;
use mls_tables::{MAX_OBJECTS, ObjectId};
use std::alloc::{AllocError, Global};

/// An object of a map: its old number, and what it was called.
#[derive(Clone, Copy)]
struct MapRow<'a> {
    old: u16,
    name: &'a str,
}

/// The number that a word writes in decimal, up to a limit.
fn number(word: &str, limit: u16) -> Option<u16> {
    let number = read_decimal(word.as_bytes(), u64::from(limit))?;
    Some(number as u16)
}

/// The number of an object that a word writes in decimal.
fn object_number(word: &str) -> Option<u16> {
    number(word, MAX_OBJECTS - 1)
}

impl<'a> MapRow<'a> {
    /// What the line of a new number says, without its newline.
    fn read(line: &'a str, new: u16) -> Option<MapRow<'a>> {
        let (first, rest) = line.split_once(' ')?;
        let (second, name) = rest.split_once(' ')?;
        if object_number(first)? != new {
            return None;
        }
        let old = object_number(second)?;
        Some(MapRow { old, name })
    }

    /// Whether the object was called by its number, and has now a name of an `o` and that number or a greater one.
    /// (That may be no object's: where objects of the start have the names of all numbers that are left.)
    fn is_numbered(&self, now: &str) -> bool {
        let (Some(was), Some(is)) = (self.name.strip_prefix('#'), now.strip_prefix('o')) else {
            return false;
        };
        match (object_number(was), number(is, u16::MAX)) {
            (Some(was), Some(is)) => was == self.old && is >= self.old,
            _ => false,
        }
    }

    /// Whether the object can have this name in a start that was made with the map.
    fn fits(&self, now: &str) -> bool {
        self.name == now || self.is_numbered(now)
    }
}

/// How many texts there are, of at most `MAX_OBJECTS`.
pub(crate) fn count_of(texts: &[&str]) -> u16 {
    (texts.len() % (1 << 16)) as u16
}

/// What the object of a number was called, by its line in a map, where that fits the start.
fn called_by<'a>(names: &Names, line: &'a str, new: u16) -> Option<&'a str> {
    let row = MapRow::read(line, new)?;
    let now = names.object_name(ObjectId(new))?;
    if row.fits(now) { Some(row.name) } else { None }
}

/// What the objects of a start's numbers were called, by a map; nothing where it isn't one of the start.
pub(crate) fn called<'a>(
    alloc: Global,
    names: &Names,
    map: &'a str,
) -> Result<Vec<&'a str>, AllocError> {
    let mut found = Vec::new(alloc);
    let mut rest = map;
    for new in 0..MAX_OBJECTS {
        let Some((line, more)) = rest.split_once('\n') else {
            break;
        };
        let Some(name) = called_by(names, line, new) else {
            break;
        };
        found.push(name)?;
        rest = more;
    }
    let is_whole = names.object_name(ObjectId(count_of(&found))).is_none();
    if !rest.is_empty() || !is_whole {
        found.clear();
    }
    Ok(found)
}
