//! The two starts of a comparison, and their two schemes.
ghost use Rattle.std.specs.Prelude.{◌≡◌, map, string_bytes, IfOk};
ghost use Rattle.mls_differences.specs.Sides.{alone, area_word, categories_of, levels_of, on_side, side_word};

use mls_lines::Names;
use mls_snapshots::{category_names, level_names};
use std::alloc::{AllocError, Global};

/// One of the two starts.
#[derive(Clone, Copy)]
pub(crate) enum Side {
    First,
    Second,
}

/// One of the two schemes of a start.
#[derive(Clone, Copy)]
pub(crate) enum Area {
    Security,
    Integrity,
}

impl Side {
    /// The word for the start.
    pub(crate) fn word(self) -> &'static str
        ensures { result.now ≡ side_word self }
    {
        match self {
            Side::First => "first",
            Side::Second => "second",
        }
    }

    /// The start's word of two.
    pub(crate) fn file<'x>(self, words: (&'x str, &'x str)) -> &'x str
        ensures { result.now ≡ on_side words.entry.0.now words.entry.1.now self }
    {
        match self {
            Side::First => words.0,
            Side::Second => words.1,
        }
    }

    /// The start's names of two.
    pub(crate) fn names<'x>(self, names: (&'x Names, &'x Names)) -> &'x Names
        ensures { result.now ≡ on_side names.entry.0.now names.entry.1.now self }
    {
        match self {
            Side::First => names.0,
            Side::Second => names.1,
        }
    }
}

/// Which of two starts alone has something, by whether each of them has it.
pub(crate) fn alone(here: bool, there: bool) -> Option<Side>
    ensures { result ≡ alone here there }
{
    match (here, there) {
        (true, false) => Some(Side::First),
        (false, true) => Some(Side::Second),
        (true, true) | (false, false) => None,
    }
}

impl Area {
    /// The word for the scheme.
    pub(crate) fn word(self) -> &'static str
        ensures { result.now ≡ area_word self }
    {
        match self {
            Area::Security => "security",
            Area::Integrity => "integrity",
        }
    }

    /// The names of the scheme's levels.
    pub(crate) fn levels(self, alloc: Global, names: &Names) -> Result<Vec<String>, AllocError>
        ensures { IfOk result (λ levels. map string_bytes levels.items ≡ levels_of names.now self) }
    {
        match self {
            Area::Security => level_names(alloc, names.security()),
            Area::Integrity => level_names(alloc, names.integrity()),
        }
    }

    /// The names of the scheme's categories.
    pub(crate) fn categories(self, alloc: Global, names: &Names) -> Result<Vec<String>, AllocError>
        ensures { IfOk result (λ found. map string_bytes found.items ≡ categories_of names.now self) }
    {
        match self {
            Area::Security => category_names(alloc, names.security()),
            Area::Integrity => category_names(alloc, names.integrity()),
        }
    }
}
