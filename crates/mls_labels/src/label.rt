//! Labels: a level and a set of categories.
ghost use Rattle.std.specs.Prelude.{◌≡◌, ◌<◌};
ghost use Rattle.mls_labels.specs.Label.{dominates};

use crate::cat_set::CatSet;
use crate::limits::MAX_LEVELS;
use std::marker::Model;

/// A level less than `MAX_LEVELS` and a set of categories. Level and categories stand for the names of a
/// scheme; a label itself belongs to no scheme.
#[derive(Clone, Copy, Debug, PartialEq, Eq)]
pub struct Label {
    /// A whole word: a label then has no byte that means nothing, and a copy of it is two moves.
    level: u64,
    cats: CatSet,
}

impl Model for Label {
    ghost use Rattle.std.specs.Prelude.{◌<◌};
    ghost use Rattle.mls_labels.specs.Label.{Label, label_code};
    ghost use Rattle.mls_labels.specs.declared.limits.TheConstants.{MAX_LEVELS};

    ghost Value = { Label };

    ghost coded = { label_code };

    ghost view = { λ a. record { level = a.level; categories = a.cats } };

    ghost invariant = { λ a. a.level < MAX_LEVELS };

    ghost inverse = { λ l. record { level = l.level; cats = l.categories } };
}

impl Label {
    /// The label of this level and these categories.
    pub fn new(level: u8, cats: CatSet) -> Label
        requires { level < MAX_LEVELS }
        ensures { result ≡ record { level = level; categories = cats } }
    {
        let level = level as u64;
        Label { level, cats }
    }

    /// The label's level, which is less than `MAX_LEVELS`.
    pub fn level(self) -> u8
        ensures level { result ≡ self.level }
        ensures limit { result < MAX_LEVELS }
    {
        self.level as u8
    }

    /// The label's categories.
    pub fn categories(self) -> CatSet
        ensures { result ≡ self.categories }
    {
        self.cats
    }

    /// Whether this label is at least as high as `other`: its level is not less, and it has each of
    /// the other's categories. Neither of two labels need dominate the other.
    pub fn dominates(self, other: &Label) -> bool
        ensures { result ≡ dominates self other.now }
    {
        other.level <= self.level && other.cats.is_subset(&self.cats)
    }
}
