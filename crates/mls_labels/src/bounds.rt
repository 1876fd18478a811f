//! How many levels and categories a scheme of labels has.
ghost use Rattle.std.specs.Prelude.{◌≡◌, ◌≤◌};
ghost use Rattle.mls_labels.specs.Label.{has_label};

use crate::label::Label;
use crate::limits::{MAX_CATEGORIES, MAX_LEVELS};
use std::marker::Model;

/// How many levels (1 to `MAX_LEVELS`) and categories (0 to `MAX_CATEGORIES`) a scheme of labels has.
#[derive(Clone, Copy, Debug, PartialEq, Eq)]
pub struct Bounds {
    levels: u8,
    categories: u16,
}

impl Model for Bounds {
    ghost use Rattle.std.specs.Prelude.{◌≤◌};
    ghost use Rattle.mls_labels.specs.Label.{Bounds, bounds_code};
    ghost use Rattle.mls_labels.specs.declared.limits.TheConstants.{MAX_CATEGORIES, MAX_LEVELS};

    ghost Value = { Bounds };

    ghost coded = { bounds_code };

    ghost view = { λ a. record { levels = a.levels; categories = a.categories } };

    ghost invariant = { λ a. (1 ≤ a.levels) × (a.levels ≤ MAX_LEVELS) × (a.categories ≤ MAX_CATEGORIES) };

    ghost inverse = { λ b. record { levels = b.levels; categories = b.categories } };
}

impl Bounds {
    /// The bounds of a scheme with this many levels and categories.
    pub fn new(levels: u8, categories: u16) -> Bounds
        requires some { 1 ≤ levels }
        requires levels { levels ≤ MAX_LEVELS }
        requires categories { categories ≤ MAX_CATEGORIES }
        ensures { result ≡ record { levels = levels; categories = categories } }
    {
        Bounds { levels, categories }
    }

    /// Whether the label's level is less than the number of levels, and each of its categories less
    /// than the number of categories.
    pub fn has(self, label: Label) -> bool
        ensures { result ≡ has_label self label }
    {
        label.level() < self.levels && label.categories().all_below(self.categories)
    }
}
