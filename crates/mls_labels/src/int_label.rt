//! Labels for integrity.
ghost use Rattle.std.specs.Prelude.{◌≡◌};
ghost use Rattle.mls_labels.specs.Label.{dominates};

use crate::label::Label;
use std::marker::Model;

/// The integrity label of a subject or an object. It is a type of its own, so that no security label
/// stands in its place.
#[derive(Clone, Copy, Debug, PartialEq, Eq)]
pub struct IntLabel {
    label: Label,
}

impl Model for IntLabel {
    ghost use Rattle.mls_labels.specs.Label.{Label, label_code};

    ghost Value = { Label };

    ghost coded = { label_code };

    ghost view = { λ a. a.label };

    ghost inverse = { λ l. record { label = l } };
}

impl IntLabel {
    /// This label as an integrity label.
    pub fn of(label: Label) -> IntLabel
        ensures { result ≡ label }
    {
        IntLabel { label }
    }

    /// The label itself.
    pub fn label(self) -> Label
        ensures { result ≡ self }
    {
        self.label
    }

    /// Whether this label dominates `other`, as [`Label::dominates`].
    pub fn dominates(self, other: &IntLabel) -> bool
        ensures { result ≡ dominates self other.now }
    {
        Label::dominates(self.label, &other.label)
    }
}
