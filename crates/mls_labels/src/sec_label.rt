//! Labels for security.
ghost use Rattle.std.specs.Prelude.{◌≡◌};
ghost use Rattle.mls_labels.specs.Label.{dominates};

use crate::label::Label;
use std::marker::Model;

/// The security label of a subject or an object. It is a type of its own, so that no integrity label
/// stands in its place.
#[derive(Clone, Copy, Debug, PartialEq, Eq)]
pub struct SecLabel {
    label: Label,
}

impl Model for SecLabel {
    ghost use Rattle.mls_labels.specs.Label.{Label, label_code};

    ghost Value = { Label };

    ghost coded = { label_code };

    ghost view = { λ a. a.label };

    ghost inverse = { λ l. record { label = l } };
}

impl SecLabel {
    /// This label as a security label.
    pub fn of(label: Label) -> SecLabel
        ensures { result ≡ label }
    {
        SecLabel { label }
    }

    /// The label itself.
    pub fn label(self) -> Label
        ensures { result ≡ self }
    {
        self.label
    }

    /// Whether this label dominates `other`, as [`Label::dominates`].
    pub fn dominates(self, other: &SecLabel) -> bool
        ensures { result ≡ dominates self other.now }
    {
        Label::dominates(self.label, &other.label)
    }
}
