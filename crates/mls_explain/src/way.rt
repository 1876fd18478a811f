//! What a get would take.

use mls_labels::SecLabel;

/// What a get would take of the subject alone.
#[derive(Clone, Copy, Debug)]
pub enum Way {
    /// The least current label with which it is granted, with all that the subject holds.
    Level(SecLabel),
    /// No label helps with all that the subject holds; this one does once what star refuses at it is released.
    Released(SecLabel),
    /// No releases and no labels of the subject help.
    Never,
}
