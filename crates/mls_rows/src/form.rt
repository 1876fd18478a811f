//! The forms of an answer.

/// The form of an answer.
#[derive(Clone, Copy)]
pub enum Form {
    /// Its rows as lines.
    Text,
    /// A JSON object for each row, in a line.
    Json,
}
