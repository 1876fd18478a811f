//! Answers of rows.

/// The answer to a question about a start or a journal, as it is printed.
#[derive(Drop)]
pub struct Listing {
    /// Its rows, written in their order.
    pub bytes: Vec<u8>,
    /// Whether the answer is a positive one.
    pub is_positive: bool,
}
