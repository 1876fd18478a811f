//! Answers to questions.

/// The answer to a question about a start or a journal.
#[derive(Drop)]
pub struct Answer {
    /// The lines that are printed, each with its newline.
    pub text: String,
    /// Whether the answer is a positive one.
    pub is_positive: bool,
}
