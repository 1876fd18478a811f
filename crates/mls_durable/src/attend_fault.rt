//! Why a client wasn't attended to the end of its input.
use thiserror::Error;

/// Why a client wasn't attended to the end of its input.
#[derive(Clone, Copy, Debug, PartialEq, Eq, Error)]
pub enum AttendFault {
    /// The reader failed. An interrupted read counts as failed.
    #[error("the reader failed")]
    Read,
    /// The input ended within a line, which isn't asked.
    #[error("the last line isn't finished")]
    Unfinished,
    /// Answers couldn't be handed out.
    #[error("the answers couldn't be written")]
    Write,
    /// The journal's file couldn't be written or synced, or another not be begun.
    #[error("the file failed")]
    File,
    /// An allocation failed that a line needs.
    #[error("out of memory")]
    Memory,
    /// One line more might make the file longer than `JOURNAL_LIMIT`.
    #[error("the file is too long")]
    TooLong,
}
