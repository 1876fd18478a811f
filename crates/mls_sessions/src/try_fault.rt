//! Why a session that doesn't wait gets no answer.
use thiserror::Error;

/// Why [`Session::try_submit`](crate::Session::try_submit) makes no entry.
#[derive(Clone, Copy, Debug, PartialEq, Eq, Error)]
pub enum TryFault {
    /// Another session held the gate.
    #[error("busy")]
    Busy,
    /// An allocation failed.
    #[error("out of memory")]
    Memory,
}

/// Another session held the gate.
#[derive(Clone, Copy, Debug, PartialEq, Eq, Error)]
#[error("busy")]
pub struct Busy;
