//! Why an office isn't opened, or isn't closed, with what was handed in.
use crate::office::Office;
use crate::session::Session;
use mls_monitor::Monitor;
use thiserror::Error;

/// Why [`Office::open`] refuses. The first, in this order, that applies is returned.
#[derive(Clone, Copy, Debug, PartialEq, Eq, Error)]
pub enum OfficeFaultKind {
    /// The number of sessions isn't 1 to [`MAX_SESSIONS`](crate::MAX_SESSIONS).
    #[error("not 1 to 64 sessions")]
    BadCount,
    /// An allocation failed.
    #[error("out of memory")]
    Memory,
}

/// An office that wasn't opened: why, and the monitor as it was handed in.
#[derive(Drop)]
pub struct OfficeFault {
    pub kind: OfficeFaultKind,
    pub monitor: Monitor,
}

/// Sessions are missing: the office, and those that were given, as they were handed in.
#[derive(Drop)]
pub struct CloseFault {
    pub office: Office,
    pub sessions: Vec<Session>,
}
