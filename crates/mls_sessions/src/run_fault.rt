//! How a run of feeds ends.
use mls_monitor::Monitor;
use thiserror::Error;

/// A run whose feeds were all asked to their end: the monitor, and the feeds in their order.
#[derive(Drop)]
pub struct RunDone<F> {
    pub monitor: Monitor,
    pub feeds: Vec<F>,
}

/// Why a run didn't ask all feeds to their end. The first, in this order, that applies is returned.
#[derive(Clone, Copy, Debug, PartialEq, Eq, Error)]
pub enum RunFaultKind {
    /// There isn't one feed, to [`MAX_SESSIONS`](crate::MAX_SESSIONS) feeds.
    #[error("not 1 to 64 feeds")]
    BadCount,
    /// An allocation failed, outside the start of a thread; also in a session's request.
    #[error("out of memory")]
    Memory,
    /// A thread couldn't be started, also for want of memory.
    #[error("a thread couldn't be started")]
    Thread,
}

/// A run that didn't ask all feeds to their end: why, the monitor, and the feeds in their order.
#[derive(Drop)]
pub struct RunFault<F> {
    pub kind: RunFaultKind,
    pub monitor: Monitor,
    pub feeds: Vec<F>,
}
