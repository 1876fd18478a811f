//! Spans of states in which a get would be granted.

/// A span of states in which a get would be granted, as long as it is.
#[derive(Clone, Copy, Debug)]
pub struct Window {
    /// The number of the entry after which it would be; none where it is so from the first state on.
    pub opened: Option<u64>,
    /// The number of the entry after which it would be no longer; none where it is so up to the last state.
    pub closed: Option<u64>,
}
