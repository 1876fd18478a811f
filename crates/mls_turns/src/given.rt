//! How much a feed gives in one turn.

use mls_requests::Ask;

/// How much a feed gave in one turn.
#[derive(Clone, Copy)]
pub enum Given {
    /// Nothing: nothing comes any more.
    Nothing,
    /// This alone.
    One(Ask),
    /// As much as stands in a list.
    Several,
}
