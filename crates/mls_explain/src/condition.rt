//! Conditions of requests.

ghost use Rattle.std.specs.Prelude.{◌≡◌};

use crate::ground::Ground;
use mls_requests::Reason;

/// A condition of a request.
#[derive(Clone, Copy, Debug)]
pub struct Condition {
    /// The reason of the denial where it is the first that fails.
    pub reason: Reason,
    /// Whether it holds.
    pub holds: bool,
    /// What it rests on.
    pub basis: Ground,
}

impl Condition {
    /// A condition of these parts.
    pub(crate) fn new(reason: Reason, holds: bool, basis: Ground) -> Condition
        ensures { result ≡ record { reason = reason; holds = holds; basis = basis } }
    {
        Condition {
            reason,
            holds,
            basis,
        }
    }
}
