//! How a session backs off from a gate that another holds.

use crate::limits::{LOOKS, NAPS, RACES};

/// What a session that waits does before it sleeps until it is woken. It may do none of it: then it sleeps at once. No
/// clause depends on it.
#[derive(Clone, Copy)]
pub struct Backoff {
    /// How often it looks at the held gate for each ask of its turn, each time before it naps or sleeps.
    pub looks: u32,
    /// How often it sees the gate free and comes too late, and looks again at once.
    pub races: u32,
    /// How many naps it takes.
    pub naps: u32,
}

impl Backoff {
    /// As the sessions of an office back off, unless a run is given another way.
    pub fn standard() -> Backoff {
        Backoff {
            looks: LOOKS,
            races: RACES,
            naps: NAPS,
        }
    }
}
