//! Places that content could reach, each with how it comes there.
use mls_flows::Place;
use mls_tables::{Mode, ObjectId, SubjectId};

/// How content comes from a place to the next one.
#[derive(Clone, Copy)]
pub enum Hand {
    /// By an access of this mode.
    By(Mode),
    /// Through an object that is made, by this actor, below this object.
    Made(SubjectId, ObjectId),
}

/// From where content comes to a place: from the one with this index, and how.
#[derive(Clone, Copy)]
pub struct Came {
    pub before: usize,
    pub hand: Hand,
}

/// A place that content could reach, by how many hands, and how it comes there; the first one has it from the
/// beginning.
#[derive(Clone, Copy)]
pub struct Reached {
    pub place: Place,
    pub steps: usize,
    pub came: Option<Came>,
}

/// A hand and the place to which content comes by it.
#[derive(Clone, Copy)]
pub struct Hop {
    pub hand: Hand,
    pub place: Place,
}
