//! Spans of states.
use mls_requests::ActionWord;
use mls_tables::{Mode, ObjectId, SubjectId};

/// The entry that ended a span.
#[derive(Clone, Copy, Debug)]
pub struct Ending {
    pub number: u64,
    pub word: ActionWord,
}

/// A span of states in which an access is held, as long as it is.
#[derive(Clone, Copy, Debug)]
pub struct Span {
    pub access: (SubjectId, ObjectId, Mode),
    /// The number of the entry that made the access; none where the first state has it.
    pub made: Option<u64>,
    /// The entry that ended it; none where the last state has it.
    pub ended: Option<Ending>,
}
