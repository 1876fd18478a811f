//! What a subject may get of an object.

use crate::way::Way;
use mls_requests::Reply;
use mls_tables::{Mode, SubjectId};

/// What the get of a subject in a mode that the matrix permits would be answered, and what would change that.
#[derive(Clone, Copy, Debug)]
pub struct Prospect {
    pub subject: SubjectId,
    pub mode: Mode,
    /// The reply to the get.
    pub reply: Reply,
    /// What it would take of the subject alone.
    pub way: Way,
}
