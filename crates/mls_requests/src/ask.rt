//! What is asked of the monitor.

use crate::request::Request;
use mls_tables::{Mode, ObjectId, SubjectId};

/// What a line asks of the monitor.
#[derive(Clone, Copy, Debug, PartialEq, Eq)]
pub enum Ask {
    /// A request, which the journal keeps.
    Submit(Request),
    /// Whether an access is held now. It leaves no entry.
    Check(SubjectId, ObjectId, Mode),
}
