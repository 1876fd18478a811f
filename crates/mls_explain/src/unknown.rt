//! What a request names and isn't there.

use mls_labels::{IntLabel, SecLabel};
use mls_tables::{ObjectId, SubjectId};

/// A thing that a request names and that isn't there.
#[derive(Clone, Copy, Debug)]
pub enum Unknown {
    /// A subject that isn't known.
    Subject(SubjectId),
    /// An object that isn't active.
    Object(ObjectId),
    /// A security label that isn't within the bounds.
    Security(SecLabel),
    /// An integrity label that isn't within the bounds.
    Integrity(IntLabel),
}
