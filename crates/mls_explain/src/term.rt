//! The labels that conditions compare.

use mls_labels::{IntLabel, SecLabel};
use mls_tables::{ObjectId, SubjectId};

/// A label that a condition compares with another, and what it is the label of.
#[derive(Clone, Copy, Debug)]
pub enum Term {
    /// The maximum label of the subject that asks.
    Maximum(SecLabel),
    /// The current label of the subject that asks.
    Current(SecLabel),
    /// A security label that the request names.
    Security(SecLabel),
    /// The security label of an object.
    Object(SecLabel, ObjectId),
    /// An integrity label that the request names.
    Integrity(IntLabel),
    /// The integrity label of an object.
    ObjectIntegrity(IntLabel, ObjectId),
    /// The integrity label of a subject.
    SubjectIntegrity(IntLabel, SubjectId),
}
