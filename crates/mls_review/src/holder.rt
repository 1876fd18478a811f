//! Who and what has a label.

use mls_tables::{ObjectId, SubjectId};

/// A subject or an object that has a label.
#[derive(Clone, Copy, Debug, PartialEq, Eq)]
pub enum Holder {
    /// A subject whose maximum label it is, and not its current one.
    Maximum(SubjectId),
    /// A subject whose current label it is, and not its maximum.
    Current(SubjectId),
    /// A subject whose maximum and current label it is.
    Both(SubjectId),
    Object(ObjectId),
}
