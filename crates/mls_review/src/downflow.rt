//! What may flow downwards by a trusted subject.

use mls_tables::{ObjectId, SubjectId};

/// The pairs of objects of which a trusted subject may observe the first and alter the second, by permissions of use,
/// where the second's label doesn't dominate the first's.
#[derive(Clone, Copy, Debug, PartialEq, Eq)]
pub struct Downflow {
    pub subject: SubjectId,
    /// How many pairs there are, at least 1.
    pub pairs: u32,
    /// The objects of the first pair: by the object that is observed, then by the one that is altered.
    pub from: ObjectId,
    pub to: ObjectId,
}
