//! What is suspicious in a start.

use crate::dead::Dead;
use crate::downflow::Downflow;
use mls_tables::{ObjectId, SubjectId};

/// What is suspicious in a start.
#[derive(Clone, Copy)]
pub enum Finding {
    /// A permission with which no get is granted.
    Dead(Dead),
    /// An object without a permission of use.
    Unused(ObjectId),
    /// A subject without a permission of use.
    Idle(SubjectId),
    /// A flow downwards by a trusted subject.
    Downflow(Downflow),
}
