//! What the steps of remedies lead to.

use crate::step::Step;
use mls_tables::{Mode, ObjectId, SubjectId};

/// What the steps of a remedy lead to.
#[derive(Clone, Copy, Debug)]
pub enum Ending {
    /// The request that was asked is granted after them.
    Asked,
    /// The same request of others is granted after them, in place of the one that was asked.
    Instead(Step),
    /// There are no steps: no releases and no label of the subject help a get.
    NoLevel,
    /// There are no steps: the get lacks a permission, and nobody can give it.
    NoGiver(Mode, SubjectId, ObjectId),
    /// There are no steps to any other request.
    Nothing,
}
