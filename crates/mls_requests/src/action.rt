//! What can be asked.

use mls_labels::{IntLabel, SecLabel};
use mls_tables::{Mode, ObjectId, SubjectId};

/// What a subject asks for. The names and numbers of the rules are this project's own.
#[derive(Clone, Copy, Debug, PartialEq, Eq)]
pub enum Action {
    /// To access an object in a mode.
    Get(Mode, ObjectId),
    /// To end an access, whether or not it is there.
    Release(Mode, ObjectId),
    /// To permit a subject an object in a mode.
    Give(Mode, SubjectId, ObjectId),
    /// To permit it no longer, and to end the subject's access with it.
    Rescind(Mode, SubjectId, ObjectId),
    /// To make an object of these labels below a parent.
    Create(ObjectId, SecLabel, IntLabel),
    /// To delete an object and all objects below it.
    Delete(ObjectId),
    /// To go to another current label of one's own.
    SubjectLevel(SecLabel),
    /// To give an object another security label.
    ObjectLevel(ObjectId, SecLabel),
}
