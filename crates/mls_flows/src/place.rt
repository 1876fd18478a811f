//! Places where content may be.
use mls_tables::{ObjectId, SubjectId};

/// A place where content may be: a subject remembers what it saw, an object has what was put there.
#[derive(Clone, Copy, Debug)]
pub enum Place {
    Subject(SubjectId),
    Object(ObjectId),
}
