//! Why names are refused as those of a start.

use thiserror::Error;

/// Why [`Names::new`](crate::Names::new) refuses names. The first of these that applies comes, but out of memory may
/// come before a repeated name.
#[derive(Clone, Copy, Debug, PartialEq, Eq, Error)]
pub enum NamesFault {
    /// There are more than 256 subjects.
    #[error("more than 256 subjects")]
    TooManySubjects,
    /// There are more than 4,096 objects.
    #[error("more than 4096 objects")]
    TooManyObjects,
    /// Two subjects have one name.
    #[error("a subject's name that stands twice")]
    RepeatedSubject,
    /// Two objects have one name.
    #[error("an object's name that stands twice")]
    RepeatedObject,
    /// An allocation failed. Nothing is kept of the names.
    #[error("out of memory")]
    Memory,
}
