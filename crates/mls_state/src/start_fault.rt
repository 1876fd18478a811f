//! Why the rows of a start are refused.
use thiserror::Error;

/// Why rows make no start. The first of these, in this order, that applies to any row is the fault.
#[derive(Clone, Copy, Debug, PartialEq, Eq, Error)]
pub enum StartFault {
    /// There is no subject.
    #[error("no subjects")]
    NoSubjects,
    /// There are more than [`MAX_SUBJECTS`](mls_tables::MAX_SUBJECTS) subjects.
    #[error("more than 256 subjects")]
    TooManySubjects,
    /// There are more than [`MAX_OBJECTS`](mls_tables::MAX_OBJECTS) objects, with the root.
    #[error("more than 4096 objects")]
    TooManyObjects,
    /// A label isn't within its bounds.
    #[error("a label outside its bounds")]
    BadLabel,
    /// An object's parent isn't a smaller number than its own.
    #[error("a parent that isn't an earlier object")]
    BadParent,
    /// A subject's maximum label doesn't dominate its current label.
    #[error("a current label that the maximum doesn't dominate")]
    CurrentAboveMaximum,
    /// An object's security label doesn't dominate its parent's.
    #[error("a security label that doesn't dominate the parent's")]
    NotCompatible,
    /// An object's parent has an integrity label that doesn't dominate the object's.
    #[error("an integrity label that the parent's doesn't dominate")]
    IntegrityAboveParent,
    /// A permitted triple or a current access names a subject or an object that isn't there.
    #[error("a triple of no such subject or object")]
    NoSuchCell,
    /// A current access breaks simple security, star, discretionary security or integrity.
    #[error("accesses that aren't secure")]
    NotSecure,
}
