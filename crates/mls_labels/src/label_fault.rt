//! Why a text is refused as a label text.
use thiserror::Error;

/// Why [`Scheme::read`](crate::Scheme::read) refuses a text. The first, in this order, that
/// applies to the whole text is returned.
#[derive(Clone, Copy, Debug, PartialEq, Eq, Error)]
pub enum LabelFault {
    /// The text isn't a level's name alone, or that, a colon and names with a comma between each two.
    #[error("not of the form LEVEL or LEVEL:CATEGORY,CATEGORY")]
    BadForm,
    /// The scheme has no such level.
    #[error("a level that isn't in the scheme")]
    UnknownLevel,
    /// The scheme lacks one of the categories.
    #[error("a category that isn't in the scheme")]
    UnknownCategory,
    /// A category stands twice.
    #[error("a category that stands twice")]
    RepeatedCategory,
}
