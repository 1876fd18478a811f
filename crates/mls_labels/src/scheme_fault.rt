//! Why names are refused as a scheme.
use crate::name_set_fault::NameSetFault;
use thiserror::Error;

/// Why [`Scheme::new`](crate::Scheme::new) refuses names. The first, in this order, that
/// applies is returned.
#[derive(Clone, Copy, Debug, PartialEq, Eq, Error)]
pub enum SchemeFault {
    /// There is no level.
    #[error("no levels")]
    NoLevels,
    /// There are more than [`MAX_LEVELS`](crate::MAX_LEVELS) levels.
    #[error("more than 16 levels")]
    TooManyLevels,
    /// There are more than [`MAX_CATEGORIES`](crate::MAX_CATEGORIES) categories.
    #[error("more than 256 categories")]
    TooManyCategories,
    /// A name isn't 1 to [`MAX_NAME`](crate::MAX_NAME) of the ASCII letters, digits, `-` and `_`.
    #[error("a name that isn't 1 to 32 letters, digits, hyphens and underscores")]
    BadName,
    /// Two levels or two categories have one name.
    #[error("a name that stands twice")]
    RepeatedName,
    /// An allocation failed. Nothing is kept of the names.
    #[error("out of memory")]
    Memory,
}

impl From<NameSetFault> for SchemeFault {
    ghost use Rattle.std.specs.Prelude.{◌≡◌};
    ghost use Rattle.mls_labels.specs.Scheme.{scheme_fault_of};

    ghost from_gives = { λ fault gives. gives ≡ scheme_fault_of fault };

    fn from(fault: NameSetFault) -> SchemeFault {
        match fault {
            NameSetFault::Repeated => SchemeFault::RepeatedName,
            NameSetFault::Memory => SchemeFault::Memory,
        }
    }
}
