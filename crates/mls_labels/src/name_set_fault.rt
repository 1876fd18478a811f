//! Why names are refused as a set of names.
use std::alloc::AllocError;
use thiserror::Error;

/// Why [`NameSet::from_names`](crate::NameSet::from_names) refuses names.
#[derive(Clone, Copy, Debug, PartialEq, Eq, Error)]
pub enum NameSetFault {
    /// A name stands twice.
    #[error("a name that stands twice")]
    Repeated,
    /// An allocation failed. Nothing is kept of the names.
    #[error("out of memory")]
    Memory,
}

impl From<AllocError> for NameSetFault {
    ghost use Rattle.std.specs.Prelude.{◌≡◌};
    ghost use Rattle.mls_labels.specs.declared.name_set_fault.NameSetFault.TheVariants.{Memory};

    ghost from_gives = { λ _ fault. fault ≡ Memory };

    fn from(_: AllocError) -> NameSetFault {
        NameSetFault::Memory
    }
}
