//! Why a start file is refused.

use mls_labels::SchemeFault;
use mls_state::StartFault;
use std::alloc::{AllocError, AllocFailed};
use thiserror::Error;

/// Why there is no start. Of the faults before `Memory` the first, in this order, that applies to any part of the file
/// is returned; `Memory` is returned as soon as an allocation fails.
#[derive(Clone, Copy, Debug, PartialEq, Eq, Error)]
pub enum LoadFault {
    /// The bytes aren't JSON in UTF-8, or nest more than 127 deep.
    #[error("not JSON")]
    Json,
    /// A member is missing, is not one that a start file has, or is of another type; there is no object; the root's
    /// parent isn't null, or another's is.
    #[error("a member that is missing, unknown or of another type")]
    Members,
    /// The names of levels and categories are refused as a scheme.
    #[error("the scheme is refused: {0}")]
    Scheme(SchemeFault),
    /// A subject's or an object's name isn't 1 to [`MAX_NAME`](mls_labels::MAX_NAME) of the ASCII letters, digits, `-`
    /// and `_`, or two subjects or two objects have one name.
    #[error("a name that is refused, or stands twice")]
    Name,
    /// A label's text is refused by its scheme.
    #[error("a label that its scheme refuses")]
    Label,
    /// A parent, or an object of the matrix or of the accesses, isn't the name of an object, a subject of them isn't
    /// the name of a subject, or a word isn't a mode's.
    #[error("an unknown subject, object or mode")]
    Unknown,
    /// The builder refuses the start.
    #[error("the start is refused: {0}")]
    Start(StartFault),
    /// An allocation failed.
    #[error("out of memory")]
    Memory,
}

impl From<SchemeFault> for LoadFault {
    ghost use Rattle.std.specs.Prelude.{◌≡◌};
    ghost use Rattle.mls_start_text.specs.Refusing.{load_fault};

    ghost from_gives = { λ refused fault. fault ≡ load_fault refused };

    /// Out of memory is `Memory`, whatever met it.
    fn from(refused: SchemeFault) -> LoadFault {
        match refused {
            SchemeFault::Memory => LoadFault::Memory,
            refused => LoadFault::Scheme(refused),
        }
    }
}

impl From<AllocError> for LoadFault {
    ghost use Rattle.std.specs.Prelude.{◌≡◌};
    ghost use Rattle.mls_start_text.specs.declared.load_fault.LoadFault.TheVariants.{Memory};

    ghost from_gives = { λ _ fault. fault ≡ Memory };

    fn from(_: AllocError) -> LoadFault {
        LoadFault::Memory
    }
}

impl<T: Drop> From<AllocFailed<T>> for LoadFault {
    ghost use Rattle.std.specs.Prelude.{◌≡◌};
    ghost use Rattle.mls_start_text.specs.declared.load_fault.LoadFault.TheVariants.{Memory};

    ghost from_gives = { λ _ fault. fault ≡ Memory };

    fn from(_: AllocFailed<T>) -> LoadFault {
        LoadFault::Memory
    }
}
