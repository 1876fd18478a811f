//! Why a text isn't read as a state.

use std::alloc::AllocError;
use thiserror::Error;

/// Why a text isn't read as a state of a start.
#[derive(Clone, Copy, Debug, PartialEq, Eq, Error)]
pub enum ReadStateFault {
    /// A line, counted from 1, isn't the one that the text of a state has there.
    #[error("line {0}: not of a state")]
    Line(u64),
    /// It is the text of a state with another profile than the start's, or with other subjects: no rule changes a
    /// subject's maximum label, its integrity label or its trust.
    #[error("a state of another start")]
    OtherStart,
    /// It is the text of a state that isn't secure.
    #[error("a state that is not secure")]
    NotSecure,
    /// An allocation failed.
    #[error("out of memory")]
    Memory,
}

impl From<AllocError> for ReadStateFault {
    ghost use Rattle.std.specs.Prelude.{◌≡◌};
    ghost use Rattle.mls_snapshots.specs.declared.read_fault.ReadStateFault.TheVariants.{Memory};

    ghost from_gives = { λ _ fault. fault ≡ Memory };

    fn from(_: AllocError) -> ReadStateFault {
        ReadStateFault::Memory
    }
}
