//! Why a start and a journal are refused, with the numbers that are told of it.
use crate::fault::FaultNumbers;
use std::alloc::AllocError;

/// Why a start and a journal are refused. Where several apply, the first of the first three is returned, and `Memory`
/// as soon as an allocation fails.
#[derive(Clone, Copy)]
pub(crate) enum ResumeFault {
    /// The start is refused.
    Start(FaultNumbers),
    /// A line of the journal is no entry's.
    Line(FaultNumbers),
    /// The journal isn't one of its start.
    Replay(FaultNumbers),
    /// An allocation failed.
    Memory,
}

impl From<AllocError> for ResumeFault {
    ghost use Rattle.std.specs.Prelude.{◌≡◌};
    ghost use Rattle.mls_c.specs.declared.resume_fault.ResumeFault.TheVariants.{Memory};

    ghost from_gives = { λ _ fault. fault ≡ Memory };

    fn from(_: AllocError) -> ResumeFault {
        ResumeFault::Memory
    }
}
