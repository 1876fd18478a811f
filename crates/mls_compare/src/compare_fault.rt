//! Why starts aren't compared.

use mls_replay::CommandFault;
use mls_settings::SettingFault;
use std::alloc::AllocError;
use thiserror::Error;

/// Why starts aren't compared. The first of these that applies is returned, but for `Memory`, which is returned as soon
/// as an allocation fails, by any of them.
#[derive(Clone, Copy, Debug, PartialEq, Eq, Error)]
pub enum CompareFault {
    /// The first start file is refused, or an allocation failed.
    #[error("the first start: {0}")]
    First(CommandFault),
    /// The second start file is refused, or the first as settings have it, or an allocation failed.
    #[error("the second start: {0}")]
    Second(CommandFault),
    /// The journal is refused as one of the first start, or an allocation failed.
    #[error("{0}")]
    Journal(CommandFault),
    /// A setting isn't made.
    #[error("{0}")]
    Unset(SettingFault),
}

impl From<AllocError> for CompareFault {
    ghost use Rattle.std.specs.Prelude.{◌≡◌};
    ghost use Rattle.mls_replay.specs.declared.command.CommandFault.TheVariants.{Memory};
    ghost use Rattle.mls_compare.specs.declared.compare_fault.CompareFault.TheVariants.{First};

    ghost from_gives = { λ _ fault. fault ≡ First Memory };

    fn from(_: AllocError) -> CompareFault {
        CompareFault::First(CommandFault::Memory)
    }
}
