//! Why a command of the program is refused.
ghost use Rattle.std.specs.Prelude.{◌≡◌};
ghost use Rattle.mls_replay.specs.Commands.{status_of};

use mls_journal::EntryFault;
use mls_monitor::ReplayFault;
use mls_start_file::LoadFault;
use std::alloc::AllocError;
use thiserror::Error;

/// Why a command was refused.
#[derive(Clone, Copy, Debug, PartialEq, Eq, Error)]
pub enum CommandFault {
    /// The start is refused, for another cause than memory.
    #[error("the start is refused: {0}")]
    Load(LoadFault),
    /// A line of the journal is refused: the first that is, counted from 1.
    #[error("line {line} of the journal is refused: {fault}")]
    Entry { line: u64, fault: EntryFault },
    /// The journal isn't one of this start, for another cause than memory.
    #[error("the journal is refused: {0}")]
    Replay(ReplayFault),
    /// A thread couldn't be started, also for want of memory.
    #[error("a thread couldn't be started")]
    Thread,
    /// An allocation failed, outside the start of a thread.
    #[error("out of memory")]
    Memory,
}

impl From<LoadFault> for CommandFault {
    ghost use Rattle.std.specs.Prelude.{◌≡◌};
    ghost use Rattle.mls_replay.specs.Commands.{command_fault};

    ghost from_gives = { λ refused fault. fault ≡ command_fault refused };

    /// Out of memory is `Memory`, whatever met it.
    fn from(fault: LoadFault) -> CommandFault {
        match fault {
            LoadFault::Memory => CommandFault::Memory,
            fault => CommandFault::Load(fault),
        }
    }
}

impl From<AllocError> for CommandFault {
    ghost use Rattle.std.specs.Prelude.{◌≡◌};
    ghost use Rattle.mls_replay.specs.declared.command.CommandFault.TheVariants.{Memory};

    ghost from_gives = { λ _ fault. fault ≡ Memory };

    fn from(_: AllocError) -> CommandFault {
        CommandFault::Memory
    }
}

impl From<ReplayFault> for CommandFault {
    ghost use Rattle.std.specs.Prelude.{◌≡◌};
    ghost use Rattle.mls_replay.specs.Commands.{replay_fault};

    ghost from_gives = { λ refused fault. fault ≡ replay_fault refused };

    /// Out of memory is `Memory`, whatever met it.
    fn from(fault: ReplayFault) -> CommandFault {
        match fault {
            ReplayFault::Memory => CommandFault::Memory,
            fault => CommandFault::Replay(fault),
        }
    }
}

/// The status that the program ends with where a command was refused: 3 for a journal that differs from what the start
/// replays, 1 for all else.
pub fn status(fault: CommandFault) -> u8
    ensures { result ≡ status_of fault }
{
    match fault {
        CommandFault::Replay(_) => 3,
        CommandFault::Load(_)
        | CommandFault::Entry { .. }
        | CommandFault::Thread
        | CommandFault::Memory => 1,
    }
}
