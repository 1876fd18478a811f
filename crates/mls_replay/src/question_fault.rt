//! Why a question has no answer.

use crate::command::CommandFault;
use mls_lines::LineFault;
use std::alloc::AllocError;
use thiserror::Error;

/// Why a question about a start or a journal has no answer. The first of these that applies is returned, but for
/// `Files` with `Memory`, which is returned as soon as an allocation fails.
#[derive(Clone, Copy, Debug, PartialEq, Eq, Error)]
pub enum QuestionFault {
    /// The start file or the journal is refused, or an allocation failed.
    #[error("{0}")]
    Files(CommandFault),
    /// The question is about the state before an entry whose number is above this one, which is how many entries there
    /// are.
    #[error("there are at most {0} entries")]
    AtMost(u64),
    /// The question is about the entry of this number, and there is none.
    #[error("there is no entry {0}")]
    NoEntry(u64),
    /// The line that the question is about asks nothing.
    #[error("the line is refused: {0}")]
    Line(LineFault),
    /// A word is to name a subject, and is neither a subject's name nor `#` and a number.
    #[error("no subject has this name")]
    Subject,
    /// A word is to name an object, and is neither an object's name nor `#` and a number.
    #[error("no object has this name")]
    Object,
}

impl From<CommandFault> for QuestionFault {
    ghost use Rattle.std.specs.Prelude.{◌≡◌};
    ghost use Rattle.mls_replay.specs.declared.question_fault.QuestionFault.TheVariants.{Files};

    ghost from_gives = { λ refused fault. fault ≡ Files refused };

    fn from(refused: CommandFault) -> QuestionFault {
        QuestionFault::Files(refused)
    }
}

impl From<AllocError> for QuestionFault {
    ghost use Rattle.std.specs.Prelude.{◌≡◌};
    ghost use Rattle.mls_replay.specs.declared.command.CommandFault.TheVariants.{Memory};
    ghost use Rattle.mls_replay.specs.declared.question_fault.QuestionFault.TheVariants.{Files};

    ghost from_gives = { λ _ fault. fault ≡ Files Memory };

    fn from(_: AllocError) -> QuestionFault {
        QuestionFault::Files(CommandFault::Memory)
    }
}
