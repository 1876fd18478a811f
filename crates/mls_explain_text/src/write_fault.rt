//! Why entries aren't written.

use mls_listings::ListFault;
use mls_replay::QuestionFault;
use std::alloc::AllocError;

/// Why the entries of a journal aren't written, each with why it has its reply.
#[derive(Clone, Copy, Debug, PartialEq, Eq)]
pub enum WriteFault {
    /// They aren't listed.
    List(ListFault),
    /// The writer failed.
    Write,
}

impl From<QuestionFault> for WriteFault {
    ghost use Rattle.std.specs.Prelude.{◌≡◌};
    ghost use Rattle.mls_listings.specs.declared.list_fault.ListFault.TheVariants.{Question};
    ghost use Rattle.mls_explain_text.specs.declared.write_fault.WriteFault.TheVariants.{List};

    ghost from_gives = { λ cause fault. fault ≡ List (Question cause) };

    fn from(cause: QuestionFault) -> WriteFault {
        WriteFault::List(ListFault::from(cause))
    }
}

impl From<AllocError> for WriteFault {
    ghost use Rattle.std.specs.Prelude.{◌≡◌};
    ghost use Rattle.mls_replay.specs.declared.command.CommandFault.TheVariants.{Memory};
    ghost use Rattle.mls_replay.specs.declared.question_fault.QuestionFault.TheVariants.{Files};
    ghost use Rattle.mls_listings.specs.declared.list_fault.ListFault.TheVariants.{Question};
    ghost use Rattle.mls_explain_text.specs.declared.write_fault.WriteFault.TheVariants.{List};

    ghost from_gives = { λ _ fault. fault ≡ List (Question (Files Memory)) };

    fn from(error: AllocError) -> WriteFault {
        WriteFault::List(ListFault::from(error))
    }
}
