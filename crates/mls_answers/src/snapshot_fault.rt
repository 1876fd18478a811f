//! Why there is no start file of a state.

use mls_replay::QuestionFault;
use thiserror::Error;

/// Why there is no start file of the state that a journal leads to.
#[derive(Clone, Copy, Debug, PartialEq, Eq, Error)]
pub enum SnapshotFault {
    /// The files are refused, there is no such state, or an allocation failed.
    #[error("{0}")]
    Question(QuestionFault),
    /// The start file would be longer than [`START_LIMIT`](mls_replay::START_LIMIT).
    #[error("the start file is too long")]
    TooLong,
    /// What was written doesn't open with the state. No state is known for which this happens.
    #[error("the start file differs from the state")]
    Differs,
}

impl From<QuestionFault> for SnapshotFault {
    ghost use Rattle.std.specs.Prelude.{◌≡◌};
    ghost use Rattle.mls_answers.specs.declared.snapshot_fault.SnapshotFault.TheVariants.{Question};

    ghost from_gives = { λ cause fault. fault ≡ Question cause };

    fn from(cause: QuestionFault) -> SnapshotFault {
        SnapshotFault::Question(cause)
    }
}
