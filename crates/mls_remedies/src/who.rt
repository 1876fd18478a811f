//! Who may make a step of a remedy.
ghost use Rattle.std.specs.Prelude.{◌≡◌};
ghost use Rattle.mls_remedies.specs.Steps.{leader};

use mls_tables::SubjectId;

/// Up to three subjects, of whom any may make a step.
#[derive(Clone, Copy, Debug)]
pub enum Who {
    One(SubjectId),
    Two(SubjectId, SubjectId),
    Three(SubjectId, SubjectId, SubjectId),
}

impl Who {
    /// The first of them.
    pub(crate) fn leader(&self) -> SubjectId
        ensures { result ≡ leader self.now }
    {
        match self {
            Who::One(s) | Who::Two(s, _) | Who::Three(s, _, _) => *s,
        }
    }
}
