//! How far a feed was asked.
ghost use Rattle.mls_sessions.specs.Feeds.{IsWorst};

/// How far a feed was asked.
#[derive(Clone, Copy, Debug, PartialEq, Eq)]
pub enum Asked {
    /// To its end.
    ToTheEnd,
    /// Until an allocation failed.
    UntilRefused,
    /// Not at all: its thread couldn't be started.
    NotAtAll,
}

impl Asked {
    /// The worse of two: an allocation that failed counts before a thread that couldn't be started.
    pub(crate) fn worse(self, other: Asked) -> Asked
        ensures { IsWorst self other result }
    {
        match (self, other) {
            (Asked::UntilRefused, _) => Asked::UntilRefused,
            (Asked::NotAtAll, Asked::UntilRefused) => Asked::UntilRefused,
            (Asked::NotAtAll, _) => Asked::NotAtAll,
            (Asked::ToTheEnd, _) => other,
        }
    }
}
