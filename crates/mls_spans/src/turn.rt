//! Where the answer to a get turns.
ghost use Rattle.std.specs.Prelude.{◌≡◌};
ghost use Rattle.mls_spans.specs.Turning.{is_turn_of};

use mls_tables::{Mode, ObjectId, SubjectId};

/// That a get turns: it would be granted from here on, or no longer.
#[derive(Clone, Copy, Debug)]
pub(crate) struct Turn {
    pub subject: SubjectId,
    pub mode: Mode,
    /// The number of the entry after which it does; none where it is granted in the first state.
    pub number: Option<u64>,
}

impl Turn {
    /// Whether it is the get of this access that turns. The object isn't looked at.
    pub(crate) fn is_of(&self, access: &(SubjectId, ObjectId, Mode)) -> bool
        ensures { result ≡ is_turn_of access.now self.now }
    {
        let (s, _o, x) = access;
        s.number() == self.subject.number() && *x == self.mode
    }
}
