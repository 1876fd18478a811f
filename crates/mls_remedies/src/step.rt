//! Steps of remedies.
ghost use Rattle.std.specs.Prelude.{◌≡◌};
ghost use Rattle.mls_remedies.specs.Steps.{asked_by, own_step};

use crate::who::Who;
use mls_requests::{Action, Request};
use mls_tables::SubjectId;

/// A request of a remedy, and who may make it.
#[derive(Clone, Copy, Debug)]
pub struct Step {
    /// Those of whom any may make it, by number.
    pub who: Who,
    pub action: Action,
}

impl Step {
    /// The step of one subject.
    pub(crate) fn of(s: SubjectId, action: Action) -> Step
        ensures { result ≡ own_step s action }
    {
        let who = Who::One(s);
        Step { who, action }
    }

    /// The request of the first of its subjects.
    pub fn request(&self) -> Request
        ensures { result ≡ asked_by self.now }
    {
        Request {
            subject: self.who.leader(),
            action: self.action,
        }
    }
}
