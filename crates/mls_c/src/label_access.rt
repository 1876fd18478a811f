//! An access to what has labels and isn't an object.
ghost use Rattle.std.specs.Prelude.{◌≡◌, IsTrue};
ghost use Rattle.mls_requests.specs.declared.reply.Reply.TheVariants.{Yes};
ghost use Rattle.mls_rules.specs.Rules.{first_failing, reply_unless};
ghost use Rattle.mls_c.specs.LabelAsking.{access_of, label_conditions, has_bounds, label_reply};

use crate::deciding::{integrity_meets, maximum_meets, star_meets};
use crate::label::LabelNumbers;
use crate::request::mode_at;
use mls_labels::{IntLabel, SecLabel};
use mls_requests::{Reason, Reply};
use mls_state::State;
use mls_tables::{Mode, SubjectId};

/// An access that a subject asks for in a mode, to what has these labels.
#[derive(Clone, Copy)]
pub struct LabelAccess {
    pub subject: SubjectId,
    pub mode: Mode,
    pub security: SecLabel,
    pub integrity: IntLabel,
}

impl LabelAccess {
    /// The access that numbers ask for, where they are a mode's and labels'.
    pub(crate) fn of(
        subject: u16,
        mode: u8,
        security: &LabelNumbers,
        integrity: &LabelNumbers,
    ) -> Option<LabelAccess>
        ensures { result ≡ access_of subject mode security.now integrity.now }
    {
        let mode = mode_at(mode)?;
        let security = SecLabel::of(security.label()?);
        let integrity = IntLabel::of(integrity.label()?);
        Some(LabelAccess {
            subject: SubjectId::new(subject),
            mode,
            security,
            integrity,
        })
    }

    /// Whether the subject is known and both labels are within the bounds.
    #[inline(always)]
    fn has_bounds(&self, state: &State) -> bool
        ensures { result ≡ has_bounds state.now self.now }
    {
        state.is_subject(self.subject)
            && state.security().has(self.security.label())
            && state.integrity().has(self.integrity.label())
    }

    /// What the conditions say of the access of a known subject.
    #[inline(always)]
    #[tactic(auto, using(mls_facts::proofs::Entries::at_new))]
    fn verdict(&self, state: &State) -> Reply
        requires { IsTrue (has_bounds state.now self.now) }
        ensures { result ≡ reply_unless (first_failing (label_conditions state.now self.now)) Yes }
    {
        let subject = state.subject(self.subject);
        if !maximum_meets(&subject.maximum, &self.security, self.mode) {
            return Reply::No(Reason::Simple);
        }
        if !subject.trusted && !star_meets(&subject.current, &self.security, self.mode) {
            return Reply::No(Reason::Star);
        }
        if !integrity_meets(&subject.integrity, &self.integrity, self.mode) {
            return Reply::No(Reason::Integrity);
        }
        Reply::Yes
    }

    /// What is said of the access.
    #[inline(always)]
    pub(crate) fn reply(&self, state: &State) -> Reply
        ensures { result ≡ label_reply state.now self.now }
    {
        if !self.has_bounds(state) {
            return Reply::Undefined;
        }
        self.verdict(state)
    }
}
