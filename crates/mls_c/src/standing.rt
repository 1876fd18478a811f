//! What decisions by labels look at in a state: a subject, and the bounds of labels.
ghost use Rattle.std.specs.Prelude.{◌≡◌, ◌&&◌};
ghost use Rattle.mls_labels.specs.Label.{has_label};
ghost use Rattle.mls_requests.specs.declared.reply.Reply.TheVariants.{Yes};
ghost use Rattle.mls_rules.specs.Rules.{first_failing, reply_unless};
ghost use Rattle.mls_c.specs.Batches.{Stands, subject_conditions, standing_reply};

use crate::deciding::{integrity_meets, maximum_meets, star_meets};
use crate::label_access::LabelAccess;
use mls_labels::Bounds;
use mls_requests::{Reason, Reply};
use mls_state::{State, Subject};
use mls_tables::SubjectId;

/// All that decisions by labels look at in a state: a subject, where it is known, and the bounds of labels. Whoever has
/// it decides in that state, whatever becomes of the monitor meanwhile.
#[derive(Clone, Copy)]
pub(crate) struct Standing {
    subject: Option<Subject>,
    security: Bounds,
    integrity: Bounds,
}

impl Standing {
    /// What stands for that of a state until one is looked at.
    pub(crate) fn unknown() -> Standing {
        Standing {
            subject: None,
            security: Bounds::new(1, 0),
            integrity: Bounds::new(1, 0),
        }
    }

    /// The standing of a subject in a state.
    pub(crate) fn of(state: &State, s: SubjectId) -> Standing
        ensures { Stands state.now s result }
    {
        let subject = if state.is_subject(s) {
            Some(*state.subject(s))
        } else {
            None
        };
        Standing {
            subject,
            security: state.security(),
            integrity: state.integrity(),
        }
    }

    /// Whether both labels of an access are within the bounds.
    #[inline(always)]
    fn has_bounds(&self, access: &LabelAccess) -> bool
        ensures { result ≡ (has_label self.now.security access.now.security
            && has_label self.now.integrity access.now.integrity) }
    {
        self.security.has(access.security.label()) && self.integrity.has(access.integrity.label())
    }

    /// What is said of an access of the subject.
    #[inline(always)]
    pub(crate) fn reply(&self, access: &LabelAccess) -> Reply
        ensures { result ≡ standing_reply self.now access.now }
    {
        let Some(subject) = &self.subject else {
            return Reply::Undefined;
        };
        if !self.has_bounds(access) {
            return Reply::Undefined;
        }
        verdict(subject, access)
    }
}

/// What the conditions say of an access of a known subject. All three are tried, so that there needn't be a branch for
/// each: with labels that differ from row to row the processor would guess wrong.
#[inline(always)]
fn verdict(subject: &Subject, access: &LabelAccess) -> Reply
    ensures { result ≡ reply_unless (first_failing (subject_conditions subject.now access.now)) Yes }
{
    let mode = access.mode;
    let simple = maximum_meets(&subject.maximum, &access.security, mode);
    let star = star_meets(&subject.current, &access.security, mode);
    let integrity = integrity_meets(&subject.integrity, &access.integrity, mode);
    if !simple {
        return Reply::No(Reason::Simple);
    }
    if !subject.trusted && !star {
        return Reply::No(Reason::Star);
    }
    if !integrity {
        return Reply::No(Reason::Integrity);
    }
    Reply::Yes
}
