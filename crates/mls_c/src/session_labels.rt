//! Asking a session about accesses to what has labels and isn't an object.
ghost use Rattle.std.specs.Prelude.{◌≡◌, ◌≢◌, Some};
ghost use Rattle.mls_c.specs.LabelAsking.{IsLabelReply, access_of, access_status};
ghost use Rattle.mls_c.specs.Seen.{LookStatus, InSeen, state_at};
ghost use Rattle.mls_c.specs.SessionHandles.{KeepsSeat};
ghost use Rattle.mls_c.specs.declared.status.TheConstants.{OK};

use crate::label::LabelNumbers;
use crate::label_asking::decide_labels;
use crate::place::Place;
use crate::session_handle::MlsSession;
use crate::status::{EBUSY, ECLOSED, OK};
use mls_monitor::Monitor;
use mls_sessions::Question;

/// An access in numbers that is asked for, and what is said of it.
#[derive(Clone, Copy)]
struct LabelsAsked {
    subject: u16,
    mode: u8,
    security: LabelNumbers,
    integrity: LabelNumbers,
    reply: u16,
    status: i32,
}

impl Question for LabelsAsked {
    ghost use Rattle.std.specs.Prelude.{◌≡◌, ◌≢◌};
    ghost use Rattle.mls_c.specs.LabelAsking.{IsLabelReply, access_of, access_status};
    ghost use Rattle.mls_c.specs.Seen.{state_at};
    ghost use Rattle.mls_c.specs.declared.status.TheConstants.{OK};

    ghost finds = { λ old j new.
        (new.status ≡ access_status (access_of old.subject old.mode old.security old.integrity))
        × (new.status ≡ OK
        → IsLabelReply (state_at j) (access_of old.subject old.mode old.security old.integrity) new.reply)
        × (new.status ≢ OK → new.reply ≡ old.reply) };

    fn look(&mut self, monitor: &Monitor) {
        self.status = decide_labels(
            monitor.state(),
            self.subject,
            self.mode,
            &self.security,
            &self.integrity,
            &mut self.reply,
        );
    }
}

/// Decides by the numbers of labels.
fn decide_place(
    place: &mut Place,
    subject: u16,
    mode: u8,
    security: &LabelNumbers,
    integrity: &LabelNumbers,
    reply: &mut u16,
) -> i32
    ensures status { LookStatus (Some place.old)
        (λ j status. status ≡ access_status (access_of subject mode security.now integrity.now))
        (Some place.new) result }
    ensures answered { result ≡ OK → InSeen (Some place.new)
        (λ j. IsLabelReply (state_at j) (access_of subject mode security.now integrity.now) reply.new) }
    ensures silent { result ≢ OK → reply.new ≡ reply.old }
{
    let mut asked = LabelsAsked {
        subject,
        mode,
        security: *security,
        integrity: *integrity,
        reply: *reply,
        status: OK,
    };
    match place.ask(&mut asked) {
        Ok(()) => {
            *reply = asked.reply;
            asked.status
        }
        Err(_) => EBUSY,
    }
}

/// As [`mls_decide_label`](crate::mls_decide_label), in the state that the session sees. It tries the lock once.
#[unsafe(no_mangle)]
pub extern "C" fn mls_session_decide_label(
    s: &mut MlsSession,
    subject: u16,
    mode: u8,
    security: &LabelNumbers,
    integrity: &LabelNumbers,
    reply: &mut u16,
) -> i32
    ensures status { LookStatus s.old.place.value
        (λ j status. status ≡ access_status (access_of subject mode security.now integrity.now))
        s.new.place.value result }
    ensures answered { result ≡ OK → InSeen s.new.place.value
        (λ j. IsLabelReply (state_at j) (access_of subject mode security.now integrity.now) reply.new) }
    ensures silent { result ≢ OK → reply.new ≡ reply.old }
    ensures seat { KeepsSeat s.old s.new }
{
    if s.held == 0 {
        return ECLOSED;
    }
    decide_place(s.place.lend(), subject, mode, security, integrity, reply)
}
