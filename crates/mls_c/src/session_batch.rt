//! Asking a session about batches: accesses to what has labels and isn't an object, all in one state that it sees.
ghost use Rattle.std.specs.Prelude.{◌≡◌, ◌≢◌, Some, length, replicate};
ghost use Rattle.mls_requests.specs.declared.reply.Reply.TheVariants.{Undefined};
ghost use Rattle.mls_c.specs.Answers.{number_of_reply};
ghost use Rattle.mls_c.specs.Batches.{AreLabelReplies, pairs_status};
ghost use Rattle.mls_c.specs.Seen.{LookStatus, InSeen, state_at};
ghost use Rattle.mls_c.specs.SessionHandles.{KeepsSeat};
ghost use Rattle.mls_c.specs.declared.status.TheConstants.{OK, EINVAL};

use crate::batch::{LabelPair, decide_pairs};
use crate::place::Place;
use crate::session_handle::MlsSession;
use crate::standing::Standing;
use crate::status::{EBUSY, ECLOSED};
use mls_monitor::Monitor;
use mls_sessions::Question;
use mls_tables::SubjectId;

/// A subject whose standing is asked for.
#[derive(Clone, Copy)]
struct StandingAsked {
    subject: SubjectId,
    standing: Standing,
}

impl Question for StandingAsked {
    ghost use Rattle.mls_c.specs.Batches.{Stands};
    ghost use Rattle.mls_c.specs.Seen.{state_at};

    ghost finds = { λ old j new. Stands (state_at j) old.subject new.standing };

    fn look(&mut self, monitor: &Monitor) {
        self.standing = Standing::of(monitor.state(), self.subject);
    }
}

/// Decides a batch. The monitor is looked at once, for the standing of the subject; the pairs are decided by that, when
/// other sessions can be at the monitor again.
fn decide_place(
    place: &mut Place,
    subject: u16,
    mode: u8,
    pairs: &[LabelPair],
    replies: &mut [u16],
) -> i32
    requires { length pairs.now ≡ length replies.old }
    ensures status { LookStatus (Some place.old) (λ j status. status ≡ pairs_status mode pairs.now)
        (Some place.new) result }
    ensures answered { result ≡ OK → InSeen (Some place.new)
        (λ j. AreLabelReplies (state_at j) subject mode pairs.now replies.new) }
    ensures refused { result ≡ EINVAL
        → replies.new ≡ replicate (length replies.old) (number_of_reply Undefined) }
    ensures silent { result ≢ OK → result ≢ EINVAL → replies.new ≡ replies.old }
{
    let mut asked = StandingAsked {
        subject: SubjectId::new(subject),
        standing: Standing::unknown(),
    };
    match place.ask(&mut asked) {
        Ok(()) => decide_pairs(&asked.standing, subject, mode, pairs, replies),
        Err(_) => EBUSY,
    }
}

/// As [`mls_decide_label_pairs`](crate::mls_decide_label_pairs), in one state that the session sees. It tries the lock
/// once.
#[unsafe(no_mangle)]
pub extern "C" fn mls_session_decide_label_pairs(
    s: &mut MlsSession,
    subject: u16,
    mode: u8,
    pairs: &[LabelPair],
    replies: &mut [u16],
) -> i32
    requires { length pairs.now ≡ length replies.old }
    ensures status { LookStatus s.old.place.value (λ j status. status ≡ pairs_status mode pairs.now)
        s.new.place.value result }
    ensures answered { result ≡ OK → InSeen s.new.place.value
        (λ j. AreLabelReplies (state_at j) subject mode pairs.now replies.new) }
    ensures refused { result ≡ EINVAL
        → replies.new ≡ replicate (length replies.old) (number_of_reply Undefined) }
    ensures silent { result ≢ OK → result ≢ EINVAL → replies.new ≡ replies.old }
    ensures seat { KeepsSeat s.old s.new }
{
    if s.held == 0 {
        return ECLOSED;
    }
    decide_place(s.place.lend(), subject, mode, pairs, replies)
}
