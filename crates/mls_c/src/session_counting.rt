//! What a session tells of the modes of a pair, of how much there is, and of an object's children.
ghost use Rattle.std.specs.Prelude.{◌≡◌, ◌≢◌, ◌&&◌, Some, length};
ghost use Rattle.mls_state.specs.State.{is_subject, is_active};
ghost use Rattle.mls_c.specs.Infos.{AreCounts, child_above, pair_info, there_status};
ghost use Rattle.mls_c.specs.Seen.{LookStatus, InSeen, state_at};
ghost use Rattle.mls_c.specs.Texts.{found_status};
ghost use Rattle.mls_c.specs.SessionHandles.{KeepsSeat};
ghost use Rattle.mls_c.specs.declared.status.TheConstants.{OK};

use crate::counts::Counts;
use crate::names::tell;
use crate::object_info::child_above;
use crate::pair_info::{PairInfo, copy_pair};
use crate::place::Place;
use crate::session_handle::MlsSession;
use crate::status::{EBUSY, ECLOSED, OK};
use mls_monitor::Monitor;
use mls_sessions::Question;

/// A subject and an object that are asked for.
#[derive(Clone, Copy)]
struct PairAsked {
    subject: u16,
    object: u16,
    info: PairInfo,
    status: i32,
}

impl Question for PairAsked {
    ghost use Rattle.std.specs.Prelude.{◌≡◌, ◌≢◌, ◌&&◌};
    ghost use Rattle.mls_state.specs.State.{is_subject, is_active};
    ghost use Rattle.mls_c.specs.Infos.{pair_info, there_status};
    ghost use Rattle.mls_c.specs.Seen.{state_at};
    ghost use Rattle.mls_c.specs.declared.status.TheConstants.{OK};

    ghost finds = { λ old j new.
        (new.status ≡ there_status (is_subject (state_at j) old.subject && is_active (state_at j) old.object))
        × (new.status ≡ OK → new.info ≡ pair_info (state_at j) old.subject old.object)
        × (new.status ≢ OK → new.info ≡ old.info) };

    fn look(&mut self, monitor: &Monitor) {
        self.status = copy_pair(monitor.state(), self.subject, self.object, &mut self.info);
    }
}

/// Copies out what is permitted and what is held.
fn read_pair(place: &mut Place, subject: u16, object: u16, info: &mut PairInfo) -> i32
    ensures status { LookStatus (Some place.old)
        (λ j status. status ≡ there_status (is_subject (state_at j) subject && is_active (state_at j) object))
        (Some place.new) result }
    ensures copied { result ≡ OK → InSeen (Some place.new) (λ j. info.new ≡ pair_info (state_at j) subject object) }
    ensures silent { result ≢ OK → info.new ≡ info.old }
{
    let mut asked = PairAsked {
        subject,
        object,
        info: *info,
        status: OK,
    };
    match place.ask(&mut asked) {
        Ok(()) => {
            *info = asked.info;
            asked.status
        }
        Err(_) => EBUSY,
    }
}

/// As [`mls_read_pair`](crate::mls_read_pair), in the state that the session sees. It tries the lock once.
#[unsafe(no_mangle)]
pub extern "C" fn mls_session_read_pair(
    s: &mut MlsSession,
    subject: u16,
    object: u16,
    info: &mut PairInfo,
) -> i32
    ensures status { LookStatus s.old.place.value
        (λ j status. status ≡ there_status (is_subject (state_at j) subject && is_active (state_at j) object))
        s.new.place.value result }
    ensures copied { result ≡ OK → InSeen s.new.place.value (λ j. info.new ≡ pair_info (state_at j) subject object) }
    ensures silent { result ≢ OK → info.new ≡ info.old }
    ensures seat { KeepsSeat s.old s.new }
{
    if s.held == 0 {
        return ECLOSED;
    }
    read_pair(s.place.lend(), subject, object, info)
}

/// The counts that are asked for.
#[derive(Clone, Copy)]
struct CountsAsked {
    counts: Counts,
}

impl Question for CountsAsked {
    ghost use Rattle.std.specs.Prelude.{length};
    ghost use Rattle.mls_c.specs.Infos.{AreCounts};
    ghost use Rattle.mls_c.specs.Seen.{state_at};

    ghost finds = { λ old j new. AreCounts (state_at j) (length j.entries) new.counts };

    fn look(&mut self, monitor: &Monitor) {
        self.counts = Counts::of(monitor.state(), monitor.next_number());
    }
}

/// Tells the counts.
fn count(place: &mut Place, counts: &mut Counts) -> i32
    ensures status { LookStatus (Some place.old) (λ j status. status ≡ OK) (Some place.new) result }
    ensures told { result ≡ OK → InSeen (Some place.new) (λ j. AreCounts (state_at j) (length j.entries) counts.new) }
    ensures silent { result ≢ OK → counts.new ≡ counts.old }
{
    let mut asked = CountsAsked { counts: *counts };
    match place.ask(&mut asked) {
        Ok(()) => {
            *counts = asked.counts;
            OK
        }
        Err(_) => EBUSY,
    }
}

/// As [`mls_count`](crate::mls_count), in the state that the session sees. It tries the lock once.
#[unsafe(no_mangle)]
pub extern "C" fn mls_session_count(s: &mut MlsSession, counts: &mut Counts) -> i32
    ensures status { LookStatus s.old.place.value (λ j status. status ≡ OK) s.new.place.value result }
    ensures told { result ≡ OK
        → InSeen s.new.place.value (λ j. AreCounts (state_at j) (length j.entries) counts.new) }
    ensures silent { result ≢ OK → counts.new ≡ counts.old }
    ensures seat { KeepsSeat s.old s.new }
{
    if s.held == 0 {
        return ECLOSED;
    }
    count(s.place.lend(), counts)
}

/// A child that is asked for: the least of an object above a number.
#[derive(Clone, Copy)]
struct ChildAsked {
    object: u16,
    above: u16,
    child: u16,
    status: i32,
}

impl Question for ChildAsked {
    ghost use Rattle.std.specs.Prelude.{◌≡◌, ◌≢◌, Some};
    ghost use Rattle.mls_c.specs.Infos.{child_above};
    ghost use Rattle.mls_c.specs.Seen.{state_at};
    ghost use Rattle.mls_c.specs.Texts.{found_status};
    ghost use Rattle.mls_c.specs.declared.status.TheConstants.{OK};

    ghost finds = { λ old j new. (new.status ≡ found_status (child_above (state_at j) old.object old.above))
        × (new.status ≡ OK → child_above (state_at j) old.object old.above ≡ Some new.child)
        × (new.status ≢ OK → new.child ≡ old.child) };

    fn look(&mut self, monitor: &Monitor) {
        let found = child_above(monitor.state(), self.object, self.above);
        self.status = tell(found, &mut self.child);
    }
}

/// Tells the least child of an object that is above a number.
fn next_child(place: &mut Place, object: u16, above: u16, child: &mut u16) -> i32
    ensures status { LookStatus (Some place.old)
        (λ j status. status ≡ found_status (child_above (state_at j) object above)) (Some place.new) result }
    ensures found { result ≡ OK → InSeen (Some place.new) (λ j. child_above (state_at j) object above ≡ Some child.new) }
    ensures silent { result ≢ OK → child.new ≡ child.old }
{
    let mut asked = ChildAsked {
        object,
        above,
        child: *child,
        status: OK,
    };
    match place.ask(&mut asked) {
        Ok(()) => {
            *child = asked.child;
            asked.status
        }
        Err(_) => EBUSY,
    }
}

/// As [`mls_next_child`](crate::mls_next_child), in the state that the session sees. It tries the lock once.
#[unsafe(no_mangle)]
pub extern "C" fn mls_session_next_child(
    s: &mut MlsSession,
    object: u16,
    above: u16,
    child: &mut u16,
) -> i32
    ensures status { LookStatus s.old.place.value
        (λ j status. status ≡ found_status (child_above (state_at j) object above)) s.new.place.value result }
    ensures found { result ≡ OK
        → InSeen s.new.place.value (λ j. child_above (state_at j) object above ≡ Some child.new) }
    ensures silent { result ≢ OK → child.new ≡ child.old }
    ensures seat { KeepsSeat s.old s.new }
{
    if s.held == 0 {
        return ECLOSED;
    }
    next_child(s.place.lend(), object, above, child)
}
