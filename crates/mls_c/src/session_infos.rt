//! What a session tells of subjects and of objects.
ghost use Rattle.std.specs.Prelude.{◌≡◌, ◌≢◌, Some};
ghost use Rattle.mls_state.specs.State.{is_subject, is_active};
ghost use Rattle.mls_c.specs.Infos.{IsSubjectInfo, IsObjectInfo, there_status};
ghost use Rattle.mls_c.specs.Seen.{LookStatus, InSeen, state_at};
ghost use Rattle.mls_c.specs.SessionHandles.{KeepsSeat};
ghost use Rattle.mls_c.specs.declared.status.TheConstants.{OK};

use crate::object_info::{ObjectInfo, copy_object};
use crate::place::Place;
use crate::session_handle::MlsSession;
use crate::status::{EBUSY, ECLOSED, OK};
use crate::subject_info::{SubjectInfo, copy_subject};
use mls_monitor::Monitor;
use mls_sessions::Question;

/// A subject that is asked for.
#[derive(Clone, Copy)]
struct SubjectAsked {
    subject: u16,
    info: SubjectInfo,
    status: i32,
}

impl Question for SubjectAsked {
    ghost use Rattle.std.specs.Prelude.{◌≡◌, ◌≢◌};
    ghost use Rattle.mls_state.specs.State.{is_subject};
    ghost use Rattle.mls_c.specs.Infos.{IsSubjectInfo, there_status};
    ghost use Rattle.mls_c.specs.Seen.{state_at};
    ghost use Rattle.mls_c.specs.declared.status.TheConstants.{OK};

    ghost finds = { λ old j new. (new.status ≡ there_status (is_subject (state_at j) old.subject))
        × (new.status ≡ OK → IsSubjectInfo (state_at j) old.subject new.info)
        × (new.status ≢ OK → new.info ≡ old.info) };

    fn look(&mut self, monitor: &Monitor) {
        self.status = copy_subject(monitor.state(), self.subject, &mut self.info);
    }
}

/// Copies out a subject.
fn read_subject(place: &mut Place, subject: u16, info: &mut SubjectInfo) -> i32
    ensures status { LookStatus (Some place.old)
        (λ j status. status ≡ there_status (is_subject (state_at j) subject)) (Some place.new) result }
    ensures copied { result ≡ OK → InSeen (Some place.new) (λ j. IsSubjectInfo (state_at j) subject info.new) }
    ensures silent { result ≢ OK → info.new ≡ info.old }
{
    let mut asked = SubjectAsked {
        subject,
        info: *info,
        status: OK,
    };
    match place.ask(&mut asked) {
        Ok(()) => {
            *info = asked.info;
            asked.status
        }
        Err(_) => EBUSY,
    }
}

/// As [`mls_read_subject`](crate::mls_read_subject), in the state that the session sees. It tries the lock once.
#[unsafe(no_mangle)]
pub extern "C" fn mls_session_read_subject(
    s: &mut MlsSession,
    subject: u16,
    info: &mut SubjectInfo,
) -> i32
    ensures status { LookStatus s.old.place.value
        (λ j status. status ≡ there_status (is_subject (state_at j) subject)) s.new.place.value result }
    ensures copied { result ≡ OK → InSeen s.new.place.value (λ j. IsSubjectInfo (state_at j) subject info.new) }
    ensures silent { result ≢ OK → info.new ≡ info.old }
    ensures seat { KeepsSeat s.old s.new }
{
    if s.held == 0 {
        return ECLOSED;
    }
    read_subject(s.place.lend(), subject, info)
}

/// An object that is asked for.
#[derive(Clone, Copy)]
struct ObjectAsked {
    object: u16,
    info: ObjectInfo,
    status: i32,
}

impl Question for ObjectAsked {
    ghost use Rattle.std.specs.Prelude.{◌≡◌, ◌≢◌};
    ghost use Rattle.mls_state.specs.State.{is_active};
    ghost use Rattle.mls_c.specs.Infos.{IsObjectInfo, there_status};
    ghost use Rattle.mls_c.specs.Seen.{state_at};
    ghost use Rattle.mls_c.specs.declared.status.TheConstants.{OK};

    ghost finds = { λ old j new. (new.status ≡ there_status (is_active (state_at j) old.object))
        × (new.status ≡ OK → IsObjectInfo (state_at j) old.object new.info)
        × (new.status ≢ OK → new.info ≡ old.info) };

    fn look(&mut self, monitor: &Monitor) {
        self.status = copy_object(monitor.state(), self.object, &mut self.info);
    }
}

/// Copies out an object.
fn read_object(place: &mut Place, object: u16, info: &mut ObjectInfo) -> i32
    ensures status { LookStatus (Some place.old)
        (λ j status. status ≡ there_status (is_active (state_at j) object)) (Some place.new) result }
    ensures copied { result ≡ OK → InSeen (Some place.new) (λ j. IsObjectInfo (state_at j) object info.new) }
    ensures silent { result ≢ OK → info.new ≡ info.old }
{
    let mut asked = ObjectAsked {
        object,
        info: *info,
        status: OK,
    };
    match place.ask(&mut asked) {
        Ok(()) => {
            *info = asked.info;
            asked.status
        }
        Err(_) => EBUSY,
    }
}

/// As [`mls_read_object`](crate::mls_read_object), in the state that the session sees. It tries the lock once.
#[unsafe(no_mangle)]
pub extern "C" fn mls_session_read_object(
    s: &mut MlsSession,
    object: u16,
    info: &mut ObjectInfo,
) -> i32
    ensures status { LookStatus s.old.place.value
        (λ j status. status ≡ there_status (is_active (state_at j) object)) s.new.place.value result }
    ensures copied { result ≡ OK → InSeen s.new.place.value (λ j. IsObjectInfo (state_at j) object info.new) }
    ensures silent { result ≢ OK → info.new ≡ info.old }
    ensures seat { KeepsSeat s.old s.new }
{
    if s.held == 0 {
        return ECLOSED;
    }
    read_object(s.place.lend(), object, info)
}
