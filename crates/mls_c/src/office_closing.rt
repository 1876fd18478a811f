//! Taking the sessions of an office back out of their handles, and closing it.
ghost use Rattle.std.specs.Prelude.{◌≡◌, ◌≢◌, [], true, nat_eq, length, map, None};
ghost use Rattle.mls_c.specs.Offices.{CloseStatus, ClosesOffice, seats_of, opened_of};
ghost use Rattle.mls_c.specs.SessionHandles.{AreOfOffice, AreSessionsOf, ClosesWith, ClosingStatus, GivingStatus};
ghost use Rattle.mls_c.specs.SessionHandles.{IsGiven, IsLeft, IsRefused, TakesAllBack, handles_of, sessions_of, shut};
ghost use Rattle.mls_c.specs.declared.status.TheConstants.{OK, EBUSY};

use crate::hall::Hall;
use crate::handle::Mls;
use crate::office_handle::MlsOffice;
use crate::seats::Seats;
use crate::session_handle::MlsSession;
use crate::session_handles::{are_numbered, are_open};
use crate::status::{EBUSY, ECLOSED, EINVAL, EOPEN, OK};
use std::alloc::Global;

/// Takes all sessions of an office back out of their handles, ascending. It needs no memory.
fn take_all_back(seats: &mut Seats, alloc: Global, sessions: &mut [MlsSession])
    requires home { seats.old.home ≡ [] }
    requires sessions { AreSessionsOf seats.old.office 0 (handles_of sessions.old) }
    ensures office { seats.new.office ≡ seats.old.office }
    ensures back { seats.new.home ≡ sessions_of (handles_of sessions.old) }
    ensures closed { handles_of sessions.new ≡ map shut (handles_of sessions.old) }
{
    for n in 0..sessions.len() {
        let session = &mut sessions[n];
        let Some(place) = session.take(alloc) else {
            unreachable!()
        };
        seats.take_back(place);
    }
}

/// Takes the sessions of an office with this serial back out of their handles, if these are all of its.
fn give_back(
    hall: &mut Hall,
    alloc: Global,
    serial: u64,
    count: u16,
    sessions: &mut [MlsSession],
) -> i32
    requires { AreOfOffice serial hall.old.seats (handles_of sessions.old) }
    ensures status { GivingStatus IsGiven serial count hall.old.seats (handles_of sessions.old) result }
    ensures back { result ≡ OK → TakesAllBack hall.old.seats (handles_of sessions.old) hall.new.seats }
    ensures closed { result ≡ OK → handles_of sessions.new ≡ map shut (handles_of sessions.old) }
    ensures opened { hall.new.opened ≡ hall.old.opened }
    ensures same { result ≢ OK → hall.new ≡ hall.old }
    ensures silent { result ≢ OK → sessions.new ≡ sessions.old }
{
    let Some(seats) = &mut hall.seats else {
        return ECLOSED;
    };
    if !are_numbered(sessions, serial, count) {
        return EINVAL;
    }
    if !seats.is_empty() || !are_open(sessions) {
        return EBUSY;
    }
    take_all_back(seats, alloc, sessions);
    OK
}

/// Takes the sessions of the office in a handle back out of their handles, if these are all of its.
#[tactic(auto, using(crate::proofs::Offices::same_opened))]
fn give_all_back(office: &mut MlsOffice, alloc: Global, sessions: &mut [MlsSession]) -> i32
    requires { AreOfOffice office.old.serial (seats_of office.old.hall.value) (handles_of sessions.old) }
    ensures status { GivingStatus IsGiven office.old.serial office.old.count
        (seats_of office.old.hall.value) (handles_of sessions.old) result }
    ensures back { result ≡ OK → TakesAllBack (seats_of office.old.hall.value) (handles_of sessions.old)
        (seats_of office.new.hall.value) }
    ensures closed { result ≡ OK → handles_of sessions.new ≡ map shut (handles_of sessions.old) }
    ensures opened { opened_of office.new.hall.value ≡ opened_of office.old.hall.value }
    ensures same { result ≢ OK → office.new.hall.value ≡ office.old.hall.value }
    ensures silent { result ≢ OK → sessions.new ≡ sessions.old }
{
    let (serial, count) = (office.serial, office.count);
    let Some(mut hall) = office.take(alloc) else {
        return ECLOSED;
    };
    let status = give_back(&mut hall, alloc, serial, count, sessions);
    office.put(hall);
    status
}

/// Closes an office whose sessions are all at home, and gives the monitor's handle its monitor back, with the journal
/// of all sessions. It doesn't allocate.
#[tactic(auto, using(crate::proofs::Offices::closes_office))]
pub(crate) fn close_monitor(office: &mut MlsOffice, alloc: Global, m: &mut Mls) -> i32
    ensures status { CloseStatus m.old.monitor.value (seats_of office.old.hall.value) result }
    ensures closed { result ≡ OK → ClosesOffice office.old.hall.value m.new.monitor.value }
    ensures gone { result ≡ OK → office.new.hall.value ≡ None }
    ensures same { result ≢ OK → office.new.hall.value ≡ office.old.hall.value }
    ensures silent { result ≢ OK → m.new.monitor.value ≡ m.old.monitor.value }
{
    if m.held != 0 {
        return EOPEN;
    }
    let Some(hall) = office.take(alloc) else {
        return ECLOSED;
    };
    match Hall::close(hall) {
        Ok(opened) => {
            m.put(opened);
            OK
        }
        Err(hall) => {
            let status = if hall.seats.is_none() { ECLOSED } else { EBUSY };
            office.put(hall);
            status
        }
    }
}

/// Closes an office with the handles of its sessions, in order, and gives the monitor's handle its monitor back, with
/// the journal of all sessions. It doesn't allocate. The caller has to know that each handle with the office's serial
/// is of the office: c/mls.c gives each opening a serial of its own.
///
/// `EBUSY` says that a handle is closed. No run is known to return it where none is: the office then has its sessions
/// at home, and can only be dropped.
#[unsafe(no_mangle)]
pub extern "C" fn mls_office_close_sessions(
    office: &mut MlsOffice,
    alloc: Global,
    sessions: &mut [MlsSession],
    m: &mut Mls,
) -> i32
    requires { AreOfOffice office.old.serial (seats_of office.old.hall.value) (handles_of sessions.old) }
    ensures status { ClosingStatus m.old.monitor.value office.old.serial office.old.count
        (seats_of office.old.hall.value) (handles_of sessions.old) result }
    ensures closes { result ≡ OK
        → ClosesWith office.old.hall.value (handles_of sessions.old) m.new.monitor.value }
    ensures gone { result ≡ OK → office.new.hall.value ≡ None }
    ensures closed { result ≡ OK → handles_of sessions.new ≡ map shut (handles_of sessions.old) }
    ensures kept { result ≢ OK → m.new.monitor.value ≡ m.old.monitor.value }
    ensures same { IsRefused office.old sessions.old result → office.new.hall.value ≡ office.old.hall.value }
    ensures silent { IsRefused office.old sessions.old result
        → handles_of sessions.new ≡ handles_of sessions.old }
    ensures at_home { IsLeft office.old sessions.old result
        → TakesAllBack (seats_of office.old.hall.value) (handles_of sessions.old) (seats_of office.new.hall.value) }
    ensures emptied { IsLeft office.old sessions.old result
        → handles_of sessions.new ≡ map shut (handles_of sessions.old) }
{
    if m.held != 0 {
        return EOPEN;
    }
    let status = give_all_back(office, alloc, sessions);
    if status != OK {
        return status;
    }
    close_monitor(office, alloc, m)
}
