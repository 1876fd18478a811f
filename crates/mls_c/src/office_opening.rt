//! Opening an office with an open monitor, and handing its sessions out into their handles.
ghost use Rattle.std.specs.Prelude.{◌≡◌, ◌≢◌, ◌≤◌, [], ◌++◌, drop, length, IsSomeAnd, IsTrue, OnOk, OnErr};
ghost use Rattle.mls_sessions.specs.Sessions.{newcomers};
ghost use Rattle.mls_sessions.specs.declared.limits.TheConstants.{MAX_SESSIONS};
ghost use Rattle.mls_c.specs.Offices.{IsTried, OfficeStatus, OpensOffice, seats_of, opened_of};
ghost use Rattle.mls_c.specs.SessionHandles.{HandsAllOut, OpeningStatus, OpensWith, StaysAs, handed_out, handles_of};
ghost use Rattle.mls_c.specs.declared.status.TheConstants.{OK, EBUSY};

use crate::hall::Hall;
use crate::handle::Mls;
use crate::office_closing::close_monitor;
use crate::office_handle::MlsOffice;
use crate::seats::Seats;
use crate::session_handle::MlsSession;
use crate::session_handles::are_closed;
use crate::status::{EBUSY, ECLOSED, EINVAL, ENOMEM, EOPEN, OK};
use mls_sessions::MAX_SESSIONS;
use std::alloc::{AllocError, Global};

/// Opens the monitor of a handle to so many sessions, 1 to 64. The monitor's handle is then closed, and its block is
/// kept for the closing, which needs no memory.
#[tactic(auto, using(crate::proofs::Offices::opens_office))]
fn open_monitor(office: &mut MlsOffice, alloc: Global, m: &mut Mls, count: usize) -> i32
    ensures status { OfficeStatus IsTried office.old.hall.value m.old.monitor.value count result }
    ensures opened { result ≡ OK → OpensOffice m.old.monitor.value count office.new.hall.value }
    ensures closed { result ≡ OK → m.new.monitor.value ≡ None }
    ensures same { result ≢ OK → m.new.monitor.value ≡ m.old.monitor.value }
    ensures silent { result ≢ OK → office.new.hall.value ≡ office.old.hall.value }
{
    if office.held != 0 {
        return EOPEN;
    }
    if m.held == 0 {
        return ECLOSED;
    }
    if count == 0 || count > MAX_SESSIONS as usize {
        return EINVAL;
    }
    let Some(opened) = m.take(alloc) else {
        return ECLOSED;
    };
    match Hall::around(alloc, opened, count as u16) {
        Ok(hall) => {
            office.put(hall);
            OK
        }
        Err(opened) => {
            m.put(opened);
            ENOMEM
        }
    }
}

/// Hands the sessions with the numbers below `n` out into the handles of their places, the last first. They are put
/// into the handles once there is memory for all.
///
/// # Errors
/// `AllocError` where an allocation failed; all is then as before.
fn hand_out_below(
    seats: &mut Seats,
    alloc: Global,
    sessions: &mut [MlsSession],
    serial: u64,
    n: u16,
) -> Result<(), AllocError>
    requires places { n ≤ length sessions.old }
    requires home { seats.old.home ≡ newcomers seats.old.office n }
    ensures office { seats.new.office ≡ seats.old.office }
    ensures out { OnOk result (seats.new.home ≡ []) }
    ensures handed { OnOk result (handles_of sessions.new
        ≡ handed_out seats.old.office serial n ++ drop n (handles_of sessions.old)) }
    ensures err { OnErr result (seats.new ≡ seats.old) }
    ensures same { OnErr result (sessions.new ≡ sessions.old) }
{
    if n == 0 {
        return Ok(());
    }
    let last = n - 1;
    let place = seats.hand_out(alloc)?;
    match hand_out_below(seats, alloc, sessions, serial, last) {
        Ok(()) => {
            let session = &mut sessions[last as usize];
            session.put(place, serial, last);
            Ok(())
        }
        Err(refused) => {
            seats.take_back(place);
            Err(refused)
        }
    }
}

/// Hands all sessions of an office out.
fn hand_out(hall: &mut Hall, alloc: Global, sessions: &mut [MlsSession], serial: u64) -> i32
    requires few { length sessions.old ≤ MAX_SESSIONS }
    requires home { IsSomeAnd hall.old.seats (λ t. t.home ≡ newcomers t.office (length sessions.old)) }
    ensures handed { result ≡ OK
        → HandsAllOut serial (length sessions.old) hall.old.seats hall.new.seats (handles_of sessions.new) }
    ensures opened { hall.new.opened ≡ hall.old.opened }
    ensures same { result ≢ OK → hall.new ≡ hall.old }
    ensures silent { result ≢ OK → sessions.new ≡ sessions.old }
{
    let count = sessions.len() as u16;
    let Some(seats) = &mut hall.seats else {
        unreachable!()
    };
    match hand_out_below(seats, alloc, sessions, serial, count) {
        Ok(()) => OK,
        Err(_) => ENOMEM,
    }
}

/// Hands all sessions of the office in a handle out.
#[tactic(auto, using(crate::proofs::Offices::same_opened))]
fn hand_out_all(
    office: &mut MlsOffice,
    alloc: Global,
    sessions: &mut [MlsSession],
    serial: u64,
) -> i32
    requires few { length sessions.old ≤ MAX_SESSIONS }
    requires home { IsSomeAnd (seats_of office.old.hall.value)
        (λ t. t.home ≡ newcomers t.office (length sessions.old)) }
    ensures handed { result ≡ OK → HandsAllOut serial (length sessions.old) (seats_of office.old.hall.value)
        (seats_of office.new.hall.value) (handles_of sessions.new) }
    ensures opened { opened_of office.new.hall.value ≡ opened_of office.old.hall.value }
    ensures serial { office.new.serial ≡ office.old.serial }
    ensures count { office.new.count ≡ office.old.count }
    ensures same { result ≢ OK → office.new.hall.value ≡ office.old.hall.value }
    ensures silent { result ≢ OK → sessions.new ≡ sessions.old }
{
    let Some(mut hall) = office.take(alloc) else {
        unreachable!()
    };
    let status = hand_out(&mut hall, alloc, sessions, serial);
    office.put(hall);
    status
}

/// Opens the monitor of a handle to as many sessions as there are handles, 1 to 64 and all closed. Each handle gets the
/// session of its place, the serial, which no other opening has, and its number.
///
/// Where there is no memory, nothing is opened. At least so much of the journal is then forgotten as was, and only
/// tests say that no more is. `EBUSY`, which no run is known to return, says that the office is open, with its sessions
/// at home: it can only be dropped.
#[unsafe(no_mangle)]
pub extern "C" fn mls_office_open_sessions(
    office: &mut MlsOffice,
    alloc: Global,
    m: &mut Mls,
    sessions: &mut [MlsSession],
    serial: u64,
) -> i32
    ensures status { OpeningStatus (handles_of sessions.old) (length sessions.old)
        office.old.hall.value m.old.monitor.value result }
    ensures opened { result ≡ OK → OpensWith m.old.monitor.value serial (length sessions.old)
        office.new.hall.value (handles_of sessions.new) }
    ensures serial { result ≡ OK → office.new.serial ≡ serial }
    ensures count { result ≡ OK → office.new.count ≡ length sessions.old }
    ensures closed { result ≡ OK → m.new.monitor.value ≡ None }
    ensures same { result ≢ OK → handles_of sessions.new ≡ handles_of sessions.old }
    ensures silent { result ≢ OK → result ≢ EBUSY → office.new.hall.value ≡ office.old.hall.value }
    ensures kept { result ≢ OK → result ≢ EBUSY → StaysAs m.old.monitor.value m.new.monitor.value }
    ensures at_home { result ≡ EBUSY
        → OpensOffice m.old.monitor.value (length sessions.old) office.new.hall.value }
{
    if !are_closed(sessions) {
        return EOPEN;
    }
    let count = sessions.len();
    let status = open_monitor(office, alloc, m, count);
    if status != OK {
        return status;
    }
    office.serial = serial;
    office.count = count as u16;
    if hand_out_all(office, alloc, sessions, serial) == OK {
        return OK;
    }
    if close_monitor(office, alloc, m) == OK {
        ENOMEM
    } else {
        EBUSY
    }
}
