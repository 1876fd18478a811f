//! Offices of one session and more: their opening, the turns of their sessions, and the journal that they leave.
ghost use Rattle.std.specs.Prelude.{◌≡◌};
ghost use Rattle.mls_sessions.specs.Sessions.{Ascending, IsOf, number_of};

use crate::monitors::{monitor_again, request, show_monitor};
use mls_monitor::Monitor;
use mls_requests::Entry;
use mls_sessions::{Office, OfficeFault, Session, TryFault};
use std::io;
use std::sync::Wait;

/// Prints that a session's call was out of memory, and how the session stands.
fn show_refused(rt: &impl Print, call: &str, session: &Session) -> io::Result<()> {
    let (number, made, seen) = (session.number(), session.made(), session.seen());
    println!(rt; "{call}: out of memory, session {number}, {made} made, {seen} seen")
}

/// Prints what a session was told.
fn show_told(rt: &impl Print, told: Result<Entry, TryFault>) -> io::Result<()> {
    match told {
        Ok(entry) => println!(rt;
            "{} of session {}: {:?}",
            entry.number, entry.session, entry.reply
        ),
        Err(fault) => println!(rt; "try_submit: {fault}"),
    }
}

/// Makes an entry without waiting, again where memory ran out: the gate is free then, and the session is as before.
fn turn(rt: &impl Print, office: &Office, session: &mut Session, makes: bool) -> io::Result<()>
    requires { IsOf office.now session.old }
    ensures session { IsOf office.now session.new }
    ensures number { number_of session.new.view ≡ number_of session.old.view }
{
    let mut told = session.try_submit(office, request(makes));
    if told == Err(TryFault::Memory) {
        show_refused(rt, "try_submit", session)?;
        told = session.try_submit(office, request(makes));
    }
    show_told(rt, told)
}

/// Makes an entry, waiting for the gate; where memory ran out, again without waiting: the gate is free then.
fn waiting_turn<R: Wait>(
    waits: &R,
    rt: &impl Print,
    office: &Office,
    session: &mut Session,
    makes: bool,
) -> io::Result<()>
    requires { IsOf office.now session.old }
    ensures session { IsOf office.now session.new }
    ensures number { number_of session.new.view ≡ number_of session.old.view }
{
    if let Ok(entry) = session.submit(office, waits, request(makes)) {
        return show_told(rt, Ok(entry));
    }
    show_refused(rt, "submit", session)?;
    let told = session.try_submit(office, request(makes));
    show_told(rt, told)
}

/// Makes five entries, by three turns that don't wait and two that do.
fn turns<R: Wait>(
    waits: &R,
    rt: &impl Print,
    office: &Office,
    session: &mut Session,
) -> io::Result<()>
    requires { IsOf office.now session.old }
    ensures session { IsOf office.now session.new }
    ensures number { number_of session.new.view ≡ number_of session.old.view }
{
    turn(rt, office, session, false)?;
    turn(rt, office, session, true)?;
    turn(rt, office, session, true)?;
    waiting_turn(waits, rt, office, session, false)?;
    waiting_turn(waits, rt, office, session, true)
}

/// Has each session make its entries.
#[tactic(auto, using(crate::proofs::Lists::ascending_read, crate::proofs::Lists::ascending_put))]
fn all_turns<R: Wait>(
    waits: &R,
    rt: &impl Print,
    office: &Office,
    sessions: &mut Vec<Session>,
) -> io::Result<()>
    requires { Ascending office.now 0 sessions.old.items }
    ensures { Ascending office.now 0 sessions.new.items }
{
    for k in 0..sessions.len() {
        turns(waits, rt, office, &mut sessions[k])?;
    }
    Ok(())
}

/// Prints what stands in a monitor, and of which session each entry is.
fn show_left(rt: &impl Print, monitor: &Monitor) -> io::Result<()> {
    show_monitor(rt, monitor)?;
    print!(rt; ", of the sessions")?;
    for entry in monitor.entries() {
        print!(rt; " {}", entry.session)?;
    }
    println!(rt; "")
}

/// Closes an office, and prints what it leaves.
fn close(rt: &impl Print, office: Office, sessions: Vec<Session>) -> io::Result<()>
    requires { Ascending office 0 sessions.items }
{
    match office.close(sessions) {
        Ok(monitor) => {
            let shown = show_left(rt, &monitor);
            drop(monitor);
            shown
        }
        Err(_) => println!(rt; "close: a session is missing"),
    }
}

/// Makes entries in an office that was opened, and closes it.
fn work<R: Wait>(
    waits: &R,
    rt: &impl Print,
    office: Office,
    mut sessions: Vec<Session>,
) -> io::Result<()>
    requires { Ascending office 0 sessions.items }
{
    let said = all_turns(waits, rt, &office, &mut sessions);
    let closed = close(rt, office, sessions);
    said?;
    closed
}

/// Prints why an office wasn't opened, and what stands in the monitor that comes back.
fn show_fault(rt: &impl Print, fault: &OfficeFault) -> io::Result<()> {
    print!(rt; "Office::open: {}, ", fault.kind)?;
    show_monitor(rt, &fault.monitor)?;
    println!(rt; ", room for {}", fault.monitor.spare())
}

/// Opens an office over the monitor that came back, and works in it.
fn open_again<R: Wait>(
    waits: &R,
    rt: &HostRuntime,
    monitor: Monitor,
    count: u16,
) -> io::Result<()> {
    match Office::open(rt.alloc(), monitor, count) {
        Ok((office, sessions)) => work(waits, rt, office, sessions),
        Err(_) => println!(rt; "Office::open: out of memory"),
    }
}

/// Opens an office of so many sessions over a monitor, again where memory ran out, and works in it.
pub fn ask_office<R: Wait>(waits: &R, rt: &HostRuntime, file: &[u8], count: u16) -> io::Result<()> {
    let Some(monitor) = monitor_again(rt, file)? else {
        return Ok(());
    };
    match Office::open(rt.alloc(), monitor, count) {
        Ok((office, sessions)) => work(waits, rt, office, sessions),
        Err(fault) => {
            show_fault(rt, &fault)?;
            open_again(waits, rt, fault.monitor, count)
        }
    }
}
