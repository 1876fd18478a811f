//! Sessions of one office that ask one after the other.
ghost use Rattle.std.specs.Prelude.{◌≡◌, ◌<◌, ◌∷◌, vec_len};
ghost use Rattle.mls_sessions.specs.Sessions.{Ascending};

use super::standard::release;
use crate::seen::sees;
use mls_monitor::Monitor;
use mls_requests::Reply;
use mls_sessions::{CloseFault, Office, Session};
use mls_tables::{Mode, ObjectId, SubjectId};
use std::process::Abort;
use std::sync::Wait;

/// Session k gives up an access that subject k mod 4 may have. Whether each gets entry k, and is told yes.
#[tactic(auto, using(crate::proofs::Lists::ascending_read, crate::proofs::Lists::ascending_put))]
fn ask_each<R: Wait>(rt: &R, office: &Office, sessions: &mut Vec<Session>) -> bool
    requires { Ascending office.now 0 sessions.old.items }
    ensures sessions { Ascending office.now 0 sessions.new.items }
    ensures count { vec_len sessions.new ≡ vec_len sessions.old }
{
    let mut is_right = true;
    for k in 0..sessions.len() {
        let request = release(SubjectId((k % 4) as u16), Mode::Read, ObjectId(1));
        let Ok(entry) = sessions[k].submit(office, rt, request) else {
            return false;
        };
        is_right = is_right && entry.number == k as u64 && entry.reply == Reply::Yes;
    }
    is_right
}

/// Whether there are so many entries, and entry k is of session k.
fn is_in_order(monitor: &Monitor, count: usize) -> bool {
    let entries = monitor.entries();
    for k in 0..entries.len() {
        if entries[k].session as usize != k {
            return false;
        }
    }
    entries.len() == count
}

/// Whether session k stands at place k - 1.
fn are_after_first(sessions: &[Session]) -> bool {
    let mut number = 0u32;
    for session in sessions {
        number = number.wrapping_add(1);
        if session.number() != number {
            return false;
        }
    }
    true
}

/// With all sessions an office leaves an entry of each.
fn close_whole(rt: &impl Abort, office: Office, sessions: Vec<Session>)
    requires { Ascending office 0 sessions.items }
{
    let count = sessions.len();
    match office.close(sessions) {
        Ok(monitor) => {
            sees(rt, is_in_order(&monitor, count), "an entry of each");
            drop(monitor);
        }
        Err(_) => panic!(rt; "all are there"),
    }
}

/// Takes session 0 out of the sessions of an office.
#[tactic(auto, using(crate::proofs::Lists::first_ascends, crate::proofs::Lists::rest_ascends))]
fn take_first(office: &Office, sessions: &mut Vec<Session>) -> Session
    requires sessions { Ascending office.now 0 sessions.old.items }
    requires some { 0 < vec_len sessions.old }
    ensures all { Ascending office.now 0 (result ∷ sessions.new.items) }
    ensures rest { Ascending office.now 0 sessions.new.items }
{
    let _ = office;
    sessions.remove(0)
}

/// Closes an office with all its sessions, after it came back for want of session 0.
fn close_after(rt: &impl Abort, office: Office, first: Session, mut rest: Vec<Session>)
    requires { Ascending office 0 (first ∷ rest.items) }
{
    let is_back = rest.insert(0, first).is_ok();
    sees(rt, is_back, "room for a session");
    close_whole(rt, office, rest);
}

/// With session 0 left out the office comes back with the others, in their order; with all of them it leaves an entry
/// of each.
fn close_all(rt: &impl Abort, office: Office, mut sessions: Vec<Session>)
    requires { Ascending office 0 sessions.items }
{
    let count = sessions.len();
    sees(rt, count > 0, "a session");
    let first = take_first(&office, &mut sessions);
    match office.close(sessions) {
        Ok(_) => panic!(rt; "a session is missing"),
        Err(CloseFault { office, sessions }) => {
            sees(rt, sessions.len() + 1 == count, "how many");
            sees(rt, are_after_first(&sessions), "their order");
            close_after(rt, office, first, sessions);
        }
    }
}

/// Each session of an office asks, and then it is closed.
pub fn share_one_journal<R: Wait + Abort>(rt: &R, office: Office, mut sessions: Vec<Session>)
    requires { Ascending office 0 sessions.items }
{
    let is_right = ask_each(rt, &office, &mut sessions);
    sees(rt, is_right, "an entry for each");
    close_all(rt, office, sessions);
}
