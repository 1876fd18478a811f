//! Offices of one session, of two and of as many as there can be, on one thread.
ghost use Rattle.std.specs.Prelude.{◌≡◌, false};
ghost use Rattle.mls_sessions.specs.Sessions.{Ascending};

use super::many::share_one_journal;
use super::pair::{Deeds, over_two};
use super::single::{Before, over_one};
use super::standard::{ANN, PLANS, get, replayed_monitor};
use crate::seen::sees;
use crate::standard::ample_monitor;
use mls_monitor::Monitor;
use mls_sessions::{MAX_SESSIONS, Office, Session};
use mls_tables::Mode;
use std::alloc::Global;
use std::process::Abort;
use std::sync::Wait;

/// What the sessions of an office do.
#[derive(Clone, Copy)]
enum Test {
    OneTries(Before),
    Two(Deeds),
    AllAsk,
}

/// Hands an office and its sessions on to a test.
fn hand_on<R: Wait + Abort>(rt: &R, office: Office, sessions: Vec<Session>, test: Test)
    requires sessions { Ascending office 0 sessions.items }
    requires forgets { office.charter.lasts ≡ false }
{
    match test {
        Test::OneTries(before) => over_one(rt, office, sessions, before),
        Test::Two(deeds) => over_two(rt, office, sessions, deeds),
        Test::AllAsk => share_one_journal(rt, office, sessions),
    }
}

/// Opens an office of so many sessions over a monitor, for a test.
fn open_over<R: Wait + Abort>(rt: &R, alloc: Global, monitor: Monitor, count: u16, test: Test) {
    match Office::open(alloc, monitor, count) {
        Ok((office, sessions)) => hand_on(rt, office, sessions, test),
        Err(_) => panic!(rt; "out of memory"),
    }
}

/// Adds so many entries of other sessions.
fn add(rt: &impl Abort, monitor: &mut Monitor, count: u32) {
    for session in 0..count {
        let is_added = monitor
            .submit(session.wrapping_add(7), get(ANN, Mode::Read, PLANS))
            .is_ok();
        sees(rt, is_added, "an entry");
    }
}

/// Opens an office over a standard monitor to which so many entries of other sessions were added.
fn open<R: Wait + Abort>(rt: &R, alloc: Global, added: u32, count: u16, test: Test) {
    let mut monitor = ample_monitor(rt, alloc);
    add(rt, &mut monitor, added);
    open_over(rt, alloc, monitor, count, test);
}

#[test]
fn one_session_is_never_told_busy(rt: HostRuntime) {
    let before = Before {
        entries: 0,
        is_held: false,
    };
    open(&rt, rt.alloc(), 0, 1, Test::OneTries(before));
}

#[test]
fn an_office_goes_on_with_a_journal(rt: HostRuntime) {
    let before = Before {
        entries: 2,
        is_held: true,
    };
    open(&rt, rt.alloc(), 2, 1, Test::OneTries(before));
}

#[test]
fn an_office_goes_on_with_a_replayed_journal(rt: HostRuntime) {
    let before = Before {
        entries: 6,
        is_held: false,
    };
    match replayed_monitor(rt.alloc()) {
        Ok(monitor) => open_over(&rt, rt.alloc(), monitor, 1, Test::OneTries(before)),
        Err(_) => panic!(rt; "out of memory, or the journal isn't replayed"),
    }
}

#[test]
fn sessions_that_meet_know_the_same(rt: HostRuntime) {
    open(&rt, rt.alloc(), 0, 2, Test::Two(Deeds::AskAndMeet));
}

#[test]
fn one_of_two_sessions_is_answered_at_once(rt: HostRuntime) {
    open(&rt, rt.alloc(), 0, 2, Test::Two(Deeds::OneTries));
}

#[test]
fn a_check_sees_what_others_did(rt: HostRuntime) {
    open(&rt, rt.alloc(), 0, 2, Test::Two(Deeds::GiveUpAndOn));
}

#[test]
fn sessions_share_one_journal(rt: HostRuntime) {
    for count in [2, MAX_SESSIONS] {
        open(&rt, rt.alloc(), 0, count, Test::AllAsk);
    }
}
