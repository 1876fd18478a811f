//! Two sessions of one office.
ghost use Rattle.std.specs.Prelude.{◌≡◌, false};
ghost use Rattle.mls_sessions.specs.Sessions.{IsOf, Ascending};

use super::at_once::{forgets_first, held, is_let_read};
use super::standard::{ANN, BOB, PLANS, get, level, release};
use crate::seen::sees;
use mls_requests::{Entry, Reply, Request};
use mls_sessions::{Office, Session};
use mls_tables::Mode;
use std::alloc::AllocError;
use std::process::Abort;
use std::sync::Wait;

/// What two sessions do.
#[derive(Clone, Copy)]
pub enum Deeds {
    AskAndMeet,
    GiveUpAndOn,
    OneTries,
}

/// Whether an answer is that a request was granted, by entry `number` of session `made_by`.
fn is_grant(answer: Result<Entry, AllocError>, number: u64, made_by: u32) -> bool {
    match answer {
        Ok(entry) => {
            entry.number == number && entry.session == made_by && entry.reply == Reply::Yes
        }
        Err(_) => false,
    }
}

/// Asserts that a session is granted what it asks for, by entry `number` of session `made_by`.
fn is_granted<R: Wait + Abort>(
    rt: &R,
    office: &Office,
    session: &mut Session,
    request: Request,
    number: u64,
    made_by: u32,
)
    requires { IsOf office.now session.old }
    ensures { IsOf office.now session.new }
{
    let answer = session.submit(office, rt, request);
    sees(rt, is_grant(answer, number, made_by), "what is granted");
}

/// Asserts whether ann reads the plans, as a session is told.
fn reads<R: Wait + Abort>(rt: &R, office: &Office, session: &mut Session, wanted: bool)
    requires { IsOf office.now session.old }
    ensures { IsOf office.now session.new }
{
    let held = session.check(office, rt, ANN, PLANS, Mode::Read);
    sees(rt, held == wanted, "what is read");
}

/// Whether a session has seen so many entries, and made so many.
pub fn knows(session: &Session, seen: u64, made: u64) -> bool {
    session.seen() == seen && session.made() == made
}

/// Asserts what each of two sessions has seen and made.
fn both_know(
    rt: &impl Abort,
    first: &Session,
    wanted: (u64, u64),
    second: &Session,
    others: (u64, u64),
) {
    sees(rt, knows(first, wanted.0, wanted.1), "the first session");
    sees(rt, knows(second, others.0, others.1), "the second session");
}

/// The first session gets read access and knows of it, the second changes its level. Then they meet.
fn ask_and_meet<R: Wait + Abort>(rt: &R, office: &Office, first: &mut Session, second: &mut Session)
    requires { IsOf office.now first.old × IsOf office.now second.old }
{
    is_granted(rt, office, first, get(ANN, Mode::Read, PLANS), 0, 0);
    reads(rt, office, first, true);
    is_granted(rt, office, second, level(BOB, 1), 1, 1);
    both_know(rt, first, (1, 1), second, (2, 1));
    first.meet(second, office);
    both_know(rt, first, (2, 1), second, (2, 1));
}

/// What the second session gives up the first no longer has, and what it is given the first knows of, though they never
/// met: by a check that needs no turn at the gate, so that it counts no entry more. Then they meet.
fn give_up_and_on<R: Wait + Abort>(
    rt: &R,
    office: &Office,
    first: &mut Session,
    second: &mut Session,
)
    requires { IsOf office.now first.old × IsOf office.now second.old }
{
    is_granted(rt, office, first, get(ANN, Mode::Read, PLANS), 0, 0);
    is_granted(rt, office, second, release(ANN, Mode::Read, PLANS), 1, 1);
    reads(rt, office, first, false);
    both_know(rt, first, (2, 1), second, (2, 1));
    is_granted(rt, office, second, get(ANN, Mode::Read, PLANS), 2, 1);
    reads(rt, office, first, true);
    both_know(rt, first, (2, 1), second, (3, 2));
    first.meet(second, office);
    both_know(rt, first, (3, 1), second, (3, 2));
}

/// The second session tries while the first is away from the gate, and is answered.
fn one_tries(rt: &impl Abort, office: &Office, second: &mut Session)
    requires { IsOf office.now second.old × (office.now.charter.lasts ≡ false) }
    ensures { IsOf office.now second.new }
{
    sees(rt, is_let_read(office, second, 0, 1), "an entry");
    let reads = held(office, second, Mode::Read);
    sees(rt, reads == Some(true), "what is read");
    let writes = held(office, second, Mode::Write);
    sees(rt, writes == Some(false), "what is written");
    sees(rt, knows(second, 1, 1), "what it made");
    sees(rt, forgets_first(office, second), "what is forgotten");
    sees(rt, is_let_read(office, second, 1, 1), "an entry");
    sees(rt, knows(second, 2, 2), "what it made");
}

/// Has the two sessions do that.
fn meet_over<R: Wait + Abort>(
    rt: &R,
    office: &Office,
    mut first: Session,
    second: &mut Session,
    deeds: Deeds,
)
    requires sessions { IsOf office.now first × IsOf office.now second.old }
    requires forgets { office.now.charter.lasts ≡ false }
{
    sees(rt, first.number() == 0 && second.number() == 1, "numbers");
    match deeds {
        Deeds::AskAndMeet => ask_and_meet(rt, office, &mut first, second),
        Deeds::GiveUpAndOn => give_up_and_on(rt, office, &mut first, second),
        Deeds::OneTries => one_tries(rt, office, second),
    }
    drop(first);
}

/// Has the two sessions of an office do that.
#[tactic(auto, using(crate::proofs::Lists::ascending_last))]
pub fn over_two<R: Wait + Abort>(rt: &R, office: Office, mut sessions: Vec<Session>, deeds: Deeds)
    requires sessions { Ascending office 0 sessions.items }
    requires forgets { office.charter.lasts ≡ false }
{
    sees(rt, office.base() == 0, "the base");
    let Some(mut second) = sessions.pop() else {
        panic!(rt; "two sessions")
    };
    let Some(first) = sessions.pop() else {
        panic!(rt; "two sessions")
    };
    drop(sessions);
    meet_over(rt, &office, first, &mut second, deeds);
    drop(second);
    drop(office);
}
