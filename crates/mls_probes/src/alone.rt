//! A session that is alone in its office, and calls again and again, to be timed with no feed between.
ghost use Rattle.std.specs.Prelude.{◌≡◌};
ghost use Rattle.mls_sessions.specs.Sessions.{Ascending, IsOf, number_of};

use crate::turns::{Job, release};
use mls_monitor::Monitor;
use mls_sessions::{Office, Session};
use mls_tables::{Mode, ObjectId, SubjectId};
use std::alloc::{AllocError, Global};
use std::sync::Wait;

/// Submits a release so often.
fn submit_often<R: Wait>(rt: &R, office: &Office, session: &mut Session, times: u64)
    requires { IsOf office.now session.old }
    ensures session { IsOf office.now session.new }
    ensures number { number_of session.new.view ≡ number_of session.old.view }
{
    for k in 0..times {
        let _ = session.submit(office, rt, release(k));
    }
}

/// Checks so often, and returns how often the triple was held.
fn check_often<R: Wait>(rt: &R, office: &Office, session: &mut Session, times: u64) -> u64
    requires { IsOf office.now session.old }
    ensures session { IsOf office.now session.new }
    ensures number { number_of session.new.view ≡ number_of session.old.view }
{
    let mut count = 0u64;
    for k in 0..times {
        let object = ObjectId((k % 4) as u16);
        if session.check(office, rt, SubjectId(0), object, Mode::Read) {
            count = count.wrapping_add(1);
        }
    }
    count
}

/// Does a session's part of a job: its turns, and then its looks.
fn work_alone<R: Wait>(rt: &R, office: &Office, session: &mut Session, job: Job) -> u64
    requires { IsOf office.now session.old }
    ensures session { IsOf office.now session.new }
    ensures number { number_of session.new.view ≡ number_of session.old.view }
{
    submit_often(rt, office, session, job.turns);
    check_often(rt, office, session, job.looks)
}

/// Has each session do a job, one after the other.
#[tactic(auto, using(crate::proofs::Lists::ascending_read, crate::proofs::Lists::ascending_put))]
fn work_in_turn<R: Wait>(rt: &R, office: &Office, sessions: &mut Vec<Session>, job: Job)
    requires { Ascending office.now 0 sessions.old.items }
    ensures { Ascending office.now 0 sessions.new.items }
{
    for k in 0..sessions.len() {
        work_alone(rt, office, &mut sessions[k], job);
    }
}

/// Has one session do a job over a monitor, and says how many entries it made.
pub fn by_calls<R: Wait>(
    rt: &R,
    alloc: Global,
    monitor: Monitor,
    job: Job,
) -> Result<usize, AllocError> {
    match Office::open(alloc, monitor, 1) {
        Ok((office, mut sessions)) => {
            work_in_turn(rt, &office, &mut sessions, job);
            drop(sessions);
            drop(office);
            Ok(job.turns as usize)
        }
        Err(fault) => {
            drop(fault);
            Err(AllocError)
        }
    }
}
