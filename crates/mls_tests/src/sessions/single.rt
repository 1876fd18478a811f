//! One session of an office, and offices of no session and of too many.
ghost use Rattle.std.specs.Prelude.{◌≡◌, false};
ghost use Rattle.mls_sessions.specs.Sessions.{IsOf, Ascending};

use super::at_once::{forgets_first, held, is_let_read};
use super::pair::knows;
use crate::seen::sees;
use crate::standard::ample_monitor;
use mls_monitor::Monitor;
use mls_sessions::{MAX_SESSIONS, Office, OfficeFaultKind, Session};
use mls_tables::Mode;
use std::alloc::Global;
use std::process::Abort;

/// Whether so many sessions are refused, with an empty journal handed back.
fn is_bad_count(alloc: Global, monitor: Monitor, n: u16) -> bool {
    match Office::open(alloc, monitor, n) {
        Ok(opened) => {
            drop(opened);
            false
        }
        Err(fault) => {
            let is_bad = fault.kind == OfficeFaultKind::BadCount;
            let is_empty = fault.monitor.entries().is_empty();
            drop(fault);
            is_bad && is_empty
        }
    }
}

#[test]
fn an_office_has_one_to_sixty_four_sessions(rt: HostRuntime) {
    for n in &[0, MAX_SESSIONS + 1, 65535] {
        let monitor = ample_monitor(&rt, rt.alloc());
        sees(&rt, is_bad_count(rt.alloc(), monitor, *n), "a bad count");
    }
}

/// What a journal comes to that an office is opened over.
#[derive(Clone, Copy)]
pub struct Before {
    pub entries: u64,
    /// Whether ann reads the plans.
    pub is_held: bool,
}

/// The only session tries, and is answered: over a journal, which it has seen and goes on with.
fn tries(rt: &impl Abort, office: &Office, session: &mut Session, before: Before)
    requires { IsOf office.now session.old × (office.now.charter.lasts ≡ false) }
{
    let base = before.entries;
    sees(rt, knows(session, base, 0), "what it has seen");
    let reads = held(office, session, Mode::Read);
    sees(rt, reads == Some(before.is_held), "what is read");
    sees(rt, is_let_read(office, session, base, 0), "an entry");
    let reads = held(office, session, Mode::Read);
    sees(rt, reads == Some(true), "what is read");
    let writes = held(office, session, Mode::Write);
    sees(rt, writes == Some(false), "what is written");
    sees(rt, forgets_first(office, session), "what is forgotten");
    sees(rt, knows(session, base.wrapping_add(1), 1), "what it made");
}

/// The only session of an office tries.
#[tactic(auto, using(crate::proofs::Lists::ascending_last))]
pub fn over_one(rt: &impl Abort, office: Office, mut sessions: Vec<Session>, before: Before)
    requires sessions { Ascending office 0 sessions.items }
    requires forgets { office.charter.lasts ≡ false }
{
    sees(rt, office.base() == before.entries, "the base");
    let Some(mut only) = sessions.pop() else {
        panic!(rt; "one session")
    };
    tries(rt, &office, &mut only, before);
    drop(only);
    drop(sessions);
    drop(office);
}
