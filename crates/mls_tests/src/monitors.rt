//! What only calls show of a monitor: room that was reserved, and starts that come back from it.
use crate::seen::sees;
use crate::sessions::standard::{ANN, BOB, MEMO, PLANS, get, six_entries};
use crate::standard::{ample_monitor, standard_alone};
use mls_monitor::{Monitor, ReplayFault, ReplayRefused, replay};
use mls_requests::{Entry, Reason, Reply, Request};
use mls_start::Start;
use mls_tables::Mode;
use std::alloc::{AllocError, Global};
use std::process::Abort;
use std::test::Fail;

/// Three requests, and their replies.
fn three() -> [(Request, Reply); 3] {
    [
        (get(ANN, Mode::Read, MEMO), Reply::No(Reason::Integrity)),
        (get(ANN, Mode::Read, PLANS), Reply::Yes),
        (get(ANN, Mode::Read, PLANS), Reply::Yes),
    ]
}

/// Asserts that three requests are answered in the room that was made for them.
fn are_answered_in_room(rt: &impl Abort, monitor: &mut Monitor) {
    let is_made = monitor.reserve(3).is_ok() && monitor.spare() >= 3;
    sees(rt, is_made, "room for three");
    for (number, row) in three().iter().enumerate() {
        let (request, reply) = row;
        let entry = Entry::new(number as u64, 7, *request, *reply);
        sees(rt, monitor.submit(7, *request) == Ok(entry), "an answer");
        let left = 2usize.saturating_sub(number);
        sees(rt, monitor.spare() >= left, "the room left");
    }
}

#[test]
fn room_that_was_reserved_is_there(rt: HostRuntime) {
    let mut monitor = ample_monitor(&rt, rt.alloc());
    are_answered_in_room(&rt, &mut monitor);
    drop(monitor);
}

/// Asserts that a monitor has the six entries, that bob doesn't read the memo, and that he is at the lowest level,
/// where he is denied it.
fn has_six(rt: &impl Abort, monitor: &mut Monitor) {
    let is_taken = monitor.entries() == six_entries().as_slice();
    sees(rt, is_taken, "the journal");
    sees(rt, !monitor.check(BOB, MEMO, Mode::Read), "what is read");
    let denied = Entry::new(6, 0, get(BOB, Mode::Read, MEMO), Reply::No(Reason::Star));
    let answer = monitor.submit(0, get(BOB, Mode::Read, MEMO));
    sees(rt, answer == Ok(denied), "the level");
}

/// Asserts what the standard start counts.
fn has_counts(rt: &impl Abort, start: &Start) {
    sees(rt, start.subject_count() == 4, "how many subjects");
    sees(rt, start.object_count() == 4, "how many objects");
    sees(rt, start.cell_count() == 12, "how many cells");
}

/// Asserts that the standard start takes the journal of six entries.
fn takes_six(rt: &impl Abort, alloc: Global, start: Start) {
    has_counts(rt, &start);
    match replay(alloc, start, &six_entries()) {
        Ok(mut monitor) => {
            has_six(rt, &mut monitor);
            drop(monitor);
        }
        Err(_) => sees(rt, false, "a replay"),
    }
}

/// Asserts that a monitor answers as the six entries say.
fn answers_six(rt: &impl Abort, monitor: &mut Monitor) {
    for entry in six_entries().iter() {
        let answer = monitor.submit(0, entry.request);
        sees(rt, answer == Ok(*entry), "an answer");
    }
    has_six(rt, monitor);
}

/// Asserts that a start opens a monitor that answers so, and comes back from it as it was.
fn opens(rt: &impl Abort, alloc: Global, start: Start) {
    match Monitor::open(alloc, start) {
        Ok(mut monitor) => {
            answers_six(rt, &mut monitor);
            takes_six(rt, alloc, monitor.into_start());
        }
        Err(_) => sees(rt, false, "an opening"),
    }
}

/// The journal with a reply that the rules don't give.
fn forged() -> [Entry; 6] {
    let mut entries = six_entries();
    entries[3].reply = Reply::Yes;
    entries
}

/// Asserts that a replay was refused for the forgery, and that the start that came back takes the true journal.
fn takes_the_true_journal(rt: &impl Abort, alloc: Global, refused: ReplayRefused) {
    let forgery = ReplayFault::Differs {
        at: 3,
        expected: Reply::No(Reason::Star),
    };
    let is_told = refused.fault == forgery;
    takes_six(rt, alloc, refused.start);
    sees(rt, is_told, "the fault");
}

/// Asserts that the start comes back from a replay that is refused, and from a monitor that was asked.
fn come_back(rt: &impl Abort, alloc: Global) -> Result<(), AllocError> {
    match replay(alloc, standard_alone(alloc)?, &forged()) {
        Ok(_) => sees(rt, false, "a fault"),
        Err(refused) => takes_the_true_journal(rt, alloc, refused),
    }
    match replay(alloc, standard_alone(alloc)?, &six_entries()) {
        Ok(monitor) => opens(rt, alloc, monitor.into_start()),
        Err(_) => sees(rt, false, "a replay"),
    }
    Ok(())
}

#[test]
fn a_start_comes_back_as_it_was(rt: HostRuntime) -> Result<(), Fail> {
    come_back(&rt, rt.alloc())?;
    Ok(())
}
