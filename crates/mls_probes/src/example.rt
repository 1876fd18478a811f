//! An example of the library in use: opens a monitor over the standard start, asks twice, and goes over the journal.
use mls_monitor::{Entry, Monitor, Start};
use mls_requests::{Action, Request};
use mls_runs::{Names, standard_start};
use mls_tables::{Mode, ObjectId, SubjectId};
use std::alloc::AllocError;
use std::io;

/// The numbers of a subject and an object, where both have names.
fn numbers(names: &Names, subject: &str, object: &str) -> Option<(SubjectId, ObjectId)> {
    Some((names.subject(subject)?, names.object(object)?))
}

/// Asks for read access, and prints what is replied and whether the access is then held.
fn ask(
    rt: &impl Print,
    names: &Names,
    monitor: &mut Monitor,
    who: &str,
    what: &str,
) -> io::Result<()> {
    let Some((subject, object)) = numbers(names, who, what) else {
        return println!(rt; "no {who}, or no {what}");
    };
    let action = Action::Get(Mode::Read, object);
    let entry = monitor.submit(0, Request { subject, action })?;
    let held = monitor.check(subject, object, Mode::Read);
    println!(rt; "{who} get-read {what}: {:?}, held: {held}", entry.reply)
}

/// Goes over the journal.
fn show(rt: &impl Print, entries: &[Entry]) -> io::Result<()> {
    for entry in entries {
        let (reply, request) = (entry.reply, entry.request);
        println!(rt; "{}: {reply:?} to {request:?}", entry.number)?;
    }
    Ok(())
}

/// Asks twice, and shows the journal.
fn talk(rt: &impl Print, names: &Names, monitor: &mut Monitor) -> io::Result<()> {
    ask(rt, names, monitor, "ann", "plans")?;
    ask(rt, names, monitor, "bob", "memo")?;
    show(rt, monitor.entries())
}

/// Opens a monitor over a start, and talks to it. What is lent is dropped by a call: at the end of its scope the proof
/// of that is dear.
fn open(rt: &HostRuntime, names: &Names, start: Start) -> io::Result<()> {
    let Some(mut monitor) = Monitor::open(rt.alloc(), start).ok() else {
        return Err(AllocError.into());
    };
    let told = talk(rt, names, &mut monitor);
    drop(monitor);
    told
}

/// Talks to a monitor over a start, by its names.
fn run(rt: &HostRuntime, names: Names, start: Start) -> io::Result<()> {
    let told = open(rt, &names, start);
    drop(names);
    told
}

/// Shows the library in use, over the standard start.
pub fn show_example(rt: &HostRuntime) -> io::Result<()> {
    match standard_start(rt.alloc()) {
        Ok(loaded) => {
            let (names, start) = loaded.into_parts();
            run(rt, names, start)
        }
        Err(_) => Err(AllocError.into()),
    }
}
