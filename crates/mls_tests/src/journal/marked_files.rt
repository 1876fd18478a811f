//! A service whose journal has marks and is cut into files.
use super::marked::keeper;
use super::{MemoryMarks, Shelf};
use crate::seen::{sees, sees_bytes, sees_outcome};
use crate::standard::{ample_monitor, ample_start};
use mls_durable::{Asker, AttendFault, Options, Protocol, ServiceFault, TornEnd};
use mls_lines::Names;
use mls_marked::{Served, serve_marked};
use mls_marks::{Chain, Digest, Scope, Verifier};
use mls_monitor::Monitor;
use std::alloc::Global;
use std::process::Abort;

/// Requests whose entries are of 21, 21, 25 and 21 bytes.
const SCRIPT: &[u8] =
    b"ann get-read plans\nann get-read plans\nann release read plans\nann get-read plans\n";

/// The marks of the first two entries and of the others. The digests are those of Python's hashlib.
const MARKS: &[u8] =
    b"1 2026-11-27T11:12:26.736512Z a3b743542803321b8f41a6715ab8cdfd811a6d49fb2d245c6f93a76703b7be5b\n\
3 2026-11-27T11:12:26.736512Z 66b122778c1fd3ec7d4e8eacb4fceddec62dd2d8ee637c7feb227f5fa4560685\n";

/// How many bytes the first of them has.
const FIRST_MARK: usize = 95;

/// Serves over files of so many bytes, by these names and over this monitor.
fn serve(
    alloc: Global,
    names: &Names,
    monitor: Monitor,
    segment: u32,
    keeper: MemoryMarks,
) -> Served<Shelf, MemoryMarks> {
    let mut reader = SCRIPT;
    let options = Options {
        protocol: Protocol {
            asker: Asker::Session(0),
            numbers: false,
            segment: Some(segment),
        },
        names: false,
        torn: TornEnd::Refuse,
    };
    let shelf = Shelf::new(alloc, Vec::new(alloc));
    let chain = Chain::begin(Digest::zeros());
    serve_marked(
        alloc,
        names,
        options,
        monitor,
        &mut reader,
        shelf,
        keeper,
        chain,
    )
}

/// Serves over files of so many bytes, with a keeper of which so many calls go well.
fn run(rt: &impl Abort, alloc: Global, segment: u32, good: usize) -> Served<Shelf, MemoryMarks> {
    let loaded = ample_start(rt, alloc);
    let monitor = ample_monitor(rt, alloc);
    let keeper = keeper(rt, alloc, good);
    let served = serve(alloc, loaded.names(), monitor, segment, keeper);
    drop(loaded);
    served
}

/// What a service leaves.
#[derive(Clone, Copy)]
struct Wanted<'a> {
    outcome: Result<(), ServiceFault>,
    begun: &'a str,
    told: &'a [u8],
    marks: &'a [u8],
    synced: &'a [usize],
}

/// Asserts what a service leaves.
fn assert_served(rt: &impl Abort, served: &Served<Shelf, MemoryMarks>, wanted: &Wanted<'_>) {
    sees_outcome(rt, served.outcome, wanted.outcome);
    sees_bytes(rt, served.outside.begun.as_bytes(), wanted.begun.as_bytes());
    sees_bytes(rt, &served.outside.told, wanted.told);
    sees_bytes(rt, &served.keeper.lines, wanted.marks);
    assert_eq!(rt; served.keeper.synced.as_slice(), wanted.synced);
}

/// Asserts what a service leaves over files of so many bytes, where so many calls of the keeper go well.
fn assert_leaves(rt: &impl Abort, alloc: Global, segment: u32, good: usize, wanted: &Wanted<'_>) {
    let served = run(rt, alloc, segment, good);
    assert_served(rt, &served, wanted);
    drop(served);
}

#[test]
fn a_file_is_closed_behind_a_mark_that_is_synced(rt: HostRuntime) {
    let wanted = Wanted {
        outcome: Ok(()),
        begun: "2:42 ",
        told: b"ready 0\nyes\nyes\nyes\nyes\n",
        marks: MARKS,
        synced: &[FIRST_MARK],
    };
    assert_leaves(&rt, rt.alloc(), 2_300, 100, &wanted);
}

#[test]
fn a_file_is_not_closed_where_its_marks_are_not_synced(rt: HostRuntime) {
    let wanted = Wanted {
        outcome: Err(ServiceFault::Attend(AttendFault::File)),
        begun: "",
        told: b"ready 0\nyes\nyes\n",
        marks: &MARKS[..FIRST_MARK],
        synced: &[],
    };
    assert_leaves(&rt, rt.alloc(), 2_300, 1, &wanted);
}

#[test]
fn the_marks_of_a_live_file_agree_with_it_from_its_first_on(rt: HostRuntime) {
    let (first, behind) = MARKS.split_at(FIRST_MARK);
    let Some(digest) = Digest::read(&first[30..94]) else {
        panic!(rt; "a digest");
    };
    let live = b"2 0 0 release read 1 yes\n3 0 0 get-read 1 yes\n";
    let mut verifier = Verifier::within(live, Scope::EntriesAndTimes, digest, 2, None);
    sees(&rt, verifier.take(behind).is_ok(), "marks that agree");
    sees(&rt, verifier.end().is_ok(), "a whole line");
    let chain = verifier.verified().chain;
    sees(&rt, chain.entries == 4, "how many entries");
    sees(&rt, chain.len == live.len(), "how many bytes");
}
