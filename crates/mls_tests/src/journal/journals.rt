//! The bytes of a journal, read entry by entry. Which lines and journals are refused is in .ci/check-rows.
use super::rows::entry;
use crate::seen::sees;
use mls_journal::{EntryFault, next_entry, read_entry};
use mls_requests::{Action, Reply};
use mls_tables::ObjectId;
use std::process::Abort;

/// Journals that begin with the entry of the line `3 2 1 delete 4 yes`, and what follows it.
const JOURNALS: [(&[u8], &[u8]); 4] = [
    (b"3 2 1 delete 4 yes\n", b""),
    (b"3 2 1 delete 4 yes\n\n", b"\n"),
    (
        b"3 2 1 delete 4 yes\n3 2 1 delete 4 yes\n",
        b"3 2 1 delete 4 yes\n",
    ),
    (b"3 2 1 delete 4 yes\nwhat\xff", b"what\xff"),
];

/// Asserts that a journal begins with that entry, and goes on with these bytes.
fn begins(rt: &impl Abort, journal: &[u8], rest: &[u8]) {
    let deletion = entry(3, 2, 1, Action::Delete(ObjectId(4)), Reply::Yes);
    match next_entry(journal) {
        Ok(Some((entry, after))) => sees(rt, entry == deletion && after == rest, "an entry"),
        _ => sees(rt, false, "an entry"),
    }
}

#[test]
fn entries_are_read_in_turn(rt: HostRuntime) {
    for (journal, rest) in &JOURNALS {
        begins(&rt, journal, rest);
    }
    match next_entry(b"") {
        Ok(None) => (),
        _ => sees(&rt, false, "no entry"),
    }
}

/// Lines that are no entries, one for each fault.
const FAULTS: [(&str, EntryFault); 4] = [
    ("0 0 0 fetch 1 yes", EntryFault::BadForm),
    ("0 0 0 get-read 01 yes", EntryFault::BadNumber),
    ("0 0 0 level 16 yes", EntryFault::BadLabel),
    ("0 0 0 get-read 1 maybe", EntryFault::BadReply),
];

/// Whether a line is refused for a fault.
fn is_refused(line: &str, wanted: EntryFault) -> bool {
    match read_entry(line) {
        Ok(_) => false,
        Err(fault) => fault == wanted,
    }
}

#[test]
fn lines_are_refused_for_their_faults(rt: HostRuntime) {
    for (line, wanted) in &FAULTS {
        sees(&rt, is_refused(line, *wanted), line);
    }
}
