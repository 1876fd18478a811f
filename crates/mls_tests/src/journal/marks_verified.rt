//! Marks verified in pieces, and asked for. The digests are those of Python's hashlib.
use crate::seen::sees;
use mls_marks::{Digest, Head, MarkFault, Marks, Scope, Time, Verifier};
use std::process::Abort;

/// The lines of three entries.
const JOURNAL: &[u8] = b"0 0 0 get-read 1 yes\n1 0 0 get-read 2 no state\n2 0 1 delete 3 yes\n";

/// The mark of the first entry, but for its digest.
const FIRST: &[u8] = b"0 2026-11-27T11:12:26.736512Z ";

/// The digest of 32 zero bytes and the first line.
const FIRST_DIGEST: &[u8] = b"899c2cfb011b90cd5b0eec4174e340189117785e03f8995f0cbe33892662f344";

/// The mark of the other two, but for its digest. The clock went back.
const SECOND: &[u8] = b"2 2026-11-27T11:12:25.000000Z ";

/// The digest of the first digest and the other two lines.
const SECOND_DIGEST: &[u8] = b"cbeccef4fed3557555cab3624bacf0de321dfee0519791878520e9c8685be054";

/// The bytes of marks, in pieces; why they aren't those of the journal, where they aren't; and how many agree.
#[derive(Clone, Copy)]
struct Row {
    pieces: &'static [&'static [u8]],
    fault: Option<MarkFault>,
    marks: u64,
}

const ROWS: [Row; 12] = [
    Row {
        pieces: &[FIRST, FIRST_DIGEST, b"\n", SECOND, SECOND_DIGEST, b"\n"],
        fault: None,
        marks: 2,
    },
    Row {
        pieces: &[],
        fault: None,
        marks: 0,
    },
    // no newline at the end
    Row {
        pieces: &[FIRST, FIRST_DIGEST, b"\n", SECOND, SECOND_DIGEST],
        fault: Some(MarkFault::Torn),
        marks: 1,
    },
    // a zero byte in a line that is complete
    Row {
        pieces: &[FIRST, b"\0", FIRST_DIGEST, b"\n"],
        fault: Some(MarkFault::Torn),
        marks: 0,
    },
    // a month that isn't one
    Row {
        pieces: &[b"0 2026-13-27T11:12:26.736512Z ", FIRST_DIGEST, b"\n"],
        fault: Some(MarkFault::Form { line: 1 }),
        marks: 0,
    },
    // a day that isn't one
    Row {
        pieces: &[b"0 2026-02-29T11:12:26.736512Z ", FIRST_DIGEST, b"\n"],
        fault: Some(MarkFault::Form { line: 1 }),
        marks: 0,
    },
    // one that is one in a year with a day more
    Row {
        pieces: &[b"0 2028-02-29T11:12:26.736512Z ", FIRST_DIGEST, b"\n"],
        fault: None,
        marks: 1,
    },
    // a line that is longer than a mark's
    Row {
        pieces: &[
            FIRST,
            FIRST_DIGEST,
            b"\n",
            SECOND,
            SECOND_DIGEST,
            SECOND_DIGEST,
            b"\n",
        ],
        fault: Some(MarkFault::Form { line: 2 }),
        marks: 1,
    },
    // a digit in upper case
    Row {
        pieces: &[
            FIRST,
            b"899C2cfb011b90cd5b0eec4174e340189117785e03f8995f0cbe33892662f344\n",
        ],
        fault: Some(MarkFault::Form { line: 1 }),
        marks: 0,
    },
    // a mark that stands there twice
    Row {
        pieces: &[FIRST, FIRST_DIGEST, b"\n", FIRST, FIRST_DIGEST, b"\n"],
        fault: Some(MarkFault::Differs { entry: 0 }),
        marks: 1,
    },
    // the mark before is left out
    Row {
        pieces: &[SECOND, SECOND_DIGEST, b"\n"],
        fault: Some(MarkFault::Differs { entry: 2 }),
        marks: 0,
    },
    // an entry that isn't there
    Row {
        pieces: &[b"3 2026-11-27T11:12:25.000000Z ", SECOND_DIGEST, b"\n"],
        fault: Some(MarkFault::Differs { entry: 3 }),
        marks: 0,
    },
];

/// Takes a piece a byte at a time.
fn take_bytes(verifier: &mut Verifier<'_>, piece: &[u8]) {
    for i in 0..piece.len() {
        let _ = verifier.take(&piece[i..i + 1]);
    }
}

/// Takes the pieces of a row, whole or a byte at a time.
fn take_row(verifier: &mut Verifier<'_>, row: &Row, whole: bool) {
    for piece in row.pieces {
        if whole {
            let _ = verifier.take(piece);
        } else {
            take_bytes(verifier, piece);
        }
    }
}

/// Asserts what the marks of a row come to.
fn assert_row(rt: &impl Abort, row: &Row, verifier: &Verifier<'_>) {
    assert_eq!(rt; verifier.end().err(), row.fault);
    sees(rt, verifier.verified().marks == row.marks, "how many marks");
}

/// Asserts what the marks of each row come to, whose pieces are taken whole or a byte at a time.
fn assert_rows(rt: &impl Abort, whole: bool) {
    for row in &ROWS {
        let mut verifier = Verifier::new(JOURNAL, Scope::Entries, Digest::zeros(), None);
        take_row(&mut verifier, row, whole);
        assert_row(rt, row, &verifier);
        drop(verifier);
    }
}

#[test]
fn marks_are_verified_in_pieces(rt: HostRuntime) {
    assert_rows(&rt, true);
}

#[test]
fn marks_are_verified_byte_by_byte(rt: HostRuntime) {
    assert_rows(&rt, false);
}

/// The time of the first mark, and that of the second, which is earlier.
const LATE: &[u8] = b"2026-11-27T11:12:26.736512Z";

const EARLY: &[u8] = b"2026-11-27T11:12:25.000000Z";

/// Asserts that a time is that of a text.
fn sees_time(rt: &impl Abort, time: Option<Time>, text: &[u8]) {
    assert_eq!(rt; time, Time::read(text));
}

/// Asserts what marks that agree say.
fn assert_verified(rt: &impl Abort, verifier: &Verifier<'_>) {
    let verified = verifier.verified();
    let digest = Some(verified.chain.digest);
    sees(rt, digest == Digest::read(SECOND_DIGEST), "the digest");
    sees(rt, verified.chain.entries == 3, "how many entries");
    sees(rt, verified.chain.len == JOURNAL.len(), "how many bytes");
    sees_time(rt, verified.first, LATE);
    sees_time(rt, verified.last, EARLY);
    sees(rt, verified.is_found, "the first digest");
    sees(rt, verified.back == 1, "how many are earlier");
    sees(rt, verified.len == 190, "how long the marks are");
}

/// Asserts which entries marks have since a time and until then.
fn assert_around(rt: &impl Abort, marks: &Marks, text: &[u8]) {
    let Some(time) = Time::read(text) else {
        panic!(rt; "a time");
    };
    sees(rt, marks.since(&time) == Some(0), "since a time");
    sees(rt, marks.until(&time) == Some(2), "until a time");
}

/// Asserts what is told of times.
fn assert_times(rt: &impl Abort, marks: &Marks) {
    sees_time(rt, marks.time_of(0), LATE);
    sees_time(rt, marks.time_of(1), EARLY);
    sees_time(rt, marks.time_of(2), EARLY);
    sees(rt, marks.time_of(3).is_none(), "no time");
    assert_around(rt, marks, EARLY);
    assert_around(rt, marks, LATE);
}

/// Takes the pieces of the first row, and keeps their rows.
fn take_first(rt: &impl Abort, verifier: &mut Verifier<'_>, marks: &mut Marks) {
    for piece in ROWS[0].pieces {
        let is_taken = verifier.take_rows(piece, marks).is_ok();
        sees(rt, is_taken, "marks that agree");
    }
}

#[test]
fn marks_say_when_entries_were_made(rt: HostRuntime) {
    let mut verifier = Verifier::new(
        JOURNAL,
        Scope::Entries,
        Digest::zeros(),
        Digest::read(FIRST_DIGEST),
    );
    let mut marks = Marks::new(rt.alloc());
    take_first(&rt, &mut verifier, &mut marks);
    assert_verified(&rt, &verifier);
    assert_times(&rt, &marks);
    drop(marks);
    drop(verifier);
}

/// The head of a start file `start`. The digests below are those of Python's hashlib.
const HEAD: &[u8] = b"marks 2 cced28c6dc3f99c2396a5eaad732bf6b28142335892b1cd0e6af6cdb53f5ccfa\n";

/// The digest of its line.
const HEAD_DIGEST: &[u8] = b"d3063e974ac0ac121cffdceebebc2b91d4d34bea930d9145d6261607a6faa6e7";

/// The same that goes on from an older file, and the digest of its line.
const NEXT_HEAD: &[u8] =
    b"marks 2 cced28c6dc3f99c2396a5eaad732bf6b28142335892b1cd0e6af6cdb53f5ccfa after \
5f0c5f0c5f0c5f0c5f0c5f0c5f0c5f0c5f0c5f0c5f0c5f0c5f0c5f0c5f0c5f0c\n";

const NEXT_DIGEST: &[u8] = b"36658cb61040f593d32b9c37f84974dca5f0c44ee7c05bb0a974714aa58aa2ee";

/// The digests of the marks behind the first head: of the number and the time of each, too.
const FIRST_TIMED: &[u8] = b"97c1b33549c11becf9e34c8f59fdf9684d0fa6e8bc252bf5b086ebd8318b447e";

const SECOND_TIMED: &[u8] = b"734a27c31d4440461f6ef342b98ef4ebaa66ad739f9b2493dbd242c43a734dd8";

/// The head of a text and what stands behind it.
fn cut<'t>(rt: &impl Abort, text: &'t [u8]) -> (Head, &'t [u8]) {
    match Head::cut(text) {
        Some(found) => found,
        None => panic!(rt; "a head"),
    }
}

/// Asserts what a head says whose chain begins from the digest of this text.
fn assert_head(rt: &impl Abort, line: &[u8], digest: &[u8], has_older: bool) {
    let (head, rest) = cut(rt, line);
    sees(rt, rest.is_empty(), "nothing behind it");
    sees(rt, head.start == Digest::of(b"start"), "whose start it is");
    sees(rt, head.after.is_some() == has_older, "whether it goes on");
    sees(
        rt,
        Some(head.digest()) == Digest::read(digest),
        "its digest",
    );
}

/// Asserts that bytes don't begin with a head.
fn assert_none(rt: &impl Abort, bytes: &[u8]) {
    sees(rt, Head::cut(bytes).is_none(), "no head");
}

#[test]
fn heads_are_read(rt: HostRuntime) {
    assert_head(&rt, HEAD, HEAD_DIGEST, false);
    assert_head(&rt, NEXT_HEAD, NEXT_DIGEST, true);
    assert_none(&rt, &HEAD[..HEAD.len() - 1]);
    assert_none(&rt, &HEAD[1..]);
    assert_none(&rt, &NEXT_HEAD[..100]);
    assert_none(&rt, FIRST);
    assert_none(&rt, b"");
}

const TIMED_ROWS: [Row; 3] = [
    Row {
        pieces: &[FIRST, FIRST_TIMED, b"\n", SECOND, SECOND_TIMED, b"\n"],
        fault: None,
        marks: 2,
    },
    // the time of another moment
    Row {
        pieces: &[b"0 2026-11-27T11:12:26.736513Z ", FIRST_TIMED, b"\n"],
        fault: Some(MarkFault::Differs { entry: 0 }),
        marks: 0,
    },
    // a digest of the entries alone
    Row {
        pieces: &[FIRST, FIRST_DIGEST, b"\n"],
        fault: Some(MarkFault::Differs { entry: 0 }),
        marks: 0,
    },
];

#[test]
fn marks_behind_a_head_are_of_their_times(rt: HostRuntime) {
    let (head, _) = cut(&rt, HEAD);
    for row in &TIMED_ROWS {
        let mut verifier = Verifier::new(JOURNAL, Scope::EntriesAndTimes, head.digest(), None);
        take_row(&mut verifier, row, true);
        assert_row(&rt, row, &verifier);
        drop(verifier);
    }
}
