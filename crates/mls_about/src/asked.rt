//! How many entries a subject asked.
ghost use Rattle.std.specs.Prelude.{◌≡◌, ◌++◌, length, filter, None, IfOk};
ghost use Rattle.mls_rows.specs.Rows.{bytes_of, form_of};
ghost use Rattle.mls_rows.specs.Times.{rows_lent};
ghost use Rattle.mls_about.specs.Counting.{is_asked as is_asked_by, is_denial, is_denied as is_denied_to, last_of};
ghost use Rattle.mls_about.specs.Counting.{asked_bytes};

use crate::asked_row::AskedRow;
use mls_lines::Names;
use mls_marks::Marks;
use mls_requests::{Entry, Reply};
use mls_rows::Output;
use mls_shared_rows::with_kind;
use mls_tables::SubjectId;
use std::alloc::AllocError;

/// Whether a subject asked an entry.
fn is_asked(s: SubjectId, entry: &Entry) -> bool
    ensures { result ≡ is_asked_by s entry.now }
{
    entry.request.subject.number() == s.number()
}

/// Whether a reply is a denial.
fn is_denial(reply: &Reply) -> bool
    ensures { result ≡ is_denial reply.now }
{
    match reply {
        Reply::No(_) => true,
        Reply::Yes | Reply::Created(_) | Reply::Undefined => false,
    }
}

/// Whether a subject asked an entry, and was denied it.
fn is_denied(s: SubjectId, entry: &Entry) -> bool
    ensures { result ≡ is_denied_to s entry.now }
{
    is_asked(s, entry) && is_denial(&entry.reply)
}

/// How many entries a subject asked.
fn count_asked(s: SubjectId, entries: &[Entry]) -> u64
    ensures { result ≡ length (filter (is_asked_by s) entries.now) }
{
    let mut count = 0;
    for entry in entries {
        if is_asked(s, entry) {
            count += 1;
        }
    }
    count
}

/// How many entries a subject asked, and was denied.
fn count_denied(s: SubjectId, entries: &[Entry]) -> u64
    ensures { result ≡ length (filter (is_denied_to s) entries.now) }
{
    let mut count = 0;
    for entry in entries {
        if is_denied(s, entry) {
            count += 1;
        }
    }
    count
}

/// The number of the last entry that a subject asked, where there is one.
fn last_asked(s: SubjectId, entries: &[Entry]) -> Option<u64>
    ensures { result ≡ last_of s None entries.now }
{
    let mut last = None;
    for entry in entries {
        if is_asked(s, entry) {
            last = Some(entry.number);
        }
    }
    last
}

/// Adds the row of what a subject asked: how many entries, how many of them denied, and the last.
pub(crate) fn with_asked(
    output: Output,
    names: &Names,
    marks: Option<&Marks>,
    s: SubjectId,
    entries: &[Entry],
) -> Result<Output, AllocError>
    ensures form { IfOk result (λ new. form_of new ≡ form_of output) }
    ensures bytes { IfOk result (λ new. bytes_of new
        ≡ bytes_of output ++ asked_bytes (form_of output) (rows_lent marks.entry) s entries.now) }
{
    let row = AskedRow {
        asked: count_asked(s, entries),
        denied: count_denied(s, entries),
        last: last_asked(s, entries),
    };
    with_kind(output, names, marks, "asked", &row)
}
