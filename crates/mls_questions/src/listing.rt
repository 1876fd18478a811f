//! The command that lists what a journal has.
use crate::answering::{other_refused, question_refused, status_of};
use crate::named::Named;
use crate::past::{Past, past_refused, replayed};
use crate::renaming::journal_after;
use crate::row_answers::listed;
use crate::sources::{Bytes, read_source};
use crate::spans::state_since;
use mls_answers::{journal as list_journal, journal_explained as write_explained, journal_trusted};
use mls_command_line::{JournalWords, Source};
use mls_explain_text::{Sort, WriteFault};
use mls_files::Hint;
use mls_listings::{Filter, ListFault, Words};
use mls_marks::Marks;
use mls_terminal::{AnswerOutput, Progress};
use std::io::Write;
use std::process::ExitCode;

/// Tells why the entries of a journal aren't listed, by the bytes of the start file.
fn list_refused(
    rt: &HostRuntime,
    words: &JournalWords<'_>,
    start: &[u8],
    fault: ListFault,
) -> ExitCode {
    let filter = &words.filter;
    match fault {
        ListFault::Question(fault) => {
            let named = Named {
                start: words.start,
                journal: words.journal,
                subject: filter.subject.unwrap_or(""),
                object: filter.object.unwrap_or(""),
                line: "",
                hint: Hint::None,
            };
            question_refused(rt, &named, start, fault)
        }
        ListFault::By => other_refused(rt, start, Sort::Subject, filter.by.unwrap_or("")),
    }
}

/// The greater of two numbers of first entries, where they are asked for.
pub(crate) fn later(from: Option<u64>, since: Option<u64>) -> Option<u64> {
    match (from, since) {
        (Some(from), Some(since)) => Some(from.max(since)),
        (from, since) => from.or(since),
    }
}

/// The lesser of two numbers of last entries, where they are asked for.
pub(crate) fn earlier(to: Option<u64>, until: Option<u64>) -> Option<u64> {
    match (to, until) {
        (Some(to), Some(until)) => Some(to.min(until)),
        (to, until) => to.or(until),
    }
}

/// The numbers of the first and of the last entry that are asked for, by number and by time. Where no mark has the last
/// time or an earlier one the first is the greatest number, which no entry has.
fn range(words: &JournalWords<'_>, marks: Option<&Marks>) -> (Option<u64>, Option<u64>) {
    let mut from = words.filter.from;
    let mut to = words.filter.to;
    let Some(marks) = marks else {
        return (from, to);
    };
    if let Some(time) = &words.since {
        from = later(from, Some(state_since(marks, time)));
    }
    if let Some(time) = &words.until {
        match marks.until(time) {
            Some(last) => to = earlier(to, Some(last)),
            None => from = Some(u64::MAX),
        }
    }
    (from, to)
}

/// Which entries are asked for, those between two times among them.
fn marked_filter<'a>(words: &JournalWords<'a>, marks: Option<&Marks>) -> Words<'a> {
    let (from, to) = range(words, marks);
    Filter {
        subject: words.filter.subject,
        by: words.filter.by,
        object: words.filter.object,
        session: words.filter.session,
        reply: words.filter.reply,
        from,
        to,
    }
}

/// Prints the entries of a journal that was replayed that a filter asks for, each with why it has its reply, as they
/// are explained.
fn journal_explained(
    progress: &mut Progress<'_>,
    words: &JournalWords<'_>,
    past: &Past,
    filter: &Words<'_>,
) -> ExitCode {
    progress.end();
    let rt = progress.rt();
    let history = &past.history;
    let mut output = AnswerOutput::new(rt);
    match write_explained(
        rt.alloc(),
        &mut output,
        history,
        past.marks.as_ref(),
        filter,
    ) {
        Ok(is_any) if output.flush().is_ok() => status_of(is_any),
        Ok(_) | Err(WriteFault::Write) => output.refused(rt),
        Err(WriteFault::List(fault)) => list_refused(rt, words, history.start_file(), fault),
    }
}

/// Prints the entries of a journal that was replayed that a filter asks for, once all are listed.
fn journal_listed(
    progress: &mut Progress<'_>,
    words: &JournalWords<'_>,
    past: &Past,
    filter: &Words<'_>,
) -> ExitCode {
    let rt = progress.rt();
    let history = &past.history;
    let marks = past.marks.as_ref();
    let done = if words.is_trusted {
        journal_trusted(rt.alloc(), history, marks, filter, words.form)
    } else {
        list_journal(rt.alloc(), history, marks, filter, words.form)
    };
    progress.end();
    match done {
        Ok(listing) => listed(progress, listing),
        Err(fault) => list_refused(rt, words, history.start_file(), fault),
    }
}

/// Prints the entries of a journal that are asked for, over the bytes of its files.
fn journal_bytes(progress: &mut Progress<'_>, words: &JournalWords<'_>, bytes: Bytes) -> ExitCode {
    let filter = marked_filter(words, bytes.marks.as_ref());
    if let Some(map) = words.after {
        return journal_after(progress, words, map, bytes, &filter);
    }
    if !words.is_explained {
        progress.begin("listing");
    }
    match replayed(progress.rt().alloc(), bytes, None) {
        Ok(past) => {
            let status = if words.is_explained {
                journal_explained(progress, words, &past, &filter)
            } else {
                journal_listed(progress, words, &past, &filter)
            };
            drop(past);
            status
        }
        Err(fault) => past_refused(progress, &Named::files(words.start, words.journal), fault),
    }
}

/// Prints the entries of a journal that are asked for.
pub(crate) fn journal(
    progress: &mut Progress<'_>,
    source: &Source<'_>,
    words: &JournalWords<'_>,
) -> ExitCode {
    match read_source(progress, source) {
        Ok(bytes) => journal_bytes(progress, words, bytes),
        Err(status) => status,
    }
}
