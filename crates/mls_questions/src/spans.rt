//! The commands that look at all states of a journal.
use crate::listing::earlier;
use crate::named::Named;
use crate::past::{Past, TextPast, past_refused, replayed, replayed_text};
use crate::renaming::held_after;
use crate::row_answers::{form_of, rows_ended};
use crate::sources::{Bytes, read_source};
use mls_answers::{held as answer_held, who_ever as answer_who_ever};
use mls_command_line::{EverWords, HeldWords, Source, Times};
use mls_files::Hint;
use mls_marks::{Marks, Time};
use mls_spans::{Filter, States, Words};
use mls_terminal::Progress;
use std::process::ExitCode;

/// The number of the first state at a time or behind it: the one before the first entry of the first batch whose time
/// is that or later, or, where there is none, the one behind the last batch. It is that of the first entry, too.
pub(crate) fn state_since(marks: &Marks, time: &Time) -> u64 {
    match (marks.since(time), marks.rows().last()) {
        (Some(first), _) => first,
        (None, Some(row)) => row.last.saturating_add(1),
        (None, None) => 0,
    }
}

/// The number of the last state by a time: the one behind the last batch whose time is that or earlier, or, where there
/// is none, the first.
fn state_until(marks: &Marks, time: &Time) -> u64 {
    match marks.until(time) {
        Some(last) => last.saturating_add(1),
        None => 0,
    }
}

/// The states that are asked about, by number and by time. The only one by a time was found as the files were read.
pub(crate) fn states_of(states: States, times: &Times, bytes: &Bytes) -> States {
    if let Some(at) = bytes.at {
        return States::at(at);
    }
    let States { first, last } = states;
    let Some(marks) = &bytes.marks else {
        return States { first, last };
    };
    let since = match &times.since {
        Some(time) => state_since(marks, time),
        None => 0,
    };
    let until = match &times.until {
        Some(time) => Some(state_until(marks, time)),
        None => None,
    };
    States {
        first: first.max(since),
        last: earlier(last, until),
    }
}

/// Which spans are asked for, by number and by time.
fn timed_filter<'a>(words: &HeldWords<'a>, bytes: &Bytes) -> Words<'a> {
    Filter {
        subject: words.filter.subject,
        object: words.filter.object,
        mode: words.filter.mode,
        states: states_of(words.filter.states, &words.times, bytes),
    }
}

/// Prints who held what over a journal that was replayed.
fn held_over<'a>(
    progress: &mut Progress<'_>,
    named: &Named<'a>,
    past: &TextPast,
    filter: &Words<'a>,
) -> ExitCode {
    let alloc = progress.rt().alloc();
    let form = form_of(progress);
    let done = answer_held(alloc, form, &past.history, past.marks.as_ref(), filter);
    rows_ended(progress, named, past.history.start_file(), done)
}

/// Prints who held what over a journal, over the bytes of its files.
fn held_bytes(progress: &mut Progress<'_>, words: &HeldWords<'_>, bytes: Bytes) -> ExitCode {
    let filter = timed_filter(words, &bytes);
    if let Some(map) = words.after {
        return held_after(progress, words, map, bytes, &filter);
    }
    let named = Named {
        start: words.start,
        journal: words.journal,
        subject: filter.subject.unwrap_or(""),
        object: filter.object.unwrap_or(""),
        line: "",
        hint: Hint::None,
    };
    progress.begin("listing");
    match replayed_text(progress.rt().alloc(), bytes, None) {
        Ok(past) => {
            let status = held_over(progress, &named, &past, &filter);
            drop(past);
            status
        }
        Err(fault) => past_refused(progress, &named, fault),
    }
}

/// Prints who could ever get an object over a journal that was replayed.
fn who_ever_over<'a>(
    progress: &mut Progress<'_>,
    named: &Named<'a>,
    words: &EverWords<'a>,
    past: &Past,
    last: Option<u64>,
) -> ExitCode {
    let done = answer_who_ever(
        progress.rt().alloc(),
        form_of(progress),
        &past.history,
        past.marks.as_ref(),
        last,
        words.object,
        words.mode,
    );
    rows_ended(progress, named, past.history.start_file(), done)
}

/// Prints who could ever get an object over a journal, over the bytes of its files.
fn who_ever_bytes(progress: &mut Progress<'_>, words: &EverWords<'_>, bytes: Bytes) -> ExitCode {
    let states = states_of(words.states, &words.times, &bytes);
    let named = Named {
        start: words.start,
        journal: words.journal,
        subject: "",
        object: words.object,
        line: "",
        hint: Hint::None,
    };
    progress.begin("looking");
    match replayed(progress.rt().alloc(), bytes, Some(states.first)) {
        Ok(past) => {
            let status = who_ever_over(progress, &named, words, &past, states.last);
            drop(past);
            status
        }
        Err(fault) => past_refused(progress, &named, fault),
    }
}

/// Prints who held what over a journal.
pub(crate) fn held(
    progress: &mut Progress<'_>,
    source: &Source<'_>,
    words: &HeldWords<'_>,
) -> ExitCode {
    match read_source(progress, source) {
        Ok(bytes) => held_bytes(progress, words, bytes),
        Err(status) => status,
    }
}

/// Prints who could ever get an object over a journal.
pub(crate) fn who_ever(
    progress: &mut Progress<'_>,
    source: &Source<'_>,
    words: &EverWords<'_>,
) -> ExitCode {
    match read_source(progress, source) {
        Ok(bytes) => who_ever_bytes(progress, words, bytes),
        Err(status) => status,
    }
}
