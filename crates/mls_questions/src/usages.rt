//! The command that tells how permissions were used.
use crate::named::Named;
use crate::past::{TextPast, past_refused, replayed_text};
use crate::renaming::usage_after;
use crate::row_answers::{form_of, rows_ended};
use crate::snapshots::{ended_start, unmapped};
use crate::sources::{Bytes, read_source};
use crate::spans::states_of;
use mls_answers::{tightened, usage as answer_usage, usage_of as answer_usage_of};
use mls_command_line::{Source, UsageWords};
use mls_files::Hint;
use mls_spans::{Filter, States, Words};
use mls_terminal::Progress;
use std::process::ExitCode;

/// Which permissions are asked for, of these states.
pub(crate) fn chosen<'a>(words: &UsageWords<'a>, states: States) -> Words<'a> {
    Filter {
        subject: words.subject,
        object: words.object,
        mode: None,
        states,
    }
}

/// Whether all permissions are asked for.
pub(crate) fn are_all(words: &UsageWords<'_>) -> bool {
    !words.never && words.subject.is_none() && words.object.is_none()
}

/// The words that fault lines name.
pub(crate) fn named<'a>(words: &UsageWords<'a>) -> Named<'a> {
    Named {
        start: words.start,
        journal: words.journal,
        subject: words.subject.unwrap_or(""),
        object: words.object.unwrap_or(""),
        line: "",
        hint: Hint::None,
    }
}

/// Prints how the permissions were used over a journal that was replayed, of these states.
fn usage_over(
    progress: &mut Progress<'_>,
    words: &UsageWords<'_>,
    past: &TextPast,
    states: States,
) -> ExitCode {
    let alloc = progress.rt().alloc();
    let form = form_of(progress);
    let (history, marks) = (&past.history, past.marks.as_ref());
    let done = if are_all(words) {
        answer_usage(alloc, form, history, marks, states.last)
    } else {
        let filter = chosen(words, states);
        answer_usage_of(
            alloc,
            form,
            history,
            marks,
            states.last,
            &filter,
            words.never,
        )
    };
    rows_ended(progress, &named(words), history.start_file(), done)
}

/// Prints the start of a journal that was replayed without the permissions that were never granted in these states.
fn tighten_over(
    progress: &mut Progress<'_>,
    words: &UsageWords<'_>,
    past: &TextPast,
    states: States,
) -> ExitCode {
    let alloc = progress.rt().alloc();
    let filter = chosen(words, states);
    let done = tightened(alloc, &past.history, states.last, &filter);
    let start = past.history.start_file();
    ended_start(progress, &named(words), start, None, unmapped(done))
}

/// Prints how the permissions over a journal were used, or its start without those that were never granted, over the
/// bytes of its files.
fn usage_bytes(progress: &mut Progress<'_>, words: &UsageWords<'_>, bytes: Bytes) -> ExitCode {
    let states = states_of(words.states, &words.times, &bytes);
    if let Some(map) = words.after {
        return usage_after(progress, words, map, bytes, states);
    }
    progress.begin("listing");
    match replayed_text(progress.rt().alloc(), bytes, Some(states.first)) {
        Ok(past) => {
            let status = if words.tighten {
                tighten_over(progress, words, &past, states)
            } else {
                usage_over(progress, words, &past, states)
            };
            drop(past);
            status
        }
        Err(fault) => past_refused(progress, &named(words), fault),
    }
}

/// Prints how the permissions over a journal were used, or its start without those that were never granted.
pub(crate) fn usage(
    progress: &mut Progress<'_>,
    source: &Source<'_>,
    words: &UsageWords<'_>,
) -> ExitCode {
    match read_source(progress, source) {
        Ok(bytes) => usage_bytes(progress, words, bytes),
        Err(status) => status,
    }
}
