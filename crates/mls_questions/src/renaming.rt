//! Questions about a journal whose start was made of a state, with its objects by the names that they had before.
use crate::answering::{bare_refused, question_refused};
use crate::named::Named;
use crate::past::{Past, TextPast, past_refused, replayed, replayed_text};
use crate::row_answers::{form_of, listed};
use crate::sources::Bytes;
use crate::usages::{are_all, chosen, named as usage_words};
use mls_command_line::{HeldWords, JournalWords, UsageWords};
use mls_compare::{MapFault, names_after};
use mls_explain_text::explain_chosen;
use mls_files::{Hint, judge_start, start_file};
use mls_lines::Names;
use mls_listings::{Choice, Filter, ListFault, Words, choose, list_chosen, trusted_entries};
use mls_marks::Marks;
use mls_replay::{QuestionFault, Replay};
use mls_rows::{Form, Listing};
use mls_spans::{
    Filter as SpanFilter, States, Words as SpanWords, choose as choose_spans, list_spans,
    list_usage, list_usage_of,
};
use mls_terminal::{NO_MEMORY, Progress, file_refused, refused};
use mls_wording::{Answer, push_number};
use std::alloc::{AllocError, Global};
use std::process::ExitCode;

/// A start's file, by the word that names it, and its bytes.
#[derive(Clone, Copy)]
struct StartFile<'a> {
    name: &'a str,
    bytes: &'a [u8],
}

/// The names of a start by the bytes of a map.
fn names_by(
    progress: &mut Progress<'_>,
    start: StartFile<'_>,
    path: &str,
    map: &[u8],
) -> Result<Names, ExitCode> {
    let (names, opened) = judge_start(progress, start.name, start.bytes)?.into_parts();
    drop(opened);
    let renamed = names_after(progress.rt().alloc(), &names, map);
    drop(names);
    match renamed {
        Ok(names) => Ok(names),
        Err(MapFault::Map) => {
            let _ = eprintln!(progress.rt(); "mls: {path}: map");
            Err(ExitCode::from(1))
        }
        Err(MapFault::Memory) => Err(refused(progress.rt(), NO_MEMORY, 1)),
    }
}

/// The names of a start by the map of this file.
fn read_names(
    progress: &mut Progress<'_>,
    start: StartFile<'_>,
    path: &str,
) -> Result<Names, ExitCode> {
    let map = match start_file(path).read(progress) {
        Ok(map) => map,
        Err(fault) => return Err(file_refused(progress, path, fault)),
    };
    let names = names_by(progress, start, path, &map);
    drop(map);
    names
}

/// The names of a start that was read by the map of this file.
fn names_of(
    progress: &mut Progress<'_>,
    name: &str,
    bytes: &Bytes,
    path: &str,
) -> Result<Names, ExitCode> {
    let bytes = bytes.start.as_slice();
    read_names(progress, StartFile { name, bytes }, path)
}

/// A word that names, by number, the object that another word names by these names; where that names none, one that
/// names none either.
fn number_word(alloc: Global, names: &Names, word: &str) -> Result<String, AllocError> {
    let mut numbered = String::new(alloc);
    if let Some(o) = names.object(word) {
        numbered.push_str("#")?;
        push_number(&mut numbered, u64::from(o.number()))?;
    }
    Ok(numbered)
}

/// The same where there is a word.
fn any_number_word(
    alloc: Global,
    names: &Names,
    word: Option<&str>,
) -> Result<Option<String>, AllocError> {
    match word {
        Some(word) => Ok(Some(number_word(alloc, names, word)?)),
        None => Ok(None),
    }
}

/// What a journal has of the entries that are chosen.
fn list_entries(
    alloc: Global,
    names: &Names,
    replay: &Replay,
    marks: Option<&Marks>,
    words: &JournalWords<'_>,
    choice: &Choice,
) -> Result<Listing, ListFault> {
    let start = replay.start();
    let entries = replay.entries();
    if words.is_trusted {
        let found = trusted_entries(alloc, start, entries)?;
        let listing = list_chosen(alloc, names, &found, marks, choice, words.form);
        drop(found);
        listing
    } else if words.is_explained {
        let Answer { text, is_positive } = explain_chosen(
            alloc, names, start, entries, marks, choice,
        )?;
        Ok(Listing {
            bytes: text.into_bytes(),
            is_positive,
        })
    } else {
        list_chosen(alloc, names, entries, marks, choice, words.form)
    }
}

/// What a journal that was replayed has of the entries that a filter asks for, by these names of objects.
fn list_replayed(
    alloc: Global,
    names: &Names,
    replay: &Replay,
    marks: Option<&Marks>,
    words: &JournalWords<'_>,
    filter: &Words<'_>,
) -> Result<Listing, ListFault> {
    let object = any_number_word(alloc, names, filter.object)?;
    let by_number = Filter {
        subject: filter.subject,
        by: filter.by,
        object: object.as_deref(),
        session: filter.session,
        reply: filter.reply,
        from: filter.from,
        to: filter.to,
    };
    let choice = choose(names, &by_number)?;
    list_entries(alloc, names, replay, marks, words, &choice)
}

/// Tells why there is no answer.
fn refused_by(
    progress: &mut Progress<'_>,
    named: &Named<'_>,
    start: &[u8],
    fault: QuestionFault,
) -> ExitCode {
    progress.end();
    match fault {
        QuestionFault::Object => bare_refused(progress.rt(), named.object),
        fault => question_refused(progress.rt(), named, start, fault),
    }
}

/// Ends a command whose answer is of rows: prints the answer, or tells why there is none.
fn ended_by(
    progress: &mut Progress<'_>,
    named: &Named<'_>,
    start: &[u8],
    done: Result<Listing, QuestionFault>,
) -> ExitCode {
    match done {
        Ok(listing) => {
            progress.end();
            listed(progress, listing)
        }
        Err(fault) => refused_by(progress, named, start, fault),
    }
}

/// The words that fault lines name.
fn named<'a>(
    start: &'a str,
    journal: &'a str,
    subject: Option<&'a str>,
    object: Option<&'a str>,
) -> Named<'a> {
    Named {
        start,
        journal,
        subject: subject.unwrap_or(""),
        object: object.unwrap_or(""),
        line: "",
        hint: Hint::None,
    }
}

/// Prints the entries of a journal that was replayed that are asked for, by these names of objects.
fn journal_past<'a>(
    progress: &mut Progress<'_>,
    words: &JournalWords<'a>,
    names: &Names,
    past: &Past,
    filter: &Words<'a>,
) -> ExitCode {
    let alloc = progress.rt().alloc();
    let (replay, marks) = (past.history.replay(), past.marks.as_ref());
    let done = list_replayed(alloc, names, replay, marks, words, filter);
    let start = past.history.start_file();
    match done {
        Ok(listing) => {
            progress.end();
            listed(progress, listing)
        }
        Err(ListFault::Question(fault)) => {
            let about = named(words.start, words.journal, filter.subject, filter.object);
            refused_by(progress, &about, start, fault)
        }
        Err(ListFault::By) => {
            let about = named(words.start, words.journal, filter.by, filter.object);
            refused_by(progress, &about, start, QuestionFault::Subject)
        }
    }
}

/// Prints the entries of a journal that are asked for, by these names of objects.
fn journal_by<'a>(
    progress: &mut Progress<'_>,
    words: &JournalWords<'a>,
    names: &Names,
    bytes: Bytes,
    filter: &Words<'a>,
) -> ExitCode {
    progress.begin("listing");
    match replayed(progress.rt().alloc(), bytes, None) {
        Ok(past) => {
            let status = journal_past(progress, words, names, &past, filter);
            drop(past);
            status
        }
        Err(fault) => past_refused(progress, &Named::files(words.start, words.journal), fault),
    }
}

/// Prints the entries of a journal that are asked for, with objects by the names of a map.
pub(crate) fn journal_after<'a>(
    progress: &mut Progress<'_>,
    words: &JournalWords<'a>,
    map: &str,
    bytes: Bytes,
    filter: &Words<'a>,
) -> ExitCode {
    match names_of(progress, words.start, &bytes, map) {
        Ok(names) => {
            let status = journal_by(progress, words, &names, bytes, filter);
            drop(names);
            status
        }
        Err(status) => {
            drop(bytes);
            status
        }
    }
}

/// Who held what over a journal that was replayed, by these names of objects.
fn held_by(
    alloc: Global,
    form: Form,
    names: &Names,
    past: &TextPast,
    words: &SpanWords<'_>,
) -> Result<Listing, QuestionFault> {
    let replay = past.history.replay();
    words.states.begin_in(replay)?;
    let object = any_number_word(alloc, names, words.object)?;
    let by_number = SpanFilter {
        subject: words.subject,
        object: object.as_deref(),
        mode: words.mode,
        states: words.states,
    };
    let choice = choose_spans(names, &by_number)?;
    list_spans(alloc, form, names, replay, past.marks.as_ref(), &choice)
}

/// Prints who held what over a journal, by these names of objects.
fn held_named<'a>(
    progress: &mut Progress<'_>,
    about: &Named<'a>,
    names: &Names,
    bytes: Bytes,
    filter: &SpanWords<'a>,
) -> ExitCode {
    progress.begin("listing");
    let form = form_of(progress);
    let alloc = progress.rt().alloc();
    match replayed_text(alloc, bytes, None) {
        Ok(past) => {
            let done = held_by(alloc, form, names, &past, filter);
            let status = ended_by(progress, about, past.history.start_file(), done);
            drop(past);
            status
        }
        Err(fault) => past_refused(progress, about, fault),
    }
}

/// Prints who held what over a journal, with objects by the names of a map.
pub(crate) fn held_after<'a>(
    progress: &mut Progress<'_>,
    words: &HeldWords<'a>,
    map: &str,
    bytes: Bytes,
    filter: &SpanWords<'a>,
) -> ExitCode {
    let about = named(words.start, words.journal, filter.subject, filter.object);
    match names_of(progress, words.start, &bytes, map) {
        Ok(names) => {
            let status = held_named(progress, &about, &names, bytes, filter);
            drop(names);
            status
        }
        Err(status) => {
            drop(bytes);
            status
        }
    }
}

/// How the permissions over some states of a journal were used, of those that are asked for, by these names of objects.
fn usage_chosen(
    alloc: Global,
    form: Form,
    names: &Names,
    past: &TextPast,
    words: &SpanWords<'_>,
    never: bool,
) -> Result<Listing, QuestionFault> {
    let (replay, marks) = (past.history.replay(), past.marks.as_ref());
    let object = any_number_word(alloc, names, words.object)?;
    let by_number = SpanFilter {
        subject: words.subject,
        object: object.as_deref(),
        mode: words.mode,
        states: words.states,
    };
    let choice = choose_spans(names, &by_number)?;
    Ok(list_usage_of(
        alloc,
        form,
        names,
        replay,
        marks,
        &choice,
        words.states,
        never,
    )?)
}

/// How the permissions over some states of a journal were used, as they are asked for, by these names of objects.
fn usage_by(
    alloc: Global,
    form: Form,
    names: &Names,
    past: &TextPast,
    words: &UsageWords<'_>,
    states: States,
) -> Result<Listing, QuestionFault> {
    if are_all(words) {
        let (replay, marks) = (past.history.replay(), past.marks.as_ref());
        return Ok(list_usage(alloc, form, names, replay, marks, states)?);
    }
    usage_chosen(
        alloc,
        form,
        names,
        past,
        &chosen(words, states),
        words.never,
    )
}

/// Prints how the permissions over some states of a journal were used, by these names of objects.
fn usage_named(
    progress: &mut Progress<'_>,
    words: &UsageWords<'_>,
    names: &Names,
    bytes: Bytes,
    states: States,
) -> ExitCode {
    progress.begin("listing");
    let about = usage_words(words);
    let form = form_of(progress);
    let alloc = progress.rt().alloc();
    match replayed_text(alloc, bytes, Some(states.first)) {
        Ok(past) => {
            let done = usage_by(alloc, form, names, &past, words, states);
            let status = ended_by(progress, &about, past.history.start_file(), done);
            drop(past);
            status
        }
        Err(fault) => past_refused(progress, &about, fault),
    }
}

/// Prints how the permissions over some states of a journal were used, with objects by the names of a map.
pub(crate) fn usage_after(
    progress: &mut Progress<'_>,
    words: &UsageWords<'_>,
    map: &str,
    bytes: Bytes,
    states: States,
) -> ExitCode {
    match names_of(progress, words.start, &bytes, map) {
        Ok(names) => {
            let status = usage_named(progress, words, &names, bytes, states);
            drop(names);
            status
        }
        Err(status) => {
            drop(bytes);
            status
        }
    }
}
