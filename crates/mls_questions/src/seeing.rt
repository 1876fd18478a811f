//! Questions about one state over their files: a journal in segments is read from the last state on that was kept
//! before, any other whole.
use crate::acting::unknown_word;
use crate::answering::question_refused;
use crate::foreseeing::{ended_could, ended_flow};
use crate::named::{Named, hint_of};
use crate::one_state::{OfState, answer_seen};
use crate::row_answers::{form_of, rows_ended};
use crate::snapshots::{ended_start, start_of};
use crate::sources::{Bytes, read_source, start_unread};
use mls_command_line::{FlowWords, Source};
use mls_files::{
    Goal, Hint, Sought, Wanted, open_start, seek, segments_of, start_file, start_hint,
};
use mls_replay::{QuestionFault, named_object};
use mls_seen::Seen;
use mls_terminal::Progress;
use std::process::ExitCode;

/// The words that fault lines name.
fn named<'a>(source: &Source<'a>, asked: OfState<'a>) -> Named<'a> {
    let mut named = Named::files(source.start, source.journal.unwrap_or(""));
    match asked {
        OfState::Line(line) | OfState::Why(line) => named.line = line,
        OfState::Who { object, .. } => named.object = object,
        OfState::WhoCould { object, .. } => named.object = object,
        OfState::Could { line, .. } => named.line = line,
        OfState::Flow(words) => named.object = words.from,
        OfState::Powers { subject, .. } => named.subject = subject.unwrap_or(""),
        OfState::Next | OfState::Lint | OfState::Lattice => {}
        OfState::List | OfState::StartFile { .. } => {}
    }
    named
}

/// What is seen, or the status where nothing is: it is told why.
fn told<'a>(
    progress: &mut Progress<'_>,
    source: &Source<'a>,
    asked: OfState<'a>,
    hint: Hint,
    done: Result<Seen, QuestionFault>,
) -> Result<Seen, ExitCode> {
    match done {
        Ok(seen) => Ok(seen),
        Err(fault) => {
            progress.end();
            let mut named = named(source, asked);
            named.hint = hint;
            let none = b"".as_slice();
            Err(question_refused(progress.rt(), &named, none, fault))
        }
    }
}

/// What is seen of files that are read whole.
fn see_whole<'a>(
    progress: &mut Progress<'_>,
    source: &Source<'a>,
    asked: OfState<'a>,
) -> Result<Seen, ExitCode> {
    let bytes = read_source(progress, source)?;
    progress.begin(asked.phase());
    let Bytes {
        start,
        journal,
        marks,
        verified,
        at,
    } = bytes;
    drop(marks);
    drop(verified);
    let entries = journal.as_deref().unwrap_or(b"".as_slice());
    let look = start_hint(&start);
    let done = Seen::whole(progress.rt().alloc(), start, entries, at);
    let hint = match &done {
        Ok(_) => Hint::None,
        Err(fault) => hint_of(fault, look, entries),
    };
    drop(journal);
    told(progress, source, asked, hint, done)
}

/// What the entries are replayed for.
fn goal_of(source: &Source<'_>, asked: OfState<'_>) -> Goal {
    let until = source.at.unwrap_or(u64::MAX);
    match asked {
        OfState::Next => Goal::Entry(until),
        _ => Goal::Before(until),
    }
}

/// What is seen of a journal in segments beside this path.
fn see_segments<'a>(
    progress: &mut Progress<'_>,
    source: &Source<'a>,
    asked: OfState<'a>,
    path: &str,
) -> Result<Seen, ExitCode> {
    let bytes = match start_file(source.start).read(progress) {
        Ok(bytes) => bytes,
        Err(fault) => return Err(start_unread(progress, source, fault)),
    };
    let opened = open_start(progress, source.start, bytes)?;
    let wanted = Wanted {
        name: source.journal.unwrap_or(""),
        journal: path,
        goal: goal_of(source, asked),
    };
    let Sought { seeing, next } = seek(progress, wanted, opened)?;
    progress.begin(asked.phase());
    told(
        progress,
        source,
        asked,
        Hint::None,
        Seen::behind(seeing, source.at, next),
    )
}

/// The path beside which the files of a journal in segments lie, where it needs no marks.
fn path_of(rt: &HostRuntime, source: &Source<'_>) -> Option<String> {
    match (source.journal, source.marks) {
        (Some(journal), None) => segments_of(rt, journal),
        (Some(_), Some(_)) | (None, _) => None,
    }
}

/// What is seen of the files of a question about one state.
fn see<'a>(
    progress: &mut Progress<'_>,
    source: &Source<'a>,
    asked: OfState<'a>,
) -> Result<Seen, ExitCode> {
    match path_of(progress.rt(), source) {
        Some(path) => {
            let seen = see_segments(progress, source, asked, &path);
            drop(path);
            seen
        }
        None => see_whole(progress, source, asked),
    }
}

/// Tells that a word names no object of the state that is seen, where it is the number of one that isn't there.
fn tell_none(rt: &HostRuntime, seen: &Seen, object: &str) {
    if let Ok(o) = named_object(seen.names(), object) {
        if !seen.state().is_active(o) {
            let _ = eprintln!(rt; "mls: {object}: there is no such object");
        }
    }
}

/// Whether two words name one object.
fn is_one_object(seen: &Seen, a: &str, b: &str) -> bool {
    let Ok(first) = named_object(seen.names(), a) else {
        return false;
    };
    let Ok(second) = named_object(seen.names(), b) else {
        return false;
    };
    first.number() == second.number()
}

/// Tells of each end of a flow that it is no object of the state that is seen, where it is the number of one.
fn tell_ends(rt: &HostRuntime, seen: &Seen, words: FlowWords<'_>) {
    tell_none(rt, seen, words.from);
    let Some(to) = words.to else {
        return;
    };
    let is_object = words.is_object || seen.names().subject(to).is_none();
    if is_object && !is_one_object(seen, words.from, to) {
        tell_none(rt, seen, to);
    }
}

/// Ends the command in the state that is seen.
fn end_seen<'a>(
    progress: &mut Progress<'_>,
    source: &Source<'a>,
    asked: OfState<'a>,
    seen: &Seen,
) -> ExitCode {
    let alloc = progress.rt().alloc();
    let mut named = named(source, asked);
    match asked {
        OfState::Could { actors, .. } | OfState::WhoCould { actors, .. } => {
            named.subject = unknown_word(seen, actors);
        }
        _ => {}
    }
    if let OfState::StartFile { map } = asked {
        let done = start_of(alloc, seen, map.is_some());
        return ended_start(progress, &named, seen.start_file(), map, done);
    }
    let done = answer_seen(alloc, form_of(progress), seen, asked);
    if let OfState::Could { line, .. } = asked {
        return ended_could(progress, &named, seen.start_file(), line, done);
    }
    if let OfState::Flow(words) = asked {
        let status = ended_flow(progress, &named, seen, words, done);
        tell_ends(progress.rt(), seen, words);
        return status;
    }
    let status = rows_ended(progress, &named, seen.start_file(), done);
    if let OfState::Who { object, .. } = asked {
        tell_none(progress.rt(), seen, object);
    }
    status
}

/// Answers a question about one state over its files.
pub(crate) fn answer_state<'a>(
    progress: &mut Progress<'_>,
    source: &Source<'a>,
    asked: OfState<'a>,
) -> ExitCode {
    match see(progress, source, asked) {
        Ok(seen) => {
            let status = end_seen(progress, source, asked, &seen);
            drop(seen);
            status
        }
        Err(status) => status,
    }
}
