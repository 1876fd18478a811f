//! The command of a question, and how it ends.
use crate::comparison::compare;
use crate::describing::about;
use crate::form_meant::{Due, Meant, form_due, form_meant};
use crate::listing::journal;
use crate::named::Named;
use crate::one_state::{OfState, listed_as, why};
use crate::report::report;
use crate::seeing::answer_state;
use crate::source_names::source_of;
use crate::sources::read_source;
use crate::spans::{held, who_ever};
use crate::starts::lint;
use crate::usages::usage;
use mls_command_line::{Question, Source};
use mls_explain_text::{Sort, fault_line, thing_line, word_line};
use mls_files::{Hint, fault_file, load_hint, refused_with_place, start_hint};
use mls_lines::LineFault;
use mls_replay::{CommandFault, QuestionFault};
use mls_start_file::read_start;
use mls_terminal::{NO_MEMORY, Progress, refused};
use std::alloc::{AllocError, Global};
use std::process::ExitCode;

/// The status of a command whose answer is a negative one.
const NEGATIVE: u8 = 4;

/// Writes the line of a fault to standard error.
fn told(rt: &HostRuntime, line: Result<String, AllocError>) -> ExitCode {
    match line {
        Ok(text) => {
            let status = refused(rt, text.as_str(), 1);
            drop(text);
            status
        }
        Err(_) => refused(rt, NO_MEMORY, 1),
    }
}

/// Tells that a line has no form, and which it may be, and says whether that is known.
fn tell_form(rt: &HostRuntime, line: &str) -> bool {
    if let Some(meant) = form_meant(rt.alloc(), line) {
        let Meant { word, deed } = meant;
        let _ = eprintln!(rt; "mls: line: bad form: {word} ({deed}?)");
        return true;
    }
    if let Some(due) = form_due(line) {
        let Due { deed, operands } = due;
        let _ = eprintln!(rt; "mls: line: bad form: SUBJECT {deed} {operands}");
        return true;
    }
    false
}

/// Tells that a line has no form, and where the forms are.
fn tell_bad_form(rt: &HostRuntime, line: &str) -> ExitCode {
    if !tell_form(rt, line) {
        let _ = eprintln!(rt; "mls: line: bad form: mls ask --help has the forms");
    }
    ExitCode::from(1)
}

/// The first word of a line; empty where it has none.
fn first_word(line: &str) -> &str {
    for word in line.split(' ') {
        if !word.is_empty() {
            return word;
        }
    }
    ""
}

/// Whether a word names an object of a start and no subject, by the bytes of the start file.
fn is_object_alone(alloc: Global, start: &[u8], word: &str) -> bool {
    let Ok(loaded) = read_start(alloc, start) else {
        return false;
    };
    let names = loaded.names();
    let is = names.subject(word).is_none() && names.object(word).is_some();
    drop(loaded);
    is
}

/// Tells that the name of a line's subject is an object's, by the bytes of the start file, and says whether it is.
fn tell_exchanged(rt: &HostRuntime, start: &[u8], line: &str) -> bool {
    let word = first_word(line);
    let is_object = is_object_alone(rt.alloc(), start, word);
    if is_object {
        let _ = eprintln!(rt; "mls: line: bad name: {word}: it is an object: mls about");
    }
    is_object
}

/// Tells for which fault a line is refused, by the bytes of the start file.
fn line_refused(rt: &HostRuntime, start: &[u8], line: &str, fault: LineFault) -> ExitCode {
    if matches!(fault, LineFault::BadForm) {
        return tell_bad_form(rt, line);
    }
    if matches!(fault, LineFault::UnknownName) && tell_exchanged(rt, start, line) {
        return ExitCode::from(1);
    }
    told(rt, fault_line(rt.alloc(), start, line, fault))
}

/// Tells that a word names no subject, or no object, of the bytes of a start file.
pub(crate) fn name_refused(rt: &HostRuntime, start: &[u8], sort: Sort, word: &str) -> ExitCode {
    told(rt, word_line(rt.alloc(), start, sort, word))
}

/// Tells that a word names neither a subject nor an object, of the bytes of a start file.
pub(crate) fn thing_refused(rt: &HostRuntime, start: &[u8], word: &str) -> ExitCode {
    told(rt, thing_line(rt.alloc(), start, word))
}

/// Tells that a word names none of the objects that a map has, whose names aren't those of the start.
pub(crate) fn bare_refused(rt: &HostRuntime, word: &str) -> ExitCode {
    let _ = eprintln!(rt; "mls: {word}: bad name");
    ExitCode::from(1)
}

/// What a line that tells of a word ends with behind the fault: the name that may have been meant, where one is near.
fn meant_in<'a>(line: &'a str, word: &str) -> &'a str {
    let Some(told) = line.strip_prefix("mls: ") else {
        return "";
    };
    match told.strip_prefix(word) {
        Some(behind) => behind.strip_prefix(": bad name").unwrap_or(""),
        None => "",
    }
}

/// Tells that a word is no label of the scheme that is due, of the bytes of a start file.
pub(crate) fn label_refused(rt: &HostRuntime, start: &[u8], sort: Sort, word: &str) -> ExitCode {
    let Ok(line) = word_line(rt.alloc(), start, sort, word) else {
        return refused(rt, NO_MEMORY, 1);
    };
    let meant = meant_in(line.as_str(), word);
    let _ = eprintln!(rt; "mls: {word}: bad label{meant}");
    drop(line);
    ExitCode::from(1)
}

/// The word for so many entries.
fn noun_of(entries: u64) -> &'static str {
    if entries == 1 { "entry" } else { "entries" }
}

/// Tells that a journal has only so many entries.
fn few_refused(rt: &HostRuntime, journal: &str, entries: u64) -> ExitCode {
    let noun = noun_of(entries);
    let _ = eprintln!(rt; "mls: {journal}: the journal has {entries} {noun}");
    ExitCode::from(1)
}

/// Tells that a journal has no entry of a number, which is how many it has.
fn entry_refused(rt: &HostRuntime, journal: &str, entries: u64) -> ExitCode {
    let noun = noun_of(entries);
    let _ = eprintln!(rt; "mls: {journal}: no entry {entries}: the journal has {entries} {noun}");
    ExitCode::from(1)
}

/// Which of these sorts of things of a start has this name.
fn sort_of(alloc: Global, start: &[u8], word: &str) -> Option<&'static str> {
    let Ok(loaded) = read_start(alloc, start) else {
        return None;
    };
    let names = loaded.names();
    let sort = if names.object(word).is_some() {
        Some("an object")
    } else if names.subject(word).is_some() {
        Some("a subject")
    } else {
        None
    };
    drop(loaded);
    sort
}

/// Tells that a word names no subject, or no object, of the bytes of a start file; where it names the other, that.
pub(crate) fn other_refused(rt: &HostRuntime, start: &[u8], sort: Sort, word: &str) -> ExitCode {
    match sort_of(rt.alloc(), start, word) {
        Some(other) => {
            let _ = eprintln!(rt; "mls: {word}: bad name: it is {other}: mls about");
            ExitCode::from(1)
        }
        None => name_refused(rt, start, sort, word),
    }
}

/// What a refused file looks like: what was seen of it, or of a start file by its bytes.
fn hint_by(fault: &CommandFault, hint: Hint, start: &[u8]) -> Hint {
    match hint {
        Hint::None if !start.is_empty() => load_hint(fault, start_hint(start)),
        hint => hint,
    }
}

/// Tells why a question has no answer, by the bytes of the start file.
pub(crate) fn question_refused(
    rt: &HostRuntime,
    named: &Named<'_>,
    start: &[u8],
    fault: QuestionFault,
) -> ExitCode {
    match fault {
        QuestionFault::Files(fault) => {
            let file = fault_file(&fault, named.start, named.journal);
            refused_with_place(rt, file, &fault, hint_by(&fault, named.hint, start))
        }
        QuestionFault::AtMost(entries) => few_refused(rt, named.journal, entries),
        QuestionFault::NoEntry(entry) => entry_refused(rt, named.journal, entry),
        QuestionFault::Line(fault) => line_refused(rt, start, named.line, fault),
        QuestionFault::Subject => other_refused(rt, start, Sort::Subject, named.subject),
        QuestionFault::Object => other_refused(rt, start, Sort::Object, named.object),
    }
}

/// The status of a command whose answer is printed, which is a positive one or a negative one.
pub(crate) fn status_of(is_positive: bool) -> ExitCode {
    if is_positive {
        ExitCode::SUCCESS
    } else {
        ExitCode::from(NEGATIVE)
    }
}

/// Prints all that there is to tell of a subject or of an object, over its files.
fn about_files(
    progress: &mut Progress<'_>,
    source: &Source<'_>,
    name: &str,
    is_object: bool,
) -> ExitCode {
    match read_source(progress, source) {
        Ok(bytes) => about(progress, source, bytes, name, is_object),
        Err(status) => status,
    }
}

/// Answers a question about start files or journals on standard output. The status is 0 where the answer is a positive
/// one, and 4 where it is a negative one.
pub fn answer(progress: &mut Progress<'_>, question: &Question<'_>) -> ExitCode {
    let source = source_of(question);
    match question {
        Question::Ask { line, .. } => answer_state(progress, &source, OfState::Line(*line)),
        Question::Explain { line, .. } => answer_state(progress, &source, why(*line)),
        Question::Who { object, mode, .. } => {
            let (object, mode) = (*object, *mode);
            answer_state(progress, &source, OfState::Who { object, mode })
        }
        Question::WhoCould {
            actors,
            object,
            mode,
            ..
        } => {
            let (actors, object, mode) = (*actors, *object, *mode);
            let asked = OfState::WhoCould {
                actors,
                object,
                mode,
            };
            answer_state(progress, &source, asked)
        }
        Question::Could { actors, line, .. } => {
            let (actors, line) = (*actors, *line);
            answer_state(progress, &source, OfState::Could { actors, line })
        }
        Question::Flow { words, .. } => answer_state(progress, &source, OfState::Flow(*words)),
        Question::Powers {
            subject,
            downgrades,
            ..
        } => {
            let (subject, downgrades) = (*subject, *downgrades);
            let asked = OfState::Powers {
                subject,
                downgrades,
            };
            answer_state(progress, &source, asked)
        }
        Question::State { is_start, map, .. } => {
            answer_state(progress, &source, listed_as(*is_start, *map))
        }
        Question::About {
            name,
            is_object,
            ..
        } => about_files(progress, &source, *name, *is_object),
        Question::Lint { .. } => lint(progress, &source),
        Question::Lattice { .. } => answer_state(progress, &source, OfState::Lattice),
        Question::Journal(words) => journal(progress, &source, words),
        Question::Held(words) => held(progress, &source, words),
        Question::Usage(words) => usage(progress, &source, words),
        Question::WhoEver(words) => who_ever(progress, &source, words),
        Question::Compare(words) => compare(progress, &source, words),
        Question::Report(words) => report(progress, &source, words),
    }
}
