//! Which files a question is about.
use mls_command_line::{HeldWords, Question, ReportWords, Source};

/// The files of a start, and of a journal where there is one, with its marks where there are such.
fn files<'a>(start: &'a str, journal: Option<&'a str>, marks: Option<&'a str>) -> Source<'a> {
    Source {
        start,
        journal,
        at: None,
        marks,
        when: None,
        beside: "",
    }
}

/// Files with the operand that stands behind the start's.
fn beside<'a>(files: Source<'a>, operand: &'a str) -> Source<'a> {
    Source {
        start: files.start,
        journal: files.journal,
        at: files.at,
        marks: files.marks,
        when: files.when,
        beside: operand,
    }
}

/// The files of a question who held what; where it is asked of one state by a time, that of it.
fn held_files<'a>(words: &HeldWords<'a>) -> Source<'a> {
    Source {
        start: words.start,
        journal: Some(words.journal),
        at: None,
        marks: words.marks,
        when: words.times.when,
        beside: "",
    }
}

/// The files of a report; where it is of the state at a time, that of it.
fn report_files<'a>(words: &ReportWords<'a>) -> Source<'a> {
    Source {
        start: words.start,
        journal: Some(words.journal),
        at: None,
        marks: words.marks,
        when: words.times.when,
        beside: "",
    }
}

/// The same files.
fn same<'a>(source: &Source<'a>) -> Source<'a> {
    Source {
        start: source.start,
        journal: source.journal,
        at: source.at,
        marks: source.marks,
        when: source.when,
        beside: source.beside,
    }
}

/// The files of a question; of a comparison that of the first start.
pub(crate) fn source_of<'a>(question: &Question<'a>) -> Source<'a> {
    match question {
        Question::Ask { source, .. }
        | Question::Explain { source, .. }
        | Question::Who { source, .. }
        | Question::WhoCould { source, .. }
        | Question::Could { source, .. }
        | Question::Flow { source, .. }
        | Question::Powers { source, .. }
        | Question::About { source, .. }
        | Question::Lint { source }
        | Question::Lattice { source }
        | Question::State { source, .. } => same(source),
        Question::WhoEver(words) => {
            let named = files(words.start, Some(words.journal), words.marks);
            beside(named, words.object)
        }
        Question::Journal(words) => files(words.start, Some(words.journal), words.marks),
        Question::Held(words) => held_files(words),
        Question::Usage(words) => files(words.start, Some(words.journal), words.marks),
        Question::Compare(words) => files(words.first, None, None),
        Question::Report(words) => report_files(words),
    }
}
