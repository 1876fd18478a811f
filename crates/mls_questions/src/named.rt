//! What fault lines name.
use mls_files::{Hint, journal_hint, load_hint};
use mls_replay::{CommandFault, QuestionFault};

/// The words that the fault lines of a question name.
#[derive(Clone, Copy)]
pub(crate) struct Named<'a> {
    pub start: &'a str,
    pub journal: &'a str,
    /// The word that is to name a subject.
    pub subject: &'a str,
    /// The word that is to name an object.
    pub object: &'a str,
    /// The line that is asked about.
    pub line: &'a str,
    /// What the file looks like that is refused.
    pub hint: Hint,
}

impl<'a> Named<'a> {
    /// The files of a question that names neither a subject nor an object by a word, and is about no line.
    pub(crate) fn files(start: &'a str, journal: &'a str) -> Named<'a> {
        Named {
            start,
            journal,
            subject: "",
            object: "",
            line: "",
            hint: Hint::None,
        }
    }

    /// The same words, where the file that is refused looks so.
    pub(crate) fn with_hint(&self, hint: Hint) -> Named<'a> {
        Named {
            start: self.start,
            journal: self.journal,
            subject: self.subject,
            object: self.object,
            line: self.line,
            hint,
        }
    }
}

/// What the file looks like that is refused: the start file, or the journal of these bytes.
pub(crate) fn hint_of(fault: &QuestionFault, look: Hint, journal: &[u8]) -> Hint {
    match fault {
        QuestionFault::Files(fault) => match fault {
            CommandFault::Load(_) => load_hint(fault, look),
            fault => journal_hint(fault, journal),
        },
        _ => Hint::None,
    }
}
