//! What is added to the line of a fault: what a file looks like that isn't what it should be.
use mls_journal::{next_entry, read_entry};
use mls_monitor::ReplayFault;
use mls_replay::CommandFault;
use mls_requests::{ActionWord, Reply};
use mls_start_file::LoadFault;
use std::fmt::{Display, Formatter};
use std::{fmt, str};

/// What a file looks like that is refused, where that can be told.
#[derive(Clone, Copy)]
pub enum Hint {
    /// Nothing can be told.
    None,
    /// A start file is empty.
    Empty,
    /// A start file begins as a journal does.
    Journal,
    /// A start file begins as a script does.
    Script,
    /// A line of a journal ends in a carriage return.
    Carriage,
    /// An entry has this reply, which isn't the one that the rules give; `is_first` says that it is entry 0.
    Found { reply: Reply, is_first: bool },
}

impl Display for Hint {
    fn fmt<W: fmt::Write>(&self, f: &mut Formatter<W>) -> fmt::Result {
        match self {
            Hint::None => Ok(()),
            Hint::Empty => f.write_str(": empty"),
            Hint::Journal => f.write_str(": looks like a journal"),
            Hint::Script => f.write_str(": looks like a script"),
            Hint::Carriage => f.write_str(": line ends in CR"),
            Hint::Found { reply, is_first } => {
                let reply = *reply;
                write!(f, ", found {reply}")?;
                if *is_first {
                    f.write_str(": another start's journal?")?;
                }
                Ok(())
            }
        }
    }
}

/// Whether bytes begin with the line of an entry.
fn begins_with_entry(bytes: &[u8]) -> bool {
    matches!(next_entry(bytes), Ok(Some(_)))
}

/// The second word of a line, which names in a script what is asked.
fn second_word(line: &str) -> Option<&str> {
    let mut words = line.split(' ');
    words.next()?;
    words.next()
}

/// Whether a line asks something, as a line of a script does.
fn is_asking(line: &str) -> bool {
    match second_word(line) {
        Some(word) => word == "=" || word == "check" || ActionWord::read(word.as_bytes()).is_some(),
        None => false,
    }
}

/// Whether a line of a script is blank or a note.
fn is_aside(line: &str) -> bool {
    line.is_empty() || line.starts_with(";")
}

/// Whether bytes begin as a script does: the first line that is no note asks something. What begins as an object of
/// JSON isn't looked at.
fn begins_with_ask(bytes: &[u8]) -> bool {
    if matches!(bytes, [b'{', ..]) {
        return false;
    }
    let Ok(text) = str::from_utf8(bytes) else {
        return false;
    };
    for line in text.split('\n') {
        if !is_aside(line) {
            return is_asking(line);
        }
    }
    false
}

/// What the bytes look like of a start file that is refused.
pub fn start_hint(bytes: &[u8]) -> Hint {
    if bytes.is_empty() {
        Hint::Empty
    } else if begins_with_entry(bytes) {
        Hint::Journal
    } else if begins_with_ask(bytes) {
        Hint::Script
    } else {
        Hint::None
    }
}

/// The line of a journal at this place, counted from 0.
fn line_at(journal: &[u8], place: u64) -> Option<&str> {
    let mut at = 0u64;
    for line in str::from_utf8(journal).ok()?.split('\n') {
        if at == place {
            return Some(line);
        }
        at = at.saturating_add(1);
    }
    None
}

/// Whether the line of a journal of this number, counted from 1, ends in a carriage return.
fn ends_in_carriage(journal: &[u8], number: u64) -> bool {
    match line_at(journal, number.saturating_sub(1)) {
        Some(line) => matches!(line.as_bytes(), [.., b'\r']),
        None => false,
    }
}

/// What the entry of a number says that has another reply than the rules give, in a journal that begins with entry 0.
fn found_hint(journal: &[u8], at: u64) -> Hint {
    let Some(line) = line_at(journal, at) else {
        return Hint::None;
    };
    match read_entry(line) {
        Ok(entry) => Hint::Found {
            reply: entry.reply,
            is_first: at == 0,
        },
        Err(_) => Hint::None,
    }
}

/// What an entry says that isn't as the rules have it.
fn replay_hint(journal: &[u8], fault: ReplayFault) -> Hint {
    match fault {
        ReplayFault::Differs { at, .. } => found_hint(journal, at),
        ReplayFault::Number { .. } | ReplayFault::Memory => Hint::None,
    }
}

/// What the bytes look like of a journal that is refused.
pub fn journal_hint(fault: &CommandFault, journal: &[u8]) -> Hint {
    match *fault {
        CommandFault::Entry { line, .. } if ends_in_carriage(journal, line) => Hint::Carriage,
        CommandFault::Replay(replayed) => replay_hint(journal, replayed),
        _ => Hint::None,
    }
}

/// What is added to the line of a fault of a start file, by what its bytes look like: something where they are no JSON.
pub fn load_hint(fault: &CommandFault, look: Hint) -> Hint {
    match *fault {
        CommandFault::Load(LoadFault::Json) => look,
        _ => Hint::None,
    }
}
