//! Which line of a run's scripts wasn't understood, where that is a fault.
use mls_command_line::RunWords;
use mls_lines::MAX_LINE;
use std::process::ExitCode;
use std::str;

/// The status of a run whose output was printed where a line wasn't understood, if that is a fault.
const NOT_UNDERSTOOD: u8 = 4;

/// An answer that says that a line wasn't understood: the place of its script among the scripts, its own among the
/// answers of that, and its text.
#[derive(Clone, Copy)]
struct BadAnswer<'a> {
    script: usize,
    place: u64,
    text: &'a str,
}

/// What was seen of a line: how many bytes it has, and the first of them that is no space.
#[derive(Clone, Copy)]
struct Seen {
    len: usize,
    first: Option<u8>,
}

impl Seen {
    /// A line of which nothing was seen.
    const NOTHING: Seen = Seen {
        len: 0,
        first: None,
    };

    /// The line with a byte more.
    fn extended_by(self, byte: u8) -> Seen {
        let is_first = self.first.is_none() && byte != b' ';
        Seen {
            len: self.len.saturating_add(1),
            first: if is_first { Some(byte) } else { self.first },
        }
    }

    /// Whether the line is answered: it is too long, or it is neither blank nor a note.
    fn is_answered(self) -> bool {
        if self.len > MAX_LINE {
            return true;
        }
        match self.first {
            Some(byte) => byte != b';',
            None => false,
        }
    }
}

/// The first answer in the output of a run that says that a line wasn't understood: no other answer begins so.
fn first_bad(output: &[u8]) -> Option<BadAnswer<'_>> {
    let mut sessions = 0usize;
    let mut place = 0u64;
    for line in str::from_utf8(output).ok()?.lines() {
        if line.starts_with("bad ") {
            return Some(BadAnswer {
                script: sessions.saturating_sub(1),
                place,
                text: line,
            });
        }
        if line.starts_with("session ") {
            sessions = sessions.saturating_add(1);
            place = 0;
        } else {
            place = place.saturating_add(1);
        }
    }
    None
}

/// The number, counted from 1, of the line of a script that has the answer of this place, counted from 0.
fn line_of(script: &[u8], place: u64) -> u64 {
    let mut number = 1u64;
    let mut before = 0u64;
    let mut seen = Seen::NOTHING;
    for byte in script {
        if *byte != b'\n' {
            seen = seen.extended_by(*byte);
            continue;
        }
        if seen.is_answered() {
            if before == place {
                return number;
            }
            before = before.saturating_add(1);
        }
        number = number.saturating_add(1);
        seen = Seen::NOTHING;
    }
    number
}

/// Tells which line wasn't understood, of these scripts.
fn tell_bad(rt: &HostRuntime, words: &RunWords<'_>, scripts: &[&[u8]], bad: BadAnswer<'_>) {
    let path = words.scripts.get(bad.script).copied().unwrap_or("");
    let script = scripts.get(bad.script).copied().unwrap_or(&[]);
    let line = line_of(script, bad.place);
    let text = bad.text;
    let _ = eprintln!(rt; "mls: {path}: line {line}: {text}");
}

/// The status of a run of scripts whose output was printed with this status: where a line that wasn't understood is a
/// fault, the first one is told.
pub(crate) fn run_status(
    rt: &HostRuntime,
    printed: ExitCode,
    words: &RunWords<'_>,
    scripts: &[&[u8]],
    output: &[u8],
) -> ExitCode {
    if !words.is_strict || printed != ExitCode::SUCCESS {
        return printed;
    }
    match first_bad(output) {
        Some(bad) => {
            tell_bad(rt, words, scripts, bad);
            ExitCode::from(NOT_UNDERSTOOD)
        }
        None => printed,
    }
}
