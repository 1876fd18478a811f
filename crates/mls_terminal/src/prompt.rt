//! Standard input at a terminal.
use crate::output::is_taken;
use std::io;
use std::io::{IsTerminal, Read};

/// What a line is asked for with.
const PROMPT: &str = "mls> ";

/// What a line becomes that is answered here: a note, which is answered nothing.
const NOTE: u8 = b';';

/// What a line of one word is answered, which has the form of no request.
const ONE_WORD: &str = "bad form (help?)\n";

/// What a person has typed.
#[derive(Clone, Copy, PartialEq, Eq)]
enum Typed {
    /// A line that asks for help.
    Help,
    /// A line that ends the input.
    Quit,
    /// Any other line of one word.
    Word,
    /// Any other bytes.
    Other,
}

/// Standard input that a person types. A line is asked for by a prompt; `help` and `?` are answered by a text, `quit`
/// and `exit` end the input, and any other line of one word is answered by what asks for help. A terminal gives a line
/// at a time.
#[derive(Drop)]
pub struct Prompt<'a> {
    rt: &'a HostRuntime,
    /// What is shown where help is asked for.
    help: &'a str,
    /// Whether what was read so far ends with a newline.
    is_at_line: bool,
}

/// Whether a person types standard input, and reads standard output.
pub fn is_typed(rt: &HostRuntime) -> bool {
    rt.stdin().is_terminal() && rt.stdout().is_terminal()
}

/// A line without its newline.
fn without_newline(line: &[u8]) -> &[u8] {
    match line {
        [front @ .., b'\n'] => front,
        whole => whole,
    }
}

/// Whether bytes end with a newline.
fn ends_line(bytes: &[u8]) -> bool {
    matches!(bytes, [.., b'\n'])
}

/// Whether a text is one word, and no note.
fn is_word(text: &[u8]) -> bool {
    for byte in text {
        if *byte == b' ' {
            return false;
        }
    }
    !matches!(text, [] | [NOTE, ..])
}

/// What a line that was typed asks for.
fn meaning_of(line: &[u8]) -> Typed {
    let word = without_newline(line);
    if word == b"help".as_slice() || word == b"?".as_slice() {
        Typed::Help
    } else if word == b"quit".as_slice() || word == b"exit".as_slice() {
        Typed::Quit
    } else if ends_line(line) && is_word(word) {
        Typed::Word
    } else {
        Typed::Other
    }
}

/// Makes a line a note, so that it asks nothing.
fn make_note(line: &mut [u8]) {
    if !line.is_empty() {
        line[0] = NOTE;
    }
}

impl<'a> Prompt<'a> {
    /// The prompt of a person who is shown this text at first, and where help is asked for.
    pub fn new(rt: &'a HostRuntime, help: &'a str) -> Prompt<'a> {
        let prompt = Prompt {
            rt,
            help,
            is_at_line: true,
        };
        prompt.show(help);
        prompt
    }

    /// Writes text to the terminal, where that takes it.
    fn show(&self, text: &str) {
        let _ = is_taken(&mut self.rt.stdout(), text.as_bytes());
    }
}

impl Read for Prompt<'_> {
    fn read(&mut self, buf: &mut [u8]) -> io::Result<usize> {
        let is_line = self.is_at_line;
        if is_line {
            self.show(PROMPT);
        }
        let mut input = self.rt.stdin();
        let count = input.read(buf)?;
        if count == 0 {
            self.show("\n");
            return Ok(0);
        }
        self.is_at_line = ends_line(&buf[..count]);
        let asked = if is_line {
            meaning_of(&buf[..count])
        } else {
            Typed::Other
        };
        match asked {
            Typed::Quit => Ok(0),
            Typed::Help => {
                self.show(self.help);
                make_note(buf);
                Ok(count)
            }
            Typed::Word => {
                self.show(ONE_WORD);
                make_note(buf);
                Ok(count)
            }
            Typed::Other => Ok(count),
        }
    }
}
