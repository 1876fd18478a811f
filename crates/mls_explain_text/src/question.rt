//! Reading the line of a question.
ghost use Rattle.std.specs.Prelude.{◌≡◌, []};
ghost use Rattle.std.specs.List.{list_any};
ghost use Rattle.mls_lines.specs.ScriptLine.{line_of};
ghost use Rattle.mls_explain_text.specs.Question.{is_barred, question_in, question_of};

use mls_lines::{Line, LineFault, Names, Vars, read_line};
use mls_requests::Ask;
use std::alloc::Global;

/// Whether a byte is a `$` or a newline.
fn is_barred(byte: u8) -> bool
    ensures { result ≡ is_barred byte }
{
    byte == b'$' || byte == b'\n'
}

/// Whether a `$` or a newline stands in a line.
fn has_barred(line: &[u8]) -> bool
    ensures { result ≡ list_any is_barred line.now }
{
    for byte in line {
        if is_barred(*byte) {
            return true;
        }
    }
    false
}

/// What a line asks that has no `$`, with no variable bound.
fn read_plain(alloc: Global, names: &Names, line: &[u8]) -> Result<Ask, LineFault>
    ensures { result ≡ question_in (line_of names.now [] line.now) }
{
    let vars = Vars::new(alloc);
    let read = read_line(names, &vars, line);
    let asked = match read {
        Ok(Line::Blank) => Err(LineFault::BadForm),
        Ok(Line::Ask { bind, ask }) => match bind {
            None => Ok(ask),
            Some(_) => Err(LineFault::BadForm),
        },
        Err(fault) => Err(fault),
    };
    drop(vars);
    asked
}

/// What the line of a question asks, by the names of a start: what it asks as a line of a script. It doesn't allocate.
///
/// # Errors
/// The first fault of the line as one of a script. A blank line, a note, and a line in which a `$` or a newline stands
/// are bad forms.
pub fn read_question(alloc: Global, names: &Names, line: &[u8]) -> Result<Ask, LineFault>
    ensures { result ≡ question_of names.now line.now }
{
    if has_barred(line) {
        return Err(LineFault::BadForm);
    }
    read_plain(alloc, names, line)
}
