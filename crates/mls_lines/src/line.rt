//! Reading one line of a script.
ghost use Rattle.std.specs.Prelude.{◌≡◌, option_map};
ghost use Rattle.mls_lines.specs.Tokens.{tokens_of, name_of};
ghost use Rattle.mls_lines.specs.ScriptLine.{line_of, line_view, created_by, binding_line};

use crate::command::{read_action, read_command, submits};
use crate::fault::LineFault;
use crate::names::Names;
use crate::operand::read_subject;
use crate::token::{next_token, read_name};
use crate::variables::Vars;
use mls_requests::{ActionWord, Ask};
use std::alloc::Allocator;

/// The most bytes that a line may have, without its newline.
pub const MAX_LINE: usize = 20_000;

/// A line that has the form of a line, without its newline.
#[derive(Clone, Copy, Debug, PartialEq, Eq)]
pub enum Line<'a> {
    /// No token, or a note: it asks nothing and is not answered.
    Blank,
    /// It asks, and `bind` is the variable that is to be bound to the object that was made.
    Ask { bind: Option<&'a str>, ask: Ask },
}

/// The subject and the operands of a line that binds, of which this stands after the variable.
fn split_binding(rest: &[u8]) -> Option<(&[u8], &[u8])>
    ensures { option_map (λ p. (p.0.now, tokens_of p.1.now)) result ≡ created_by (tokens_of rest.now) }
{
    let (equals, rest) = next_token(rest)?;
    let (subject, rest) = next_token(rest)?;
    let (word, operands) = next_token(rest)?;
    if equals == b"=".as_slice() && word == ActionWord::Create.word().as_bytes() {
        Some((subject, operands))
    } else {
        None
    }
}

/// Reads a line that begins with a variable, whose name is written without the `$`.
fn read_binding<'a, A: Allocator, B: Allocator>(
    names: &Names<A>,
    vars: &Vars<B>,
    name: &'a [u8],
    rest: &'a [u8],
) -> Result<Line<'a>, LineFault>
    ensures { line_view result
        ≡ binding_line names.now vars.now.bound (name_of name.now) (created_by (tokens_of rest.now)) }
{
    let name = read_name(name).ok_or(LineFault::BadForm)?;
    let (subject, operands) = split_binding(rest).ok_or(LineFault::BadForm)?;
    let subject = read_subject(names, subject);
    let action = read_action(names, vars, ActionWord::Create, operands);
    submits(Some(name), subject, action)
}

/// Reads a line of a script, without its newline. It doesn't allocate.
///
/// A line without a token is blank, and so is a note, whose first byte that isn't a space is `;`.
///
/// # Errors
/// The first fault that applies to the whole line. A line longer than `MAX_LINE` is a bad form, whatever it holds.
pub fn read_line<'a, A: Allocator, B: Allocator>(
    names: &Names<A>,
    vars: &Vars<B>,
    line: &'a [u8],
) -> Result<Line<'a>, LineFault>
    ensures { line_view result ≡ line_of names.now vars.now.bound line.now }
{
    if line.len() > MAX_LINE {
        return Err(LineFault::BadForm);
    }
    let Some((first, rest)) = next_token(line) else {
        return Ok(Line::Blank);
    };
    match first {
        [b';', ..] => Ok(Line::Blank),
        [b'$', name @ ..] => read_binding(names, vars, name, rest),
        subject => read_command(names, vars, subject, rest),
    }
}
