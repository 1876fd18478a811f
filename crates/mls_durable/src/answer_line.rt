//! The line that answers a line.
ghost use Rattle.std.specs.Prelude.{◌≡◌, ◌++◌, ◌∷◌, [], ℕ, List, OnOk};
ghost use Rattle.std.specs.Fmt.{decimal};
ghost use Rattle.mls_durable.specs.Sessions.{answer_line, head_for, is_silent as has_no_answer, number_of};
ghost use Rattle.mls_durable.specs.Sessions.{number_text};

use crate::address::Who;
use itoa::Buffer;
use mls_monitor::Entry;
use mls_scripts::{Answer, push_answer};
use std::alloc::AllocError;

/// Appends a number and text behind it.
fn push_number(text: &mut Vec<u8>, number: u64, behind: &[u8]) -> Result<(), AllocError>
    ensures { OnOk result (text.new.items ≡ text.old.items ++ decimal number ++ behind.now) }
{
    let mut buffer = Buffer::new();
    text.extend_from_slice(buffer.format(number).as_bytes())?;
    text.extend_from_slice(behind)?;
    Ok(())
}

/// Appends what the answer to a line begins with, by whom the line asks for.
fn push_head(text: &mut Vec<u8>, who: Who) -> Result<(), AllocError>
    ensures { OnOk result (text.new.items ≡ text.old.items ++ head_for who) }
{
    match who {
        Who::Script(_) => Ok(()),
        Who::Nobody => {
            text.extend_from_slice(b"- ")?;
            Ok(())
        }
        Who::Session(session) => push_number(text, session as u64, b" "),
        Who::Trial(session) => push_number(text, session as u64, b" ? "),
    }
}

/// The number of an entry, where numbers are wanted.
pub(crate) fn number_in(numbers: bool, added: &Option<Entry>) -> Option<u64>
    ensures { number_text result ≡ number_of numbers added.now }
{
    match added {
        Some(entry) if numbers => Some(entry.number),
        _ => None,
    }
}

/// Whether there is no answer.
fn is_silent(answer: &Answer) -> bool
    ensures { result ≡ has_no_answer answer.now }
{
    match *answer {
        Answer::Nothing => true,
        Answer::Fault(_) | Answer::Held(_) | Answer::Replied(_) => false,
    }
}

/// Puts a number behind the last line of a text.
fn number_last(text: &mut Vec<u8>, number: u64) -> Result<(), AllocError>
    ensures { (line : List ℕ) → text.old.items ≡ line ++ 10 ∷ []
        → OnOk result (text.new.items ≡ line ++ 32 ∷ decimal number ++ 10 ∷ []) }
{
    text.pop();
    text.push(b' ')?;
    push_number(text, number, b"\n")
}

/// Appends the line that answers a line: what it begins with by whom the line asks for, the answer, and this number. A
/// line that has no answer has no such line.
///
/// # Errors
/// `AllocError` where an allocation failed.
pub(crate) fn push_answer_line(
    text: &mut Vec<u8>,
    who: Who,
    number: Option<u64>,
    answer: &Answer,
) -> Result<(), AllocError>
    ensures { OnOk result (text.new.items
        ≡ text.old.items ++ answer_line (head_for who) (number_text number) answer.now) }
{
    if is_silent(answer) {
        return Ok(());
    }
    push_head(text, who)?;
    push_answer(text, *answer)?;
    match number {
        Some(number) => number_last(text, number),
        None => Ok(()),
    }
}
