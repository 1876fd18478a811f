//! Writing answers.
ghost use Rattle.std.specs.Prelude.{◌≡◌, ◌<◌, ◌≤◌, ◌+◌, ◌++◌, ◌∷◌, ◌⊎◌, [], List, ℕ, length, Err, false, MatchResult};
ghost use Rattle.std.specs.Io.KnownBytes.{Keeps};
ghost use Rattle.mls_requests.specs.ReplyWords.{reply_text};
ghost use Rattle.mls_scripts.specs.Script.{answer_bytes};
ghost use Rattle.mls_scripts.specs.Serve.{Writes};

use crate::answer::Answer;
use crate::serving::ServeFault;
use arrayvec::ArrayVec;
use itoa::Buffer;
use mls_requests::{Reply, ReplyWord};
use std::io::Write;

/// The most bytes of a word of an answer; a number has fewer, too.
const LONGEST_WORD: usize = 40;

/// Room for a line of two words.
const LINE_ROOM: usize = 2 * LONGEST_WORD + 2;

/// Hands bytes to a writer until all are taken. A write that fails or takes nothing is a fault.
fn write_out<W: Write>(writer: &mut W, text: &[u8]) -> Result<(), ServeFault>
    ensures { Writes (W.contents writer.old) (W.contents writer.new) text.now result }
{
    let mut rest = text;
    while !rest.is_empty() {
        match writer.write(rest) {
            Ok(0) | Err(_) => return Err(ServeFault::Write),
            Ok(count) => rest = &rest[count..],
        }
    }
    Ok(())
}

/// Adds a word and a byte after it to a line that has room for them.
fn add(line: &mut ArrayVec<u8, LINE_ROOM>, word: &str, after: u8)
    requires { length line.old.items + length word.now < LINE_ROOM }
    ensures { line.new.items ≡ line.old.items ++ word.now ++ after ∷ [] }
{
    // that there was room for the word
    let _ = line.try_extend_from_slice(word.as_bytes());
    line.push(after);
}

/// Writes a text as a line. The line is made up first, so that the writer is handed it at once.
///
/// # Errors
/// `Write` where the writer failed.
fn write_line<W: Write>(writer: &mut W, text: &str) -> Result<(), ServeFault>
    requires { length text.now ≤ LONGEST_WORD }
    ensures { Writes (W.contents writer.old) (W.contents writer.new) (text.now ++ 10 ∷ []) result }
{
    let mut line = ArrayVec::new();
    add(&mut line, text, b'\n');
    write_out(writer, &line)
}

/// Writes two words as a line, with a space between them. The line is made up first, so that the writer is handed it at
/// once.
///
/// # Errors
/// `Write` where the writer failed.
fn write_pair<W: Write>(writer: &mut W, first: &str, second: &str) -> Result<(), ServeFault>
    requires first { length first.now ≤ LONGEST_WORD }
    requires second { length second.now ≤ LONGEST_WORD }
    ensures { Writes (W.contents writer.old) (W.contents writer.new) (first.now ++ 32 ∷ second.now ++ 10 ∷ []) result }
{
    let mut line = ArrayVec::new();
    add(&mut line, first, b' ');
    add(&mut line, second, b'\n');
    write_out(writer, &line)
}

/// Writes a reply.
///
/// # Errors
/// `Write` where the writer failed.
#[tactic(auto, using(mls_requests::proofs::WordLengths::reason_fits))]
fn write_reply<W: Write>(writer: &mut W, reply: Reply) -> Result<(), ServeFault>
    ensures { Writes (W.contents writer.old) (W.contents writer.new) (reply_text reply ++ 10 ∷ []) result }
{
    match reply {
        Reply::Yes => write_line(writer, ReplyWord::Yes.word()),
        Reply::Created(object) => {
            let mut buffer = Buffer::new();
            let number = buffer.format(object.number());
            write_pair(writer, ReplyWord::Created.word(), number)
        }
        Reply::No(reason) => write_pair(writer, ReplyWord::No.word(), reason.word()),
        Reply::Undefined => write_line(writer, ReplyWord::Undefined.word()),
    }
}

/// Writes an answer.
///
/// # Errors
/// `Write` where the writer failed.
#[tactic(auto, using(crate::proofs::Texts::fault_fits))]
pub(crate) fn write_answer<W: Write>(writer: &mut W, answer: Answer) -> Result<(), ServeFault>
    ensures { Writes (W.contents writer.old) (W.contents writer.new) (answer_bytes answer) result }
{
    match answer {
        Answer::Nothing => Ok(()),
        Answer::Fault(fault) => write_line(writer, fault.text()),
        Answer::Held(true) => write_line(writer, "held"),
        Answer::Held(false) => write_line(writer, "not held"),
        Answer::Replied(reply) => write_reply(writer, reply),
    }
}

/// Flushes a writer where an answer was written, after lines were answered with this outcome. A fault that came before
/// the flush stays.
///
/// # Errors
/// The outcome's, or `Write` where there is none and the flush fails.
pub(crate) fn settle<W: Write>(
    writer: &mut W,
    wrote: bool,
    outcome: Result<(), ServeFault>,
) -> Result<(), ServeFault>
    ensures same { Keeps (W.contents writer.old) (W.contents writer.new) }
    ensures outcome { MatchResult outcome (λ _. (result ≡ outcome) ⊎ (result ≡ Err ServeFault.Write))
        (λ _. result ≡ outcome) }
    ensures quiet { wrote ≡ false → result ≡ outcome }
{
    let failed = wrote && outcome != Err(ServeFault::Write) && writer.flush().is_err();
    if failed && outcome.is_ok() {
        return Err(ServeFault::Write);
    }
    outcome
}
