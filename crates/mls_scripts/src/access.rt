//! Reading the lines that there are most of, in one pass: gets, releases and checks by names.
ghost use Rattle.std.specs.Prelude.{◌≡◌, ◌<◌, ◌++◌, ◌∷◌, ℕ, List, IfSome, IsTrue, Ok, None, length, slice_index};
ghost use Rattle.mls_labels.specs.Names.{is_name as name_test};
ghost use Rattle.mls_requests.specs.ModeWords.{mode_word};
ghost use Rattle.mls_lines.specs.LineView.{Asks};
ghost use Rattle.mls_lines.specs.ScriptLine.{line_of};
ghost use Rattle.mls_scripts.specs.Access.{asked_by, kind_front};

use mls_labels::is_name;
use mls_lines::{MAX_LINE, Names};
use mls_tables::{Mode, ObjectId, SubjectId};
use std::alloc::Allocator;
use std::str;

/// What is asked about an access.
#[derive(Clone, Copy)]
pub enum Kind {
    /// That it begin.
    Get,
    /// That it end.
    Release,
    /// Whether it is held.
    Check,
}

/// What a get, a release or a check asks.
#[derive(Clone, Copy)]
pub struct Access {
    pub kind: Kind,
    pub subject: SubjectId,
    pub mode: Mode,
    pub object: ObjectId,
}

/// The bytes as a name, if they are one.
fn as_name(bytes: &[u8]) -> Option<&str>
    ensures text { IfSome result (λ name. name.now ≡ bytes.now) }
    ensures name { IfSome result (λ name. IsTrue (name_test name.now)) }
{
    if !is_name(bytes) {
        return None;
    }
    Some(unsafe { str::from_utf8_unchecked(bytes) })
}

/// The place of the first space.
fn space_in(text: &[u8]) -> Option<usize>
    ensures within { IfSome result (λ place. place < length text.now) }
    ensures space { IfSome result (λ place. slice_index text.now place ≡ 32) }
{
    for (i, byte) in text.iter().enumerate() {
        if *byte == b' ' {
            return Some(i);
        }
    }
    None
}

/// The name with which a text begins, and what follows the space after it.
fn lead_name(text: &[u8]) -> Option<(&str, &[u8])>
    ensures text { IfSome result (λ p. text.now ≡ p.0.now ++ 32 ∷ p.1.now) }
    ensures name { IfSome result (λ p. IsTrue (name_test p.0.now)) }
{
    let end = space_in(text)?;
    let (front, rest) = text.split_at(end);
    let name = as_name(front)?;
    Some((name, &rest[1..]))
}

/// What follows a word with which a text begins.
fn after_word<'a>(text: &'a [u8], word: &[u8]) -> Option<&'a [u8]>
    ensures { IfSome result (λ rest. text.now ≡ word.now ++ rest.now) }
{
    text.strip_prefix(word)
}

/// The kind of access that a text begins with, and what follows: the mode.
fn lead_kind(text: &[u8]) -> Option<(Kind, &[u8])>
    ensures { IfSome result (λ p. text.now ≡ kind_front p.0 ++ p.1.now) }
{
    // the first letter says which word it can be
    match text.first()? {
        b'g' => {
            let rest = after_word(text, b"get-")?;
            Some((Kind::Get, rest))
        }
        b'r' => {
            let rest = after_word(text, b"release ")?;
            Some((Kind::Release, rest))
        }
        _ => {
            let rest = after_word(text, b"check ")?;
            Some((Kind::Check, rest))
        }
    }
}

/// The mode that a text begins with, and what follows the space after it.
fn lead_mode(text: &[u8]) -> Option<(Mode, &[u8])>
    ensures { IfSome result (λ p. text.now ≡ mode_word p.0 ++ 32 ∷ p.1.now) }
{
    // the first letter says which word it can be
    match text.first()? {
        b'r' => {
            let rest = after_word(text, b"read ")?;
            Some((Mode::Read, rest))
        }
        b'w' => {
            let rest = after_word(text, b"write ")?;
            Some((Mode::Write, rest))
        }
        b'a' => {
            let rest = after_word(text, b"append ")?;
            Some((Mode::Append, rest))
        }
        _ => {
            let rest = after_word(text, b"execute ")?;
            Some((Mode::Execute, rest))
        }
    }
}

/// What a line asks that is a get, a release or a check with one space between words, of a subject and an object by
/// their names. Of other lines nothing is said.
pub(crate) fn read_access<N: Allocator>(names: &Names<N>, line: &[u8]) -> Option<Access>
    ensures { IfSome result
        (λ a. (vars : List (List ℕ × ℕ)) → line_of names.now vars line.now ≡ Ok (Asks None (asked_by a))) }
{
    if line.len() > MAX_LINE {
        return None;
    }
    let (subject, rest) = lead_name(line)?;
    let (kind, rest) = lead_kind(rest)?;
    let (mode, rest) = lead_mode(rest)?;
    let object = as_name(rest)?;
    let subject = names.subject(subject)?;
    let object = names.object(object)?;
    Some(Access {
        kind,
        subject,
        mode,
        object,
    })
}
