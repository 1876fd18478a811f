//! Who acts, by the names of a start.
ghost use Rattle.std.specs.Prelude.{◌≡◌, ◌<◌, ◌==◌, ℕ, IsTrue, IfOk, IfErr, OnOk, map, true};
ghost use Rattle.std.specs.List.{list_any, list_all, slice_split};
ghost use Rattle.mls_state.specs.State.{is_subject};
ghost use Rattle.mls_futures.specs.Closure.{acts_in};
ghost use Rattle.mls_could.specs.Actors.{names_it, names_known, are_known, is_actor, is_one, words_told, RefusesActors};

use crate::choice::Choice;
use mls_lines::Names;
use mls_replay::{QuestionFault, named_subject};
use mls_rules::State;
use mls_tables::SubjectId;
use std::alloc::{AllocError, Global};

/// The parts of a text between such bytes.
fn cut(alloc: Global, text: &str, at: char) -> Result<Vec<&str>, AllocError>
    requires { at < 128 }
    ensures { IfOk result (λ parts. map (λ part. part.now) parts.items ≡ slice_split (λ b. b == at) text.now) }
{
    text.split(at).collect(alloc)
}

/// The words that are told, none where there is no list.
fn words_told(alloc: Global, words: Option<&str>) -> Result<Vec<&str>, AllocError>
    ensures { IfOk result (λ parts. map (λ part. part.now) parts.items ≡ words_told words.entry) }
{
    match words {
        Some(words) => cut(alloc, words, ','),
        None => Ok(Vec::new(alloc)),
    }
}

/// Whether a word names the subject.
fn names_it(names: &Names, word: &str, s: SubjectId) -> bool
    ensures { result ≡ names_it names.now s word.now }
{
    match named_subject(names, word) {
        Ok(named) => named.number() == s.number(),
        Err(_) => false,
    }
}

/// Whether one of the words names the subject.
fn is_named(names: &Names, words: &[&str], s: SubjectId) -> bool
    ensures { result ≡ list_any (λ word. names_it names.now s word.now) words.now }
{
    for word in words {
        if names_it(names, word, s) {
            return true;
        }
    }
    false
}

/// Whether a word names a known subject.
fn names_known(names: &Names, state: &State, word: &str) -> bool
    ensures { result ≡ names_known names.now state.now word.now }
{
    match named_subject(names, word) {
        Ok(named) => state.is_subject(named),
        Err(_) => false,
    }
}

/// Whether each of the words names a known subject.
fn are_known(names: &Names, state: &State, words: &[&str]) -> bool
    ensures { result ≡ list_all (λ word. names_known names.now state.now word.now) words.now }
{
    for word in words {
        if !names_known(names, state, word) {
            return false;
        }
    }
    true
}

/// Whether a known subject acts, by what a question says of the words that name it.
fn is_one(names: &Names, state: &State, choice: Choice, words: &[&str], s: SubjectId) -> bool
    requires { IsTrue (is_subject state.now s) }
    ensures { result ≡ is_one names.now state.now choice (map (λ word. word.now) words.now) s }
{
    match choice {
        Choice::Untrusted => !state.is_trusted(s),
        Choice::All => true,
        Choice::Named => is_named(names, words, s),
        Choice::Others => !is_named(names, words, s),
    }
}

/// Of each known subject, by number, whether it acts.
fn flags_of(
    alloc: Global,
    names: &Names,
    state: &State,
    choice: Choice,
    words: &[&str],
) -> Result<Vec<bool>, AllocError>
    ensures { IfOk result (λ flags. (s : ℕ)
        → acts_in flags.items s ≡ is_actor names.now state.now choice (map (λ word. word.now) words.now) s) }
{
    let mut flags = Vec::new(alloc);
    for n in 0..state.subject_count() {
        flags.push(is_one(names, state, choice, words, SubjectId::new(n)))?;
    }
    Ok(flags)
}

/// Who acts of those that some words name.
fn of_named(
    alloc: Global,
    names: &Names,
    state: &State,
    choice: Choice,
    words: &[&str],
) -> Result<Vec<bool>, QuestionFault>
    ensures ok { IfOk result (λ flags. (s : ℕ)
        → acts_in flags.items s ≡ is_actor names.now state.now choice (map (λ word. word.now) words.now) s) }
    ensures known { OnOk result (are_known names.now state.now (map (λ word. word.now) words.now) ≡ true) }
    ensures fault { IfErr result
        (λ fault. RefusesActors names.now state.now (map (λ word. word.now) words.now) fault) }
{
    if !are_known(names, state, words) {
        return Err(QuestionFault::Subject);
    }
    Ok(flags_of(alloc, names, state, choice, words)?)
}

/// Of each known subject, by number, whether it acts: all that are not trusted, all, those that are named by words with
/// commas between them, or all but those.
///
/// # Errors
/// - `Subject` where one of the words names no known subject.
/// - `Files` with `Memory` where an allocation failed.
pub fn actors_of(
    alloc: Global,
    names: &Names,
    state: &State,
    choice: Choice,
    words: Option<&str>,
) -> Result<Vec<bool>, QuestionFault>
    ensures ok { IfOk result (λ flags. (s : ℕ)
        → acts_in flags.items s ≡ is_actor names.now state.now choice (words_told words.entry) s) }
    ensures known { OnOk result (are_known names.now state.now (words_told words.entry) ≡ true) }
    ensures fault { IfErr result (λ fault. RefusesActors names.now state.now (words_told words.entry) fault) }
{
    let parts = words_told(alloc, words)?;
    let flags = of_named(alloc, names, state, choice, &parts);
    drop(parts);
    flags
}
