//! What the words of a line are to name.
ghost use Rattle.std.specs.Prelude.{◌≡◌, map};
ghost use Rattle.mls_lines.specs.Words.{word_of};
ghost use Rattle.mls_explain_text.specs.Sorts.{sorts_by, sorts_in};

use mls_requests::ActionWord;

/// What a word of a line is to name.
#[derive(Clone, Copy, Debug, PartialEq, Eq)]
pub enum Sort {
    /// Nothing of the start.
    Plain,
    Subject,
    Object,
    /// A security label.
    Security,
    /// An integrity label.
    Integrity,
}

/// `SUBJ check MODE OBJ` and `SUBJ release MODE OBJ`.
const ACCESS: [Sort; 4] = [Sort::Subject, Sort::Plain, Sort::Plain, Sort::Object];

/// `SUBJ get-MODE OBJ` and `SUBJ delete OBJ`.
const OBJECT: [Sort; 3] = [Sort::Subject, Sort::Plain, Sort::Object];

/// `SUBJ give MODE SUBJ OBJ` and `SUBJ rescind MODE SUBJ OBJ`.
const CELL: [Sort; 5] = [
    Sort::Subject,
    Sort::Plain,
    Sort::Plain,
    Sort::Subject,
    Sort::Object,
];

/// `SUBJ create OBJ LABEL LABEL`.
const CHILD: [Sort; 5] = [
    Sort::Subject,
    Sort::Plain,
    Sort::Object,
    Sort::Security,
    Sort::Integrity,
];

/// `SUBJ level LABEL`.
const LEVEL: [Sort; 3] = [Sort::Subject, Sort::Plain, Sort::Security];

/// `SUBJ relabel OBJ LABEL`.
const RELABEL: [Sort; 4] = [Sort::Subject, Sort::Plain, Sort::Object, Sort::Security];

/// What the words of a line are to name whose second word is this one.
fn sorts_by(word: &[u8]) -> &'static [Sort]
    ensures { result.now ≡ sorts_by (word_of word.now) }
{
    if word == b"check".as_slice() {
        return &ACCESS;
    }
    match ActionWord::read(word) {
        None => &[],
        Some(ActionWord::Get(_) | ActionWord::Delete) => &OBJECT,
        Some(ActionWord::Release) => &ACCESS,
        Some(ActionWord::Give | ActionWord::Rescind) => &CELL,
        Some(ActionWord::Create) => &CHILD,
        Some(ActionWord::Level) => &LEVEL,
        Some(ActionWord::Relabel) => &RELABEL,
    }
}

/// What the words of a line are to name.
pub(crate) fn sorts_in(words: &[&str]) -> &'static [Sort]
    ensures { result.now ≡ sorts_in (map (λ word. word.now) words.now) }
{
    match words {
        [_, word, ..] => sorts_by(word.as_bytes()),
        _ => &[],
    }
}
