//! The subjects and objects that the words of a question name.
ghost use Rattle.std.specs.Prelude.{◌≡◌};
ghost use Rattle.mls_facts.specs.Decimals.{decimal_within};
ghost use Rattle.mls_replay.specs.Naming.{subject_word, object_word, or_fault, begins_with_hash};
ghost use Rattle.mls_replay.specs.Naming.{number_after as number_after_hash};
ghost use Rattle.mls_replay.specs.declared.naming.TheConstants.{MAX_NUMBER};
ghost use Rattle.mls_replay.specs.declared.question_fault.QuestionFault.TheVariants.{Subject, Object};

use crate::question_fault::QuestionFault;
use mls_lines::Names;
use mls_requests::read_decimal;
use mls_tables::{ObjectId, SubjectId};

/// The greatest number that a word can name.
pub const MAX_NUMBER: u64 = 65_535;

/// The number that digits write: decimal, without leading zeros, and at most `MAX_NUMBER`.
fn read_number(digits: &[u8]) -> Option<u16>
    ensures { result ≡ decimal_within MAX_NUMBER digits.now }
{
    let number = read_decimal(digits, MAX_NUMBER)?;
    Some(number as u16)
}

/// Whether a word is a `#` and what follows.
fn is_numbered(word: &[u8]) -> bool
    ensures { result ≡ begins_with_hash word.now }
{
    matches!(word, [b'#', ..])
}

/// The number after the `#` of a word.
fn number_after(word: &[u8]) -> Option<u16>
    ensures { result ≡ number_after_hash word.now }
{
    match word {
        [_, digits @ ..] => read_number(digits),
        [] => None,
    }
}

/// The subject that a word names: by a name of the start, or by its number after a `#`, known or not.
///
/// # Errors
/// `Subject` where the word is neither.
pub fn named_subject(names: &Names, word: &str) -> Result<SubjectId, QuestionFault>
    ensures { result ≡ or_fault (subject_word names.now word.now) Subject }
{
    let bytes = word.as_bytes();
    if is_numbered(bytes) {
        return match number_after(bytes) {
            Some(number) => Ok(SubjectId(number)),
            None => Err(QuestionFault::Subject),
        };
    }
    match names.subject(word) {
        Some(s) => Ok(s),
        None => Err(QuestionFault::Subject),
    }
}

/// The object that a word names: by a name of the start, or by its number after a `#`, active or not.
///
/// # Errors
/// `Object` where the word is neither.
pub fn named_object(names: &Names, word: &str) -> Result<ObjectId, QuestionFault>
    ensures { result ≡ or_fault (object_word names.now word.now) Object }
{
    let bytes = word.as_bytes();
    if is_numbered(bytes) {
        return match number_after(bytes) {
            Some(number) => Ok(ObjectId(number)),
            None => Err(QuestionFault::Object),
        };
    }
    match names.object(word) {
        Some(o) => Ok(o),
        None => Err(QuestionFault::Object),
    }
}
