//! The words of a line of a state's text.
ghost use Rattle.std.specs.Prelude.{◌≡◌, ◌<◌, option_map};
ghost use Rattle.mls_facts.specs.Decimals.{decimal_within};
ghost use Rattle.mls_tables.specs.declared.limits.TheConstants.{MAX_OBJECTS};
ghost use Rattle.mls_snapshots.specs.LineReading.{front, behind, keyed_in, object_in, label_in, profile_in};

use mls_labels::{IntLabel, SecLabel};
use mls_lines::Names;
use mls_requests::read_decimal;
use mls_tables::{MAX_OBJECTS, ObjectId};
use mls_tree::Profile;

/// What stands before the first of a byte, and what stands behind it; nothing stands behind where there is none.
pub(crate) fn cut(text: &str, at: char) -> (&str, &str)
    requires { at < 128 }
    ensures front { result.0.now ≡ front at text.now }
    ensures behind { result.1.now ≡ behind at text.now }
{
    match text.split_once(at) {
        Some((word, rest)) => (word, rest),
        None => (text, ""),
    }
}

/// The word behind a key, and what stands behind it.
pub(crate) fn keyed<'a>(text: &'a str, key: &str) -> Option<(&'a str, &'a str)>
    ensures { option_map (λ p. (p.0.now, p.1.now)) result ≡ keyed_in text.now key.now }
{
    let (word, rest) = cut(text, ' ');
    if word == key {
        Some(cut(rest, ' '))
    } else {
        None
    }
}

/// The number that a word writes, at most the number of objects.
pub(crate) fn number(word: &[u8]) -> Option<u16>
    ensures { result ≡ decimal_within MAX_OBJECTS word.now }
{
    let number = read_decimal(word, u64::from(MAX_OBJECTS))?;
    Some(number as u16)
}

/// The object of a number.
fn numbered(digits: &[u8]) -> Option<ObjectId>
    ensures { result ≡ decimal_within MAX_OBJECTS digits.now }
{
    let number = number(digits)?;
    Some(ObjectId(number))
}

/// The object of a word: by its number behind a `#`, or by its name.
pub(crate) fn object(names: &Names, word: &str) -> Option<ObjectId>
    ensures { result ≡ object_in names.now word.now }
{
    match word.as_bytes() {
        [b'#', digits @ ..] => numbered(digits),
        _ => names.object(word),
    }
}

/// The security label of a word.
pub(crate) fn security(names: &Names, word: &str) -> Option<SecLabel>
    ensures { result ≡ label_in names.now.security word.now }
{
    let label = names.security().read(word).ok()?;
    Some(SecLabel::of(label))
}

/// The integrity label of a word.
pub(crate) fn integrity(names: &Names, word: &str) -> Option<IntLabel>
    ensures { result ≡ label_in names.now.integrity word.now }
{
    let label = names.integrity().read(word).ok()?;
    Some(IntLabel::of(label))
}

/// The profile of a word.
pub(crate) fn profile(word: &str) -> Option<Profile>
    ensures { result ≡ profile_in word.now }
{
    match word {
        "1" => Some(Profile::One),
        "2" => Some(Profile::Two),
        _ => None,
    }
}
