//! What the words of a verification ask for.
use crate::job::VerifyWords;
use crate::question_words::operand;
use crate::words_fault::{FormedOption, WordsFault};
use clap::ArgMatches;
use mls_marks::Digest;

/// The digest of an option, where that is told.
///
/// # Errors
/// `Digest` where its word is none.
fn digest<'a>(
    matches: &ArgMatches<'a>,
    option: FormedOption,
) -> Result<Option<Digest>, WordsFault<'a>> {
    let Some(word) = matches.get_str(option.name()) else {
        return Ok(None);
    };
    match Digest::read(word.as_bytes()) {
        Some(digest) => Ok(Some(digest)),
        None => Err(WordsFault::Digest { option, word }),
    }
}

/// What a verification was asked for.
///
/// # Errors
/// `Digest` where a word is to be a digest and is none.
pub(crate) fn verify_words<'a>(
    matches: &ArgMatches<'a>,
) -> Result<VerifyWords<'a>, WordsFault<'a>> {
    Ok(VerifyWords {
        start: operand(matches, "START"),
        journal: operand(matches, "JOURNAL"),
        marks: operand(matches, "MARKS"),
        from: digest(matches, FormedOption::From)?,
        digest: digest(matches, FormedOption::Digest)?,
    })
}
