//! Words of options that are to be numbers.
use crate::argument::{GREATEST_SEGMENT, LEAST_SEGMENT};
use crate::words_fault::{NumberSort, WordsFault};
use clap::Error;
use clap::error::ErrorKind;

/// The option of a word, behind the two dashes, and its value where the word has that, too.
fn option_in(word: &str) -> Option<(&str, Option<&str>)> {
    let option = word.strip_prefix("--")?;
    match option.split_once('=') {
        Some((name, value)) => Some((name, Some(value))),
        None => Some((option, None)),
    }
}

/// What is counted by the number that an option of this name has, where it has one.
fn sort_of(option: &str) -> Option<NumberSort> {
    if option == "at" || option == "from" || option == "to" {
        Some(NumberSort::Entry)
    } else if option == "session" {
        Some(NumberSort::Session)
    } else if option == "segment" {
        Some(NumberSort::Segment)
    } else {
        None
    }
}

/// Whether a word is a number of this sort.
fn is_number(sort: NumberSort, word: &str) -> bool {
    match sort {
        NumberSort::Entry => word.parse::<u64>().is_ok(),
        NumberSort::Session => word.parse::<u32>().is_ok(),
        NumberSort::Segment => match word.parse::<u32>() {
            Ok(bytes) => {
                let bytes = i64::from(bytes);
                LEAST_SEGMENT <= bytes && bytes <= GREATEST_SEGMENT
            }
            Err(_) => false,
        },
    }
}

/// What is wrong with the value of an option, where that is to be a number and is none.
fn value_fault<'a>(option: &'a str, word: &'a str) -> Option<WordsFault<'a>> {
    let sort = sort_of(option)?;
    if is_number(sort, word) {
        None
    } else {
        Some(WordsFault::Number { option, sort, word })
    }
}

/// The first value of an option among words that is to be a number and is none.
fn first_fault<'a>(words: &'a [String]) -> Option<WordsFault<'a>> {
    let mut before = "";
    for word in words {
        let word = word.as_str();
        let (option, value) = match option_in(word) {
            Some((option, Some(value))) => (option, value),
            _ => (before, word),
        };
        let fault = value_fault(option, value);
        if fault.is_some() {
            return fault;
        }
        before = match option_in(word) {
            Some((option, None)) => option,
            _ => "",
        };
    }
    None
}

/// The number that is wrong among words, where they aren't understood for that.
pub(crate) fn number_fault<'a>(error: &Error, words: &'a [String]) -> Option<WordsFault<'a>> {
    match error.kind() {
        ErrorKind::ValueValidation => first_fault(words),
        _ => None,
    }
}
