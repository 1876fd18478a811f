//! The request that a word of a line may have meant which is none, and the form of a line that lacks a word.
use std::alloc::Global;
use strsim::levenshtein;

/// The word that names what a subject asks, and what stands behind it in a line.
#[derive(Clone, Copy)]
pub(crate) struct Due {
    pub deed: &'static str,
    pub operands: &'static str,
}

/// The words that name what a subject asks, each with what stands behind it in a line.
const DEEDS: [(&'static str, &'static str); 12] = [
    ("get-read", "OBJECT"),
    ("get-append", "OBJECT"),
    ("get-write", "OBJECT"),
    ("get-execute", "OBJECT"),
    ("release", "MODE OBJECT"),
    ("check", "MODE OBJECT"),
    ("give", "MODE SUBJECT OBJECT"),
    ("rescind", "MODE SUBJECT OBJECT"),
    ("create", "PARENT SECURITY-LABEL INTEGRITY-LABEL"),
    ("delete", "OBJECT"),
    ("level", "LABEL"),
    ("relabel", "OBJECT LABEL"),
];

/// What stands before a mode in the word of a get.
const GET: &str = "get-";

/// The most bytes of a word that is near to one of these.
const LONGEST: usize = 13;

/// A word of a line that names no request, and the one that may have been meant.
#[derive(Clone, Copy)]
pub(crate) struct Meant<'a> {
    pub word: &'a str,
    pub deed: &'static str,
}

/// Whether a word is a mode for which a get is asked by this word.
fn is_mode_of(deed: &str, word: &str) -> bool {
    match deed.strip_prefix(GET) {
        Some(mode) => mode == word,
        None => false,
    }
}

/// Whether a word is near to the name of a request, or is that name in capitals.
fn is_near(alloc: Global, deed: &str, word: &str) -> bool {
    if deed.eq_ignore_ascii_case(word) {
        return true;
    }
    match levenshtein(alloc, word, deed) {
        Ok(far) => far <= 2,
        Err(_) => false,
    }
}

/// The request that a word may have meant: the get of a mode, else the first that is near.
fn deed_meant(alloc: Global, word: &str) -> Option<&'static str> {
    for (deed, _) in &DEEDS {
        if is_mode_of(*deed, word) {
            return Some(*deed);
        }
    }
    for (deed, _) in &DEEDS {
        if is_near(alloc, *deed, word) {
            return Some(*deed);
        }
    }
    None
}

/// The second word of a line, which is to name what is asked.
fn second_word(line: &str) -> Option<&str> {
    let mut words = line.split(' ');
    words.next()?;
    words.next()
}

/// The word of a line that names no request, and the one that it may have meant, where there is one.
pub(crate) fn form_meant(alloc: Global, line: &str) -> Option<Meant<'_>> {
    let word = second_word(line)?;
    if word.len() > LONGEST || word.len() < 3 {
        return None;
    }
    for (deed, _) in &DEEDS {
        if *deed == word {
            return None;
        }
    }
    let deed = deed_meant(alloc, word)?;
    Some(Meant { word, deed })
}

/// How many words a line has.
fn count_words(line: &str) -> usize {
    let mut count = 0usize;
    for word in line.split(' ') {
        if !word.is_empty() {
            count = count.saturating_add(1);
        }
    }
    count
}

/// Whether a line has too few words or too many for these operands.
fn misses(line: &str, operands: &str) -> bool {
    count_words(line) != count_words(operands).saturating_add(2)
}

/// Whether a word stands for a request: its name, or `get` for a get of read.
fn stands_for(deed: &str, word: &str) -> bool {
    deed == word || (word == "get" && deed == "get-read")
}

/// The form of a line whose second word names a request, where it has too few words or too many; of one that is `get`
/// that of a get.
pub(crate) fn form_due(line: &str) -> Option<Due> {
    let word = second_word(line)?;
    for (deed, operands) in &DEEDS {
        let (deed, operands) = (*deed, *operands);
        if stands_for(deed, word) && (deed != word || misses(line, operands)) {
            return Some(Due { deed, operands });
        }
    }
    None
}

/// Whether the second word of a line names a request that is no get.
pub(crate) fn asks_no_get(line: &str) -> bool {
    let Some(word) = second_word(line) else {
        return false;
    };
    for (deed, _) in &DEEDS {
        if *deed == word {
            return !word.starts_with(GET);
        }
    }
    false
}
