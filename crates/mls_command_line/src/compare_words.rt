//! What the words of a comparison ask for.
use crate::job::Job;
use crate::question::{CompareWords, Question};
use crate::question_words::{operand, range, times};
use crate::words_fault::WordsFault;
use clap::ArgMatches;
use mls_settings::Setting;
use std::alloc::{AllocError, Global};

/// Adds a setting.
fn push_setting<'a>(
    settings: &mut Vec<Setting<'a>>,
    setting: Setting<'a>,
) -> Result<(), AllocError> {
    settings.push(setting)?;
    Ok(())
}

/// Adds the setting of a word.
///
/// # Errors
/// `Setting` where the word is none, `Memory` where an allocation failed.
fn push_word<'a>(settings: &mut Vec<Setting<'a>>, word: &'a str) -> Result<(), WordsFault<'a>> {
    let Some(setting) = Setting::read(word) else {
        return Err(WordsFault::Setting(word));
    };
    match push_setting(settings, setting) {
        Ok(()) => Ok(()),
        Err(AllocError) => Err(WordsFault::Memory),
    }
}

/// Adds the settings of words.
///
/// # Errors
/// Those of `push_word`, of the first word that has one.
fn push_settings<'a>(
    settings: &mut Vec<Setting<'a>>,
    words: &[&'a str],
) -> Result<(), WordsFault<'a>> {
    for word in words {
        push_word(settings, *word)?;
    }
    Ok(())
}

/// The settings that are asked for.
///
/// # Errors
/// Those of `push_settings`.
fn settings<'a>(
    alloc: Global,
    matches: &ArgMatches<'a>,
) -> Result<Vec<Setting<'a>>, WordsFault<'a>> {
    let mut settings = Vec::new(alloc);
    let words = matches.get_strs("set").unwrap_or(&[]);
    match push_settings(&mut settings, words) {
        Ok(()) => Ok(settings),
        Err(fault) => {
            drop(settings);
            Err(fault)
        }
    }
}

/// The second start file, and the journal, where there are such. Where members are set there is no second start file.
fn others<'a>(matches: &ArgMatches<'a>) -> (Option<&'a str>, Option<&'a str>) {
    let second = matches.get_str("START2");
    if matches.get_strs("set").is_some() {
        return (None, second);
    }
    (second, matches.get_str("JOURNAL"))
}

/// The first option that asks for some entries of a journal.
fn entries_option(matches: &ArgMatches<'_>) -> Option<&'static str> {
    if matches.get_one::<u64>("from").is_some() {
        return Some("from");
    }
    if matches.get_one::<u64>("to").is_some() {
        return Some("to");
    }
    matches.get_str("marks")?;
    Some("marks")
}

/// What `compare` was asked for.
///
/// # Errors
/// `Above` where the number of the first entry is above that of the last, else that of the times where a word is to be
/// one and is none or they are out of order, else `NoJournal` where entries are asked for and there is no journal, else
/// `Setting` where a word is to be a setting and is none; `Memory` where an allocation failed.
pub(crate) fn compare_words<'a>(
    alloc: Global,
    matches: &ArgMatches<'a>,
) -> Result<Job<'a>, WordsFault<'a>> {
    let (from, to) = range(matches)?;
    let times = times(matches, None)?;
    let (second, journal) = others(matches);
    if let (None, Some(option)) = (journal, entries_option(matches)) {
        return Err(WordsFault::NoJournal(option));
    }
    let settings = settings(alloc, matches)?;
    Ok(Job::Question(Question::Compare(CompareWords {
        first: operand(matches, "START1"),
        second,
        settings,
        journal,
        marks: matches.get_str("marks"),
        is_could: matches.get_flag("could"),
        is_broken: matches.get_flag("broken"),
        is_summed: matches.get_flag("summary"),
        from,
        to,
        times,
    })))
}
