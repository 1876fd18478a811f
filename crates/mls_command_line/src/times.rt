//! Times, as the clock and words tell them.
use crate::words_fault::{FormedOption, WordsFault};
use jiff::civil::{Date, DateTime, Time as TimeOfDay};
use jiff::fmt::temporal::DateTimePrinter;
use jiff::tz::Offset;
use jiff::{Timestamp, ToSpan};
use mls_marks::Time;
use std::io;
use std::io::ErrorKind;
use std::str::FromStr;
use std::time::SystemTime;

/// How many digits behind the point of a second a time has.
const DIGITS: u8 = 6;

/// A nanosecond less than the last of these digits counts.
const ALMOST: i64 = 999;

/// A nanosecond.
const ONE: i64 = 1;

/// How many bytes a date has.
const DATE_LEN: usize = 10;

/// An instant as a mark has it: what is less than a microsecond is left out. None has a year before 0 or after 9999.
fn of_instant(instant: Timestamp) -> Option<Time> {
    let printer = DateTimePrinter::new().precision(Some(DIGITS));
    Time::read(printer.timestamp_text(instant.to_plain()).as_bytes())
}

/// The time of the clock.
///
/// # Errors
/// Why it can't be told.
pub fn now(rt: &HostRuntime) -> io::Result<Time> {
    let Ok(instant) = Timestamp::try_from(SystemTime::now(rt)?) else {
        return Err(io::Error::from(ErrorKind::InvalidData));
    };
    of_instant(instant).ok_or(io::Error::from(ErrorKind::InvalidData))
}

/// The date that a word is, where it is one.
fn date_of(word: &str) -> Option<Date> {
    if word.len() == DATE_LEN {
        Date::from_str(word).ok()
    } else {
        None
    }
}

/// The beginning of a date in UTC.
fn beginning_of(date: Date) -> Option<Timestamp> {
    Offset::UTC
        .to_timestamp(date.to_datetime(TimeOfDay::midnight()))
        .ok()
}

/// The last instant of a date in UTC; of the last date the last instant that there is.
fn end_of(date: Date) -> Option<Timestamp> {
    let begin = beginning_of(date)?;
    let Ok(next) = date.tomorrow() else {
        return Some(Timestamp::MAX);
    };
    match beginning_of(next) {
        Some(next) if next > begin => next.checked_sub(ONE.nanoseconds()).ok(),
        _ => Some(Timestamp::MAX),
    }
}

/// The instant of a word: a time with an offset, as RFC 3339 has it, or the beginning of a date in UTC.
fn instant_of(word: &str) -> Option<Timestamp> {
    match date_of(word) {
        Some(date) => beginning_of(date),
        None => Timestamp::from_str(word).ok(),
    }
}

/// The last instant of a word: of a time with an offset that itself, of a date its end in UTC.
fn last_instant_of(word: &str) -> Option<Timestamp> {
    match date_of(word) {
        Some(date) => end_of(date),
        None => Timestamp::from_str(word).ok(),
    }
}

/// Whether the first of two words tells a time behind the last instant of the second.
pub(crate) fn is_behind(since: &str, until: &str) -> bool {
    match (instant_of(since), last_instant_of(until)) {
        (Some(first), Some(last)) => first > last,
        _ => false,
    }
}

/// Why the word of an option is no time.
fn time_fault<'a>(option: FormedOption, word: &'a str) -> WordsFault<'a> {
    match DateTime::from_str(word) {
        Ok(_) if word.len() > DATE_LEN => WordsFault::Zone { option, word },
        _ => WordsFault::Time { option, word },
    }
}

/// The last time of a mark that is at or before an instant.
fn time_to(word: &str) -> Option<Time> {
    of_instant(instant_of(word)?)
}

/// The last time of a mark that is at or before the last instant of a word.
fn last_time_of(word: &str) -> Option<Time> {
    of_instant(last_instant_of(word)?)
}

/// The first time of a mark that is at or after an instant.
fn time_on(word: &str) -> Option<Time> {
    of_instant(instant_of(word)?.checked_add(ALMOST.nanoseconds()).ok()?)
}

/// The time that the word of an option tells, where it is given: marks of this time or before are asked for.
///
/// # Errors
/// `Time` or `Zone` where its word is no time.
pub(crate) fn time_by<'a>(
    option: FormedOption,
    word: Option<&'a str>,
) -> Result<Option<Time>, WordsFault<'a>> {
    let Some(word) = word else {
        return Ok(None);
    };
    match time_to(word) {
        Some(time) => Ok(Some(time)),
        None => Err(time_fault(option, word)),
    }
}

/// The last time that the word of an option tells, where it is given: marks of this time or before are asked for, and
/// of a date those of all the day.
///
/// # Errors
/// `Time` or `Zone` where its word is no time.
pub(crate) fn time_until<'a>(
    option: FormedOption,
    word: Option<&'a str>,
) -> Result<Option<Time>, WordsFault<'a>> {
    let Some(word) = word else {
        return Ok(None);
    };
    match last_time_of(word) {
        Some(time) => Ok(Some(time)),
        None => Err(time_fault(option, word)),
    }
}

/// The first and the last time of the date that a word is.
///
/// # Errors
/// `Day` where it is none.
pub(crate) fn times_of_day<'a>(
    word: &'a str,
) -> Result<(Option<Time>, Option<Time>), WordsFault<'a>> {
    if date_of(word).is_none() {
        return Err(WordsFault::Day(word));
    }
    match (time_on(word), last_time_of(word)) {
        (Some(first), Some(last)) => Ok((Some(first), Some(last))),
        _ => Err(WordsFault::Day(word)),
    }
}

/// The time that the word of an option tells, where it is given: marks of this time or after are asked for.
///
/// # Errors
/// `Time` or `Zone` where its word is no time.
pub(crate) fn time_from<'a>(
    option: FormedOption,
    word: Option<&'a str>,
) -> Result<Option<Time>, WordsFault<'a>> {
    let Some(word) = word else {
        return Ok(None);
    };
    match time_on(word) {
        Some(time) => Ok(Some(time)),
        None => Err(time_fault(option, word)),
    }
}
