//! Days and weeks of times, by the Gregorian calendar.
use mls_marks::Time;
use std::alloc::AllocError;

/// The number that some digits write.
fn digits(text: &[u8]) -> u64 {
    let mut number = 0u64;
    for digit in text {
        number = number
            .saturating_mul(10)
            .saturating_add(u64::from(digit.saturating_sub(b'0')));
    }
    number
}

/// The number of a day, of which 1 March of the year 0 is the first.
fn day_number(year: u64, month: u64, day: u64) -> u64 {
    let (year, month) = if month > 2 {
        (year, month - 3)
    } else {
        (year.saturating_sub(1), month.saturating_add(9))
    };
    let before = (month.saturating_mul(153).saturating_add(2)) / 5;
    year.saturating_mul(365)
        .saturating_add(year / 4)
        .saturating_sub(year / 100)
        .saturating_add(year / 400)
        .saturating_add(before)
        .saturating_add(day.saturating_sub(1))
}

/// The week of a time, which begins on a Monday.
pub fn week_of(time: &Time) -> u64 {
    let text = time.text();
    let day = day_number(
        digits(&text[0..4]),
        digits(&text[5..7]),
        digits(&text[8..10]),
    );
    // (the day that is numbered 5 is a Monday)
    day.saturating_add(2) / 7
}

/// The year of a day, and the day in it, where years begin on 1 March.
fn year_of(day: u64) -> (u64, u64) {
    let (era, rest) = (day / 146_097, day % 146_097);
    let leap = (rest / 1_460)
        .saturating_add(rest / 146_096)
        .saturating_sub(rest / 36_524);
    let year = rest.saturating_sub(leap) / 365;
    let before = year
        .saturating_mul(365)
        .saturating_add(year / 4)
        .saturating_sub(year / 100);
    (
        era.saturating_mul(400).saturating_add(year),
        rest.saturating_sub(before),
    )
}

/// Appends a number of two digits behind a `-`.
fn push_two(text: &mut String, number: u64) -> Result<(), AllocError> {
    let alloc = *text.allocator();
    text.push_str("-")?;
    if number < 10 {
        text.push_str("0")?;
    }
    let digits = format!(in alloc; "{number}")?;
    let done = text.push_str(&digits);
    drop(digits);
    done
}

/// Appends the Monday of a week: `YYYY-MM-DD`.
///
/// # Errors
/// `AllocError` where an allocation failed. The text may then have a part of it.
pub fn push_week(text: &mut String, week: u64) -> Result<(), AllocError> {
    let (year, rest) = year_of(week.saturating_mul(7).saturating_sub(2));
    let month = rest.saturating_mul(5).saturating_add(2) / 153;
    let day = rest.saturating_sub(month.saturating_mul(153).saturating_add(2) / 5);
    let (year, month) = if month < 10 {
        (year, month.saturating_add(3))
    } else {
        (year.saturating_add(1), month.saturating_sub(9))
    };
    let alloc = *text.allocator();
    let digits = format!(in alloc; "{year}")?;
    for _ in digits.len()..4 {
        text.push_str("0")?;
    }
    let done = text.push_str(&digits);
    drop(digits);
    done?;
    push_two(text, month)?;
    push_two(text, day.saturating_add(1))
}
