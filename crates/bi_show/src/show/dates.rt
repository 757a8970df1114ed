//! Dates in the Gregorian calendar.

ghost use Rattle.std.specs.Prelude.{◌≡◌, ◌+◌, ◌-◌, ◌/◌, ◌%◌, ◌<◌, ◌≤◌, ◌++◌, IfOk, OnOk};
ghost use Rattle.std.specs.Prelude.{string_bytes};
ghost use Rattle.bi_show.specs.Dates.{IsDate, IsTimeText, clock_text, date_text};
ghost use Rattle.bi_show.specs.Dates.{days_of_years};
ghost use Rattle.bi_show.specs.Dates.{is_leap_year as is_leap, month_lengths as lengths_of};
ghost use Rattle.bi_show.specs.Dates.{two_digits, year_length as length_of_year};

use std::alloc::{AllocError, Global};

/// A date.
#[derive(Clone, Copy)]
pub(super) struct Date {
    pub(super) year: u32,
    /// The month, from 1 on.
    pub(super) month: u32,
    /// The day of the month, from 1 on.
    pub(super) day: u32,
}

/// The seconds of a day.
const DAY: u32 = 86400;

/// Returns the text of a time, by how many seconds after 1970-01-01 00:00:00 UTC it is.
pub(super) fn time_text(alloc: Global, seconds: u32) -> Result<String, AllocError>
    ensures { IfOk result (λ text. IsTimeText seconds (string_bytes text)) }
{
    let mut text = String::new(alloc);
    add_date(&mut text, date_of(seconds))?;
    text.push(' ')?;
    add_clock(&mut text, seconds)?;
    text.push_str(" UTC")?;
    Ok(text)
}

/// Returns the date of a time, by how many seconds after 1970-01-01 00:00:00 UTC it is.
fn date_of(seconds: u32) -> Date
    ensures { IsDate (seconds / 86400) result }
{
    let mut year = 1970;
    let mut left = seconds / DAY;
    while left >= year_length(year) {
        left -= year_length(year);
        year += 1;
    }
    date_in_year(year, left)
}

/// Returns the date in a year, by how many days of the year come before it. Requires: the year is
/// 1970 or later, and has more days than come before the date.
fn date_in_year(year: u32, days: u32) -> Date
    requires from_1970 { 1970 ≤ year }
    requires in_year { days < length_of_year year }
    ensures { IsDate (days_of_years (year - 1970) + days) result }
{
    let mut left = days;
    let mut month = 1;
    for length in month_lengths(year) {
        if left < length {
            return Date {
                year,
                month,
                day: left + 1,
            };
        }
        left -= length;
        month += 1;
    }
    unreachable!()
}

/// Returns how many days a year has.
fn year_length(year: u32) -> u32
    ensures { result ≡ length_of_year year }
{
    if is_leap_year(year) { 366 } else { 365 }
}

/// Returns how many days each month of a year has, from January on.
fn month_lengths(year: u32) -> [u32; 12]
    ensures { result ≡ lengths_of year }
{
    let february = if is_leap_year(year) { 29 } else { 28 };
    [31, february, 31, 30, 31, 30, 31, 31, 30, 31, 30, 31]
}

/// Returns whether a year has a 29 February.
fn is_leap_year(year: u32) -> bool
    ensures { result ≡ is_leap year }
{
    year % 4 == 0 && (year % 100 != 0 || year % 400 == 0)
}

/// Appends a date. Requires: the year has at most four digits, and the month and the day have at
/// most two each.
fn add_date(text: &mut String, date: Date) -> Result<(), AllocError>
    requires year { date.year < 10000 }
    requires month { date.month < 100 }
    requires day { date.day < 100 }
    ensures { OnOk result (string_bytes text.new ≡ string_bytes text.old ++ date_text date) }
{
    add_two_digits(text, date.year / 100)?;
    add_two_digits(text, date.year % 100)?;
    text.push('-')?;
    add_two_digits(text, date.month)?;
    text.push('-')?;
    add_two_digits(text, date.day)
}

/// Appends the time of day of a time, by how many seconds after 1970-01-01 00:00:00 UTC it is.
fn add_clock(text: &mut String, seconds: u32) -> Result<(), AllocError>
    ensures { OnOk result
        (string_bytes text.new ≡ string_bytes text.old ++ clock_text (seconds % 86400)) }
{
    let passed = seconds % DAY;
    add_two_digits(text, passed / 3600)?;
    text.push(':')?;
    add_two_digits(text, passed / 60 % 60)?;
    text.push(':')?;
    add_two_digits(text, passed % 60)
}

/// Appends a number as two decimal digits. Requires: it is less than 100.
fn add_two_digits(text: &mut String, number: u32) -> Result<(), AllocError>
    requires { number < 100 }
    ensures { OnOk result (string_bytes text.new ≡ string_bytes text.old ++ two_digits number) }
{
    text.push(digit(number / 10))?;
    text.push(digit(number % 10))
}

/// Returns a decimal digit. Requires: the number is less than 10.
fn digit(number: u32) -> char
    requires { number < 10 }
    ensures { result ≡ 48 + number }
{
    char::from(b'0' + number as u8)
}
