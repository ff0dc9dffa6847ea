//! Days of the Gregorian calendar, as the number of eight digits YYYYMMDD.
ghost use Rattle.std.specs.Prelude.{◌≡◌, ◌+◌, ◌-◌, ◌*◌, ◌/◌, ◌%◌, ◌<◌, ◌≤◌, IsTrue, slice_index, List, [], ◌∷◌, IfSome};
ghost use Rattle.text_defs.specs.Dates as calendar;

use crate::numbers::digits_of;

/// The days of the year before each month, where 29 February is left out.
const DAYS_BEFORE_MONTH: [u32; 12] = [0, 31, 59, 90, 120, 151, 181, 212, 243, 273, 304, 334];

/// The digits of a date, taken apart.
#[derive(Clone, Copy)]
pub struct Parts {
    /// The first four digits: 0 to 9999 in a valid date.
    pub year: u32,
    /// The next two: 1 for January to 12 in a valid date.
    pub month: u32,
    /// The last two: 1 to 31 in a valid date.
    pub day: u32,
}

/// The digits of the number YYYYMMDD, whether they write a day or not.
pub fn parts_of(date: u32) -> Parts
    ensures year { result.year ≡ calendar.year_of date }
    ensures month { result.month ≡ calendar.month_of date }
    ensures day { result.day ≡ calendar.day_of date }
{
    Parts {
        year: date / 10_000,
        month: date / 100 % 100,
        day: date % 100,
    }
}

fn is_leap_year(year: u32) -> bool
    ensures { result ≡ calendar.is_leap_year year }
{
    year % 4 == 0 && (year % 100 != 0 || year % 400 == 0)
}

fn days_in_month(year: u32, month: u32) -> u32
    ensures { result ≡ calendar.days_in_month year month }
{
    match month {
        2 if is_leap_year(year) => 29,
        2 => 28,
        4 | 6 | 9 | 11 => 30,
        _ => 31,
    }
}

/// Whether the eight digits YYYYMMDD write a day of the Gregorian calendar, of the years 0 to 9999
/// (GTFS Schedule, "Field Types", Date).
#[tactic(auto, unfolding(text_defs::specs::Dates::is_day))]
pub fn is_valid_date(date: u32) -> bool
    ensures { result ≡ calendar.is_day date }
{
    let Parts { year, month, day } = parts_of(date);
    year < 10_000 && (1 <= month && month <= 12) && (1 <= day && day <= days_in_month(year, month))
}

/// How many days lie between 1 January of the year 0 and a valid date.
#[tactic(auto, unfolding(text_defs::specs::Dates::is_day, text_defs::specs::Dates::day_number))]
pub fn day_number(date: u32) -> u32
    requires { IsTrue (calendar.is_day date) }
    ensures value { result ≡ calendar.day_number date }
    ensures range { result < 3_652_425 }
{
    let Parts { year, month, day } = parts_of(date);
    let leap_day = if month > 2 && is_leap_year(year) {
        1
    } else {
        0
    };
    let before_year = 365 * year + (year + 3) / 4 - (year + 99) / 100 + (year + 399) / 400;
    before_year + DAYS_BEFORE_MONTH[(month - 1) as usize] + leap_day + day - 1
}

/// The day of the week of a valid date, from 0 for Monday to 6 for Sunday.
pub fn weekday(date: u32) -> u32
    requires { IsTrue (calendar.is_day date) }
    ensures value { result ≡ calendar.weekday date }
    ensures range { result < 7 }
{
    (day_number(date) + 5) % 7
}

/// The day after a valid date, which is not the last day of the year 9999.
#[tactic(auto, unfolding(text_defs::specs::Dates::is_day, text_defs::specs::Dates::next_day))]
pub fn day_after(date: u32) -> u32
    requires valid { IsTrue (calendar.is_day date) }
    requires not_last { date < 99991231 }
    ensures value { result ≡ calendar.next_day date }
    ensures valid { IsTrue (calendar.is_day result) }
    ensures next { calendar.day_number result ≡ calendar.day_number date + 1 }
{
    let Parts { year, month, day } = parts_of(date);
    if day < days_in_month(year, month) {
        date + 1
    } else if month < 12 {
        year * 10_000 + (month + 1) * 100 + 1
    } else {
        (year + 1) * 10_000 + 101
    }
}

/// The date so many days after a valid date, which lies within the year 9999.
#[tactic(auto, unfolding(text_defs::specs::Dates::date_plus))]
pub fn date_plus(first: u32, days: u32) -> u32
    requires valid { IsTrue (calendar.is_day first) }
    requires in_time { calendar.day_number first + days < 3_652_425 }
    ensures value { result ≡ calendar.date_plus first days }
    ensures valid { IsTrue (calendar.is_day result) }
    ensures number { calendar.day_number result ≡ calendar.day_number first + days }
{
    let mut date = first;
    for _ in 0..days {
        date = day_after(date);
    }
    date
}

/// The date that eight digits YYYYMMDD write, where it is a day of the Gregorian calendar of the
/// years 0 to 9999 (GTFS Schedule, "Field Types", Date).
#[tactic(auto, unfolding(text_defs::specs::Dates::date_in))]
pub fn read_date(bytes: &[u8]) -> Option<u32>
    ensures value { result ≡ calendar.date_in bytes.now }
    ensures valid { IfSome result (λ date. IsTrue (calendar.is_day date)) }
{
    if bytes.len() != 8 {
        return None;
    }
    let date = digits_of(bytes)? as u32;
    if is_valid_date(date) {
        Some(date)
    } else {
        None
    }
}
