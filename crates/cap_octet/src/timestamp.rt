//! Timestamps that are read as times.
ghost use Rattle.std.specs.Prelude.{◌≡◌, ◌≤◌, ◌+◌, IsTrue, length};
ghost use Rattle.cap_octet.specs.Timestamp.{day_number, day_of_parts, second_of_day};
ghost use Rattle.cap_octet.specs.Timestamp.{clock_of_parts, time_of_parts, number_at};
ghost use Rattle.cap_octet.specs.Timestamp.{optional_fraction, is_date_time, date_time_value};
ghost use Rattle.cap_octet.specs.Timestamp.{time_value};

use crate::date::{NANOS_PER_SECOND, SECONDS_PER_DAY};
use crate::digits::decimal_value;
use crate::seconds::{fraction_nanoseconds, span_of, time_below_end};
use jiff_core::civil;
use jiff_core::civil::Date;

/// The number of 1970-01-01 as the crate jiff_core counts days from its first date, -9999-01-01.
const EPOCH: u32 = 4_371_587;

/// How many days after 1970-01-01 a day comes; `None` if the calendar has no such day, or its year
/// isn't from 1970 to 9999. `calendar_day` is the way back.
fn day_number(year: u64, month: u64, day: u64) -> Option<u64>
    ensures { result ≡ day_number year month day }
{
    if year < 1970 || year > 9999 || month < 1 || month > 12 || day < 1 {
        return None;
    }
    let (year, month) = (year as i16, month as u8);
    if day > civil::days_in_month(year, month) as u64 {
        return None;
    }
    let date = Date {
        year,
        month,
        day: day as u8,
    };
    Some((date.days_since_min() - EPOCH) as u64)
}

/// How many days after 1970-01-01 a day comes. `None` if its year, month or day isn't a number
/// (`None`), the calendar has no such day, or its year isn't from 1970 to 9999.
fn day_of_parts(year: Option<u64>, month: Option<u64>, day: Option<u64>) -> Option<u64>
    ensures { result ≡ day_of_parts year month day }
{
    day_number(year?, month?, day?)
}

/// The seconds since midnight of a time of day; `None` if there is no such time, as of a leap
/// second (23:59:60).
fn second_of_day(hour: u64, minute: u64, second: u64) -> Option<u64>
    ensures { result ≡ second_of_day hour minute second }
{
    if hour < 24 && minute < 60 && second < 60 {
        Some(hour * 3_600 + minute * 60 + second)
    } else {
        None
    }
}

/// The seconds since midnight of a time of day. `None` if hour, minute or second isn't a number
/// (`None`), or there is no such time.
fn clock_of_parts(hour: Option<u64>, minute: Option<u64>, second: Option<u64>) -> Option<u64>
    ensures { result ≡ clock_of_parts hour minute second }
{
    second_of_day(hour?, minute?, second?)
}

/// The nanoseconds since 1970-01-01 of a day's number (days since then), seconds since midnight and
/// a fraction in nanoseconds. `None` if one of the three is, and from 2^63 nanoseconds on.
fn time_of_parts(day: Option<u64>, clock: Option<u64>, fraction: Option<u64>) -> Option<u64>
    ensures { result ≡ time_of_parts day clock fraction }
{
    let (day, clock, fraction) = (day?, clock?, fraction?);
    let seconds = day.checked_mul(SECONDS_PER_DAY)?.checked_add(clock)?;
    let nanos = seconds.checked_mul(NANOS_PER_SECOND)?;
    time_below_end(nanos.checked_add(fraction)?)
}

/// The number that `count` decimal digits from place `at` write, 9 at most; `None` if one of
/// these bytes isn't a digit, or `count` is 0.
fn number_at(text: &[u8], at: usize, count: usize) -> Option<u64>
    requires there { at + count ≤ length text.now }
    requires upper_bound { count ≤ 9 }
    ensures { result ≡ number_at text.now at count }
{
    decimal_value(&text[at..at + count])
}

/// The nanoseconds of a fraction of a second, `.` and 1 to 9 digits; 0 of an empty text, `None` of
/// every other one.
fn optional_fraction(text: &[u8]) -> Option<u64>
    ensures { result ≡ optional_fraction text.now }
{
    if text.is_empty() {
        Some(0)
    } else if text[0] == b'.' {
        fraction_nanoseconds(&text[1..])
    } else {
        None
    }
}

/// Whether the marks of a date and a time of day in UTC are in their places:
///
/// ```text
/// YYYY-MM-DDThh:mm:ss[.n..]Z
///     4  7  10 13 16       last
/// ```
#[tactic(auto, unfolding(crate::specs::Timestamp::is_date_time))]
fn is_date_time(text: &[u8]) -> bool
    ensures value { result ≡ is_date_time text.now }
    ensures long { IsTrue result → 20 ≤ length text.now }
{
    text.len() >= 20
        && text[4] == b'-'
        && text[7] == b'-'
        && text[10] == b'T'
        && text[13] == b':'
        && text[16] == b':'
        && text[text.len() - 1] == b'Z'
}

/// The nanoseconds since 1970-01-01 00:00:00 UTC of a text whose marks are in their places
/// (`is_date_time`); `None` if what stands between them isn't a date, time of day and fraction,
/// and from 2^63 nanoseconds on.
fn date_time_value(text: &[u8]) -> Option<u64>
    requires { 20 ≤ length text.now }
    ensures { result ≡ date_time_value text.now }
{
    // YYYY-MM-DDThh:mm:ss[.n..]Z
    // 0    5  8  11 14 17 19
    let year = number_at(text, 0, 4);
    let day = day_of_parts(year, number_at(text, 5, 2), number_at(text, 8, 2));
    let hour = number_at(text, 11, 2);
    let clock = clock_of_parts(hour, number_at(text, 14, 2), number_at(text, 17, 2));
    time_of_parts(day, clock, optional_fraction(&text[19..text.len() - 1]))
}

/// The time of a timestamp, in nanoseconds since 1970-01-01 00:00:00 UTC.
///
/// A timestamp is `YYYY-MM-DDThh:mm:ss`, with a point and 1 to 9 digits after it or without, then
/// `Z` (a `date-time` of RFC 3339 in UTC); or a number of seconds as [`span_of`] reads it.
/// `None` for every other text, for a day that the calendar hasn't, for leap seconds, before 1970,
/// and from 2^63 nanoseconds on.
#[tactic(auto, unfolding(crate::specs::Timestamp::time_value))]
pub fn time_of(text: &str) -> Option<u64>
    ensures { result ≡ time_value text.now }
{
    let bytes = text.as_bytes();
    if is_date_time(bytes) {
        return date_time_value(bytes);
    }
    span_of(text)
}
