//! Times as printed dates.
ghost use Rattle.std.specs.Prelude.{◌≡◌, ◌^◌, ◌+◌, ◌%◌, ◌<◌};
ghost use Rattle.cap_octet.specs.Calendar.{ymd};
ghost use Rattle.cap_octet.specs.Date.{clock_text, date_text, day_text, digits, second_text};

use crate::calendar::{CalendarDay, calendar_day};

/// Nanoseconds in a second.
pub const NANOS_PER_SECOND: u64 = 1_000_000_000;

/// Times are below this, in nanoseconds since 1970-01-01 00:00:00 UTC: it comes in April 2262.
pub const TIME_END: u64 = 1 << 63;

/// Seconds in a day.
pub const SECONDS_PER_DAY: u64 = 86_400;

/// The two digits of each number below 100, in ASCII; those of n are at place 2 n.
static PAIRS: [u8; 200] = *b"\
    0001020304050607080910111213141516171819\
    2021222324252627282930313233343536373839\
    4041424344454647484950515253545556575859\
    6061626364656667686970717273747576777879\
    8081828384858687888990919293949596979899";

/// The last decimal digit of a number, in ASCII.
fn last_digit(number: u32) -> u8
    ensures { result ≡ 48 + number % 10 }
{
    b'0' + (number % 10) as u8
}

/// The two decimal digits of a number below 100, in ASCII.
#[inline]
pub fn two_digits(number: u32) -> [u8; 2]
    requires { number < 100 }
    ensures { result ≡ digits 2 number }
{
    let place = 2 * number as usize;
    [PAIRS[place], PAIRS[place + 1]]
}

/// A day as `YYYY-MM-DD`.
fn day_bytes(day: CalendarDay) -> [u8; 10]
    ensures { result ≡ day_text (ymd day.year day.month day.day) }
{
    let (year, month, day) = (day.year as u32, day.month as u32, day.day as u32);
    // Divided by ten at a time, as `digits` of the contract does.
    [
        last_digit(year / 10 / 10 / 10),
        last_digit(year / 10 / 10),
        last_digit(year / 10),
        last_digit(year),
        b'-',
        last_digit(month / 10),
        last_digit(month),
        b'-',
        last_digit(day / 10),
        last_digit(day),
    ]
}

/// The time of day as `hh:mm:ss`. The seconds count from any midnight, even that of an earlier day.
fn clock_bytes(seconds: u64) -> [u8; 8]
    ensures { result ≡ clock_text seconds }
{
    let hour = (seconds / 3_600 % 24) as u32;
    let minute = (seconds / 60 % 60) as u32;
    let second = (seconds % 60) as u32;
    [
        last_digit(hour / 10),
        last_digit(hour),
        b':',
        last_digit(minute / 10),
        last_digit(minute),
        b':',
        last_digit(second / 10),
        last_digit(second),
    ]
}

/// The last nine decimal digits of a number, in ASCII.
#[inline]
pub fn nine_digits(number: u32) -> [u8; 9]
    ensures { result ≡ digits 9 number }
{
    // The first digit, then four pairs.
    let [b, c] = two_digits(number / 1_000_000 % 100);
    let [d, e] = two_digits(number / 10_000 % 100);
    let [f, g] = two_digits(number / 100 % 100);
    let [h, i] = two_digits(number % 100);
    [last_digit(number / 100_000_000), b, c, d, e, f, g, h, i]
}

/// The printed date of a second, counted from 1970-01-01 00:00:00 UTC, up to its point: `YYYY-MM-DD
/// hh:mm:ss.`, in UTC. 2^34 seconds are 198,841 days, fewer than `calendar_day` has; times end
/// before.
#[tactic(auto, unfolding(crate::specs::Date::second_text))]
pub fn second_bytes(second: u64) -> [u8; 20]
    requires { second < 2 ^ 34 }
    ensures { result ≡ second_text second }
{
    let day = calendar_day(second / SECONDS_PER_DAY);
    // YYYY-MM-DD hh:mm:ss.
    // 0         10       19
    let mut bytes = [b' '; 20];
    bytes[..10].copy_from_slice(&day_bytes(day));
    bytes[11..19].copy_from_slice(&clock_bytes(second));
    bytes[19] = b'.';
    bytes
}

/// The date of a time in nanoseconds since 1970-01-01 00:00:00 UTC: `YYYY-MM-DD
/// hh:mm:ss.nnnnnnnnn`, in UTC.
pub fn date_bytes(time: u64) -> [u8; 29]
    requires { time < 2 ^ 63 }
    ensures { result ≡ date_text time }
{
    // YYYY-MM-DD hh:mm:ss.nnnnnnnnn
    // 0                   20
    let mut bytes = [b' '; 29];
    bytes[..20].copy_from_slice(&second_bytes(time / NANOS_PER_SECOND));
    bytes[20..].copy_from_slice(&nine_digits((time % NANOS_PER_SECOND) as u32));
    bytes
}
