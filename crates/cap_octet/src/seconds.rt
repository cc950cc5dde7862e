//! Durations: decimal numbers of seconds that are read as nanoseconds; and the bound of all times.
ghost use Rattle.std.specs.Prelude.{◌≡◌, ◌<◌, ◌==◌, IfSome, length, position};
ghost use Rattle.cap_octet.specs.Seconds.{fraction_nanoseconds, duration_of_parts, duration_value};
ghost use Rattle.cap_octet.specs.Seconds.{time_below_end};

use crate::date::{NANOS_PER_SECOND, TIME_END};
use crate::digits::decimal_value;

/// The nanoseconds that 1 to 9 digits after the point write: `5` is 500,000,000. `None` for every
/// other text.
pub fn fraction_nanoseconds(text: &[u8]) -> Option<u64>
    ensures { result ≡ fraction_nanoseconds text.now }
{
    if text.len() > 9 {
        return None;
    }
    let number = decimal_value(text)?;
    // As if zeros followed, up to the ninth digit.
    Some(number * 10u64.pow(9 - text.len() as u32))
}

/// These nanoseconds, if they are below 2^63, as all times are; else `None`.
pub fn time_below_end(nanos: u64) -> Option<u64>
    ensures { result ≡ time_below_end nanos }
{
    (nanos < TIME_END).then_some(nanos)
}

/// The nanoseconds of whole seconds and a fraction in nanoseconds, each `None` if its text isn't a
/// number. `None` if either is, and from 2^63 nanoseconds on.
fn duration_of_parts(seconds: Option<u64>, fraction: Option<u64>) -> Option<u64>
    ensures { result ≡ duration_of_parts seconds fraction }
{
    let nanos = seconds?.checked_mul(NANOS_PER_SECOND)?;
    time_below_end(nanos.checked_add(fraction?)?)
}

/// The index of the first `.` (byte 46) in a text; `None` if it has none.
fn find_point(text: &[u8]) -> Option<usize>
    ensures value { result ≡ position (λ b. b == 46) text.now }
    ensures bound { IfSome result (λ point. point < length text.now) }
{
    text.iter().position(|byte| *byte == b'.')
}

/// The nanoseconds of an unsigned decimal number of seconds, with a point and 1 to 9 digits after
/// it or without both.
///
/// `None` for every other text, and from 2^63 nanoseconds on. There may be leading zeros; a digit
/// stands on each side of the point.
pub fn span_of(text: &str) -> Option<u64>
    ensures { result ≡ duration_value text.now }
{
    let bytes = text.as_bytes();
    match find_point(bytes) {
        None => duration_of_parts(decimal_value(bytes), Some(0)),
        Some(point) => duration_of_parts(
            decimal_value(&bytes[..point]),
            fraction_nanoseconds(&bytes[point + 1..]),
        ),
    }
}
