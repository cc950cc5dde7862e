//! Days of the calendar by their numbers.
ghost use Rattle.std.specs.Prelude.{◌≡◌, ◌<◌};
ghost use Rattle.cap_octet.specs.Calendar.{ymd, day_from_epoch};

use jiff_core::civil::Date;

/// A day of the Gregorian calendar, from 1970 on. Months and days count from 1.
#[derive(Clone, Copy)]
pub struct CalendarDay {
    pub year: u16,
    pub month: u8,
    pub day: u8,
}

/// The day that comes `number` days after 1970-01-01. The bound is past all times: these end in
/// 2262, and 200,000 days reach 2517.
pub fn calendar_day(number: u64) -> CalendarDay
    requires { number < 200_000 }
    ensures { ymd result.year result.month result.day ≡ day_from_epoch number }
{
    // The crate jiff_core has all days up to the year 9999.
    let date = Date::from_unix_epoch_day(number as i64).unwrap();
    CalendarDay {
        year: date.year as u16,
        month: date.month,
        day: date.day,
    }
}
