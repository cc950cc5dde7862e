//! How the ticks of an interface become times.
ghost use Rattle.std.specs.Option.{ok_or};
ghost use Rattle.std.specs.Prelude.{◌≡◌, ◌<◌, ◌^◌, if◌then◌else◌, IfOk};
ghost use Rattle.cap_pcapng.specs.Time.{is_resolution, time_by, representable_time};
ghost use Rattle.cap_pcapng.specs.Time.{units_per_second};

use cap_octet::Fault;
use cap_octet::date::{NANOS_PER_SECOND, TIME_END};

/// The bit of a resolution that shows a power of two.
const POWER_OF_TWO: u8 = 128;

/// The greatest negative power of ten that a resolution may be.
const MOST_OF_TEN: u8 = 12;

/// The greatest negative power of two that a resolution may be, with that bit.
const MOST_OF_TWO: u8 = POWER_OF_TWO + 32;

/// The resolution and the offset of an interface's ticks.
#[derive(Clone, Copy)]
pub struct Clock {
    /// How many ticks make a second.
    pub units: u64,
    /// What is added to each time, in seconds.
    pub offset: i64,
    ghost moves: { 0 < units },
}

/// How many ticks of a resolution make a second, or `BadTimeResolution` if its power is above 12
/// of ten or 32 of two (draft-ietf-opsawg-pcapng, option if_tsresol).
pub(crate) fn units_per_second(resolution: u8) -> Result<u64, Fault>
    ensures { result ≡ (if is_resolution resolution then Ok (units_per_second resolution)
        else Err Fault.BadTimeResolution) }
{
    match resolution {
        0..=MOST_OF_TEN => Ok(10u64.pow(u32::from(resolution))),
        POWER_OF_TWO..=MOST_OF_TWO => Ok(1 << (resolution - POWER_OF_TWO)),
        _ => Err(Fault::BadTimeResolution),
    }
}

impl Clock {
    /// The nanoseconds since 1970-01-01 00:00:00 UTC at a tick, cut to whole ones before the offset
    /// is added, or `TimeOutOfRange` if they are not from 0 to 2^63 - 1.
    pub fn time_at(&self, ticks: u64) -> Result<u64, Fault>
        ensures answer { result ≡ ok_or (representable_time ticks self.now.units self.now.offset)
            Fault.TimeOutOfRange }
        ensures in_range { IfOk result (λ time. time < 2 ^ 63) }
    {
        // The products stay below 2^94, so that nothing overflows.
        let whole = u128::from(ticks) * u128::from(NANOS_PER_SECOND) / u128::from(self.units);
        let time = whole as i128 + i128::from(self.offset) * i128::from(NANOS_PER_SECOND);
        time_in_range(time)
    }
}

/// This time in nanoseconds, or `TimeOutOfRange` if it isn't from 0 to 2^63 - 1.
fn time_in_range(time: i128) -> Result<u64, Fault>
    ensures answer { result ≡ ok_or (time_by time) Fault.TimeOutOfRange }
    ensures in_range { IfOk result (λ time. time < 2 ^ 63) }
{
    if time < 0 || time >= i128::from(TIME_END) {
        return Err(Fault::TimeOutOfRange);
    }
    Ok(time as u64)
}
