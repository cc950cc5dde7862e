//! Altered inputs, and how often each message is met.

use crate::case::Case;
use crate::runs::Outcome;
use crate::shown::Difference;
use std::alloc::Global;

/// How many bits a byte has.
pub const BITS: usize = 8;

/// The bits of a byte.
pub const MASKS: [u8; BITS] = [1, 2, 4, 8, 16, 32, 64, 128];

/// How many numbers are tried: each power of two up to 2^32, one less and one more.
pub const NUMBERS: usize = 99;

/// Turns the bit after `number` others into the other one.
fn flip(bytes: &mut [u8], number: usize) {
    if let Some(byte) = bytes.get_mut(number / BITS) {
        *byte ^= MASKS[number % BITS];
    }
}

/// Turns the bit after `number` others into the other one, and the one before it back.
pub fn flip_next(bytes: &mut [u8], number: usize) {
    if 0 < number {
        flip(bytes, number - 1);
    }
    flip(bytes, number);
}

/// Writes the number of this turn over the little-endian number of `turn` bytes at a place: a
/// power of two, one less or one more, as far as it has bytes.
pub fn set_number(bytes: &mut [u8], (place, size): (usize, usize), turn: usize) {
    let power = u32::try_from(turn / 3).unwrap_or(0);
    let greatest = 1u64.checked_shl(power).unwrap_or(0).saturating_add(1);
    let value = greatest.saturating_sub(2).saturating_add((turn % 3) as u64);
    let digits = value.to_le_bytes();
    for (byte, digit) in bytes.iter_mut().skip(place).take(size).zip(digits.iter()) {
        *byte = *digit;
    }
}

/// Whether the run ended well, or with a message of the case, which is counted then.
pub fn is_counted(case: &mut Case<'_>, outcome: &Outcome) -> bool {
    if outcome.is_clean() {
        return true;
    }
    for tally in case.tallies.iter_mut() {
        if outcome.reports(&[], &[tally.message]) {
            tally.met = tally.met.saturating_add(1);
            return true;
        }
    }
    false
}

/// Each message was met as often as the case states.
pub fn check_counts(alloc: Global, case: &Case<'_>) -> Result<(), Difference> {
    for tally in case.tallies.iter() {
        if tally.met != tally.count {
            let message = String::from_str(alloc, tally.message)?;
            return Err(Difference::Met(tally.met, message));
        }
    }
    Ok(())
}
