//! The buffer in which a line or a row is made.
use crate::last_second::LastSecond;
use cap_octet::date::{NANOS_PER_SECOND, nine_digits, two_digits};
use itoa::Buffer;
use std::marker::Model;

/// The bytes of the buffer: a line has at most 250, and a row fewer.
const ROOM: usize = 256;

/// A buffer of at most 256 bytes, held in place. Contracts see it as its bytes. A caller that
/// appends has to make sure that there is room.
#[derive(Drop)]
pub struct Text {
    bytes: [u8; ROOM],
    /// The number of bytes in use, the first ones; the others have no meaning.
    len: usize,
    /// The second that was printed last, with its date, for `push_date`.
    last: LastSecond,
}

impl Model for Text {
    ghost use Rattle.std.specs.Prelude.{ℕ, ◌≤◌, List, take};

    ghost Value = { List ℕ };

    ghost view = { λ t. take t.len t.bytes };

    ghost invariant = { λ t. t.len ≤ 256 };
}

impl Text {
    ghost use Rattle.std.specs.Prelude.{◌≡◌, ◌+◌, ◌^◌, ◌<◌, ◌≤◌, [], ◌∷◌, ◌++◌, length, decimal};
    ghost use Rattle.cap_octet.specs.Date.{date_text};

    /// A buffer without bytes.
    pub fn new() -> Self
        ensures { result ≡ [] }
    {
        Text {
            bytes: [0; ROOM],
            len: 0,
            last: LastSecond::new(0),
        }
    }

    /// Removes all bytes.
    pub(crate) fn clear(&mut self)
        ensures { self.new ≡ [] }
    {
        self.len = 0;
    }

    /// The bytes that the buffer has.
    pub fn as_slice(&self) -> &[u8]
        ensures { result.now ≡ self.now }
    {
        &self.bytes[..self.len]
    }

    /// Appends a byte.
    #[inline]
    pub(crate) fn push(&mut self, byte: u8)
        requires { length self.old < 256 }
        ensures { self.new ≡ self.old ++ byte ∷ [] }
    {
        self.bytes[self.len] = byte;
        self.len += 1;
    }

    /// Appends bytes.
    #[inline]
    pub(crate) fn push_all(&mut self, more: &[u8])
        requires { length self.old + length more.now ≤ 256 }
        ensures { self.new ≡ self.old ++ more.now }
    {
        let end = self.len + more.len();
        self.bytes[self.len..end].copy_from_slice(more);
        self.len = end;
    }

    /// Appends a number below 100 in decimal, without leading zeros.
    #[inline]
    fn push_below_100(&mut self, number: u32)
        requires room { length self.old + 2 ≤ 256 }
        requires short { number < 100 }
        ensures value { self.new ≡ self.old ++ decimal number }
        ensures bound { length self.new ≤ length self.old + 2 }
    {
        if number < 10 {
            self.push(b'0' + number as u8);
        } else {
            self.push_all(&two_digits(number));
        }
    }

    /// Appends a number in decimal, without leading zeros: at most ten digits.
    // Below a million two digits at a time are looked up, the first pair without a leading zero.
    pub(crate) fn push_decimal(&mut self, number: u32)
        requires { length self.old + 10 ≤ 256 }
        ensures value { self.new ≡ self.old ++ decimal number }
        ensures bound { length self.new ≤ length self.old + 10 }
    {
        if number < 100 {
            self.push_below_100(number);
        } else if number < 10_000 {
            self.push_below_100(number / 100);
            self.push_all(&two_digits(number % 100));
        } else if number < 1_000_000 {
            self.push_below_100(number / 10_000);
            self.push_all(&two_digits(number / 100 % 100));
            self.push_all(&two_digits(number % 100));
        } else {
            self.push_any_decimal(number);
        }
    }

    /// Appends any number in decimal, by the crate itoa. It is out of line since most numbers are
    /// below a million.
    #[inline(never)]
    fn push_any_decimal(&mut self, number: u32)
        requires { length self.old + 10 ≤ 256 }
        ensures value { self.new ≡ self.old ++ decimal number }
        ensures bound { length self.new ≤ length self.old + 10 }
    {
        let mut buffer = Buffer::new();
        self.push_all(buffer.format(number).as_bytes());
    }

    /// Appends the date of a time in nanoseconds since 1970-01-01 00:00:00 UTC, as
    /// `YYYY-MM-DD hh:mm:ss.nnnnnnnnn`.
    pub(crate) fn push_date(&mut self, time: u64)
        requires room { length self.old + 29 ≤ 256 }
        requires time { time < 2 ^ 63 }
        ensures value { self.new ≡ self.old ++ date_text time }
        ensures bound { length self.new ≡ length self.old + 29 }
    {
        let second = self.last.date_of(time / NANOS_PER_SECOND);
        self.push_all(&second);
        self.push_all(&nine_digits((time % NANOS_PER_SECOND) as u32));
    }
}
