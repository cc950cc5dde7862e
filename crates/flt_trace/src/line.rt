//! A buffer for one line of text, in place, so that no memory is taken. What is appended has to
//! fit: the clauses ask for the room, of 80 bytes in all.

ghost use Rattle.std.specs.Fmt.{digit_glyph};
ghost use Rattle.std.specs.Prelude.{◌≡◌, ◌≤◌, ◌<◌, drop, false};
ghost use Rattle.flt_trace.specs.Text.{hex};

use itoa::Buffer;
use std::marker::Model;

/// How many bytes a line may have. One of `insn_text` has 66 at most.
const ROOM: usize = 80;

/// A text of at most 80 bytes, in place. Contracts see it as its bytes.
#[derive(Drop)]
pub struct Line {
    /// The first `len` are the text; the others mean nothing.
    bytes: [u8; ROOM],
    len: usize,
}

impl Model for Line {
    ghost use Rattle.std.specs.Prelude.{ℕ, ◌≤◌, List, take};

    ghost Value = { List ℕ };

    ghost view = { λ t. take t.len t.bytes };

    ghost invariant = { λ t. t.len ≤ 80 };
}

impl Line {
    ghost use Rattle.std.specs.Prelude.{◌≡◌, ◌+◌, ◌-◌, ◌^◌, ◌<◌, ◌≤◌, [], ◌∷◌, ◌++◌, length};
    ghost use Rattle.std.specs.Prelude.{decimal, replicate};
    ghost use Rattle.flt_trace.specs.Text.{hex, signed_number};

    /// An empty line.
    pub(crate) fn new() -> Self
        ensures { result ≡ [] }
    {
        Line {
            bytes: [0; ROOM],
            len: 0,
        }
    }

    /// The bytes of the line.
    pub fn as_slice(&self) -> &[u8]
        ensures bytes { result.now ≡ self.now }
        ensures room { length result.now ≤ 80 }
    {
        &self.bytes[..self.len]
    }

    /// How many bytes the line has.
    pub(crate) fn len(&self) -> usize
        ensures value { result ≡ length self.now }
        ensures room { result ≤ 80 }
    {
        self.len
    }

    /// Appends a byte, for which there has to be room.
    pub(crate) fn push(&mut self, byte: u8)
        requires { length self.old < 80 }
        ensures { self.new ≡ self.old ++ byte ∷ [] }
    {
        self.bytes[self.len] = byte;
        self.len += 1;
    }

    /// Appends bytes, for which there has to be room.
    pub(crate) fn push_all(&mut self, more: &[u8])
        requires { length self.old + length more.now ≤ 80 }
        ensures { self.new ≡ self.old ++ more.now }
    {
        let end = self.len + more.len();
        self.bytes[self.len..end].copy_from_slice(more);
        self.len = end;
    }

    /// Appends a byte a given number of times.
    pub(crate) fn push_times(&mut self, byte: u8, count: usize)
        requires { length self.old + count ≤ 80 }
        ensures { self.new ≡ self.old ++ replicate count byte }
    {
        for _pushed in 0..count {
            self.push(byte);
        }
    }

    /// Appends a number below 10^10 in decimal, of 10 digits at most.
    pub(crate) fn push_decimal(&mut self, number: u64)
        requires short { number < 10 ^ 10 }
        requires room { length self.old + 10 ≤ 80 }
        ensures value { self.new ≡ self.old ++ decimal number }
        ensures bound { length self.new ≤ length self.old + 10 }
    {
        let mut buffer = Buffer::new();
        self.push_all(buffer.format(number).as_bytes());
    }

    /// Appends a number in decimal as C's `%d` does: from 2^31 on it is a negative one, less by
    /// 2^32.
    #[tactic(auto, unfolding(crate::specs::Text::signed_number))]
    pub(crate) fn push_signed(&mut self, number: u32)
        requires { length self.old + 11 ≤ 80 }
        ensures value { self.new ≡ self.old ++ signed_number number }
        ensures bound { length self.new ≤ length self.old + 11 }
    {
        if number < 0x8000_0000 {
            self.push_decimal(u64::from(number));
        } else {
            self.push(b'-');
            self.push_decimal(0x1_0000_0000 - u64::from(number));
        }
    }

    /// Appends a number in hexadecimal as C's `%x` does: small letters, no leading zeros.
    pub(crate) fn push_hex(&mut self, number: u32)
        requires { length self.old + 8 ≤ 80 }
        ensures value { self.new ≡ self.old ++ hex number }
        ensures bound { length self.new ≤ length self.old + 8 }
    {
        let mut digits = [0; 8];
        let start = put_hex(&mut digits, number);
        self.push_all(&digits[start..]);
    }
}

/// The ASCII byte of a hexadecimal digit, from 0 to 15: a small letter from 10 on (`false` in the
/// clause: no capitals).
fn hex_digit(digit: u32) -> u8
    requires { digit < 16 }
    ensures { result ≡ digit_glyph false digit }
{
    if digit < 10 {
        b'0' + digit as u8
    } else {
        b'a' + (digit - 10) as u8
    }
}

/// Puts a number in hexadecimal, without leading zeros, at the end of the eight bytes, and returns
/// the index of its first digit.
fn put_hex(digits: &mut [u8; 8], number: u32) -> usize
    ensures value { drop result digits.new ≡ hex number }
    ensures inside { result ≤ 8 }
{
    let mut rest = number;
    let mut start = 7;
    while rest >= 16 {
        digits[start] = hex_digit(rest % 16);
        rest /= 16;
        start -= 1;
    }
    digits[start] = hex_digit(rest);
    start
}
