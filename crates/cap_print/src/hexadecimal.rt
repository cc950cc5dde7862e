//! Numbers in hexadecimal, with lower-case digits.
ghost use Rattle.std.specs.Prelude.{◌≡◌, ◌+◌, ◌≤◌, ◌<◌, ◌++◌, length, drop};
ghost use Rattle.cap_print.specs.Hexadecimal.{hex_digit, hex_two, hex_four, hex_eight, hex_sixteen};
ghost use Rattle.cap_print.specs.Hexadecimal.{hex_group, hex_place, without_zeros};

use crate::text::Text;

/// The digits, in ASCII.
static DIGITS: [u8; 16] = *b"0123456789abcdef";

/// The digit of a number below 16, in ASCII.
#[inline]
fn hex_digit(digit: u16) -> u8
    requires { digit < 16 }
    ensures { result ≡ hex_digit digit }
{
    DIGITS[digit as usize]
}

/// The four digits of a number of 16 bits, in ASCII.
#[inline]
#[tactic(auto, unfolding(crate::specs::Hexadecimal::hex_four))]
pub fn hex_four(number: u16) -> [u8; 4]
    ensures { result ≡ hex_four number }
{
    // 4,096 and 256 are 16^3 and 16^2.
    [
        hex_digit(number / 4096),
        hex_digit(number / 256 % 16),
        hex_digit(number / 16 % 16),
        hex_digit(number % 16),
    ]
}

/// The eight digits of a number of 32 bits, in ASCII.
#[tactic(auto, unfolding(crate::specs::Hexadecimal::hex_eight, crate::specs::Hexadecimal::hex_four))]
fn hex_eight(number: u32) -> [u8; 8]
    ensures { result ≡ hex_eight number }
{
    let [a, b, c, d] = hex_four((number / 0x1_0000) as u16);
    let [e, f, g, h] = hex_four((number % 0x1_0000) as u16);
    [a, b, c, d, e, f, g, h]
}

/// The sixteen digits of a number of 64 bits, in ASCII.
fn hex_sixteen(number: u64) -> [u8; 16]
    ensures { result ≡ hex_sixteen number }
{
    let high = hex_eight((number / 0x1_0000_0000) as u32);
    let low = hex_eight((number % 0x1_0000_0000) as u32);
    let [a, b, c, d, e, f, g, h] = high;
    let [i, j, k, l, m, n, o, p] = low;
    [a, b, c, d, e, f, g, h, i, j, k, l, m, n, o, p]
}

/// Counts the digits `0` at the start of these ASCII digits, up to `most`.
fn leading_zeros(digits: &[u8], most: usize) -> usize
    requires { most ≤ length digits.now }
    ensures value { drop result digits.now ≡ without_zeros most digits.now }
    ensures bound { result ≤ most }
{
    for i in 0..most {
        if digits[i] != b'0' {
            return i;
        }
    }
    most
}

/// Appends the two digits of a byte.
#[tactic(auto, unfolding(crate::specs::Hexadecimal::hex_two))]
pub fn push_hex_two(text: &mut Text, number: u8)
    requires { length text.old + 2 ≤ 256 }
    ensures value { text.new ≡ text.old ++ hex_two number }
    ensures bound { length text.new ≡ length text.old + 2 }
{
    let number = number as u16;
    text.push_all(&[hex_digit(number / 16), hex_digit(number % 16)]);
}

/// Appends the digits of a number of 16 bits without leading zeros, as a group of an IPv6 address.
#[tactic(auto, unfolding(crate::specs::Hexadecimal::hex_group))]
pub fn push_hex_group(text: &mut Text, number: u16)
    requires { length text.old + 4 ≤ 256 }
    ensures value { text.new ≡ text.old ++ hex_group number }
    ensures bound { length text.new ≤ length text.old + 4 }
{
    let [a, b, c, d] = hex_four(number);
    match number {
        0x1000.. => text.push_all(&[a, b, c, d]),
        0x100.. => text.push_all(&[b, c, d]),
        0x10.. => text.push_all(&[c, d]),
        _ => text.push(d),
    }
}

/// Appends a place among a packet's bytes, as that of a row: its digits without leading zeros, but
/// four at least.
#[tactic(auto, unfolding(crate::specs::Hexadecimal::hex_place))]
pub fn push_hex_place(text: &mut Text, place: u64)
    requires { length text.old + 16 ≤ 256 }
    ensures value { text.new ≡ text.old ++ hex_place place }
    ensures bound { length text.new ≤ length text.old + 16 }
{
    // Of the sixteen digits twelve may be left out.
    let digits = hex_sixteen(place);
    let start = leading_zeros(&digits, 12);
    text.push_all(&digits[start..]);
}
