//! Numbers that are written in digits, of a radix from 2 to 16.
ghost use Rattle.std.specs.{Char.digit_value, Str.Parse.digits_value};
ghost use Rattle.std.specs.Prelude.{◌≡◌, ◌<◌, ◌≤◌, ◌^◌, ◌+◌, ◌*◌, IfSome, IfNone, true, nat_lt};
ghost use Rattle.cap_octet.specs.Digits.{are_digits, in_u64, decimal_value};

/// Whether a byte is the digit of a radix in ASCII; for a letter both cases count.
fn is_digit(radix: u32, byte: u8) -> bool
    requires low { 2 ≤ radix }
    requires high { radix ≤ 16 }
    ensures { result ≡ nat_lt (digit_value byte) radix }
{
    (byte as char).is_digit(radix)
}

/// Whether all bytes are digits of a radix in ASCII; for a letter both cases count. `true` for
/// none.
pub fn are_digits(radix: u32, text: &[u8]) -> bool
    requires low { 2 ≤ radix }
    requires high { radix ≤ 16 }
    ensures { result ≡ are_digits radix text.now }
{
    text.iter().all(|byte| is_digit(radix, *byte))
}

/// The number with one digit appended, 12 and `3` to 123; `None` if that isn't below 2^64. The byte
/// is a digit of the radix.
fn append_digit(number: u64, radix: u32, byte: u8) -> Option<u64>
    requires low { 2 ≤ radix }
    requires high { radix ≤ 16 }
    requires digit { digit_value byte < radix }
    ensures value { IfSome result (λ n. n ≡ number * radix + digit_value byte) }
    ensures large { IfNone result (2 ^ 64 ≤ number * radix + digit_value byte) }
{
    // Never `None` here: the byte is a digit.
    let digit = (byte as char).to_digit(radix)?;
    number.checked_mul(radix as u64)?.checked_add(digit as u64)
}

/// The number that digits of a radix write, the most significant first; 0 of no digit. `None` from
/// 2^64 on.
#[tactic(auto, using(crate::proofs::Numerals::whole_grows))]
pub fn digits_number(radix: u32, digits: &[u8]) -> Option<u64>
    requires low { 2 ≤ radix }
    requires high { radix ≤ 16 }
    requires digits { are_digits radix digits.now ≡ true }
    ensures value { IfSome result (λ n. n ≡ digits_value radix digits.now) }
    ensures large { IfNone result (2 ^ 64 ≤ digits_value radix digits.now) }
{
    let mut number: u64 = 0;
    for byte in digits {
        number = append_digit(number, radix, *byte)?;
    }
    Some(number)
}

/// The number that a text of only decimal digits, one or more, writes; `None` for every other text
/// and from 2^64 on.
pub fn decimal_value(text: &[u8]) -> Option<u64>
    ensures { result ≡ in_u64 (decimal_value text.now) }
{
    if text.is_empty() || !are_digits(10, text) {
        return None;
    }
    digits_number(10, text)
}
