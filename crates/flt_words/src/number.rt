//! Reads numbers in words, and ranges of two numbers. All are below 2^32.

ghost use Rattle.std.specs.Prelude.{◌≡◌, ◌≤◌, ◌&&◌, ◌==◌, position};
ghost use Rattle.flt_words.specs.Numbers.{IsNumber, IsRange, WritesNumber, WritesDecimal};
ghost use Rattle.flt_words.specs.Numbers.{is_word_sized};
ghost use Rattle.flt_words.specs.inside.Numbers.{FindsMeaning, both_known};

use cap_octet::digits::{are_digits, digits_number};

/// Why a word has no value.
#[derive(Clone, Copy)]
pub(crate) enum WordFault {
    /// The word is of no kind.
    Unknown,
    /// A number in the word is above 2^32 - 1.
    TooLarge,
}

/// The number that digits of a radix write; leading zeros are allowed. `Unknown` if there is no
/// digit or another byte, `TooLarge` if the number is above 2^32 - 1.
pub(crate) fn parse_digits(radix: u32, digits: &[u8]) -> Result<u32, WordFault>
    requires low { 2 ≤ radix }
    requires high { radix ≤ 16 }
    ensures { FindsMeaning (WritesNumber radix digits.now) is_word_sized result }
{
    if digits.is_empty() || !are_digits(radix, digits) {
        return Err(WordFault::Unknown);
    }
    match digits_number(radix, digits) {
        // It doesn't even fit 64 bits.
        None => Err(WordFault::TooLarge),
        Some(number) if number > 0xffff_ffff => Err(WordFault::TooLarge),
        Some(number) => Ok(number as u32),
    }
}

/// The number that decimal digits write, with errors as of `parse_digits`. With leading zeros they
/// are `Unknown`: as a number in C it would be octal.
pub(crate) fn parse_decimal(digits: &[u8]) -> Result<u32, WordFault>
    ensures { FindsMeaning (WritesDecimal digits.now) is_word_sized result }
{
    if digits.len() > 1 && digits[0] == b'0' {
        return Err(WordFault::Unknown);
    }
    parse_digits(10, digits)
}

/// The number that a word spells as C does: decimal, octal after `0`, hexadecimal after `0x` or
/// `0X`. Errors are as of `parse_digits`.
pub(crate) fn parse_number(word: &[u8]) -> Result<u32, WordFault>
    ensures { FindsMeaning (IsNumber word.now) is_word_sized result }
{
    if word.len() < 2 || word[0] != b'0' {
        parse_decimal(word)
    } else if word[1] == b'x' || word[1] == b'X' {
        parse_digits(16, &word[2..])
    } else {
        parse_digits(8, &word[1..])
    }
}

/// The index of the first dash of a word; `None` if it has none.
fn find_dash(word: &[u8]) -> Option<usize>
    ensures { result ≡ position (λ b. b == 45) word.now }
{
    word.iter().position(|byte| *byte == b'-')
}

/// The two numbers of a range, or one error for both: `Unknown` where either number is, else
/// `TooLarge` where either is.
fn both_numbers(
    first: Result<u32, WordFault>,
    last: Result<u32, WordFault>,
) -> Result<(u32, u32), WordFault>
    ensures { result ≡ both_known first last }
{
    match (first, last) {
        (Ok(first), Ok(last)) => Ok((first, last)),
        (Err(WordFault::Unknown), _) | (_, Err(WordFault::Unknown)) => Err(WordFault::Unknown),
        _ => Err(WordFault::TooLarge),
    }
}

/// The two decimal numbers that a dash joins, as `1-1023`, in the order in which they stand. A word
/// without a dash is `Unknown`.
pub(crate) fn parse_range(word: &[u8]) -> Result<(u32, u32), WordFault>
    ensures { FindsMeaning (λ range. IsRange word.now range.0 range.1)
        (λ range. is_word_sized range.0 && is_word_sized range.1) result }
{
    match find_dash(word) {
        Some(dash) => both_numbers(
            parse_decimal(&word[..dash]),
            parse_decimal(&word[dash + 1..]),
        ),
        None => Err(WordFault::Unknown),
    }
}
