//! Reads addresses in words: groups of digits that a separator joins.

ghost use Rattle.std.specs.Str.Parse.{IsNumeral, digits_value};
ghost use Rattle.std.specs.Prelude.{◌≡◌, ◌≤◌, ◌<◌, ◌+◌, ◌*◌, ◌^◌, ℕ, MatchOption, length};
ghost use Rattle.flt_words.specs.Addresses.{AreIp6Ends, IsDotted, IsGroup, IsIp6, IsMac};
ghost use Rattle.flt_words.specs.inside.Addresses.{FindsAddress, IsDoubleColon, ReadsGroups};
ghost use Rattle.flt_words.specs.inside.Addresses.{base_of};
ghost use Rattle.flt_words.specs.Addresses.{IsWholeAddress, group_value, separator_of};

use crate::number::{parse_decimal, parse_digits};

/// The forms of groups, a group being what stands between two separators.
#[derive(Clone, Copy)]
pub(crate) enum Group {
    /// A decimal number up to 255, without leading zeros.
    Octet,
    /// One or two hexadecimal digits.
    Byte,
    /// One to four hexadecimal digits.
    Quad,
}

/// Groups that were read: one number, of which their values are the digits in their base, the first
/// group the highest; and how many groups there are.
#[derive(Clone, Copy)]
pub(crate) struct JoinedGroups {
    value: u128,
    count: u32,
}

impl Group {
    /// The byte that joins groups of this form.
    fn separator(self) -> u8
        ensures { result ≡ separator_of self }
    {
        match self {
            Group::Octet => b'.',
            Group::Byte | Group::Quad => b':',
        }
    }

    /// The base in which groups of this form are digits: a group's value is below it.
    fn base(self) -> u32
        ensures { result ≡ base_of self }
    {
        match self {
            Group::Octet | Group::Byte => 256,
            Group::Quad => 65536,
        }
    }

    /// The value of a group with these digits, or `None` if they aren't a group of this form.
    fn value(self, digits: &[u8]) -> Option<u32>
        ensures { MatchOption result (IsGroup self digits.now → ⊥)
            (λ n. IsGroup self digits.now × (n ≡ group_value self digits.now)) }
    {
        match self {
            Group::Octet => match parse_decimal(digits) {
                Ok(number) if number <= 255 => Some(number),
                _ => None,
            },
            Group::Byte => parse_hexadecimal(2, digits),
            Group::Quad => parse_hexadecimal(4, digits),
        }
    }
}

/// The number that 1 to `most` hexadecimal digits write, or `None` for other texts. With `most` up
/// to 4 it always fits.
fn parse_hexadecimal(most: usize, digits: &[u8]) -> Option<u32>
    requires { most ≤ 4 }
    ensures { MatchOption result (IsNumeral 16 digits.now × (length digits.now ≤ most) → ⊥)
        (λ n. IsNumeral 16 digits.now × (length digits.now ≤ most)
        × (n ≡ digits_value 16 digits.now)) }
{
    if digits.len() > most {
        return None;
    }
    parse_digits(16, digits).ok()
}

/// Reads a text as groups of a form with its separator between them, eight at most: as many as an
/// IPv6 address has. An empty text has none of them. `None` if a piece isn't a group of the form,
/// or there are more.
fn parse_groups(form: Group, text: &[u8]) -> Option<JoinedGroups>
    ensures { ReadsGroups form text.now result }
{
    let mut value: u128 = 0;
    let mut count: u32 = 0;
    if text.is_empty() {
        return Some(JoinedGroups { value, count });
    }
    let separator = form.separator();
    for digits in text.split(|byte| *byte == separator) {
        let digit = form.value(digits)?;
        if count == 8 {
            return None;
        }
        value = value * u128::from(form.base()) + u128::from(digit);
        count += 1;
    }
    Some(JoinedGroups { value, count })
}

/// The value of an address of the groups that were read with `zeros` more groups of 0 after them,
/// eight groups in all at most.
fn value_with_zeros(form: Group, joined: JoinedGroups, zeros: u32) -> u128
    requires small { joined.value < base_of form ^ joined.count }
    requires upper_bound { joined.count + zeros ≤ 8 }
    ensures { result ≡ joined.value * base_of form ^ zeros }
{
    // Multiplied and not shifted, since the clause has a product.
    let mut value = joined.value;
    for _done in 0..zeros {
        value *= u128::from(form.base());
    }
    value
}

/// Reads a word as two to four parts of an IPv4 address, as `10.1`: the address, missing parts 0,
/// and how many parts are written. `None` for other words, and for one part, which is a number.
pub(crate) fn parse_dotted(word: &[u8]) -> Option<(u32, u8)>
    ensures { MatchOption result ((address parts : ℕ) → IsDotted word.now address parts → ⊥)
        (λ dotted. IsDotted word.now dotted.0 dotted.1) }
{
    let joined = parse_groups(Group::Octet, word)?;
    if joined.count < 2 || joined.count > 4 {
        return None;
    }
    let address = value_with_zeros(Group::Octet, joined, 4 - joined.count);
    Some((address as u32, joined.count as u8))
}

/// Reads a word as this many groups, eight at most, the first the highest. `None` for other words.
fn parse_whole(form: Group, many: u32, word: &[u8]) -> Option<u128>
    requires { many ≤ 8 }
    ensures { FindsAddress (IsWholeAddress form (base_of form) many word.now) result }
{
    let joined = parse_groups(form, word)?;
    if joined.count != many {
        return None;
    }
    Some(joined.value)
}

/// Reads a word as a MAC address, six bytes joined by colons: 48 bits, the first byte the highest.
/// `None` for other words.
pub(crate) fn parse_mac(word: &[u8]) -> Option<u64>
    ensures { FindsAddress (IsMac word.now) result }
{
    Some(parse_whole(Group::Byte, 6, word)? as u64)
}

/// Reads a word as an IPv6 address: eight groups, or fewer with one `::` for the rest (RFC 4291,
/// 2.2). `None` for other words: a second `::` is left in the text after the first one, which
/// isn't a group.
pub(crate) fn parse_ip6(word: &[u8]) -> Option<u128>
    ensures { FindsAddress (IsIp6 word.now) result }
{
    match find_double_colon(word) {
        Some(at) => parse_shortened_ip6(&word[..at], &word[at + 2..]),
        None => parse_whole(Group::Quad, 8, word),
    }
}

/// An IPv6 address by the groups before and after its `::`: seven at most, since `::` is one or
/// more groups of 0. `None` if these texts aren't such groups.
fn parse_shortened_ip6(front: &[u8], back: &[u8]) -> Option<u128>
    ensures { FindsAddress (AreIp6Ends front.now back.now) result }
{
    let first = parse_groups(Group::Quad, front)?;
    let last = parse_groups(Group::Quad, back)?;
    if first.count + last.count > 7 {
        return None;
    }
    Some(value_with_zeros(Group::Quad, first, 8 - first.count) + last.value)
}

/// The index of the first `::` of a word; `None` if it has none.
fn find_double_colon(word: &[u8]) -> Option<usize>
    ensures { MatchOption result ((k : ℕ) → IsDoubleColon word.now k → ⊥)
        (λ i. (i + 1 < length word.now) × IsDoubleColon word.now i
        × ((k : ℕ) → k < i → IsDoubleColon word.now k → ⊥)) }
{
    for i in 1..word.len() {
        if word[i - 1] == b':' && word[i] == b':' {
            return Some(i - 1);
        }
    }
    None
}
