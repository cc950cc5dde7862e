//! The ranges of packets that words name.
ghost use Rattle.std.specs.Prelude.{◌≡◌, ◌≤◌, ◌^◌, ℕ, IfSome, IfNone, Some};
ghost use Rattle.capkit.specs.Range.{range_number, range_of, sides_of};
ghost use Rattle.capkit.specs.inside.Range.{WritesRange};

use cap_command::is_range;
use cap_octet::digits::decimal_value;

/// The number that a text of only decimal digits, one or more, writes, if it is below 2^64. Other
/// texts have none: a plus sign, which `parse` would take, isn't a digit.
fn number_in(text: &str) -> Option<u64>
    ensures number { IfSome result (λ n. range_number text.now ≡ Some n) }
    ensures none { IfNone result (IfSome (range_number text.now) (λ n. 2 ^ 64 ≤ n)) }
{
    decimal_value(text.as_bytes())
}

/// The texts of a range's first and last number, before and after its first hyphen; without a
/// hyphen both are the whole word.
fn range_sides<'a>(word: &'a str) -> (&'a str, &'a str)
    ensures first { result.0.now ≡ (sides_of word.entry.now).0 }
    ensures last { result.1.now ≡ (sides_of word.entry.now).1 }
{
    match word.split_once('-') {
        Some((first, last)) => (first, last),
        None => (word, word),
    }
}

/// The range that a word names: `N`, or `N-M` from N to M, in only decimal digits, with 1 <= N <=
/// M < 2^63. `None` of any other word.
pub fn range_in(word: &str) -> Option<(u64, u64)>
    ensures value { result ≡ range_of word.now }
    ensures written { IfSome result (WritesRange word.now) }
    ensures none { IfNone result ((range : ℕ × ℕ) → ¬ WritesRange word.now range) }
{
    let (first, last) = range_sides(word);
    let first = number_in(first)?;
    let last = number_in(last)?;
    if is_range(first, last) {
        Some((first, last))
    } else {
        None
    }
}
