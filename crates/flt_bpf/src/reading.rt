//! Reads listings, as `tcpdump -ddd` writes them: the first line has the number of instructions,
//! each line after it one instruction, as four numbers (code, jt, jf, k).

ghost use Rattle.std.specs.List.{slice_split};
ghost use Rattle.std.specs.Prelude.{◌≡◌, ℕ, ◌+◌, ◌<◌, ◌≤◌, ◌==◌, List, ◌∷◌, length, Option, Some};
ghost use Rattle.std.specs.Prelude.{IfOk, IfErr, IfSome, IfNone as OnNone};
ghost use Rattle.flt_bpf.specs.{Listing.lines_of, Listing.IsListing, Refusal.IsReasonFor};
ghost use Rattle.flt_bpf.specs.inside.Reading.{pieces_after, numeral, after, later_numbers};
ghost use Rattle.flt_bpf.specs.inside.Reading.{line_numbers, only_of, HasAtMostOne, insn_from};
ghost use Rattle.flt_bpf.specs.inside.Reading.{insn_of, AreInsns, IsFaultAfter};

use crate::fault::ListingFault;
use crate::insn::Insn;
use crate::program::MOST_INSTRUCTIONS;
use cap_octet::digits::decimal_value;
use std::alloc::Allocator;

/// The most bytes that a listing may have.
pub const MOST_BYTES: usize = 1_048_576;

/// The byte between the numbers of a line.
pub(crate) const BLANK: u8 = b' ';

/// The byte that ends a line.
pub(crate) const LINE_FEED: u8 = b'\n';

/// A text that is cut at the first occurrence of a byte: the piece before it, and what follows it
/// if it occurs.
#[derive(Clone, Copy)]
struct Cut<'a> {
    piece: &'a [u8],
    rest: Option<&'a [u8]>,
}

/// Cuts a text at its first byte `stop`, which is in neither part. A text without `stop` is one
/// piece.
fn split_at_first(text: &[u8], stop: u8) -> Cut<'_>
    ensures pieces { slice_split (λ b. b == stop) text.now
        ≡ result.piece.now ∷ pieces_after stop result.rest }
    ensures whole { OnNone result.rest (result.piece.now ≡ text.now) }
{
    for (at, byte) in text.iter().enumerate() {
        if *byte == stop {
            return Cut {
                piece: &text[..at],
                rest: Some(&text[at + 1..]),
            };
        }
    }
    Cut {
        piece: text,
        rest: None,
    }
}

/// The value of 1 to 10 decimal digits, as many as a number of 32 bits may have; `None` for any
/// other text.
#[tactic(auto, using(cap_octet::proofs::Numerals::few_in_u64))]
fn parse_number(digits: &[u8]) -> Option<u64>
    ensures { result ≡ numeral digits.now }
{
    if digits.len() > 10 {
        return None;
    }
    decimal_value(digits)
}

/// The text without the blanks at its start. Its numbers are the same, since several blanks between
/// two numbers count as one.
fn after_blanks(text: &[u8]) -> &[u8]
    ensures { later_numbers (slice_split (λ b. b == BLANK) text.now) ≡ line_numbers result.now }
{
    for (at, byte) in text.iter().enumerate() {
        if *byte != BLANK {
            return &text[at..];
        }
    }
    &text[text.len()..]
}

/// The number before the first blank of a line, and the line from the next number on. `None` if the
/// line has no blank, or no number before it.
fn first_number(line: &[u8]) -> Option<(u64, &[u8])>
    ensures first { IfSome result (λ first. line_numbers line.now
        ≡ after (Some first.0) (line_numbers first.1.now)) }
    ensures last { OnNone result (HasAtMostOne (line_numbers line.now)) }
{
    let cut = split_at_first(line, BLANK);
    let (Some(number), Some(rest)) = (parse_number(cut.piece), cut.rest) else {
        return None;
    };
    Some((number, after_blanks(rest)))
}

/// The value of a line that is one number; `None` for any other line.
fn only_number(line: &[u8]) -> Option<u64>
    ensures { result ≡ only_of (line_numbers line.now) }
{
    let cut = split_at_first(line, BLANK);
    match cut.rest {
        None => parse_number(cut.piece),
        Some(_) => None,
    }
}

/// The instruction with these fields; `None` if a field is out of range for its type.
fn insn_with_fields(code: u64, jt: u64, jf: u64, k: u64) -> Option<Insn>
    ensures { result ≡ insn_from code jt jf k }
{
    if code < 1 << 16 && jt < 1 << 8 && jf < 1 << 8 && k < 1 << 32 {
        Some(Insn {
            code: code as u16,
            jt: jt as u8,
            jf: jf as u8,
            k: k as u32,
        })
    } else {
        None
    }
}

/// The instruction on a line of four numbers; `None` for any other line.
fn insn_on_line(line: &[u8]) -> Option<Insn>
    ensures { result ≡ insn_of (line_numbers line.now) }
{
    let code = first_number(line)?;
    let jt = first_number(code.1)?;
    let jf = first_number(jt.1)?;
    match only_number(jf.1) {
        Some(k) => insn_with_fields(code.0, jt.0, jf.0, k),
        None => None,
    }
}

/// The first line of a text, which must not be empty, without its line feed, and what follows it.
fn first_line(text: &[u8]) -> (&[u8], &[u8])
    requires { 0 < length text.now }
    ensures { lines_of text.now ≡ result.0.now ∷ lines_of result.1.now }
{
    let cut = split_at_first(text, LINE_FEED);
    match cut.rest {
        Some(rest) => (cut.piece, rest),
        None => (cut.piece, &text[text.len()..]),
    }
}

/// Reads `count` instructions, one per line; `text` is a listing from its line 2 on. Errors:
/// `NotListing(n)`, n being the first wrong line of the listing, or `Memory` if an allocation
/// fails.
fn insns_on_lines<A: Allocator>(
    alloc: A,
    count: usize,
    text: &[u8],
) -> Result<Vec<Insn, A>, ListingFault>
    requires { count ≤ 32768 }
    ensures insns { IfOk result (λ insns. AreInsns count (lines_of text.now) insns.items) }
    ensures wrong { IfErr result (IsFaultAfter count (lines_of text.now)) }
{
    let mut insns = Vec::new(alloc);
    let mut rest = text;
    for at in 0..count {
        if rest.is_empty() {
            return Err(ListingFault::NotListing(at + 2));
        }
        let first = first_line(rest);
        match insn_on_line(first.0) {
            None => return Err(ListingFault::NotListing(at + 2)),
            Some(insn) => match insns.push(insn) {
                Ok(()) => rest = first.1,
                Err(_) => return Err(ListingFault::Memory),
            },
        }
    }
    if rest.is_empty() {
        Ok(insns)
    } else {
        Err(ListingFault::NotListing(count + 2))
    }
}

/// Reads the instructions of a listing. Several blanks between numbers, leading zeros (at most 10
/// digits per number) and a last line without a line feed are accepted too. Errors:
/// `NotListing(n)`, n being the first wrong line (1 for a text over 1,048,576 bytes), or `Memory`
/// if an allocation fails.
pub fn read_listing<A: Allocator>(alloc: A, text: &[u8]) -> Result<Vec<Insn, A>, ListingFault>
    ensures listing { IfOk result (λ insns. IsListing text.now insns.items) }
    ensures refused { IfErr result (IsReasonFor text.now) }
{
    if text.len() > MOST_BYTES || text.is_empty() {
        return Err(ListingFault::NotListing(1));
    }
    let first = first_line(text);
    match only_number(first.0) {
        Some(count) if count <= MOST_INSTRUCTIONS as u64 => {
            insns_on_lines(alloc, count as usize, first.1)
        }
        _ => Err(ListingFault::NotListing(1)),
    }
}
