//! Cuts a text into tokens, from its first byte on: at each place the longest word or symbol is the
//! next token. Blanks separate tokens. Bytes that are neither blanks nor of words are symbols
//! (`spelling`), or begin no token.

ghost use Rattle.std.specs.Prelude.{◌≡◌, ◌≢◌, ◌<◌, ◌+◌, ◌==◌, ◌≤◌, IfErr, IfOk, MatchOption};
ghost use Rattle.std.specs.Prelude.{MatchResult, Ok, Err, None, Some, length, slice_index, take};
ghost use Rattle.std.specs.Prelude.{false, true, ℕ};
ghost use Rattle.flt_words.specs.Spellings.{symbol_of};
ghost use Rattle.flt_words.specs.Characters.{is_blank, starts_word, within_word};
ghost use Rattle.flt_words.specs.Tokens.{IsLongest, IsPiece, IsRefused, IsToken, Tokens};

use crate::fault::ExprFault;
use crate::spelling::symbol_of;
use crate::token::{Token, TokenKind};
use crate::word::word_kind_at;
use std::alloc::Allocator;

/// The longest text, in bytes (E1).
const LONGEST: usize = 65536;

/// Whether a byte only separates tokens: space, tab, line feed and carriage return.
fn is_blank(byte: u8) -> bool
    ensures { result ≡ is_blank byte }
{
    byte == b' ' || byte == b'\t' || byte == b'\n' || byte == b'\r'
}

/// Whether a word may begin with a byte, and so whether it may end with it: a letter, a digit or,
/// outside brackets, a colon, as in `::1`. `inside` is whether the byte is in brackets, in
/// which a colon is a token: `tcp[0:2]`.
fn starts_word(inside: bool, byte: u8) -> bool
    ensures { result ≡ starts_word inside byte }
{
    byte.is_ascii_alphanumeric() || (!inside && byte == b':')
}

/// Whether a word may have a byte between its ends: what it may begin with, points and dashes, as
/// in `10.0.0.1` and `tcp-syn`. `inside` is as in `starts_word`.
fn within_word(inside: bool, byte: u8) -> bool
    ensures { result ≡ within_word inside byte }
{
    starts_word(inside, byte) || byte == b'.' || byte == b'-'
}

/// How many bytes the word has with which a text begins. `inside` is whether the text is in
/// brackets. The word ends with the last byte that may end one: the dash of `10.0.0.1-` isn't part
/// of it.
fn first_word_len(inside: bool, rest: &[u8]) -> usize
    requires { starts_word inside (slice_index rest.now 0) ≡ true }
    ensures { IsLongest inside rest.now result }
{
    let mut len = 1;
    for i in 1..rest.len() {
        if !within_word(inside, rest[i]) {
            break;
        }
        if starts_word(inside, rest[i]) {
            len = i + 1;
        }
    }
    len
}

/// The symbol of `len` bytes with which a text begins, or `None` if it begins with none or is
/// shorter.
fn first_symbol_of_len(inside: bool, len: usize, rest: &[u8]) -> Option<TokenKind>
    ensures { MatchOption result
        (len ≤ length rest.now → symbol_of inside (take len rest.now) ≡ None)
        (λ kind. (len ≤ length rest.now) × (symbol_of inside (take len rest.now) ≡ Some kind)) }
{
    if len > rest.len() {
        return None;
    }
    symbol_of(inside, &rest[..len])
}

/// The longest symbol with which a text begins that begins with no word, and its length in bytes:
/// no symbol has more than 2. `None` if it begins with no symbol.
fn first_symbol(inside: bool, rest: &[u8]) -> Option<(TokenKind, usize)>
    requires { starts_word inside (slice_index rest.now 0) ≡ false }
    ensures { MatchOption result
        ((n : ℕ) → n ≤ length rest.now → IsPiece inside (take n rest.now) → ⊥)
        (λ symbol. IsLongest inside rest.now symbol.1
        × (symbol_of inside (take symbol.1 rest.now) ≡ Some symbol.0)) }
{
    if let Some(kind) = first_symbol_of_len(inside, 2, rest) {
        return Some((kind, 2));
    }
    let kind = first_symbol_of_len(inside, 1, rest)?;
    Some((kind, 1))
}

/// The token with which a text begins, and its length in bytes. `place` is the place at which that
/// text begins, from 1, and `inside` whether that is in brackets. An error is E2, E3 or E4 at this
/// place.
fn first_token(inside: bool, place: u32, rest: &[u8]) -> Result<(TokenKind, usize), ExprFault>
    requires { 0 < length rest.now }
    ensures { MatchResult result (λ token. IsToken inside place rest.now token.0 token.1)
        (IsRefused inside place rest.now) }
{
    if starts_word(inside, rest[0]) {
        let len = first_word_len(inside, rest);
        let kind = word_kind_at(place, &rest[..len])?;
        return Ok((kind, len));
    }
    match first_symbol(inside, rest) {
        Some(token) => Ok(token),
        None => Err(ExprFault::UnknownCharacter(place)),
    }
}

/// The tokens of a text, each with its place, or the leftmost refusal.
///
/// A text over 65,536 bytes is `TooLong` (E1). Else the leftmost of these is reported: a character
/// that begins no token (E2), a word of no kind (E3), a number above 2^32 - 1 (E4). `Memory` is
/// returned if a token in front of that, or of the end, cannot be kept; never for a text that is
/// too long.
pub fn lex<A: Allocator>(alloc: A, text: &str) -> Result<Vec<Token, A>, ExprFault>
    ensures ok { IfOk result (λ tokens. Tokens text.now (Ok tokens.items)) }
    ensures err { IfErr result (λ fault. fault ≢ ExprFault.Memory → Tokens text.now (Err fault)) }
    ensures too_long { 65536 < length text.now → result ≡ Err ExprFault.TooLong }
{
    let bytes = text.as_bytes();
    if bytes.len() > LONGEST {
        return Err(ExprFault::TooLong);
    }
    let mut tokens = Vec::new(alloc);
    let mut opened: usize = 0;
    let mut closed: usize = 0;
    let mut at = 0;
    while at < bytes.len() {
        if is_blank(bytes[at]) {
            at += 1;
        } else {
            let place = at as u32 + 1;
            // In brackets where more of them are opened than closed before.
            let (kind, len) = first_token(closed < opened, place, &bytes[at..])?;
            let Ok(()) = tokens.push(Token { kind, place }) else {
                return Err(ExprFault::Memory);
            };
            match kind {
                TokenKind::OpenBracket => opened += 1,
                TokenKind::CloseBracket => closed += 1,
                _ => {}
            }
            at += len;
        }
    }
    Ok(tokens)
}
