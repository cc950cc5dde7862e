//! The meaning of a word.

ghost use Rattle.flt_words.specs.Words.{WordMeans};

use crate::address::{parse_dotted, parse_ip6, parse_mac};
use crate::fault::ExprFault;
use crate::number::{WordFault, parse_number, parse_range};
use crate::spelling::keyword_of;
use crate::token::TokenKind;

/// What the word at a place of a text means: the kind of its token. An error, E3 or E4, names the
/// place, which counts bytes of the text from 1. Since a word is of one kind at most, the order of
/// the readers doesn't matter: those of the most frequent words come first.
#[tactic(auto, using(crate::proofs::OneKind::meanings))]
pub(crate) fn word_kind_at(place: u32, word: &[u8]) -> Result<TokenKind, ExprFault>
    ensures { WordMeans place word.now result }
{
    match parse_number(word) {
        Ok(number) => return Ok(TokenKind::Number(number)),
        Err(WordFault::TooLarge) => return Err(ExprFault::NumberTooLarge(place)),
        Err(WordFault::Unknown) => {}
    }
    if let Some((address, parts)) = parse_dotted(word) {
        return Ok(TokenKind::Dotted { address, parts });
    }
    if let Some(kind) = keyword_of(word) {
        return Ok(kind);
    }
    if let Some(address) = parse_mac(word) {
        return Ok(TokenKind::Mac(address));
    }
    if let Some(address) = parse_ip6(word) {
        return Ok(TokenKind::Ip6(address));
    }
    match parse_range(word) {
        Ok((first, last)) => Ok(TokenKind::Range { first, last }),
        Err(WordFault::TooLarge) => Err(ExprFault::NumberTooLarge(place)),
        Err(WordFault::Unknown) => Err(ExprFault::UnknownWord(place)),
    }
}
