//! Checks, before anything is read, how deep tokens nest (E6). Up to 100 levels are allowed, and up
//! to 100 tokens `not` and `-` in a row, as docs/FILTER.md has it.

ghost use Rattle.std.specs.{List.list_all, Prelude.◌≡◌, Prelude.◌↔◌, Prelude.IsTrue};
ghost use Rattle.flt_lang.specs.Nesting.{is_opening, is_closing, is_prefix_operator, HasDeepFront};
ghost use Rattle.flt_lang.specs.Nesting.{BeginsWithLongPrefix, HasLongPrefix, IsTooDeep};

use flt_words::{Operator, Token, TokenKind};

/// Whether some prefix of the tokens has over 100 more `(` and `[` than `)` and `]`, or over 100
/// tokens `not` and `-` follow one another.
pub fn is_nested_too_deep(tokens: &[Token]) -> bool
    ensures { IsTrue result ↔ IsTooDeep tokens.now }
{
    has_deep_front(tokens) || has_long_prefix(tokens)
}

/// Whether a token opens a parenthesis or a bracket.
#[tactic(auto, unfolding(crate::specs::Nesting::is_opening))]
fn is_opening(token: &Token) -> bool
    ensures { result ≡ is_opening token.now }
{
    matches!(token.kind, TokenKind::Open | TokenKind::OpenBracket)
}

/// Whether a token closes a parenthesis or a bracket.
#[tactic(auto, unfolding(crate::specs::Nesting::is_closing))]
fn is_closing(token: &Token) -> bool
    ensures { result ≡ is_closing token.now }
{
    matches!(token.kind, TokenKind::Close | TokenKind::CloseBracket)
}

/// Whether a token is an operator that may stand before its operand, also many times in a row:
/// `not` and the sign `-`. A `-` between two operands is the same token and counts too.
#[tactic(auto, unfolding(crate::specs::Nesting::is_prefix_operator))]
fn is_prefix_operator(token: &Token) -> bool
    ensures { result ≡ is_prefix_operator token.now }
{
    matches!(
        token.kind,
        TokenKind::Not | TokenKind::Operator(Operator::Subtract)
    )
}

/// Whether some prefix of the tokens has over 100 more `(` and `[` than `)` and `]`.
fn has_deep_front(tokens: &[Token]) -> bool
    ensures { IsTrue result ↔ HasDeepFront tokens.now }
{
    let mut opened: usize = 0;
    let mut closed: usize = 0;
    for token in tokens {
        if is_opening(token) {
            opened += 1;
        }
        if is_closing(token) {
            closed += 1;
        }
        // The sum never saturates: fewer tokens fit the memory.
        if opened > closed.saturating_add(100) {
            return true;
        }
    }
    false
}

/// Whether each token is `not` or `-`.
fn are_prefix_operators(tokens: &[Token]) -> bool
    ensures { result ≡ list_all is_prefix_operator tokens.now }
{
    tokens.iter().all(is_prefix_operator)
}

/// Whether tokens begin with over 100 tokens `not` and `-`.
fn begins_with_long_prefix(tokens: &[Token]) -> bool
    ensures { IsTrue result ↔ BeginsWithLongPrefix tokens.now }
{
    tokens.len() > 100 && are_prefix_operators(&tokens[..101])
}

/// Whether over 100 tokens `not` and `-` follow one another.
fn has_long_prefix(tokens: &[Token]) -> bool
    ensures { IsTrue result ↔ HasLongPrefix tokens.now }
{
    for i in 0..tokens.len() {
        if begins_with_long_prefix(&tokens[i..]) {
            return true;
        }
    }
    false
}
