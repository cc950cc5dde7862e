//! Laws of the definitions that the contracts of this crate cite: each is a theorem, and its
//! function does nothing.

ghost use Rattle.std.specs.Prelude.{◌≡◌, List, Result, ℕ};
ghost use Rattle.flt_words.specs.{Tokens.Tokens, Words.Spells, declared.fault.ExprFault.ExprFault};
ghost use Rattle.flt_words.specs.declared.token.{Token.Token, TokenKind.TokenKind};

/// A word is of one kind at most, and means one value of it.
#[tactic(auto, using(crate::proofs::OneKind::same_kind))]
pub fn one_kind()
    ensures { (word : List ℕ) (a b : TokenKind) → Spells word a → Spells word b → a ≡ b }
{}

/// A text has at most one answer: a list of tokens with places, or a refusal.
#[tactic(auto, using(crate::proofs::OneAnswer::same_answer))]
pub fn one_answer()
    ensures { (text : List ℕ) (a b : Result (List Token) ExprFault) → Tokens text a
        → Tokens text b → a ≡ b }
{}
