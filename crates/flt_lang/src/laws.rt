//! Laws of the grammar: each is a theorem, and its function does nothing.

ghost use Rattle.std.specs.Prelude.{◌≡◌, List};
ghost use Rattle.flt_words.specs.declared.token.TokenKind.{TokenKind};
ghost use Rattle.flt_ast.specs.Tree.{Expression};
ghost use Rattle.flt_lang.specs.Grammar.{IsReadAs};

/// No tokens have two trees.
pub fn one_tree()
    ensures { (tokens : List TokenKind) (a b : Expression) → IsReadAs tokens a → IsReadAs tokens b
        → a ≡ b }
{}
