//! Laws of what is explained: each is a theorem, and its function does nothing.

ghost use Rattle.std.specs.Prelude.{◌≡◌, ◌≤◌, ℕ, List, Ok, length};
ghost use Rattle.flt_words.specs.declared.token.Token.{Token};
ghost use Rattle.flt_words.specs.Tokens.{Tokens};
ghost use Rattle.flt_ast.specs.Tree.{Expression};
ghost use Rattle.flt_ast.specs.Filled.{fill_expression};
ghost use Rattle.flt_ast.specs.Resolved.{IsResolved};
ghost use Rattle.flt_lang.specs.Grammar.{IsReadAs, kinds_of};
ghost use Rattle.flt_explain.specs.Explained.{explained_text};
ghost use Rattle.flt_explain.specs.Writable.{IsReadBack, IsWritable};

/// What a resolved tree means is read as this tree, if its numbers, names and addresses are those
/// of words, and its protocols are in allowed places (`IsWritable`): unless its text is longer than
/// an expression may be, the text has tokens, they have a tree, and that resolved is the tree
/// again. `parse` still refuses what nests too deep.
pub fn explained_back()
    ensures { (tree : Expression) → IsWritable tree → IsResolved tree
        → length (explained_text tree) ≤ 65536 → IsReadBack (explained_text tree) tree }
{}

/// Each tree that a text has is such a tree (`IsWritable`) once its values have all qualifiers,
/// whether they fit or not.
pub fn writable()
    ensures { (text : List ℕ) (tokens : List Token) (tree : Expression)
        → Tokens text (Ok tokens) → IsReadAs (kinds_of tokens) tree
        → IsWritable (fill_expression tree) }
{}
