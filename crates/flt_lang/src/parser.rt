//! Parses tokens into a tree: refuses those that nest too deep, and lets `Reader` read the others.

ghost use Rattle.std.specs.Prelude.{◌≡◌, ◌↔◌, ◌⊎◌, Err, IfOk, IfErr};
ghost use Rattle.flt_ast.specs.Tree.{Expression};
ghost use Rattle.flt_lang.specs.Grammar.{IsReadAs, kinds_of};
ghost use Rattle.flt_lang.specs.{Nesting.IsTooDeep, inside.Parser.IsReadFault};

use crate::nesting::is_nested_too_deep;
use crate::reader::Reader;
use flt_ast::Expr;
use flt_words::{ExprFault, Token};
use std::alloc::Allocator;

/// Reads the tokens of a whole expression.
///
/// `NestedTooDeep` is reported before anything else is looked at, `NotAnExpression` if the
/// tokens have no tree. `Memory` comes instead of the result if the nodes, or what waits for an
/// operand, cannot be kept, or the allocator cannot be cloned.
pub fn parse<A: Allocator + Clone>(alloc: A, tokens: &[Token]) -> Result<Expr<A>, ExprFault>
    ensures deep { (result ≡ Err ExprFault.NestedTooDeep) ↔ IsTooDeep tokens.now }
    ensures ok { IfOk result (λ tree. IsReadAs (kinds_of tokens.now) tree) }
    ensures none { result ≡ Err ExprFault.NotAnExpression
        → (tree : Expression) → IsReadAs (kinds_of tokens.now) tree → ⊥ }
    ensures err { IfErr result (λ fault. (fault ≡ ExprFault.NestedTooDeep)
        ⊎ (fault ≡ ExprFault.NotAnExpression) ⊎ (fault ≡ ExprFault.Memory)) }
{
    if is_nested_too_deep(tokens) {
        return Err(ExprFault::NestedTooDeep);
    }
    read_tree(alloc, tokens)
}

/// The tree of tokens, however deep they nest; `NotAnExpression` if they have none.
fn read_tree<A: Allocator + Clone>(alloc: A, tokens: &[Token]) -> Result<Expr<A>, ExprFault>
    ensures ok { IfOk result (λ tree. IsReadAs (kinds_of tokens.now) tree) }
    ensures none { result ≡ Err ExprFault.NotAnExpression
        → (tree : Expression) → IsReadAs (kinds_of tokens.now) tree → ⊥ }
    ensures err { IfErr result IsReadFault }
{
    let mut reader = Reader::new(alloc)?;
    reader.read(tokens)?;
    Ok(reader.into_expr())
}
