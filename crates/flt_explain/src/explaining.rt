//! What an expression means, as an expression: for people, who see which qualifiers each value has.

ghost use Rattle.std.specs.{Prelude.◌≡◌, Prelude.IfOk, String.string_bytes};
ghost use Rattle.flt_explain.specs.Explained.{explained_text, explained_tokens};

use crate::backward::Writer;
use crate::spelling::push_tokens;
use flt_ast::Expr;
use flt_words::TokenKind;
use std::alloc::{AllocError, Allocator};

/// The tokens of what an expression means, written from its last node to its first. An error is a
/// failed allocation, or an allocator that cannot be cloned.
fn explained_tokens<A: Allocator + Clone>(
    alloc: A,
    expr: &Expr<A>,
) -> Result<Vec<TokenKind, A>, AllocError>
    ensures { IfOk result (λ tokens. tokens.items ≡ explained_tokens expr.now) }
{
    let nodes = expr.nodes();
    let mut writer = Writer::new(alloc)?;
    let mut at = nodes.len();
    while at > 0 {
        // The last node is the whole expression, and each other one an operand.
        let is_operand = at < nodes.len();
        at -= 1;
        writer.write_node(is_operand, nodes[at])?;
    }
    Ok(writer.into_tokens())
}

/// Writes out what an expression means, as an expression of the language.
///
/// Each operand is in parentheses, unless it is one word or an accessor; a value that isn't
/// resolved always means this. Each value of a resolved tree has all its qualifiers before it, but
/// that `proto` has no direction: `tcp port 80 or 443` is `(tcp src or dst port 80) or (tcp src or
/// dst port 443)`. Accessors have their size. Numbers are in decimal, and names stay names.
///
/// The text may be longer than an expression may be, or nest deeper. If it is not, the resolved
/// tree of a text is read back from it (`laws::explained_back`, `laws::writable`). Trees that no
/// text has are written too: those with a check of `ether`, an accessor of `icmp6`, a cast after
/// another protocol than `ether`, `ip` and `ip6`, a name of a number that has none, an address or a
/// number past its bits, an IPv4 address of other than two to four parts, or one with a part past
/// these that isn't 0.
///
/// An error is a failed allocation, or an allocator that cannot be cloned.
pub fn explain<A: Allocator + Clone>(alloc: A, expr: &Expr<A>) -> Result<String<A>, AllocError>
    ensures { IfOk result (λ text. string_bytes text ≡ explained_text expr.now) }
{
    let tokens = explained_tokens(alloc.clone()?, expr)?;
    let mut text = String::new(alloc);
    push_tokens(&mut text, &tokens)?;
    Ok(text)
}
