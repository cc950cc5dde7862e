//! Expressions, from their text to a checked tree, or to a program.
ghost use Rattle.std.specs.Prelude.{IfOk, IfErr};
ghost use Rattle.cap_filter.specs.Expressions.{IsCompiled, HasFault, IsExpression, HasTree};
ghost use Rattle.cap_filter.specs.Expressions.{IsTextFault, IsSettled};

use cap_octet::Link;
use flt_bpf::Program;
use flt_gen::generate;
use flt_lang::{Checked, Expr, check, parse, resolve};
use flt_words::{ExprFault, lex};
use std::alloc::Allocator;

/// The tree of a text as it is written, with omitted qualifiers not filled in
/// yet. An error is the first fault of its tokens, their nesting or the grammar, or out of memory
/// (`ExprFault::Memory`).
fn read_tree<A: Allocator + Copy + Drop>(alloc: A, text: &str) -> Result<Expr<A>, ExprFault>
    ensures read { IfOk result (λ tree. HasTree text.now tree) }
    ensures refused { IfErr result (IsTextFault text.now) }
{
    match lex(alloc, text) {
        Ok(tokens) => parse(alloc, &tokens),
        Err(fault) => Err(fault),
    }
}

/// Fills in the qualifiers that a tree leaves out, and checks it. An error is its first fault: what
/// doesn't fit a value comes before what is wrong with the whole.
fn resolve_and_check<A: Allocator>(tree: Expr<A>) -> Result<Checked<A>, ExprFault>
    ensures settled { IfOk result (λ checked. IsSettled tree checked.expr) }
    ensures refused { IfErr result (HasFault tree) }
{
    match resolve(tree) {
        Ok(tree) => check(tree),
        Err(fault) => Err(fault),
    }
}

/// The checked tree of an expression's text, with the qualifiers that are left out filled in. An
/// error is the first of the text's faults, or out of memory (`ExprFault::Memory`).
pub fn read_expression<A: Allocator + Copy + Drop>(
    alloc: A,
    text: &str,
) -> Result<Checked<A>, ExprFault>
    ensures expression { IfOk result (λ checked. IsExpression text.now checked.expr) }
    ensures refused { IfErr result (IsTextFault text.now) }
{
    match read_tree(alloc, text) {
        Ok(tree) => resolve_and_check(tree),
        Err(fault) => Err(fault),
    }
}

/// Compiles the text of an expression to a program for packets of this link. An error is the first
/// of the text's faults, or out of memory (`ExprFault::Memory`).
pub fn compile_text<A: Allocator + Copy + Drop>(
    alloc: A,
    text: &str,
    link: Link,
) -> Result<Program<A>, ExprFault>
    ensures compiled { IfOk result (λ program. IsCompiled text.now link program.insns) }
    ensures refused { IfErr result (IsTextFault text.now) }
{
    let checked = read_expression(alloc, text)?;
    match generate(alloc, &checked, link) {
        Ok(program) => Ok(program),
        Err(_) => Err(ExprFault::Memory),
    }
}
