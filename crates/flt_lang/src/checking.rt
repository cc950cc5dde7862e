//! Checks whether code can be made of an expression: the last step before the compiler.

ghost use Rattle.std.specs.Prelude.{◌≡◌, IfOk, IfErr, Some, None};
ghost use Rattle.flt_ast.specs.{Checks.check_fault, Resolved.IsResolved};

use crate::counts;
use flt_ast::{Checked, Expr};
use flt_words::ExprFault;
use std::alloc::Allocator;

/// Checks a tree as `resolve` returns it. It takes no memory.
///
/// `DivisionByZero` is reported where some divisor is the number 0 as it is written, else
/// `TooManyWords` if the arithmetic needs more than 16 words, else `ProgramTooLong` if its
/// bound is over 32,768 instructions.
pub fn check<A: Allocator>(expr: Expr<A>) -> Result<Checked<A>, ExprFault>
    requires { IsResolved expr }
    ensures ok { IfOk result (λ checked. checked.expr ≡ expr) }
    ensures fits { IfOk result (λ _. check_fault expr ≡ None) }
    ensures err { IfErr result (λ fault. check_fault expr ≡ Some fault) }
{
    if counts::divides_by_zero(&expr) {
        return Err(ExprFault::DivisionByZero);
    }
    if counts::words_in(&expr) > 16 {
        return Err(ExprFault::TooManyWords);
    }
    // The bound, as `counts::bound` has it, but of numbers that may not fit 32 bits yet.
    if 2 + 6 * (counts::tests_in(&expr) + counts::nodes_in(&expr)) > 32768 {
        return Err(ExprFault::ProgramTooLong);
    }
    Ok(Checked { expr })
}
