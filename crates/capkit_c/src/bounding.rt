//! The bound of a program's length, before it is compiled.
ghost use Rattle.std.specs.Prelude.{IfOk, IfErr};
ghost use Rattle.capkit_c.specs.{Bounding.BoundLeaves, Bounding.IsBound, Compiling.IsTextFailure};

use crate::compiling::{Failure, read_text, tell};
use flt_lang::bound;
use std::alloc::Allocator;

/// The bound of the expression in a text: the most instructions of its program. An error is why the
/// text isn't an expression, or that memory ran out.
fn bound_of_text<A: Allocator + Copy + Drop>(alloc: A, text: &[u8]) -> Result<usize, Failure>
    ensures bounded { IfOk result (IsBound text.now) }
    ensures failed { IfErr result (IsTextFailure text.now) }
{
    let checked = read_text(alloc, text)?;
    Ok(bound(&checked) as usize)
}

/// Bounds the program of the expression in a text, and reports it to C.
pub(crate) fn tell_bound<A: Allocator + Copy + Drop>(
    alloc: A,
    text: &[u8],
    number: &mut usize,
) -> u32
    ensures { BoundLeaves text.now number.new result }
{
    tell(bound_of_text(alloc, text), number)
}
