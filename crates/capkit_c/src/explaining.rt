//! The meaning of an expression, written out as an expression again.
ghost use Rattle.std.specs.Prelude.{◌≡◌, IfOk, IfErr, OnErr};
ghost use Rattle.capkit_c.specs.Compiling.{IsTextFailure};
ghost use Rattle.capkit_c.specs.Explaining.{ExplainLeaves, PutsMeaning};

use crate::compiling::{Failure, read_text, tell};
use crate::texts::put_text;
use flt_explain::explain;
use flt_words::ExprFault;
use std::alloc::Allocator;

/// Puts the meaning of the expression in a text into a buffer, as far as there is room, and returns
/// how long the whole is. An error is why the text isn't an expression, or that memory ran out, and
/// then the buffer is unchanged.
fn put_meaning<A: Allocator + Copy + Drop>(
    alloc: A,
    text: &[u8],
    buffer: &mut [u8],
) -> Result<usize, Failure>
    ensures put { IfOk result (PutsMeaning text.now buffer.old buffer.new) }
    ensures failed { IfErr result (IsTextFailure text.now) }
    ensures kept { OnErr result (buffer.new ≡ buffer.old) }
{
    let checked = read_text(alloc, text)?;
    match explain(alloc, &checked.expr) {
        Ok(meaning) => Ok(put_text(meaning.as_bytes(), buffer)),
        // Nothing else keeps an expression from being written out.
        Err(_) => Err(Failure::Text(ExprFault::Memory)),
    }
}

/// Puts the meaning of the expression in a text into a buffer, and reports it to C.
pub(crate) fn tell_meaning<A: Allocator + Copy + Drop>(
    alloc: A,
    text: &[u8],
    buffer: &mut [u8],
    number: &mut usize,
) -> u32
    ensures { ExplainLeaves text.now buffer.old buffer.new number.new result }
{
    tell(put_meaning(alloc, text, buffer), number)
}
