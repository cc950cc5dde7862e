//! The calls that take their memory from the C library.
ghost use Rattle.capkit_c.specs.{Bounding.BoundLeaves, Compiling.CompilesText};
ghost use Rattle.capkit_c.specs.{Explaining.ExplainLeaves, Listings.ListingLeaves};
ghost use Rattle.capkit_c.specs.{Listings.ListingTells};

use crate::bounding::tell_bound;
use crate::compiling::tell_compiled;
use crate::explaining::tell_meaning;
use crate::listings::{tell_listing, tell_read};
use flt_bpf::Insn;
use std::alloc::Global;

/// Compiles the expression in a text, for packets of a link type, into the caller's instructions.
///
/// If it returns 0, `number` is the count of instructions, which are at the start of `insns`; the
/// elements after them don't change. For any other status `insns` is unchanged, and `number` is the
/// place of the text's fault or the number of instructions, or 0 if the failure has neither.
#[unsafe(no_mangle)]
pub extern "C" fn capkit_compile(
    alloc: Global,
    text: &[u8],
    link_type: u16,
    insns: &mut [Insn],
    number: &mut usize,
) -> u32
    ensures { CompilesText text.now link_type insns.old insns.new number.new result }
{
    tell_compiled(alloc, text, link_type, insns, number)
}

/// Bounds the program of an expression, for every link type. If it returns 0, `number` is the most
/// instructions of the program, from 2 to 32,768; for any other status it is the place of the
/// text's fault, or 0 if the failure has no place.
#[unsafe(no_mangle)]
pub extern "C" fn capkit_bound(alloc: Global, text: &[u8], number: &mut usize) -> u32
    ensures { BoundLeaves text.now number.new result }
{
    tell_bound(alloc, text, number)
}

/// Puts the meaning of an expression into a buffer, as far as there is room: the expression again,
/// in parentheses by its tree, with every qualifier written out. If it returns 0, `number` is the
/// length of the whole text; for any other status the buffer is unchanged, and `number` is the
/// place of the text's fault, or 0 if the failure has no place.
#[unsafe(no_mangle)]
pub extern "C" fn capkit_explain(
    alloc: Global,
    text: &[u8],
    buffer: &mut [u8],
    number: &mut usize,
) -> u32
    ensures { ExplainLeaves text.now buffer.old buffer.new number.new result }
{
    tell_meaning(alloc, text, buffer, number)
}

/// Reads a listing. If it returns 0 the first `number` of `insns` are its instructions, and those
/// after them are unchanged. Otherwise `insns` is unchanged: 17 means that the text isn't a
/// listing, and `number` is its first wrong line, from 1; 16 that there are too many instructions,
/// and `number` is their count; 13 that memory ran out.
#[unsafe(no_mangle)]
pub extern "C" fn capkit_read_listing(
    alloc: Global,
    text: &[u8],
    insns: &mut [Insn],
    number: &mut usize,
) -> u32
    ensures { ListingLeaves text.now insns.old insns.new number.new result }
{
    tell_read(alloc, text, insns, number)
}

/// Puts the listing of a program into a buffer, as far as there is room. If it returns 0 `length`
/// is that of the whole listing. Else the buffer is unchanged and `length` is 0: 101 to 108 are the
/// first rule of valid programs that the instructions break, and 13 is that memory ran out.
#[unsafe(no_mangle)]
pub extern "C" fn capkit_write_listing(
    alloc: Global,
    insns: &[Insn],
    buffer: &mut [u8],
    length: &mut usize,
) -> u32
    ensures { ListingTells insns.now buffer.old buffer.new length.new result }
{
    tell_listing(alloc, insns, buffer, length)
}
