//! The same calls in memory that the caller lends.
//!
//! Each takes the memory, and when it returns gives back all of it, or none if some were still in
//! use (never seen). If the memory is too small, the status is 13. A memory of a null pointer and 0
//! bytes is none.
ghost use Rattle.cap_heap.specs.Lending.{IsGivenBack};
ghost use Rattle.capkit_c.specs.{Bounding.BoundLeaves, Compiling.CompilesText};
ghost use Rattle.capkit_c.specs.{Explaining.ExplainLeaves, Listings.ListingLeaves};
ghost use Rattle.capkit_c.specs.{Listings.ListingTells};

use crate::bounding::tell_bound;
use crate::compiling::tell_compiled;
use crate::explaining::tell_meaning;
use crate::listings::{tell_listing, tell_read};
use cap_heap::{Memory, Region};
use flt_bpf::Insn;

/// As `capkit_compile`.
#[unsafe(no_mangle)]
pub extern "C" fn capkit_compile_in(
    memory: &mut Memory,
    text: &[u8],
    link_type: u16,
    insns: &mut [Insn],
    number: &mut usize,
) -> u32
    ensures told { CompilesText text.now link_type insns.old insns.new number.new result }
    ensures memory { IsGivenBack memory.old memory.new }
{
    let region = Region::over(memory);
    let status = tell_compiled(&region.heap(), text, link_type, insns, number);
    region.give_back(memory);
    status
}

/// As `capkit_bound`.
#[unsafe(no_mangle)]
pub extern "C" fn capkit_bound_in(memory: &mut Memory, text: &[u8], number: &mut usize) -> u32
    ensures told { BoundLeaves text.now number.new result }
    ensures memory { IsGivenBack memory.old memory.new }
{
    let region = Region::over(memory);
    let status = tell_bound(&region.heap(), text, number);
    region.give_back(memory);
    status
}

/// As `capkit_explain`.
#[unsafe(no_mangle)]
pub extern "C" fn capkit_explain_in(
    memory: &mut Memory,
    text: &[u8],
    buffer: &mut [u8],
    number: &mut usize,
) -> u32
    ensures told { ExplainLeaves text.now buffer.old buffer.new number.new result }
    ensures memory { IsGivenBack memory.old memory.new }
{
    let region = Region::over(memory);
    let status = tell_meaning(&region.heap(), text, buffer, number);
    region.give_back(memory);
    status
}

/// As `capkit_read_listing`: reads a text as `tcpdump -ddd` prints it into `insns`, and puts into
/// `number` how many instructions it has, or its first wrong line.
#[unsafe(no_mangle)]
pub extern "C" fn capkit_read_listing_in(
    memory: &mut Memory,
    text: &[u8],
    insns: &mut [Insn],
    number: &mut usize,
) -> u32
    ensures told { ListingLeaves text.now insns.old insns.new number.new result }
    ensures memory { IsGivenBack memory.old memory.new }
{
    let region = Region::over(memory);
    let status = tell_read(&region.heap(), text, insns, number);
    region.give_back(memory);
    status
}

/// As `capkit_write_listing`.
#[unsafe(no_mangle)]
pub extern "C" fn capkit_write_listing_in(
    memory: &mut Memory,
    insns: &[Insn],
    buffer: &mut [u8],
    length: &mut usize,
) -> u32
    ensures told { ListingTells insns.now buffer.old buffer.new length.new result }
    ensures memory { IsGivenBack memory.old memory.new }
{
    let region = Region::over(memory);
    let status = tell_listing(&region.heap(), insns, buffer, length);
    region.give_back(memory);
    status
}
