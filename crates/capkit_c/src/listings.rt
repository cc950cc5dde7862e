//! Listings of instructions, read into the caller's memory and written to it.
ghost use Rattle.std.specs.Prelude.{◌≡◌, IfOk, IfErr, OnErr, length};
ghost use Rattle.capkit_c.specs.Listings.{HoldsListing, IsUnlisted, IsUnread, ListingLeaves};
ghost use Rattle.capkit_c.specs.Listings.{ListingTells, PutsListing};

use crate::compiling::{Failure, tell};
use crate::texts::put_text;
use cap_octet::MemOutput;
use flt_bpf::{Insn, ListingFault, check, read_listing, write_listing};
use flt_words::ExprFault;
use std::alloc::Allocator;

/// How many bytes a line has at most: numbers of 5, 3, 3 and 10 digits, and a byte after each.
const MOST_LINE_BYTES: usize = 25;

const NO_MEMORY: Failure = Failure::Text(ExprFault::Memory);

/// Reads a listing to the start of `insns`, and returns the number of its instructions; or returns
/// why not, and then `insns` is unchanged.
fn read_into<A: Allocator + Copy + Drop>(
    alloc: A,
    text: &[u8],
    insns: &mut [Insn],
) -> Result<usize, Failure>
    ensures held { IfOk result (HoldsListing text.now insns.old insns.new) }
    ensures failed { IfErr result (IsUnread text.now (length insns.old)) }
    ensures kept { OnErr result (insns.new ≡ insns.old) }
{
    let listing = match read_listing(alloc, text) {
        Ok(listing) => listing,
        Err(ListingFault::NotListing(line)) => return Err(Failure::NotListing(line)),
        Err(ListingFault::Memory) => return Err(NO_MEMORY),
    };
    let listed = listing.as_slice();
    let count = listed.len();
    if count > insns.len() {
        return Err(Failure::NoRoom(count));
    }
    insns[..count].copy_from_slice(listed);
    Ok(count)
}

/// Reads a listing into the caller's instructions, and reports it to C.
pub(crate) fn tell_read<A: Allocator + Copy + Drop>(
    alloc: A,
    text: &[u8],
    insns: &mut [Insn],
    number: &mut usize,
) -> u32
    ensures { ListingLeaves text.now insns.old insns.new number.new result }
{
    tell(read_into(alloc, text, insns), number)
}

/// Puts the listing of a program into a buffer, as far as there is room, and returns how long the
/// whole is; or why there is none, and then the buffer is unchanged.
fn put_listing<A: Allocator + Copy + Drop>(
    alloc: A,
    insns: &[Insn],
    buffer: &mut [u8],
) -> Result<usize, Failure>
    ensures put { IfOk result (PutsListing insns.now buffer.old buffer.new) }
    ensures failed { IfErr result (IsUnlisted insns.now) }
    ensures kept { OnErr result (buffer.new ≡ buffer.old) }
{
    let Ok(copy) = Vec::from_slice(alloc, insns) else {
        return Err(NO_MEMORY);
    };
    let program = match check(copy) {
        Ok(program) => program,
        Err((rule, _)) => return Err(Failure::Invalid(rule)),
    };
    // The line of the count, and one for each instruction.
    let most_bytes = MOST_LINE_BYTES * (program.insns().len() + 1);
    let Ok(mut text) = vec![in alloc; 0; most_bytes] else {
        return Err(NO_MEMORY);
    };
    let mut output = MemOutput::new(&mut text);
    match write_listing(&program, &mut output) {
        Ok(()) => Ok(put_text(output.written(), buffer)),
        // The text has room for the longest listing of this many instructions.
        Err(_) => Err(NO_MEMORY),
    }
}

/// Puts the listing of a program into a buffer, and reports it to C.
pub(crate) fn tell_listing<A: Allocator + Copy + Drop>(
    alloc: A,
    insns: &[Insn],
    buffer: &mut [u8],
    length: &mut usize,
) -> u32
    ensures { ListingTells insns.now buffer.old buffer.new length.new result }
{
    tell(put_listing(alloc, insns, buffer), length)
}
