//! Runs of valid programs. The loop and the count of a program are private to `program.rt`, so each
//! run here is counted.

ghost use Rattle.std.specs.Prelude.{◌≡◌, ◌+◌, ◌-◌, ◌^◌, ◌≤◌, length, min};
ghost use Rattle.flt_bpf.specs.Machine.{machine, Answered};

use crate::program::{Program, walk};
use std::alloc::Allocator;

/// The answer of a program on a packet of original length `len`, and the count of instructions that
/// the run met, the last one included. The count is added to `spent`. Takes no memory.
// Not inlined, so that the loop has the processor's registers for itself.
#[inline(never)]
pub fn run<A: Allocator>(program: &mut Program<A>, packet: &[u8], len: u32) -> (u32, u32)
    ensures answer { machine program.old.insns packet.now len (length program.old.insns)
        ≡ Answered result.0 result.1 }
    ensures counts { (1 ≤ result.1) × (result.1 ≤ length program.old.insns) }
    ensures insns { program.new.insns ≡ program.old.insns }
    ensures spent { program.new.spent ≡ min (program.old.spent + result.1) (2 ^ 128 - 1) }
{
    if program.reach() <= packet.len() {
        walk::<A, true>(program, packet, len)
    } else {
        walk::<A, false>(program, packet, len)
    }
}
