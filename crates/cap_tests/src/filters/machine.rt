//! Worked programs, listings and traces.

mod listings;
mod programs;
mod traces;

use flt_bpf::{Insn, Program, check, read_listing};
use std::alloc::Global;
use std::process::Abort;

// A listing that takes IPv4 frames of Ethernet.
const IPV4: &[u8] = b"4\n40 0 0 12\n21 0 1 2048\n6 0 0 262144\n6 0 0 0\n";

/// An instruction with these fields.
fn insn(code: u16, jt: u8, jf: u8, k: u32) -> Insn {
    Insn { code, jt, jf, k }
}

/// The program of a listing.
fn program_of(rt: &(impl Abort + AllocGlobal), listing: &[u8]) -> Program<Global> {
    let insns = read_listing(rt.alloc(), listing).expect(rt, "a listing");
    check(insns).expect(rt, "a program")
}
