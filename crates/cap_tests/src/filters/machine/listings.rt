//! Which texts are read as listings, and what is written.

use super::{IPV4, insn, program_of};
use cap_octet::TrialOutput;
use flt_bpf::{Insn, Program, read_listing, write_listing};
use std::alloc::Global;

/// Whether a text is read as these instructions.
fn is_read_as(alloc: Global, text: &[u8], expected: &[Insn]) -> bool {
    match read_listing(alloc, text) {
        Ok(insns) => insns.as_slice() == expected,
        Err(_) => false,
    }
}

#[test]
fn listings_are_read(rt: HostRuntime) {
    let four = [
        insn(40, 0, 0, 12),
        insn(21, 0, 1, 2048),
        insn(6, 0, 0, 262_144),
        insn(6, 0, 0, 0),
    ];
    assert!(rt; is_read_as(rt.alloc(), IPV4, &four));
    let blanks = b"4\n40 0 0 12\n21 0 1  2048\n006 0 0 262144\n6   0 0 0";
    assert!(rt; is_read_as(rt.alloc(), blanks, &four));
    let greatest = b"0000000001\n0000065535 0000000255 255 4294967295\n";
    assert!(rt; is_read_as(rt.alloc(), greatest, &[insn(65_535, 255, 255, 0xffff_ffff)]));
    assert!(rt; is_read_as(rt.alloc(), b"0\n", &[]));
    assert!(rt; is_read_as(rt.alloc(), b"0", &[]));
}

/// Whether a program is written as this text, by `piece` bytes per call.
fn is_written_as(program: &Program<Global>, text: &[u8], piece: usize) -> bool {
    let mut bytes = [0u8; 64];
    let mut output = TrialOutput::new(&mut bytes, piece.max(1));
    write_listing(program, &mut output).is_ok() && output.written() == text
}

/// The longest lines.
const LONGEST: &[u8] = b"2\n22 255 255 4294967295\n22 255 255 4294967295\n";

/// Listings, and as what their programs are written.
const WRITTEN: [(&[u8], &[u8]); 2] = [
    (
        b"00004\n40 0 0  12\n21 0 1 2048\n006 0 0 262144\n6 0 0 0",
        IPV4,
    ),
    (LONGEST, LONGEST),
];

#[test]
fn programs_are_written(rt: HostRuntime) {
    for (listing, text) in WRITTEN {
        let program = program_of(&rt, listing);
        for piece in 1..65 {
            assert!(rt; is_written_as(&program, text, piece), "{piece}");
        }
    }
}

/// Whether an output with so much room takes that much of `IPV4`, and then fails.
fn fails_at(program: &Program<Global>, room: &mut [u8]) -> bool {
    let size = room.len();
    let mut output = TrialOutput::new(room, 3);
    match write_listing(program, &mut output) {
        Ok(()) => false,
        Err(stopped) => stopped.written == size && IPV4.get(..size) == Some(output.written()),
    }
}

#[test]
fn an_output_may_fail_anywhere(rt: HostRuntime) {
    let program = program_of(&rt, IPV4);
    let mut bytes = [0u8; 64];
    for room in 0..IPV4.len() {
        assert!(rt; fails_at(&program, &mut bytes[..room]), "{room}");
    }
}
