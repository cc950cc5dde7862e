//! Instructions as tcpdump 4.99.3 prints them, and a run, step by step.

use super::insn;
use crate::filters::compilation::code_of;
use flt_bpf::check;
use flt_trace::{Step, insn_text, trace};

/// The code and the number of an instruction, whose offsets are 3 and 7, and how it is printed at
/// place 1.
const PRINTED: [(u16, u32, &str); 8] = [
    (0x28, 12, "(001) ldh      [12]"),
    (0x50, 0xffff_ffff, "(001) ldb      [x + -1]"),
    (0xb1, 14, "(001) ldxb     4*([14]&0xf)"),
    (0x54, 0x8000_0000, "(001) and      #0x80000000"),
    (0x15, 0x800, "(001) jeq      #0x800           jt 5\tjf 9"),
    (0x05, 12, "(001) ja       14"),
    (0x16, 0, "(001) ret      "),
    (0xc8, 0, "(001) unimp    0xc8"),
];

#[test]
fn printed(rt: HostRuntime) {
    for (code, k, text) in PRINTED {
        let line = insn_text(&insn(code, 3, 7, k), 1);
        assert!(rt; line.as_slice() == text.as_bytes(), "{text}");
    }
}

/// A step that no run wrote.
const UNWRITTEN: Step = Step {
    place: 77,
    accumulator: 0,
    index: 0,
    memory: [0; 16],
};

/// The place of each step, and its registers; the last one isn't written.
const STEPS: [[u32; 3]; 5] = [
    [0, 0, 0],
    [1, 0x45, 0],
    [2, 0x45, 0x45],
    [4, 0x45, 0x45],
    [77, 0, 0],
];

/// Whether steps are the first of those, with 0 in each word of memory.
fn are_first(steps: &[Step]) -> bool {
    for (step, fields) in steps.iter().zip(STEPS.iter()) {
        if [step.place, step.accumulator, step.index] != *fields || step.memory != [0; 16] {
            return false;
        }
    }
    true
}

// ldb [0]; tax; jeq #0x45, which skips the next instruction if it holds; ret #7; ret #9
#[test]
fn traced(rt: HostRuntime) {
    let code = code_of(&rt, "48 0 0 0; 7 0 0 0; 21 1 0 69; 6 0 0 7; 6 0 0 9");
    let program = check(code).expect(&rt, "a program");
    let mut steps = [UNWRITTEN; 5];
    assert!(rt; trace(program.insns(), &[0x45, 0], 60, &mut steps) == (9, 4));
    let mut few = [UNWRITTEN; 1];
    assert!(rt; trace(program.insns(), &[0x45, 0], 60, &mut few) == (9, 4));
    assert!(rt; are_first(&steps) && are_first(&few));
}
