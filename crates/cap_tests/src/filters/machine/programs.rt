//! What is refused as a program, and what runs answer.

use super::{IPV4, insn, program_of};
use crate::filters::compilation::code_of;
use crate::words::field;
use flt_bpf::operation::{Operation, decode};
use flt_bpf::{CheckFault, ListingFault, check, run};
use std::alloc::Global;
use std::fmt::Display;
use std::process::Abort;

#[test]
fn ethernet_type_is_tested(rt: HostRuntime) {
    let mut program = program_of(&rt, IPV4);
    let mut packet = [0u8; 14];
    packet[12] = 8;
    assert!(rt; program.spent() == 0);
    assert!(rt; run(&mut program, &packet, 14) == (262_144, 3));
    packet[13] = 6;
    assert!(rt; run(&mut program, &packet, 14) == (0, 3));
    assert!(rt; run(&mut program, &packet[..13], 14) == (0, 1));
    assert!(rt; program.spent() == 7 && program.insns().len() == 4);
}

/// The answer and the count of instructions of a run, the length of a packet, its captured bytes,
/// and the program (`code_of`).
const ANSWERS: &str = "\
# Indexed loads wrap
7 3 | 1 | 7 | 1 0 0 4294967295; 80 0 0 1; 22 0 0 0
1801 3 | 2 | 7 9 | 1 0 0 4294967295; 72 0 0 1; 22 0 0 0
# Loads need all their bytes
33752069 2 | 5 | 1 2 3 4 5 | 32 0 0 1; 22 0 0 0
0 1 | 5 | 1 2 3 4 5 | 32 0 0 2; 22 0 0 0
1029 2 | 5 | 1 2 3 4 5 | 40 0 0 3; 22 0 0 0
0 1 | 5 | 1 2 3 4 5 | 40 0 0 4; 22 0 0 0
5 2 | 5 | 1 2 3 4 5 | 48 0 0 4; 22 0 0 0
0 1 | 5 | 1 2 3 4 5 | 48 0 0 5; 22 0 0 0
0 1 | 5 | 1 2 3 4 5 | 32 0 0 4294967295; 22 0 0 0
20 3 | 5 | 1 2 3 4 5 | 177 0 0 4; 135 0 0 0; 22 0 0 0
0 1 | 5 | 1 2 3 4 5 | 177 0 0 5; 135 0 0 0; 22 0 0 0
# Shifts and divisions by the index register
0 4 | 0 | - | 0 0 0 1; 1 0 0 32; 108 0 0 0; 22 0 0 0
2147483648 4 | 0 | - | 0 0 0 1; 1 0 0 31; 108 0 0 0; 22 0 0 0
0 4 | 0 | - | 0 0 0 9; 1 0 0 32; 124 0 0 0; 22 0 0 0
0 1 | 0 | - | 60 0 0 0; 6 0 0 1
2 4 | 0 | - | 0 0 0 9; 1 0 0 4; 60 0 0 0; 22 0 0 0
# Remainders and exclusive or
195 4 | 60 | - | 128 0 0 0; 1 0 0 255; 172 0 0 0; 22 0 0 0
57 3 | 60 | - | 128 0 0 0; 164 0 0 5; 22 0 0 0
4 3 | 60 | - | 128 0 0 0; 148 0 0 7; 22 0 0 0
4 4 | 60 | - | 128 0 0 0; 1 0 0 8; 156 0 0 0; 22 0 0 0
0 1 | 0 | - | 156 0 0 0; 6 0 0 1
# Sums, differences, products and bits wrap
2 3 | 0 | - | 0 0 0 4294967295; 4 0 0 3; 22 0 0 0
4294967294 3 | 0 | - | 0 0 0 1; 20 0 0 3; 22 0 0 0
65536 3 | 0 | - | 0 0 0 65536; 36 0 0 65537; 22 0 0 0
4294967295 3 | 0 | - | 0 0 0 1; 132 0 0 0; 22 0 0 0
260 4 | 4 | - | 128 0 0 0; 68 0 0 256; 84 0 0 260; 22 0 0 0
# Words and registers keep numbers
105 8 | 100 | - | 0 0 0 5; 2 0 0 15; 129 0 0 0; 3 0 0 0; 96 0 0 15; 97 0 0 0; 12 0 0 0; 22 0 0 0
0 4 | 0 | - | 0 0 0 5; 7 0 0 0; 28 0 0 0; 22 0 0 0
# Tests and jumps choose the way
2 3 | 0 | - | 0 0 0 5; 37 1 0 4; 6 0 0 1; 6 0 0 2
1 3 | 0 | - | 0 0 0 5; 37 1 0 5; 6 0 0 1; 6 0 0 2
2 3 | 0 | - | 0 0 0 5; 53 1 0 5; 6 0 0 1; 6 0 0 2
1 3 | 0 | - | 0 0 0 5; 69 1 0 2; 6 0 0 1; 6 0 0 2
2 4 | 0 | - | 0 0 0 5; 1 0 0 5; 29 1 0 0; 6 0 0 1; 6 0 0 2
3 2 | 0 | - | 5 0 0 2; 6 0 0 1; 6 0 0 2; 6 0 0 3
# Each test after a load, if it holds and if not: one step each
1 3 | 1 | 6 | 48 0 0 0; 21 0 1 6; 6 0 0 1; 6 0 0 2
2 3 | 1 | 5 | 48 0 0 0; 21 0 1 6; 6 0 0 1; 6 0 0 2
1 3 | 1 | 7 | 48 0 0 0; 37 0 1 6; 6 0 0 1; 6 0 0 2
2 3 | 1 | 6 | 48 0 0 0; 37 0 1 6; 6 0 0 1; 6 0 0 2
1 3 | 1 | 6 | 48 0 0 0; 53 0 1 6; 6 0 0 1; 6 0 0 2
2 3 | 1 | 5 | 48 0 0 0; 53 0 1 6; 6 0 0 1; 6 0 0 2
1 3 | 1 | 2 | 48 0 0 0; 69 0 1 6; 6 0 0 1; 6 0 0 2
2 3 | 1 | 9 | 48 0 0 0; 69 0 1 6; 6 0 0 1; 6 0 0 2
1 4 | 1 | 6 | 1 0 0 6; 48 0 0 0; 29 0 1 0; 6 0 0 1; 6 0 0 2
2 4 | 1 | 6 | 1 0 0 6; 48 0 0 0; 45 0 1 0; 6 0 0 1; 6 0 0 2
1 4 | 1 | 6 | 1 0 0 6; 48 0 0 0; 61 0 1 0; 6 0 0 1; 6 0 0 2
2 4 | 1 | 9 | 1 0 0 6; 48 0 0 0; 77 0 1 0; 6 0 0 1; 6 0 0 2
# Tests for equality follow one another
3 4 | 1 | 4 | 48 0 0 0; 21 3 0 4; 21 0 1 5; 6 0 0 1; 6 0 0 2; 21 0 0 4; 6 0 0 3
1 4 | 1 | 5 | 48 0 0 0; 21 3 0 4; 21 0 1 5; 6 0 0 1; 6 0 0 2; 21 0 0 4; 6 0 0 3
2 4 | 1 | 6 | 48 0 0 0; 21 3 0 4; 21 0 1 5; 6 0 0 1; 6 0 0 2; 21 0 0 4; 6 0 0 3
# Fields that are not used are not checked
0 2 | 0 | - | 7 255 255 99; 60 9 9 0; 22 1 1 77";

/// The bytes of a text, decimal numbers; none of `-`.
fn bytes_of(rt: &(impl Abort + AllocGlobal), text: &str) -> Vec<u8> {
    let mut bytes = Vec::new(rt.alloc());
    for number in text.split_whitespace() {
        if number != "-" {
            let byte = number.parse::<u8>().expect(rt, "a byte");
            bytes.push(byte).expect(rt, "memory");
        }
    }
    bytes
}

/// Runs the program of a row.
fn answers(rt: &(impl Abort + AllocGlobal), row: &'static str) -> bool {
    let (wanted, rest) = field(row);
    let (len, rest) = field(rest);
    let (packet, code) = field(rest);
    let packet = bytes_of(rt, packet);
    let mut program = check(code_of(rt, code)).expect(rt, "a program");
    let len = len.parse::<u32>().expect(rt, "a length");
    let (answer, count) = run(&mut program, &packet, len);
    is_told_as(rt.alloc(), format_args!("{answer} {count}"), wanted)
}

#[test]
fn runs_answer_as_stated(rt: HostRuntime) {
    for row in ANSWERS.lines() {
        assert!(rt; row.starts_with("#") || answers(&rt, row), "{row}");
    }
}

#[test]
fn codes_stand_for_their_operations(rt: HostRuntime) {
    for code in 0..=255u16 {
        if let Some(operation) = decode(code) {
            assert!(rt; operation.code() == code);
        }
    }
    assert!(rt; Operation::Negate.code() == 132);
}

#[test]
fn a_longest_program_of_jumps_ends(rt: HostRuntime) {
    let mut insns = Vec::new(rt.alloc());
    for _ in 0..32_767 {
        insns.push(insn(5, 0, 0, 0)).expect(&rt, "memory");
    }
    insns.push(insn(6, 0, 0, 1)).expect(&rt, "memory");
    let mut program = check(insns).expect(&rt, "a program");
    assert!(rt; run(&mut program, &[], 0) == (1, 32_768));
    assert!(rt; run(&mut program, &[], 0) == (1, 32_768));
    assert!(rt; program.spent() == 65_536);
}

#[test]
fn a_program_may_be_too_long(rt: HostRuntime) {
    let insns = vec![in rt.alloc(); insn(9, 0, 0, 0); 32_769].expect(&rt, "memory");
    assert!(rt; check(insns).err() == Some((CheckFault::TooLong, 0)));
}

/// Whether a fault is reported like this.
fn is_told_as(alloc: Global, fault: impl Display + Drop, text: &str) -> bool {
    matches!(format!(in alloc; "{fault}"), Ok(told) if told.as_str() == text)
}

#[test]
fn faults_are_told(rt: HostRuntime) {
    let wrong = ListingFault::NotListing(5);
    assert!(rt; is_told_as(rt.alloc(), wrong, "not a listing at line 5"));
    assert!(rt; is_told_as(rt.alloc(), ListingFault::Memory, "no memory"));
    assert!(rt; is_told_as(rt.alloc(), CheckFault::JumpOut, "jump out"));
    assert!(rt; wrong.text() == "not a listing" && wrong.line() == Some(5));
    assert!(rt; CheckFault::JumpOut.has_index() && !CheckFault::Empty.has_index());
    assert!(rt; CheckFault::NoReturn.text() == "no return at the end");
}
