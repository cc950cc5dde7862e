//! Compilations, checks and runs.

use super::are_all;
use crate::allocating::{capkit_bound, capkit_compile, capkit_read_listing, capkit_write_listing};
use crate::portable::capkit_is_portable;
use crate::running::{
    capkit_check, capkit_matches, capkit_matches_unchecked, capkit_run, capkit_run_unchecked,
    capkit_trace,
};
use flt_bpf::Insn;
use flt_trace::Step;
use std::alloc::{AllocError, Global};

/// What instructions hold that no call wrote.
pub(super) const UNWRITTEN: Insn = Insn {
    code: 0xaaaa,
    jt: 0xaa,
    jf: 0xaa,
    k: 0xaaaa_aaaa,
};

/// An instruction: its code, how many a test skips if it holds and if it doesn't, its number.
pub(super) type Row = (u16, u8, u8, u32);

/// Puts rows into a place for eight instructions, and gives these.
pub(super) fn filled<'a>(rows: &[Row], place: &'a mut [Insn; 8]) -> &'a [Insn] {
    let count = rows.len().min(8);
    for (insn, row) in place.iter_mut().zip(rows) {
        let (code, jt, jf, k) = *row;
        *insn = Insn { code, jt, jf, k };
    }
    &place[..count]
}

/// `tcpdump -ddd ip` of Ethernet (4.99.3).
const IPV4: [Row; 4] = [
    (40, 0, 0, 12),
    (21, 0, 1, 2048),
    (6, 0, 0, 262_144),
    (6, 0, 0, 0),
];

/// A text, its link type, the room, and what a compilation returns next to which number.
type Refusal = (&'static [u8], u16, usize, (u32, usize));

const REFUSALS: &[Refusal] = &[
    (b"ip @", 1, 4, (2, 4)),
    (b"ip or sctpp", 1, 4, (3, 7)),
    (b"port 99999999999", 1, 4, (4, 6)),
    (b"ip and", 1, 4, (5, 0)),
    (b"ether port 80", 1, 4, (7, 0)),
    (b"port 65536", 1, 4, (8, 0)),
    (b"net 10.0.0.1/8", 1, 4, (9, 0)),
    (b"len / 0 = 1", 1, 4, (10, 0)),
    (b"ip \xff", 1, 4, (14, 4)),
    (b"ip", 14, 4, (15, 0)),
    (b"ip", 1, 3, (16, 4)),
];

/// Whether a compilation of a row fails as it says and writes nothing, and the bound is that of a
/// text that is refused.
fn is_refused(alloc: Global, row: &Refusal) -> bool {
    let (text, link_type, room, expected) = row;
    let mut insns = [UNWRITTEN; 4];
    let mut number = 77;
    let room = (*room).min(4);
    let status = capkit_compile(alloc, text, *link_type, &mut insns[..room], &mut number);
    let mut place = 77;
    let of_bound = capkit_bound(alloc, text, &mut place);
    let is_of_text = status < 15 && (of_bound, place) == *expected;
    let is_kept = insns == [UNWRITTEN; 4];
    (status, number) == *expected && is_kept && (is_of_text || of_bound == 0 && 4 <= place)
}

#[test]
fn refused_texts(rt: HostRuntime) {
    for row in REFUSALS {
        assert!(rt; is_refused(rt.alloc(), row), "status {}", row.3.0);
    }
    let blanks = vec![in rt.alloc(); b' '; 65_537].expect(&rt, "memory");
    let mut number = 77;
    assert!(rt; capkit_bound(rt.alloc(), &blanks, &mut number) == 1 && number == 0);
}

/// What a program that passes the check returns on a packet, and after how many steps, if all
/// runs agree in it.
fn answer_of(insns: &[Insn], packet: &[u8]) -> Option<(u32, usize)> {
    let (mut index, mut steps, mut counted) = (77, 77, 77);
    if capkit_check(insns, &mut index) != 0 {
        return None;
    }
    let len = packet.len().min(60) as u32;
    let answer = capkit_run_unchecked(insns, packet, len, &mut steps);
    let same = capkit_run(insns, packet, len, &mut counted);
    let matches = capkit_matches(insns, packet, len);
    let quick = capkit_matches_unchecked(insns, packet, len);
    let traced = capkit_trace(insns, packet, len, &mut []);
    let is_same = (answer, steps) == (same, counted) && (matches, traced) == (same, counted);
    if is_same && quick == same && index == 0 {
        Some((answer, steps))
    } else {
        None
    }
}

#[test]
fn a_short_text(rt: HostRuntime) {
    let (mut insns, mut place, mut number) = ([UNWRITTEN; 6], [UNWRITTEN; 8], 77);
    // 2, and 6 for its test.
    assert!(rt; capkit_bound(rt.alloc(), b"ip", &mut number) == 0 && number == 8);
    let status = capkit_compile(rt.alloc(), b"ip", 1, &mut insns, &mut number);
    assert!(rt; (status, number) == (0, 4));
    let program = insns.get(..4).unwrap_or(&[]);
    assert!(rt; program == filled(&IPV4, &mut place));
    assert!(rt; insns[4] == UNWRITTEN && insns[5] == UNWRITTEN);
    assert!(rt; capkit_is_portable(program) == 1);
    let mut packet = [0u8; 14];
    packet[12] = 8;
    assert!(rt; answer_of(program, &packet) == Some((262_144, 3)));
    packet[13] = 6;
    assert!(rt; answer_of(program, &packet) == Some((0, 3)));
    assert!(rt; answer_of(program, &packet[..13]) == Some((0, 1)));
}

/// A link type, and the byte of its packets which shows that they are IPv4.
const LINK_TYPES: [(u16, usize, u8); 4] = [(1, 12, 8), (101, 0, 0x45), (12, 0, 0x45), (113, 14, 8)];

#[test]
fn link_types(rt: HostRuntime) {
    for (link_type, at, byte) in LINK_TYPES {
        let (mut insns, mut count) = ([UNWRITTEN; 8], 77);
        let status = capkit_compile(rt.alloc(), b"ip", link_type, &mut insns, &mut count);
        let program = insns.get(..count).unwrap_or(&[]);
        let mut packet = [0u8; 16];
        let rejects = matches!(answer_of(program, &packet), Some((0, _)));
        packet[at] = byte;
        let accepts = matches!(answer_of(program, &packet), Some((262_144, _)));
        assert!(rt; status == 0 && rejects && accepts, "link type {link_type}");
    }
}

/// A text, a link type, the room for instructions, and the status with its number. All texts but
/// the last ones are the empty expression; 14 and 147 are unknown link types.
const BLANKS: &[(&[u8], u16, usize, (u32, usize))] = &[
    (b"", 1, 2, (0, 1)),
    (b"", 14, 1, (0, 1)),
    (b" ", 147, 2, (0, 1)),
    (b" \t\r\n", 12, 2, (0, 1)),
    (b"\n\r\t ", 65_535, 2, (0, 1)),
    (b" ", 14, 0, (16, 1)),
    (b"\x0c", 14, 2, (15, 0)),
    (b"\x0c", 1, 2, (2, 1)),
];

#[test]
fn empty_expressions(rt: HostRuntime) {
    for (text, link_type, room, expected) in BLANKS {
        let (mut insns, mut number) = ([UNWRITTEN; 2], 77);
        let room = &mut insns[..(*room).min(2)];
        let status = capkit_compile(rt.alloc(), text, *link_type, room, &mut number);
        assert!(rt; (status, number) == *expected, "link type {link_type}");
        let accepts = answer_of(&insns[..1], b"") == Some((262_144, 1));
        assert!(rt; accepts == (status == 0), "link type {link_type}");
    }
}

/// `tcp port 20000 or 20002` and so on up to 20,398: 2,002 bytes.
fn many_ports(alloc: Global) -> Result<String, AllocError> {
    let mut text = String::from_str(alloc, "tcp port 20000")?;
    for port in 10_001..10_200u32 {
        text.push_str(&format!(in alloc; " or {}", 2 * port)?)?;
    }
    Ok(text)
}

/// Ethernet, IPv4 and TCP from port 1024 to another one.
fn segment(port: u16) -> [u8; 54] {
    let mut packet = [0; 54];
    packet[12] = 8;
    packet[14] = 0x45;
    packet[23] = 6;
    packet[34] = 4;
    packet[36..38].copy_from_slice(&port.to_be_bytes());
    packet
}

#[test]
fn a_long_text(rt: HostRuntime) {
    let text = many_ports(rt.alloc()).expect(&rt, "memory");
    assert!(rt; text.len() > 1_000);
    let mut insns = vec![in rt.alloc(); UNWRITTEN; 32_768].expect(&rt, "memory");
    let (mut bound, mut count) = (0, 0);
    assert!(rt; capkit_bound(rt.alloc(), text.as_bytes(), &mut bound) == 0);
    let status = capkit_compile(rt.alloc(), text.as_bytes(), 1, &mut insns, &mut count);
    assert!(rt; status == 0 && 200 < count && count <= bound && bound <= 32_768);
    for (port, is_taken) in [
        (19_998, false),
        (20_000, true),
        (20_001, false),
        (20_398, true),
        (20_400, false),
    ] {
        let answer = answer_of(&insns[..count], &segment(port));
        let expected = if is_taken { 262_144 } else { 0 };
        assert!(rt;
            matches!(answer, Some((number, _)) if number == expected),
            "port {port}"
        );
    }
}

/// Instructions, the first rule that they break, and where.
const CHECKS: &[(&[Row], u32, usize)] = &[
    (&[(6, 0, 0, 1)], 0, 0),
    (&[], 101, 0),
    (
        &[(6, 0, 0, 1), (7, 0, 0, 0), (8, 0, 0, 0), (6, 0, 0, 0)],
        103,
        2,
    ),
    (&[(5, 0, 0, 1), (6, 0, 0, 0)], 104, 0),
    (&[(0, 0, 0, 1), (2, 0, 0, 16), (6, 0, 0, 0)], 105, 1),
    (&[(52, 0, 0, 0), (6, 0, 0, 0)], 106, 0),
    (&[(100, 0, 0, 32), (6, 0, 0, 0)], 107, 0),
    (&[(0, 0, 0, 1)], 108, 0),
];

#[test]
fn programs_are_checked(rt: HostRuntime) {
    for (rows, rule, at) in CHECKS {
        let (mut place, mut index) = ([UNWRITTEN; 8], 77);
        let found = capkit_check(filled(rows, &mut place), &mut index);
        assert!(rt; found == *rule && index == *at, "rule {rule}");
    }
    let long = vec![in rt.alloc(); UNWRITTEN; 32_769].expect(&rt, "memory");
    let mut index = 77;
    assert!(rt; capkit_check(&long, &mut index) == 102 && index == 0);
}

/// Instructions, valid or not, and what any run returns, on two bytes of a packet of 60.
const RUNS: &[(&[Row], (u32, usize))] = &[
    (&[(128, 0, 0, 0), (22, 0, 0, 0)], (60, 2)),
    (
        &[(48, 0, 0, 1), (21, 1, 0, 9), (6, 0, 0, 2), (6, 0, 0, 3)],
        (3, 3),
    ),
    (&[(48, 0, 0, 2), (6, 0, 0, 1)], (0, 1)),
    // It goes past the end, jumps out, meets an unknown code.
    (&[(0, 0, 0, 1)], (0, 0)),
    (&[(5, 0, 0, 9), (6, 0, 0, 1)], (0, 0)),
    (&[(9, 0, 0, 9), (6, 0, 0, 1)], (0, 0)),
    (&[], (0, 0)),
    // What it doesn't reach may break rules.
    (&[(6, 0, 0, 5), (9, 0, 0, 0)], (5, 1)),
];

#[test]
fn any_instructions_run(rt: HostRuntime) {
    for (rows, expected) in RUNS {
        let (mut place, mut steps) = ([UNWRITTEN; 8], 77);
        let answer = capkit_run(filled(rows, &mut place), &[7, 9], 60, &mut steps);
        assert!(rt; (answer, steps) == *expected, "{} in {steps}", answer);
        assert!(rt; capkit_matches(filled(rows, &mut place), &[7, 9], 60) == expected.0);
    }
}

/// A text, and what reading it as a listing returns next to which number, with room for two.
const LISTINGS: &[(&[u8], (u32, usize))] = &[
    (b"2\n48 0 0 1\n22 0 0 0\n", (0, 2)),
    (b"1\n48 0 0 1", (0, 1)),
    (b"0\n", (0, 0)),
    (b"", (17, 1)),
    (b"2\n48 0 0 1\n22 0 256 0\n", (17, 3)),
    (b"3\n6 0 0 0\n6 0 0 0\n6 0 0 0\n", (16, 3)),
];

#[test]
fn listings_are_read(rt: HostRuntime) {
    for (text, expected) in LISTINGS {
        let (mut insns, mut number) = ([UNWRITTEN; 2], 77);
        let status = capkit_read_listing(rt.alloc(), text, &mut insns, &mut number);
        assert!(rt; (status, number) == *expected, "{status} with {number}");
        let is_written = status == 0 && number > 0;
        assert!(rt; insns[0].code == if is_written { 48 } else { UNWRITTEN.code });
    }
    let row = [(22, 0, 0, 0)];
    let mut place = [UNWRITTEN; 8];
    assert!(rt; answer_of(filled(&row, &mut place), &[]) == Some((0, 1)));
}

/// Whether a program's listing is this text, in every room, and reads back to the program.
fn is_listed(alloc: Global, insns: &[Insn], expected: &[u8]) -> bool {
    for room in 0..=72 {
        let (mut buffer, mut length) = ([0xaa; 72], 77);
        let status = capkit_write_listing(alloc, insns, &mut buffer[..room], &mut length);
        let fits = expected.len().min(room.saturating_sub(1));
        let is_ended = room == 0 || buffer[fits] == 0;
        let is_kept = are_all(buffer.get(fits + 1..).unwrap_or_default(), 0xaa);
        if (status, length) != (0, expected.len()) || !is_ended || !is_kept {
            return false;
        }
        if !buffer.starts_with(&expected[..fits]) {
            return false;
        }
    }
    let (mut read, mut count) = ([UNWRITTEN; 8], 77);
    let status = capkit_read_listing(alloc, expected, &mut read, &mut count);
    status == 0 && read.get(..count) == Some(insns)
}

#[test]
fn listings_are_written(rt: HostRuntime) {
    let mut place = [UNWRITTEN; 8];
    let ipv4 = filled(&IPV4, &mut place);
    let expected = b"4\n40 0 0 12\n21 0 1 2048\n6 0 0 262144\n6 0 0 0\n";
    assert!(rt; is_listed(rt.alloc(), ipv4, expected));
    // The longest numbers that a valid instruction has.
    let rows = [(53, 0, 0, 4_294_967_295), (21, 0, 0, 0), (22, 0, 0, 0)];
    let mut place = [UNWRITTEN; 8];
    let expected = b"3\n53 0 0 4294967295\n21 0 0 0\n22 0 0 0\n";
    assert!(rt; is_listed(rt.alloc(), filled(&rows, &mut place), expected));
    for (rows, rule, _) in CHECKS {
        let (mut place, mut buffer, mut length) = ([UNWRITTEN; 8], [0xaa; 40], 77);
        let insns = filled(rows, &mut place);
        let status = capkit_write_listing(rt.alloc(), insns, &mut buffer, &mut length);
        assert!(rt;
            status == *rule && (length > 0) == (*rule == 0),
            "rule {rule}"
        );
        assert!(rt; *rule == 0 || buffer == [0xaa; 40], "rule {rule}");
    }
}

#[test]
fn a_long_listing(rt: HostRuntime) {
    let longest = Insn {
        code: 7,
        jt: 255,
        jf: 255,
        k: 4_294_967_295,
    };
    let mut insns = vec![in rt.alloc(); longest; 32_769].expect(&rt, "memory");
    insns[32_767].code = 22;
    let mut buffer = vec![in rt.alloc(); 0; 819_226].expect(&rt, "memory");
    let mut length = 77;
    let status = capkit_write_listing(rt.alloc(), &insns, &mut buffer, &mut length);
    assert!(rt; status == 102 && length == 0);
    insns.truncate(32_768);
    let status = capkit_write_listing(rt.alloc(), &insns, &mut buffer, &mut length);
    // The line of the count; 21 bytes for each instruction, and 22 for that of code 22.
    assert!(rt; status == 0 && length == 6 + 21 * 32_767 + 22);
    let mut read = vec![in rt.alloc(); UNWRITTEN; 32_768].expect(&rt, "memory");
    let mut count = 77;
    let text = buffer.get(..length).unwrap_or_default();
    let status = capkit_read_listing(rt.alloc(), text, &mut read, &mut count);
    assert!(rt; status == 0 && count == 32_768 && read.as_slice() == insns.as_slice());
}

/// 33 instructions, most of them with the longest line that a valid instruction has.
#[test]
fn a_listing_of_the_longest_lines(rt: HostRuntime) {
    let longest = Insn {
        code: 177,
        jt: 255,
        jf: 255,
        k: 4_294_967_295,
    };
    let mut insns = [longest; 33];
    insns[32].code = 22;
    let (mut buffer, mut length) = ([0xaa; 800], 77);
    let status = capkit_write_listing(rt.alloc(), &insns, &mut buffer, &mut length);
    assert!(rt; (status, length) == (0, 3 + 23 * 32 + 22));
    assert!(rt; buffer.starts_with(b"33\n177 255 255 4294967295\n177 255 255 4294967295\n"));
    let (mut read, mut count) = ([UNWRITTEN; 33], 77);
    let text = buffer.get(..length).unwrap_or_default();
    let status = capkit_read_listing(rt.alloc(), text, &mut read, &mut count);
    assert!(rt; (status, count) == (0, 33) && read == insns);
}
