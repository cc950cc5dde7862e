//! Captures that are read: one of each form, put together by the formats' drafts.

use super::are_all;
use super::programs::{Row, UNWRITTEN, filled};
use crate::matching::capkit_next_match;
use crate::memory::{Interface, Packet, Reader};
use crate::reading::{capkit_comment, capkit_next, capkit_next_unit, capkit_skip};
use flt_bpf::Insn;
use std::alloc::{AllocError, Global};

/// The start of a capture.
const START: Reader = Reader {
    offset: 0,
    snap: 0,
    interfaces: 0,
    link_type: 0,
    has_link_type: 0,
    form: 0,
    big_endian: 0,
    nanoseconds: 0,
};

pub(super) const NO_INTERFACE: Interface = Interface {
    units: 0,
    offset: 0,
    snap: 0,
    link_type: 0,
    name_length: 0,
    name: [0; 255],
};

pub(super) const NO_PACKET: Packet = Packet {
    time: 77,
    at: 77,
    options_at: 77,
    captured: 77,
    original: 77,
    options_length: 77,
    interface: 77,
    snap: 77,
    link_type: 77,
};

/// A packet: its time and place, its captured and original length, its interface with snap length
/// and link type, its comment.
type Seen = ((u64, usize), (u32, u32), (u32, u32, u16), &'static [u8]);

/// The room of the table, the number that a call returns, and the packet that it finds.
type Call = (usize, u32, Option<Seen>);

/// Microseconds, little-endian, Ethernet, snap length 262,144: one record.
const MICROSECONDS: &[u8] = &[
    0xd4, 0xc3, 0xb2, 0xa1, 2, 0, 4, 0, 0, 0, 0, 0, 0, 0, 0, 0, 0, 0, 4, 0, 1, 0, 0, 0, 1, 0, 0, 0,
    5, 0, 0, 0, 4, 0, 0, 0, 9, 0, 0, 0, 0xaa, 0xbb, 0xcc, 0xdd,
];

/// Nanoseconds, big-endian, raw IP, snap length 96: two records.
const NANOSECONDS: &[u8] = &[
    0xa1, 0xb2, 0x3c, 0x4d, 0, 2, 0, 4, 0, 0, 0, 0, 0, 0, 0, 0, 0, 0, 0, 0x60, 0, 0, 0, 0x65, 0, 0,
    0, 1, 0, 0, 0, 5, 0, 0, 0, 2, 0, 0, 0, 9, 0xaa, 0xbb, 0, 0, 0, 2, 0, 0, 0, 6, 0, 0, 0, 0, 0, 0,
    0, 0,
];

/// A section, an interface `eth0` of nanoseconds that adds ten seconds, statistics, a packet with a
/// comment, an interface of microseconds, a packet of it, a simple packet.
const BLOCKS: &[u8] = &[
    0x0a, 0x0d, 0x0d, 0x0a, 0x1c, 0, 0, 0, 0x4d, 0x3c, 0x2b, 0x1a, 1, 0, 0, 0, 0xff, 0xff, 0xff,
    0xff, 0xff, 0xff, 0xff, 0xff, 0x1c, 0, 0, 0, 1, 0, 0, 0, 0x34, 0, 0, 0, 1, 0, 0, 0, 0x60, 0, 0,
    0, 2, 0, 4, 0, 0x65, 0x74, 0x68, 0x30, 9, 0, 1, 0, 9, 0, 0, 0, 0x0e, 0, 8, 0, 0x0a, 0, 0, 0, 0,
    0, 0, 0, 0, 0, 0, 0, 0x34, 0, 0, 0, 5, 0, 0, 0, 0x10, 0, 0, 0, 0, 0, 0, 0, 0x10, 0, 0, 0, 6, 0,
    0, 0, 0x30, 0, 0, 0, 0, 0, 0, 0, 0, 0, 0, 0, 7, 0, 0, 0, 3, 0, 0, 0, 0x3c, 0, 0, 0, 0xaa, 0xbb,
    0xcc, 0, 1, 0, 2, 0, 0x68, 0x69, 0, 0, 0, 0, 0, 0, 0x30, 0, 0, 0, 1, 0, 0, 0, 0x14, 0, 0, 0,
    0x65, 0, 0, 0, 0, 0, 0, 0, 0x14, 0, 0, 0, 6, 0, 0, 0, 0x24, 0, 0, 0, 1, 0, 0, 0, 0, 0, 0, 0, 3,
    0, 0, 0, 1, 0, 0, 0, 1, 0, 0, 0, 0xdd, 0, 0, 0, 0x24, 0, 0, 0, 3, 0, 0, 0, 0x14, 0, 0, 0, 2, 0,
    0, 0, 0xee, 0xff, 0, 0, 0x14, 0, 0, 0,
];

/// A big-endian section with an interface of eighths of a second, a packet with a comment, and a
/// little-endian section with a packet of no interface.
const SECTIONS: &[u8] = &[
    0x0a, 0x0d, 0x0d, 0x0a, 0, 0, 0, 0x1c, 0x1a, 0x2b, 0x3c, 0x4d, 0, 1, 0, 0, 0xff, 0xff, 0xff,
    0xff, 0xff, 0xff, 0xff, 0xff, 0, 0, 0, 0x1c, 0, 0, 0, 1, 0, 0, 0, 0x20, 0, 0x71, 0, 0, 0, 0, 0,
    0, 0, 9, 0, 1, 0x83, 0, 0, 0, 0, 0, 0, 0, 0, 0, 0, 0x20, 0, 0, 0, 6, 0, 0, 0, 0x2c, 0, 0, 0, 0,
    0, 0, 0, 0, 0, 0, 0, 0x0c, 0, 0, 0, 1, 0, 0, 0, 1, 0xaa, 0, 0, 0, 0, 1, 0, 3, 0x62, 0x69, 0x67,
    0, 0, 0, 0, 0x2c, 0x0a, 0x0d, 0x0d, 0x0a, 0x1c, 0, 0, 0, 0x4d, 0x3c, 0x2b, 0x1a, 1, 0, 0, 0,
    0xff, 0xff, 0xff, 0xff, 0xff, 0xff, 0xff, 0xff, 0x1c, 0, 0, 0, 6, 0, 0, 0, 0x20, 0, 0, 0, 0, 0,
    0, 0, 0, 0, 0, 0, 0, 0, 0, 0, 0, 0, 0, 0, 0, 0, 0, 0, 0x20, 0, 0, 0,
];

const CAPTURES: &[(&[u8], &[Call])] = &[
    (
        MICROSECONDS,
        &[
            (0, 223, None),
            (
                0,
                0,
                Some(((1_000_005_000, 40), (4, 9), (0, 262_144, 1), b"")),
            ),
            (0, 222, None),
        ],
    ),
    (
        NANOSECONDS,
        &[
            (0, 223, None),
            (0, 0, Some(((1_000_000_005, 40), (2, 9), (0, 96, 101), b""))),
            (0, 0, Some(((2_000_000_006, 58), (0, 0), (0, 96, 101), b""))),
            (0, 222, None),
        ],
    ),
    (
        BLOCKS,
        &[
            (0, 223, None),
            (0, 224, None),
            (1, 223, None),
            (1, 223, None),
            (
                1,
                0,
                Some(((10_000_000_007, 124), (3, 60), (0, 96, 1), b"hi")),
            ),
            (1, 224, None),
            (2, 223, None),
            (2, 0, Some(((3_000, 192), (1, 1), (1, 0, 101), b""))),
            (2, 0, Some(((0, 212), (2, 2), (0, 96, 1), b""))),
            (2, 222, None),
        ],
    ),
    (
        SECTIONS,
        &[
            (2, 223, None),
            (2, 223, None),
            (
                2,
                0,
                Some(((1_500_000_000, 88), (1, 1), (0, 0, 113), b"big")),
            ),
            (2, 223, None),
            (2, 207, None),
        ],
    ),
];

/// Whether what a call left is the packet of a row, with its comment.
fn is_seen(seen: &Seen, reader: &Reader, capture: &[u8], packet: &Packet) -> bool {
    let (place, lengths, interface, comment) = *seen;
    let mut buffer = [b'~'; 4];
    let length = capkit_comment(reader, capture, packet, &mut buffer);
    let size = comment.len().min(3);
    let is_commented = length == comment.len() && &buffer[..size] == &comment[..size];
    let is_kept = buffer[size] == 0 && are_all(&buffer[size + 1..], b'~');
    (packet.time, packet.at) == place
        && (packet.captured, packet.original) == lengths
        && (packet.interface, packet.snap, packet.link_type) == interface
        && (reader.form != 1 || packet.options_length == 0)
        && is_commented
        && is_kept
}

/// Whether a call is as its row says; without a packet it writes none.
fn is_right(call: &Call, reader: &mut Reader, table: &mut [Interface; 2], capture: &[u8]) -> bool {
    let mut packet = NO_PACKET;
    let room = call.0.min(2);
    let number = capkit_next_unit(reader, &mut table[..room], capture, &mut packet);
    number == call.1
        && match &call.2 {
            Some(seen) => is_seen(seen, reader, capture, &packet),
            None => packet.time == 77 && packet.at == 77 && packet.link_type == 77,
        }
}

#[test]
fn captures_are_read(rt: HostRuntime) {
    for (number, (capture, calls)) in CAPTURES.iter().enumerate() {
        let (mut reader, mut table) = (START, [NO_INTERFACE; 2]);
        for (at, call) in calls.iter().enumerate() {
            let is_right = is_right(call, &mut reader, &mut table, capture);
            assert!(rt; is_right, "capture {number}, call {at}");
        }
    }
}

/// Reads units up to a fault or the end, and gives its number, with the reader as it is then.
fn read_all(capture: &[u8], table: &mut [Interface]) -> (u32, Reader) {
    let (mut reader, mut packet) = (START, NO_PACKET);
    let mut number = 0;
    for _ in 0..300 {
        number = capkit_next_unit(&mut reader, table, capture, &mut packet);
        if number != 0 && number != 223 {
            break;
        }
    }
    (number, reader)
}

/// What C sees of the reader and of the table.
#[test]
fn what_is_declared(rt: HostRuntime) {
    let mut table = [NO_INTERFACE; 2];
    let (_, reader) = read_all(NANOSECONDS, &mut table);
    assert!(rt; (reader.form, reader.big_endian, reader.nanoseconds) == (1, 1, 1));
    assert!(rt; (reader.link_type, reader.has_link_type, reader.snap) == (101, 1, 96));
    let (_, reader) = read_all(SECTIONS, &mut table);
    assert!(rt; (reader.form, reader.big_endian, reader.interfaces) == (2, 0, 0));
    assert!(rt; (reader.link_type, reader.has_link_type) == (113, 1));
    let (_, reader) = read_all(BLOCKS, &mut table);
    assert!(rt; (reader.form, reader.big_endian, reader.interfaces) == (2, 0, 2));
    assert!(rt; (reader.link_type, reader.has_link_type) == (1, 1));
    let first = &table[0];
    assert!(rt; (first.units, first.offset, first.snap) == (1_000_000_000, 10, 96));
    assert!(rt; (first.link_type, first.name_length) == (1, 4));
    assert!(rt; first.name.starts_with(b"eth0"));
    assert!(rt; (table[1].units, table[1].name_length) == (1_000_000, 0));
}

/// A capture, the place of a byte and what is put there, the number of the first check that fails,
/// and the offset of its unit.
const FAULTS: &[(&[u8], usize, u8, u32, usize)] = &[
    (MICROSECONDS, 0, 0, 201, 0),
    (MICROSECONDS, 6, 5, 203, 0),
    (MICROSECONDS, 34, 16, 204, 24),
    (MICROSECONDS, 30, 16, 210, 24),
    (MICROSECONDS, 22, 1, 213, 0),
    (BLOCKS, 32, 53, 205, 28),
    (BLOCKS, 8, 0, 206, 0),
    (BLOCKS, 104, 9, 207, 96),
    (BLOCKS, 46, 200, 208, 28),
    (BLOCKS, 116, 200, 209, 96),
    (BLOCKS, 56, 13, 212, 28),
    (BLOCKS, 96, 2, 214, 96),
    (SECTIONS, 132, 3, 207, 132),
];

/// A capture in which one byte is another.
fn altered(alloc: Global, capture: &[u8], at: usize, byte: u8) -> Result<Vec<u8>, AllocError> {
    let mut altered = Vec::from_slice(alloc, capture)?;
    if let Some(place) = altered.get_mut(at) {
        *place = byte;
    }
    Ok(altered)
}

#[test]
fn faults_are_found(rt: HostRuntime) {
    let mut table = [NO_INTERFACE; 2];
    for (capture, at, byte, expected, offset) in FAULTS {
        let altered = altered(rt.alloc(), capture, *at, *byte).expect(&rt, "memory");
        let (number, reader) = read_all(&altered, &mut table);
        assert!(rt;
            number == *expected && reader.offset == *offset,
            "{number} at {at}"
        );
    }
}

/// A section with 256 interfaces, and one more, whose name has this length.
fn too_many(alloc: Global, name_length: u8) -> Result<Vec<u8>, AllocError> {
    let mut capture = Vec::from_slice(alloc, &BLOCKS[..28])?;
    for _ in 0..256 {
        capture.extend_from_slice(&BLOCKS[144..164])?;
    }
    capture.extend_from_slice(&BLOCKS[28..46])?;
    capture.push(name_length)?;
    capture.extend_from_slice(&BLOCKS[47..80])?;
    Ok(capture)
}

/// The name of the last interface fits, or doesn't.
#[test]
fn most_interfaces(rt: HostRuntime) {
    let mut table = vec![in rt.alloc(); NO_INTERFACE; 300].expect(&rt, "memory");
    for name_length in [200, 4] {
        let capture = too_many(rt.alloc(), name_length).expect(&rt, "memory");
        let (number, reader) = read_all(&capture, &mut table);
        assert!(rt; (number, reader.offset, reader.interfaces) == (211, 28 + 256 * 20, 256));
    }
}

/// A prefix ends cleanly after a unit; before the magic number it isn't a capture; else it is
/// truncated.
#[test]
fn prefixes_are_truncated(rt: HostRuntime) {
    let mut table = [NO_INTERFACE; 2];
    for capture in [MICROSECONDS, NANOSECONDS, BLOCKS] {
        for size in 0..capture.len() {
            let (number, reader) = read_all(&capture[..size], &mut table);
            let is_whole = size > 0 && reader.offset == size;
            let cut = if size < 4 { 201 } else { 202 };
            assert!(rt;
                number == if is_whole { 222 } else { cut },
                "{number} at {size}"
            );
        }
    }
}

/// A capture, a program of one return, its link type, and what the search for packets returns.
const SEARCHES: &[(&[u8], u32, u16, u32)] = &[
    (MICROSECONDS, 1, 1, 0),
    (MICROSECONDS, 0, 1, 222),
    (MICROSECONDS, 1, 101, 226),
    (NANOSECONDS, 7, 101, 0),
    (&[], 1, 1, 201),
];

/// Packets are read without the units between them, and sought by a program.
#[test]
fn packets_are_sought(rt: HostRuntime) {
    for (capture, answer, link_type, expected) in SEARCHES {
        let (mut reader, mut table, mut packet) = (START, [NO_INTERFACE; 2], NO_PACKET);
        let found = capkit_next(&mut reader, &mut table, capture, &mut packet);
        assert!(rt; found == if capture.is_empty() { 201 } else { 0 });
        let insns = [Insn {
            code: 6,
            jt: 0,
            jf: 0,
            k: *answer,
        }];
        reader = START;
        let found = capkit_next_match(
            &mut reader,
            &mut table,
            capture,
            &insns,
            *link_type,
            &mut packet,
        );
        assert!(rt; found == *expected, "{found}");
    }
}

/// Instructions, and what the search for packets of a capture of Ethernet returns: those that a run
/// reaches decide, whatever else the others are.
const SEARCHERS: &[(&[Row], u32)] = &[
    (&[], 222),
    // No instruction has the code 9; the second one isn't reached, or is.
    (&[(6, 0, 0, 5), (9, 0, 0, 0)], 0),
    (&[(0, 0, 0, 5), (9, 0, 0, 0)], 222),
    // Past the end; division by 0.
    (&[(0, 0, 0, 5)], 222),
    (&[(0x34, 0, 0, 0), (6, 0, 0, 5)], 222),
];

/// No instructions but a valid program accept all packets that they could; they stop no search.
#[test]
fn packets_are_sought_by_any_instructions(rt: HostRuntime) {
    for (rows, expected) in SEARCHERS {
        let (mut reader, mut table, mut packet) = (START, [NO_INTERFACE; 2], NO_PACKET);
        let mut place = [UNWRITTEN; 8];
        let found = capkit_next_match(
            &mut reader,
            &mut table,
            MICROSECONDS,
            filled(rows, &mut place),
            1,
            &mut packet,
        );
        assert!(rt;
            found == *expected && reader.offset == MICROSECONDS.len(),
            "{found}"
        );
    }
}

/// A capture, the place of a byte and what is put there, the units that are read before the fault,
/// and what `capkit_skip` returns there, the offset after it, and the next number.
const SKIPS: &[(&[u8], (usize, u8), usize, (u32, usize, u32))] = &[
    // The time of a record, and of a block.
    (MICROSECONDS, (30, 16), 1, (228, 44, 222)),
    (NANOSECONDS, (28, 0xff), 1, (228, 42, 0)),
    (BLOCKS, (111, 0xff), 3, (228, 144, 224)),
    // A link type: 65,537 is 1.
    (MICROSECONDS, (22, 1), 0, (228, 24, 0)),
    // Options of an interface, with a wrong length, and with a resolution out of range.
    (BLOCKS, (46, 200), 1, (228, 80, 223)),
    (BLOCKS, (56, 13), 1, (228, 80, 223)),
    // Every other fault.
    (MICROSECONDS, (34, 16), 1, (204, 24, 204)),
    (MICROSECONDS, (6, 5), 0, (203, 0, 203)),
    (BLOCKS, (32, 53), 1, (205, 28, 205)),
    (BLOCKS, (104, 9), 3, (207, 96, 207)),
    // Sound units.
    (MICROSECONDS, (25, 0), 0, (223, 0, 223)),
    (MICROSECONDS, (25, 0), 1, (0, 24, 0)),
    (MICROSECONDS, (25, 0), 2, (222, 44, 222)),
    (BLOCKS, (25, 0), 1, (223, 28, 223)),
];

/// What is refused for its time, its link type or its options is gone past, and nothing else.
#[test]
fn refused_units_are_skipped(rt: HostRuntime) {
    for (capture, (at, byte), before, expected) in SKIPS {
        let altered = altered(rt.alloc(), capture, *at, *byte).expect(&rt, "memory");
        let (mut reader, mut table, mut packet) = (START, [NO_INTERFACE; 1], NO_PACKET);
        for _ in 0..*before {
            capkit_next_unit(&mut reader, &mut table, &altered, &mut packet);
        }
        let skipped = capkit_skip(&mut reader, &mut table, &altered);
        let offset = reader.offset;
        let number = capkit_next_unit(&mut reader, &mut table, &altered, &mut packet);
        assert!(rt;
            (skipped, offset, number) == *expected,
            "{skipped} to {offset}, {number}"
        );
    }
}

/// A record is skipped once all of its bytes are there, though its time is refused earlier.
#[test]
fn cut_records_are_not_skipped(rt: HostRuntime) {
    let altered = altered(rt.alloc(), MICROSECONDS, 30, 16).expect(&rt, "memory");
    let cut = altered.get(..43).unwrap_or_default();
    let (mut reader, mut packet) = (START, NO_PACKET);
    assert!(rt; capkit_next(&mut reader, &mut [], cut, &mut packet) == 210);
    assert!(rt; capkit_skip(&mut reader, &mut [], cut) == 202 && reader.offset == 24);
    assert!(rt; capkit_skip(&mut reader, &mut [], &altered) == 228 && reader.offset == 44);
}

/// An interface whose options are refused keeps its number, its link type and its snap length,
/// if the table has room for it; each of its packets is out of range, and later interfaces keep
/// their numbers.
#[test]
fn refused_interfaces_keep_their_numbers(rt: HostRuntime) {
    let altered = altered(rt.alloc(), BLOCKS, 56, 13).expect(&rt, "memory");
    let (mut reader, mut table, mut packet) = (START, [NO_INTERFACE; 2], NO_PACKET);
    assert!(rt; capkit_next(&mut reader, &mut table, &altered, &mut packet) == 212);
    assert!(rt; capkit_skip(&mut reader, &mut [], &altered) == 224 && reader.offset == 28);
    assert!(rt; reader.interfaces == 0 && reader.has_link_type == 0);
    assert!(rt; capkit_skip(&mut reader, &mut table, &altered) == 228 && reader.offset == 80);
    assert!(rt; (reader.interfaces, reader.link_type, reader.has_link_type) == (1, 1, 1));
    let first = &table[0];
    assert!(rt; (first.link_type, first.snap, first.name_length) == (1, 96, 0));
    assert!(rt; (first.units, first.offset) == (1_000_000, i64::MAX));
    assert!(rt; capkit_next(&mut reader, &mut table, &altered, &mut packet) == 210);
    assert!(rt; capkit_skip(&mut reader, &mut table, &altered) == 228 && reader.offset == 144);
    assert!(rt; capkit_next(&mut reader, &mut table, &altered, &mut packet) == 0);
    assert!(rt; (packet.interface, packet.link_type, packet.time) == (1, 101, 3000));
}
