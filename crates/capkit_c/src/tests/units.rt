//! Units that are written, held against bytes that were put together by the formats' drafts.

use super::are_all;
use crate::writing::{
    capkit_write_file_header, capkit_write_interface, capkit_write_packet, capkit_write_record,
    capkit_write_section,
};

/// 2023-11-14 22:13:20.123456789 UTC.
const TIME: u64 = 1_700_000_000_123_456_789;

/// A unit: nanoseconds, link types, times, numbers of interfaces, and how many bytes of a packet, a
/// name or a comment there are. A packet has 60 bytes on the wire, an interface the link type 101
/// and the snap length 96.
#[derive(Clone, Copy)]
enum Unit {
    Header(u32, u16),
    Record(u32, u64, usize),
    Section,
    Interface(usize),
    Packet(u32, u64, usize, usize),
}

/// The first bytes, as many of `count` as there are.
fn first(bytes: &[u8], size: usize) -> &[u8] {
    &bytes[..size.min(bytes.len())]
}

/// Has a unit written, its bytes the first of these.
fn write(unit: Unit, bytes: &[u8], buffer: &mut [u8], length: &mut usize) -> u32 {
    match unit {
        Unit::Header(nanoseconds, link_type) => {
            capkit_write_file_header(nanoseconds, link_type, buffer, length)
        }
        Unit::Record(nanoseconds, time, size) => {
            capkit_write_record(nanoseconds, time, 60, first(bytes, size), buffer, length)
        }
        Unit::Section => capkit_write_section(buffer, length),
        Unit::Interface(size) => capkit_write_interface(
            101,
            96,
            first(bytes, size),
            buffer,
            length,
        ),
        Unit::Packet(number, time, size, comment) => {
            let (bytes, comment) = (first(bytes, size), first(bytes, comment));
            capkit_write_packet(number, time, 60, bytes, comment, buffer, length)
        }
    }
}

/// Units of the first bytes of aa bb cc dd, and what they are.
const UNITS: &[(Unit, &[u8])] = &[
    // The file header of microseconds on Ethernet, and of nanoseconds on cooked captures.
    (
        Unit::Header(0, 1),
        &[
            0xd4, 0xc3, 0xb2, 0xa1, 2, 0, 4, 0, 0, 0, 0, 0, 0, 0, 0, 0, 0, 0, 4, 0, 1, 0, 0, 0,
        ],
    ),
    (
        Unit::Header(1, 113),
        &[
            0x4d, 0x3c, 0xb2, 0xa1, 2, 0, 4, 0, 0, 0, 0, 0, 0, 0, 0, 0, 0, 0, 4, 0, 0x71, 0, 0, 0,
        ],
    ),
    // Records of three bytes of 60.
    (
        Unit::Record(0, TIME, 3),
        &[
            0, 0xf1, 0x53, 0x65, 0x40, 0xe2, 1, 0, 3, 0, 0, 0, 0x3c, 0, 0, 0, 0xaa, 0xbb, 0xcc,
        ],
    ),
    (
        Unit::Record(7, TIME, 3),
        &[
            0, 0xf1, 0x53, 0x65, 0x15, 0xcd, 0x5b, 7, 3, 0, 0, 0, 0x3c, 0, 0, 0, 0xaa, 0xbb, 0xcc,
        ],
    ),
    (
        Unit::Record(0, 4_294_967_295_999_999_999, 0),
        &[
            0xff, 0xff, 0xff, 0xff, 0x3f, 0x42, 0x0f, 0, 0, 0, 0, 0, 0x3c, 0, 0, 0,
        ],
    ),
    // Blocks, with options and without.
    (
        Unit::Section,
        &[
            0x0a, 0x0d, 0x0d, 0x0a, 0x1c, 0, 0, 0, 0x4d, 0x3c, 0x2b, 0x1a, 1, 0, 0, 0, 0xff, 0xff,
            0xff, 0xff, 0xff, 0xff, 0xff, 0xff, 0x1c, 0, 0, 0,
        ],
    ),
    (
        Unit::Interface(0),
        &[
            1, 0, 0, 0, 0x20, 0, 0, 0, 0x65, 0, 0, 0, 0x60, 0, 0, 0, 9, 0, 1, 0, 9, 0, 0, 0, 0, 0,
            0, 0, 0x20, 0, 0, 0,
        ],
    ),
    (
        Unit::Interface(3),
        &[
            1, 0, 0, 0, 0x28, 0, 0, 0, 0x65, 0, 0, 0, 0x60, 0, 0, 0, 2, 0, 3, 0, 0xaa, 0xbb, 0xcc,
            0, 9, 0, 1, 0, 9, 0, 0, 0, 0, 0, 0, 0, 0x28, 0, 0, 0,
        ],
    ),
    (
        Unit::Packet(4095, TIME, 3, 0),
        &[
            6, 0, 0, 0, 0x24, 0, 0, 0, 0xff, 0x0f, 0, 0, 0xfe, 0x9c, 0x97, 0x17, 0x15, 0xcd, 0x85,
            0x3d, 3, 0, 0, 0, 0x3c, 0, 0, 0, 0xaa, 0xbb, 0xcc, 0, 0x24, 0, 0, 0,
        ],
    ),
    (
        Unit::Packet(0, TIME, 4, 2),
        &[
            6, 0, 0, 0, 0x30, 0, 0, 0, 0, 0, 0, 0, 0xfe, 0x9c, 0x97, 0x17, 0x15, 0xcd, 0x85, 0x3d,
            4, 0, 0, 0, 0x3c, 0, 0, 0, 0xaa, 0xbb, 0xcc, 0xdd, 1, 0, 2, 0, 0xaa, 0xbb, 0, 0, 0, 0,
            0, 0, 0x30, 0, 0, 0,
        ],
    ),
    (
        Unit::Packet(1, 9_223_372_036_854_775_807, 0, 4),
        &[
            6, 0, 0, 0, 0x2c, 0, 0, 0, 1, 0, 0, 0, 0xff, 0xff, 0xff, 0x7f, 0xff, 0xff, 0xff, 0xff,
            0, 0, 0, 0, 0x3c, 0, 0, 0, 1, 0, 4, 0, 0xaa, 0xbb, 0xcc, 0xdd, 0, 0, 0, 0, 0x2c, 0, 0,
            0,
        ],
    ),
];

/// Whether a unit is written into a buffer with room for more, into none that is too small, and
/// into one of its size.
fn is_written_as(unit: Unit, expected: &[u8]) -> bool {
    let bytes = [0xaa, 0xbb, 0xcc, 0xdd];
    let (mut buffer, mut length) = ([0xa5; 64], 77);
    let size = expected.len().min(64);
    let status = write(unit, &bytes, &mut buffer, &mut length);
    let is_kept = are_all(&buffer[size..], 0xa5);
    let is_whole = (status, length) == (0, expected.len()) && &buffer[..size] == expected;
    let (mut short, mut needed) = ([0xa5; 64], 77);
    let room = size.saturating_sub(1);
    let status = write(unit, &bytes, &mut short[..room], &mut needed);
    let is_empty = are_all(&short, 0xa5);
    let is_refused = (status, needed) == (225, expected.len()) && is_empty;
    let fits = write(unit, &bytes, &mut short[..size], &mut needed) == 0;
    is_whole && is_kept && is_refused && fits && &short[..size] == expected
}

/// Units of zeros that are refused, and the number of the check that they fail. The last of each
/// pair of lengths is the least that is too long.
const REFUSED: &[(Unit, u32)] = &[
    (Unit::Record(1, 4_294_967_296_000_000_000, 1), 210),
    (Unit::Record(1, 9_223_372_036_854_775_808, 1), 210),
    (Unit::Record(0, 0, 262_144), 225),
    (Unit::Record(0, 0, 262_145), 204),
    (Unit::Interface(255), 225),
    (Unit::Interface(256), 208),
    (Unit::Packet(0, 9_223_372_036_854_775_808, 0, 0), 210),
    (Unit::Packet(0, 0, 0, 65_535), 225),
    (Unit::Packet(0, 0, 0, 65_536), 208),
    (Unit::Packet(0, 0, 1_048_544, 0), 225),
    (Unit::Packet(0, 0, 1_048_545, 0), 204),
    (Unit::Packet(4_095, 0, 0, 0), 225),
    (Unit::Packet(4_096, 0, 0, 0), 221),
];

#[test]
fn units_are_written(rt: HostRuntime) {
    for (at, (unit, expected)) in UNITS.iter().enumerate() {
        assert!(rt; is_written_as(*unit, expected), "row {at}");
    }
    let zeros = vec![in rt.alloc(); 0u8; 1_048_576].expect(&rt, "memory");
    for (at, (unit, number)) in REFUSED.iter().enumerate() {
        let (mut buffer, mut length) = ([0xa5; 4], 77);
        let status = write(*unit, &zeros, &mut buffer, &mut length);
        assert!(rt;
            status == *number && (length == 0) == (status != 225),
            "row {at}"
        );
        assert!(rt; buffer == [0xa5; 4], "row {at}");
    }
}
