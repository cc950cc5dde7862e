//! Packets that are put into a pcapng file, held against its units as other calls write them.

use super::are_all;
use super::captures::{NO_INTERFACE, NO_PACKET};
use crate::memory::{Interface, Packet, Writer};
use crate::writing::{
    capkit_write_interface, capkit_write_packet, capkit_write_section, capkit_writer_put,
};

/// A file of which nothing is written.
const START: Writer = Writer {
    interfaces: 0,
    has_section: 0,
};

/// The packets, each with its interface: link type, snap length, name, and the number that it
/// has by the order of first use.
const PUT: [(u16, u32, &[u8], u32); 6] = [
    (1, 96, b"en", 0),
    (1, 96, b"", 1),
    (1, 96, b"en", 0),
    (101, 96, b"en", 2),
    (1, 0, b"en", 3),
    (1, 96, b"en", 0),
];

/// The bytes of each packet, and its comment.
const BYTES: [u8; 5] = [1, 2, 3, 4, 5];

const COMMENT: [u8; 3] = *b"yes";

/// The buffer from a place on.
fn rest(buffer: &mut [u8], at: usize) -> &mut [u8] {
    let at = at.min(buffer.len());
    &mut buffer[at..]
}

/// A file that is written into a buffer.
#[derive(Drop)]
struct File<'a> {
    writer: Writer,
    table: &'a mut [Interface],
    buffer: &'a mut [u8],
    /// How many bytes of the buffer are written.
    at: usize,
}

impl File<'_> {
    /// Puts a packet with the units before it, and returns the last number.
    fn put(&mut self, link_type: u16, snap: u32, name: &[u8], time: u64) -> u32 {
        let packet = Packet {
            time,
            captured: 5,
            original: 60,
            snap,
            link_type,
            ..NO_PACKET
        };
        // At most three units: a section header, an interface, a packet.
        for _ in 0..3 {
            let mut length = 77;
            let number = capkit_writer_put(
                &mut self.writer,
                self.table,
                &packet,
                name,
                &BYTES,
                &COMMENT,
                rest(self.buffer, self.at),
                &mut length,
            );
            if number == 227 || number == 0 {
                self.at = self.at.saturating_add(length);
            }
            if number != 227 {
                return number;
            }
        }
        227
    }
}

/// Writes the units of `PUT` by the calls for units, and returns how many bytes they are.
fn write_units(buffer: &mut [u8]) -> usize {
    let (mut at, mut described, mut length) = (0usize, 0, 0);
    capkit_write_section(buffer, &mut at);
    for (link_type, snap, name, number) in &PUT {
        if *number == described {
            capkit_write_interface(*link_type, *snap, name, rest(buffer, at), &mut length);
            at = at.saturating_add(length);
            described = number.saturating_add(1);
        }
        capkit_write_packet(
            *number,
            5,
            60,
            &BYTES,
            &COMMENT,
            rest(buffer, at),
            &mut length,
        );
        at = at.saturating_add(length);
    }
    at
}

#[test]
fn packets_are_put(rt: HostRuntime) {
    let (mut expected, mut buffer) = ([0; 1024], [0; 1024]);
    let size = write_units(&mut expected);
    let mut table = [NO_INTERFACE; 4];
    let mut file = File {
        writer: START,
        table: &mut table,
        buffer: &mut buffer,
        at: 0,
    };
    for (link_type, snap, name, _) in &PUT {
        assert!(rt; file.put(*link_type, *snap, name, 5) == 0);
    }
    assert!(rt; file.at == size && file.writer.interfaces == 4);
    assert!(rt; buffer[..] == expected[..]);
}

/// Nothing is written, and nothing is kept of the packet.
#[test]
fn packets_are_not_put(rt: HostRuntime) {
    let (mut table, mut buffer) = ([NO_INTERFACE; 1], [0xa5; 512]);
    let mut file = File {
        writer: START,
        table: &mut table,
        buffer: &mut buffer,
        at: 0,
    };
    // A time that no block has comes before the section header, and so does a long name.
    assert!(rt; file.put(1, 0, b"", 9_223_372_036_854_775_808) == 210);
    assert!(rt; file.put(1, 0, &[0; 256], 5) == 208);
    assert!(rt; file.at == 0 && file.writer.has_section == 0);
    assert!(rt; file.put(1, 0, b"", 5) == 0);
    // 28 bytes of the section header, 32 of an interface without a name, 52 of the block.
    assert!(rt; file.at == 112);
    // The table has room for one interface.
    assert!(rt; file.put(1, 0, b"other", 5) == 221);
    assert!(rt; file.at == 112 && file.writer.interfaces == 1);
    // One byte less than the block of the next packet takes.
    file.at = 461;
    assert!(rt; file.put(1, 0, b"", 5) == 225);
    file.at = 460;
    assert!(rt; file.put(1, 0, b"", 5) == 0);
    assert!(rt; are_all(&buffer[112..460], 0xa5));
}
