//! The units of a capture in memory, one at a time.
ghost use Rattle.std.specs.Prelude.{◌≡◌, ◌+◌, ◌^◌, ◌≤◌, ◌<◌, IsTrue, List, false, drop, length, take};
ghost use Rattle.cap_io.specs.{FirstUnit.IsSomeFor, Reading.declared_by};
ghost use Rattle.cap_io.specs.inside.Reading.{HasInterface};
ghost use Rattle.capkit_c.specs.inside.Units.{Counts, IsAtEnd, IsBare, IsFull, IsPacketAt};
ghost use Rattle.capkit_c.specs.Layout.{declared_in, first_interfaces, reader_form};
ghost use Rattle.capkit_c.specs.Units.{NextLeaves, PacketLeaves, comment_by};

use crate::memory::layout::{Interface, Packet, Reader};
use crate::memory::table::{KnownInterfaces, enter};
use cap_io::{FileState, record_in, unit_in};
use cap_octet::Fault;
use cap_pcapng::{BlockEffect, Interfaces, Options, PacketSpans};

/// The result of a call.
#[derive(Clone, Copy)]
pub enum Found {
    /// A unit without a packet.
    Unit,
    /// A unit with a packet.
    Packet,
    /// The clean end.
    End,
    /// An interface that the caller's table has no room for.
    NoRoom,
    /// A fault: the first check that the unit fails.
    Fault(Fault),
}

/// The bytes from a place on; none if it is past the end.
pub(crate) fn bytes_from(text: &[u8], at: usize) -> &[u8]
    ensures { result.now ≡ drop at text.now }
{
    match text.get(at..) {
        Some(rest) => rest,
        None => &[],
    }
}

/// The packet at these spans of the unit at place `at` of a capture, with its places from the
/// capture's start. Its interface is known, if the file isn't pcap.
fn packet_at(
    at: usize,
    file: &FileState,
    known: &KnownInterfaces<'_>,
    spans: &PacketSpans,
) -> Packet
    requires bytes { at + spans.now.bytes.start < 2 ^ 64 }
    requires options { at + spans.now.options.start < 2 ^ 64 }
    requires known { HasInterface (declared_by file.now (first_interfaces known.now.count
        known.now.entries.now)) spans.now }
    ensures { IsPacketAt at (declared_by file.now (first_interfaces known.now.count
        known.now.entries.now)) spans.now result }
{
    let (link_type, snap) = match *file {
        FileState::Unknown => (0, 0),
        FileState::Pcap(head) => (head.link, head.snap),
        FileState::Pcapng(_, _) => {
            let interface = known.get(spans.interface).unwrap();
            (interface.link, interface.snap)
        }
    };
    Packet {
        time: spans.time,
        at: at + spans.bytes.start as usize,
        options_at: at + spans.options.start as usize,
        captured: spans.bytes.length,
        original: spans.orig,
        options_length: spans.options.length,
        interface: spans.interface,
        snap,
        link_type,
    }
}

/// The number of interfaces of the section so far, at most `room` and 256; 0 before the first unit,
/// whatever C wrote.
pub(crate) fn known_interface_count(reader: &Reader, form: FileState, room: usize) -> usize
    ensures counts { Counts form reader.now room result }
    ensures bare { IsBare form result }
    ensures fits { result ≤ room }
    ensures bounds { result ≤ 256 }
{
    match form {
        FileState::Unknown => 0,
        FileState::Pcap(_) | FileState::Pcapng(_, _) => reader.known_interfaces(room),
    }
}

/// Whether a capture of which `text` is left is at its clean end. An empty capture, of which no
/// unit was read, isn't: its file header is missing.
fn is_at_end(form: FileState, text: &[u8]) -> bool
    ensures over { IsTrue result → IsAtEnd form text.now }
    ensures some { result ≡ false → IsSomeFor form text.now }
{
    match form {
        FileState::Unknown => false,
        FileState::Pcap(_) | FileState::Pcapng(_, _) => text.is_empty(),
    }
}

/// Reads the unit at the reader's place. By `Unit` and `Packet` the reader is after it, and by
/// `Packet` the packet is where `packet` says; by the others nothing is written. Nor is the table,
/// if the reader knows as many interfaces as it has.
pub fn next_unit(
    reader: &mut Reader,
    table: &mut [Interface],
    capture: &[u8],
    packet: &mut Packet,
) -> Found
    ensures left { NextLeaves capture.now reader.old reader.new table.old table.new packet.old
        packet.new result }
    ensures same { length table.new ≡ length table.old }
    ensures full { IsFull (reader_form reader.old) reader.old (length table.old)
        → table.new ≡ table.old }
{
    let form = reader.file_state();
    let count = known_interface_count(reader, form, table.len());
    let text = bytes_from(capture, reader.offset);
    if is_at_end(form, text) {
        return Found::End;
    }
    let known = KnownInterfaces {
        entries: table,
        count,
    };
    // `unit_in` finds records too, but the compiler doesn't know there that each has a packet.
    if let FileState::Pcap(head) = form {
        return match record_in(&head, text) {
            Ok(spans) => {
                let at = reader.offset;
                *packet = packet_at(at, &form, &known, &spans);
                *reader = Reader::new_at(at + spans.size as usize, form, count);
                Found::Packet
            }
            Err(fault) => Found::Fault(fault),
        };
    }
    let unit = match unit_in(&form, &known, text) {
        Ok(unit) => unit,
        Err(fault) => return Found::Fault(fault),
    };
    let at = reader.offset;
    if let BlockEffect::Packet(spans) = unit.effect {
        *packet = packet_at(at, &unit.file, &known, &spans);
        *reader = Reader::new_at(at + unit.size, unit.file, count);
        return Found::Packet;
    }
    let Some(count) = enter(table, count, unit.effect) else {
        return Found::NoRoom;
    };
    *reader = Reader::new_at(at + unit.size, unit.file, count);
    Found::Unit
}

/// Reads on to the next packet, past units without one: never `Unit` is found. The packet is where
/// `packet` says; by any other result `packet` is unchanged.
pub fn next_packet(
    reader: &mut Reader,
    table: &mut [Interface],
    capture: &[u8],
    packet: &mut Packet,
) -> Found
    ensures { PacketLeaves capture.now reader.old reader.new table.old table.new packet.old
        packet.new result }
{
    loop {
        match next_unit(reader, table, capture, packet) {
            Found::Unit => {}
            found => return found,
        }
    }
}

/// `length` bytes of a text from place `at` on, or fewer where fewer are there.
pub(crate) fn bytes_at(text: &[u8], at: usize, length: u32) -> &[u8]
    ensures { result.now ≡ take length (drop at text.now) }
{
    let rest = bytes_from(text, at);
    &rest[..rest.len().min(length as usize)]
}

/// The comment of the packet that this reader found last; empty if it has none. For the reader it
/// needs only the form and the byte order, so the clause holds whatever the table of interfaces
/// is.
pub fn comment_of<'a>(reader: &Reader, capture: &'a [u8], packet: &Packet) -> &'a [u8]
    ensures { (table : List Interface) → result.now ≡ comment_by (declared_in reader.now table)
        (take packet.now.options_length (drop packet.now.options_at capture.now)) }
{
    match reader.file_state() {
        FileState::Unknown | FileState::Pcap(_) => &[],
        FileState::Pcapng(order, _) => {
            let rest = bytes_at(capture, packet.options_at, packet.options_length);
            Options { order, rest }.comment()
        }
    }
}
