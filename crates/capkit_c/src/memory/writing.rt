//! File headers, records and blocks into the caller's buffer, whole or not at all.
ghost use Rattle.std.specs.List.{flat_map};
ghost use Rattle.std.specs.Prelude.{◌≡◌, None, [], length};
ghost use Rattle.cap_octet.specs.{Packet.captured, Checks.first_failing};
ghost use Rattle.cap_io.specs.Text.{record_text};
ghost use Rattle.cap_pcap.specs.Encoding.{IsPcap, file_header, resolution_of};
ghost use Rattle.cap_pcapng.specs.Encoding.{block_fit_checks, interface_text, packet_block};
ghost use Rattle.cap_pcapng.specs.Encoding.{section_text};
ghost use Rattle.capkit_c.specs.Buffers.{WriteLeaves, written_block_checks, interface_checks};
ghost use Rattle.capkit_c.specs.Layout.{resolution_by};
ghost use Rattle.capkit_c.specs.Buffers.{written_packet, written_record_checks};

use cap_octet::date::TIME_END;
use cap_octet::{Fault, Format, Packet};
use cap_pcap::{head_bytes, record_bytes};
use cap_pcapng::{MOST_NAME, put_interface_parts, put_packet_parts, section_bytes};

/// The most bytes of a comment: its option has 16 bits for their number.
pub const MOST_COMMENT: usize = 65535;

/// The most interfaces that a file is given.
const MOST_OUTPUT_INTERFACES: u32 = cap_io::MOST_OUTPUT_INTERFACES as u32;

/// The result of putting bytes into a buffer.
#[derive(Clone, Copy)]
pub enum Written {
    /// They are written: this many bytes are at the start of the buffer.
    Whole(usize),
    /// They are this many bytes, more than the buffer has room for, which is unchanged.
    NoRoom(usize),
    /// They aren't made, by the first check that fails.
    Refused(Fault),
}

/// The caller's buffer, as what `cap_pcapng` puts the parts of a block into.
#[derive(Drop)]
struct Room<'a> {
    buffer: &'a mut [u8],
}

/// Puts parts, `size` bytes in all, one after another at the start of a buffer, or nothing if it
/// has no room for all of them.
fn put_parts(parts: &[&[u8]], size: usize, buffer: &mut [u8]) -> Written
    requires { size ≡ length (flat_map (λ part. part.now) parts.now) }
    ensures { WriteLeaves None (flat_map (λ part. part.now) parts.now) buffer.old buffer.new
        result }
{
    if buffer.len() < size {
        return Written::NoRoom(size);
    }
    let mut at = 0;
    for part in parts {
        buffer[at..at + part.len()].copy_from_slice(part);
        at += part.len();
    }
    Written::Whole(size)
}

/// The pcap format that a flag shows: at 0 times are in microseconds, else in nanoseconds.
fn pcap_format(nanoseconds: u32) -> Format
    ensures form { IsPcap result }
    ensures resolution { resolution_of result ≡ resolution_by nanoseconds }
{
    if nanoseconds == 0 {
        Format::Pcap
    } else {
        Format::NsecPcap
    }
}

/// Puts the file header of a pcap file, of 24 bytes.
pub fn write_file_header(nanoseconds: u32, link_type: u16, buffer: &mut [u8]) -> Written
    ensures { WriteLeaves None (file_header (resolution_by nanoseconds) link_type) buffer.old
        buffer.new
        result }
{
    let head = head_bytes(pcap_format(nanoseconds), link_type);
    put_parts(&[&head], head.len(), buffer)
}

/// Puts the record of a packet in a pcap file. It is refused if its time is 2^63 nanoseconds or
/// more (`TimeOutOfRange`), and then as `cap_pcap::fits` says.
pub fn write_record(
    nanoseconds: u32,
    time: u64,
    original: u32,
    bytes: &[u8],
    buffer: &mut [u8],
) -> Written
    ensures { let packet = written_packet time original bytes.now [] in
        WriteLeaves (first_failing (written_record_checks packet))
        (record_text (resolution_by nanoseconds) packet) buffer.old buffer.new result }
{
    if time >= TIME_END {
        return Written::Refused(Fault::TimeOutOfRange);
    }
    // A record has nothing of link type, snap length, name and comment.
    let packet = Packet {
        link: 0,
        snap: 0,
        name: &[],
        time,
        orig: original,
        bytes,
        comment: &[],
    };
    let format = pcap_format(nanoseconds);
    match cap_pcap::fits(format, &packet) {
        Ok(()) => {
            let head = record_bytes(format, &packet);
            put_parts(&[&head, bytes], head.len() + bytes.len(), buffer)
        }
        Err(fault) => Written::Refused(fault),
    }
}

/// Puts a section header block.
pub fn write_section(buffer: &mut [u8]) -> Written
    ensures { WriteLeaves None section_text buffer.old buffer.new result }
{
    let section = section_bytes();
    put_parts(&[&section], section.len(), buffer)
}

/// Puts an interface description block, in ticks of nanoseconds. A name of over 255 bytes is
/// `BadOption`.
pub fn write_interface(link_type: u16, snap: u32, name: &[u8], buffer: &mut [u8]) -> Written
    ensures { WriteLeaves (first_failing (interface_checks name.now))
        (interface_text link_type snap name.now) buffer.old buffer.new result }
{
    if name.len() > MOST_NAME {
        return Written::Refused(Fault::BadOption);
    }
    // `cap_pcapng` describes the interface of a packet; nothing else of the packet counts.
    let packet = Packet {
        link: link_type,
        snap,
        name,
        time: 0,
        orig: 0,
        bytes: &[],
        comment: &[],
    };
    put_interface(&packet, buffer)
}

/// Puts the description of a packet's interface.
pub(crate) fn put_interface(packet: &Packet<'_>, buffer: &mut [u8]) -> Written
    ensures { WriteLeaves None
        (interface_text packet.now.link packet.now.snap packet.now.name.now) buffer.old buffer.new
        result }
{
    put_interface_parts(packet, &mut Room { buffer }, |room, parts, size| {
        put_parts(parts, size, room.buffer)
    })
}

/// Puts the enhanced packet block of a packet of the interface with this number; that its section
/// and its interface were written before is the caller's to see to. It is refused if its time is
/// 2^63 nanoseconds or more (`TimeOutOfRange`), its comment has over 65,535 bytes (`BadOption`), as
/// `cap_pcapng::check_block_fits` says, and if the interface isn't among the first 4,096
/// (`TooManyOutputInterfaces`).
pub fn write_packet(
    interface: u32,
    time: u64,
    original: u32,
    bytes: &[u8],
    comment: &[u8],
    buffer: &mut [u8],
) -> Written
    ensures { let packet = written_packet time original bytes.now comment.now in
        WriteLeaves (first_failing (written_block_checks interface packet))
        (packet_block interface packet)
        buffer.old buffer.new result }
{
    if time >= TIME_END {
        return Written::Refused(Fault::TimeOutOfRange);
    }
    if comment.len() > MOST_COMMENT {
        return Written::Refused(Fault::BadOption);
    }
    // The block names its interface by number, which has link type, snap length and name.
    let packet = Packet {
        link: 0,
        snap: 0,
        name: &[],
        time,
        orig: original,
        bytes,
        comment,
    };
    match cap_pcapng::check_block_fits(&packet) {
        Ok(()) if interface < MOST_OUTPUT_INTERFACES => put_packet(interface, &packet, buffer),
        Ok(()) => Written::Refused(Fault::TooManyOutputInterfaces),
        Err(fault) => Written::Refused(fault),
    }
}

/// Puts the enhanced packet block of a packet that fits.
pub(crate) fn put_packet(number: u32, packet: &Packet<'_>, buffer: &mut [u8]) -> Written
    requires { first_failing (block_fit_checks (captured packet.now)) ≡ None }
    ensures { WriteLeaves None (packet_block number (captured packet.now)) buffer.old buffer.new
        result }
{
    put_packet_parts(number, packet, &mut Room { buffer }, |room, parts, size| {
        put_parts(parts, size, room.buffer)
    })
}
