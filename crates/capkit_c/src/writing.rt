//! Calls for C that write a capture to the caller's buffer, one file header, record or block per
//! call.
ghost use Rattle.std.specs.Prelude.{◌≡◌, ◌<◌, ◌≤◌, [], Bool, IfSome, None, Some, length};
ghost use Rattle.cap_octet.specs.{Date.TIME_END, Packet.Captured, Checks.first_failing};
ghost use Rattle.cap_io.specs.Text.{record_text};
ghost use Rattle.cap_pcap.specs.Encoding.{file_header};
ghost use Rattle.cap_pcapng.specs.Encoding.{interface_text, packet_block, section_text};
ghost use Rattle.capkit_c.specs.Buffers.{written_block_checks, interface_checks, written_packet};
ghost use Rattle.capkit_c.specs.{Layout.resolution_by, Buffers.written_record_checks};
ghost use Rattle.capkit_c.specs.Writing.{WriteTells, written_length, written_number};
ghost use Rattle.capkit_c.specs.Writer.{PutTells, packet_put, put_checks, put_number};

use crate::memory::{
    Interface, MOST_COMMENT, Packet, Put, Writer, Written, put_next, write_file_header,
    write_interface, write_packet, write_record, write_section,
};
use crate::texts::FOUND;
use cap_octet::{Fault, Packet as OctetPacket, date};
use cap_pcapng::MOST_NAME;

/// Returns the result of a write as a number of `library/include/capkit.h`: 0 if the unit is
/// written, 225 if the buffer is too small, or the number of the fault if the unit is refused.
/// `length` becomes the size of the unit, or 0 if it is refused.
fn tell_written(written: Written, length: &mut usize) -> u32
    ensures number { result ≡ written_number written }
    ensures length { length.new ≡ written_length written }
{
    match written {
        Written::Whole(count) => {
            *length = count;
            0
        }
        Written::NoRoom(count) => {
            *length = count;
            225
        }
        Written::Refused(fault) => {
            *length = 0;
            FOUND + fault.number()
        }
    }
}

/// Writes the file header of a pcap file, with the greatest snap length, to the start of the
/// buffer. Times are in microseconds if `nanoseconds` is 0, else in nanoseconds.
///
/// The result is 0, or 225 if the buffer is too small, which is then unchanged. In both cases
/// `length` becomes the size of the header.
#[unsafe(no_mangle)]
pub extern "C" fn capkit_write_file_header(
    nanoseconds: u32,
    link_type: u16,
    buffer: &mut [u8],
    length: &mut usize,
) -> u32
    ensures { WriteTells None (file_header (resolution_by nanoseconds) link_type) buffer.old
        buffer.new
        length.new result }
{
    tell_written(write_file_header(nanoseconds, link_type, buffer), length)
}

/// Writes a record of a pcap file; buffer and result are as for `capkit_write_file_header`. `time`
/// is in nanoseconds since 1970, and `original` is the length on the wire.
///
/// A refused packet has the result 204 (`TooLong`) or 210 (`TimeOutOfRange`) and the length 0; the
/// buffer is unchanged.
#[unsafe(no_mangle)]
pub extern "C" fn capkit_write_record(
    nanoseconds: u32,
    time: u64,
    original: u32,
    packet: &[u8],
    buffer: &mut [u8],
    length: &mut usize,
) -> u32
    ensures { let p = written_packet time original packet.now [] in
        WriteTells (first_failing (written_record_checks p))
        (record_text (resolution_by nanoseconds) p)
        buffer.old buffer.new length.new result }
{
    let written = write_record(nanoseconds, time, original, packet, buffer);
    tell_written(written, length)
}

/// Writes the section header block that a pcapng file begins with; buffer and result are as for
/// `capkit_write_file_header`.
#[unsafe(no_mangle)]
pub extern "C" fn capkit_write_section(buffer: &mut [u8], length: &mut usize) -> u32
    ensures { WriteTells None section_text buffer.old buffer.new length.new result }
{
    tell_written(write_section(buffer), length)
}

/// Writes an interface description block; buffer and result are as for `capkit_write_file_header`.
/// A name of more than 255 bytes has the result 208 (`BadOption`) and the length 0; the buffer is
/// unchanged.
#[unsafe(no_mangle)]
pub extern "C" fn capkit_write_interface(
    link_type: u16,
    snap: u32,
    name: &[u8],
    buffer: &mut [u8],
    length: &mut usize,
) -> u32
    ensures { WriteTells (first_failing (interface_checks name.now))
        (interface_text link_type snap name.now) buffer.old buffer.new length.new result }
{
    tell_written(write_interface(link_type, snap, name, buffer), length)
}

/// Writes an enhanced packet block; buffer and result are as for `capkit_write_file_header`. `time`
/// is in nanoseconds since 1970, and `original` is the length on the wire.
///
/// A refused packet has the result 204 (`TooLong`), 208 (`BadOption`), 210 (`TimeOutOfRange`) or
/// 221 (`TooManyOutputInterfaces`) and the length 0; the buffer is unchanged.
#[unsafe(no_mangle)]
pub extern "C" fn capkit_write_packet(
    interface: u32,
    time: u64,
    original: u32,
    packet: &[u8],
    comment: &[u8],
    buffer: &mut [u8],
    length: &mut usize,
) -> u32
    ensures { let p = written_packet time original packet.now comment.now in
        WriteTells (first_failing (written_block_checks interface p))
        (packet_block interface p) buffer.old
        buffer.new length.new result }
{
    let written = write_packet(interface, time, original, packet, comment, buffer);
    tell_written(written, length)
}

/// Why a packet isn't put, by its time and the lengths of its name and comment; `None` if these
/// fail no check.
fn refusal_by_sizes(time: u64, name: &[u8], comment: &[u8]) -> Option<Fault>
    ensures some { IfSome result (λ fault. (room : Bool) (p : Captured) → p.time ≡ time
        → p.name ≡ name.now → p.comment ≡ comment.now
        → first_failing (put_checks room p) ≡ Some fault) }
    ensures none { result ≡ None
        → (time < TIME_END) × ((length name.now ≤ 255) × (length comment.now ≤ 65535)) }
{
    if time >= date::TIME_END {
        return Some(Fault::TimeOutOfRange);
    }
    if comment.len() > MOST_COMMENT || name.len() > MOST_NAME {
        return Some(Fault::BadOption);
    }
    None
}

/// Returns the result of a put as a number of `library/include/capkit.h`: 0 if the packet's block
/// is written, 227 if a unit before it is, else as `tell_written`.
fn tell_put(put: Put, length: &mut usize) -> u32
    ensures number { result ≡ put_number put.written put.is_packet }
    ensures length { length.new ≡ written_length put.written }
{
    let number = tell_written(put.written, length);
    match put.written {
        Written::Whole(_) if !put.is_packet => 227,
        _ => number,
    }
}

/// Writes the next unit of a pcapng file to which a packet is put: the section header, or the
/// description of the packet's interface, or the packet's block. Buffer and result are as for
/// `capkit_write_packet`, with one more result: 227 means that the unit comes before the packet's,
/// so the same packet must be put again.
///
/// `writer` and the table are what is written so far: `writer` is all zeros at first, and the table
/// may have anything. They are unchanged if nothing is written. Interfaces of equal link type,
/// snap length and name are one. A packet whose interface the table has no room for, or that
/// would be the 4,097th, is refused (221).
#[unsafe(no_mangle)]
pub extern "C" fn capkit_writer_put(
    writer: &mut Writer,
    interfaces: &mut [Interface],
    packet: &Packet,
    name: &[u8],
    bytes: &[u8],
    comment: &[u8],
    buffer: &mut [u8],
    length: &mut usize,
) -> u32
    ensures { PutTells writer.old interfaces.old
        (packet_put packet.now name.now bytes.now comment.now) buffer.old buffer.new length.new
        result writer.new interfaces.new }
{
    if let Some(fault) = refusal_by_sizes(packet.time, name, comment) {
        return tell_written(Written::Refused(fault), length);
    }
    let packet = OctetPacket {
        link: packet.link_type,
        snap: packet.snap,
        name,
        time: packet.time,
        orig: packet.original,
        bytes,
        comment,
    };
    tell_put(put_next(writer, interfaces, &packet, buffer), length)
}
