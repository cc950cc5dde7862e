//! Blocks as they are written, all of them little-endian:
//!
//! ```text
//! packet     28 header | data, padding | [comment: 4 header, text, padding; 4 end] | 4 length
//! interface  16 header | [name: 4 header, text, padding] | 8 resolution | 4 end     | 4 length
//! ```
//!
//! A block is written in parts: its header, the texts that are lent (data, comment, name), and what
//! stands between two texts or after the last one. That begins with zeros for the padding of the
//! text before it; the first of these zeros are left out if the text needs fewer.
ghost use Rattle.std.specs.Prelude.{◌≡◌, ◌+◌, ◌<◌, ◌^◌, ◌++◌, length, replicate, None};
ghost use Rattle.byteorder.specs.Endian.{little_bytes};
ghost use Rattle.cap_octet.specs.{Packet.captured, Writer.WritesExactly};
ghost use Rattle.cap_octet.specs.Checks.{checked, first_failing};
ghost use Rattle.cap_pcapng.specs.Encoding.{comment_text, end_text, block_fit_checks};
ghost use Rattle.cap_pcapng.specs.{Encoding.interface_text, inside.Headers.interface_header};
ghost use Rattle.cap_pcapng.specs.{inside.Headers.packet_header};
ghost use Rattle.cap_pcapng.specs.Padding.{padded_length};
ghost use Rattle.cap_pcapng.specs.Parts.{TakesParts, PutsParts};
ghost use Rattle.cap_pcapng.specs.Encoding.{packet_block, resolution_text, section_text};

use crate::frames::{
    BYTE_ORDER_MAGIC, ENHANCED_PACKET_TYPE, INTERFACE_TYPE, MOST_BLOCK, SECTION_TYPE,
};
use crate::interface::{NAME_CODE, RESOLUTION_CODE};
use crate::options::COMMENT_CODE;
use byteorder::{ByteOrder, LittleEndian};
use cap_octet::{Fault, Output, Packet, Stopped, write_all_parts};

/// The resolution of an interface whose ticks are nanoseconds: a negative power of ten.
const NANOSECONDS: u8 = 9;

/// How many zeros pad `length` bytes to a multiple of four: 0 to 3.
fn padding_after(length: usize) -> usize
    ensures padded { length + result ≡ padded_length length }
    ensures short { result < 4 }
{
    (4 - length % 4) % 4
}

/// How many bytes a comment takes in its block: its option, with 4 bytes of header and padding, and
/// the 4 bytes that end the options; 0 without a comment.
fn comment_size(comment: &[u8]) -> u64
    ensures { result ≡ length (comment_text comment.now) }
{
    if comment.is_empty() {
        return 0;
    }
    8 + (comment.len() + padding_after(comment.len())) as u64
}

/// Checks that a packet's block has at most 1,048,576 bytes, or returns `TooLong`. Next to data and
/// comment it has 32 bytes: the header, and the total length at its end.
pub fn check_block_fits(packet: &Packet<'_>) -> Result<(), Fault>
    ensures { result ≡ checked (first_failing (block_fit_checks (captured packet.now))) tt }
{
    let data = (packet.bytes.len() + padding_after(packet.bytes.len())) as u64;
    if 32 + data + comment_size(packet.comment) > u64::from(MOST_BLOCK) {
        return Err(Fault::TooLong);
    }
    Ok(())
}

/// A section header block of version 1.0, 28 bytes, whose section length isn't told: -1, all ones
/// in bytes 16 to 23.
pub fn section_bytes() -> [u8; 28]
    ensures { result ≡ section_text }
{
    // 0 type, 4 total length, 8 byte-order magic, 12 and 14 version, 16 section length, 24 total
    // length
    let mut bytes = [0xff; 28];
    LittleEndian::write_u32(&mut bytes, SECTION_TYPE);
    LittleEndian::write_u32(&mut bytes[4..], 28);
    LittleEndian::write_u32(&mut bytes[8..], BYTE_ORDER_MAGIC);
    LittleEndian::write_u16(&mut bytes[12..], 1);
    LittleEndian::write_u16(&mut bytes[14..], 0);
    LittleEndian::write_u32(&mut bytes[24..], 28);
    bytes
}

/// The header of an enhanced packet block of `size` bytes: type, total length, the interface's
/// number, the time in nanoseconds in two halves of 32 bits, captured length and original length.
fn packet_header(size: u32, number: u32, packet: &Packet<'_>) -> [u8; 28]
    requires { length packet.now.bytes.now < 2 ^ 32 }
    ensures { result ≡ packet_header size number (captured packet.now) }
{
    // 0 type, 4 total length, 8 interface, 12 time, 20 captured length, 24 original length
    let mut bytes = [0; 28];
    LittleEndian::write_u32(&mut bytes, ENHANCED_PACKET_TYPE);
    LittleEndian::write_u32(&mut bytes[4..], size);
    LittleEndian::write_u32(&mut bytes[8..], number);
    // 4,294,967,296 is 2^32: the high half comes first.
    LittleEndian::write_u32(&mut bytes[12..], (packet.time / 4_294_967_296) as u32);
    LittleEndian::write_u32(&mut bytes[16..], (packet.time % 4_294_967_296) as u32);
    LittleEndian::write_u32(&mut bytes[20..], packet.bytes.len() as u32);
    LittleEndian::write_u32(&mut bytes[24..], packet.orig);
    bytes
}

/// An option's code and the length of its value, after three zeros as padding of what is before the
/// option; who writes it leaves out those that aren't needed.
fn option_header(code: u16, value: &[u8]) -> [u8; 7]
    requires { length value.now < 2 ^ 16 }
    ensures { result ≡ replicate 3 0 ++ (little_bytes 2 code ++ little_bytes 2 (length value.now)) }
{
    let mut bytes = [0; 7];
    LittleEndian::write_u16(&mut bytes[3..], code);
    LittleEndian::write_u16(&mut bytes[5..], value.len() as u16);
    bytes
}

/// The end of an enhanced packet block of `size` bytes: its total length, after seven zeros, up to
/// three of padding and four that end the options. A block without options omits those four.
fn packet_end(size: u32) -> [u8; 11]
    ensures { result ≡ replicate 7 0 ++ little_bytes 4 size }
{
    let mut bytes = [0; 11];
    LittleEndian::write_u32(&mut bytes[7..], size);
    bytes
}

/// Lays out a packet that passed `check_block_fits`, whose interface has this number, as the parts
/// of an enhanced packet block, and hands these to `put`, with the length of the block and what
/// they are put into.
#[inline(always)]
pub fn put_packet_parts<T, R, F: FnOnce(&mut T, &[&[u8]], usize) -> R>(
    number: u32,
    packet: &Packet<'_>,
    target: &mut T,
    put: F,
) -> R
    requires fits { first_failing (block_fit_checks (captured packet.now)) ≡ None }
    requires callable { TakesParts (F.pre put) (packet_block number (captured packet.now)) }
    ensures { PutsParts (F.post put) (packet_block number (captured packet.now)) target.old result
        target.new }
{
    let padding = padding_after(packet.bytes.len());
    if packet.comment.is_empty() {
        // 28 header | data | padding, 4 total length
        //                  |-- end[7 - padding..]
        // Of the end's seven zeros the last ones pad the data.
        let size = 32 + packet.bytes.len() + padding;
        let head = packet_header(size as u32, number, packet);
        let end = packet_end(size as u32);
        return put(target, &[&head, packet.bytes, &end[7 - padding..]], size);
    }
    // 28 header | data | padding, 4 option header | comment | padding, 4 zeros, 4 total length
    //                  |-- option[3 - padding..]            |-- end[7 - zeros..]
    let comment = packet.comment;
    let option = option_header(COMMENT_CODE, comment);
    let option = &option[3 - padding..];
    // The comment's padding, and the four zeros that end the options.
    let zeros = padding_after(comment.len()) + 4;
    let size = 32 + packet.bytes.len() + option.len() + comment.len() + zeros;
    let head = packet_header(size as u32, number, packet);
    let end = packet_end(size as u32);
    let parts = [&head[..], packet.bytes, option, comment, &end[7 - zeros..]];
    put(target, &parts, size)
}

/// Writes a packet that passed `check_block_fits`, whose interface has this number, as an enhanced
/// packet block, or reports how many bytes of it, fewer than all, were written before the device
/// failed.
pub fn write_packet<O: Output>(
    number: u32,
    packet: &Packet<'_>,
    output: &mut O,
) -> Result<(), Stopped>
    requires { first_failing (block_fit_checks (captured packet.now)) ≡ None }
    ensures { WritesExactly O.Output output.old (packet_block number (captured packet.now)) result
        output.new }
{
    put_packet_parts(number, packet, output, |output, parts, _| {
        write_all_parts(output, parts)
    })
}

/// The header of an interface description block of `size` bytes: type, total length, link type and
/// snap length.
fn interface_header(size: u32, packet: &Packet<'_>) -> [u8; 16]
    ensures { result ≡ interface_header size packet.now.link packet.now.snap }
{
    // 0 type, 4 total length, 8 link type, 10 reserved, 12 snap length
    let mut bytes = [0; 16];
    LittleEndian::write_u32(&mut bytes, INTERFACE_TYPE);
    LittleEndian::write_u32(&mut bytes[4..], size);
    LittleEndian::write_u16(&mut bytes[8..], packet.link);
    LittleEndian::write_u32(&mut bytes[12..], packet.snap);
    bytes
}

/// What is after an interface's name in a block of `size` bytes: three zeros as padding of the
/// name, of which a writer leaves out those that aren't needed; the resolution of nanoseconds, the
/// end of the options, the total length.
fn interface_end(size: u32) -> [u8; 19]
    ensures { result ≡ replicate 3 0 ++ (resolution_text ++ end_text ++ little_bytes 4 size) }
{
    let mut bytes = [0; 19];
    // What isn't set stays 0: 3 bytes of padding in front, at 8 that of the value, at 11 the end of
    // the options.
    LittleEndian::write_u16(&mut bytes[3..], RESOLUTION_CODE);
    LittleEndian::write_u16(&mut bytes[5..], 1);
    bytes[7] = NANOSECONDS;
    LittleEndian::write_u32(&mut bytes[15..], size);
    bytes
}

/// Lays out the description of a packet's interface, whose ticks are nanoseconds, as the parts of an
/// interface description block, and hands these to `put`, with the length of the block and what
/// they are put into.
#[inline(always)]
pub fn put_interface_parts<T, R, F: FnOnce(&mut T, &[&[u8]], usize) -> R>(
    packet: &Packet<'_>,
    target: &mut T,
    put: F,
) -> R
    requires { TakesParts (F.pre put)
        (interface_text packet.now.link packet.now.snap packet.now.name.now) }
    ensures { PutsParts (F.post put)
        (interface_text packet.now.link packet.now.snap packet.now.name.now) target.old result
        target.new }
{
    // 16 header | 4 option header | name | padding, 8 resolution, 4 zeros, 4 total length
    //           |-- option[start..]      |-- end[3 - padding..]
    let name = packet.name;
    let padding = padding_after(name.len());
    let option = option_header(NAME_CODE, name);
    // Without the three zeros, as the header needs no padding; for no name without all seven bytes.
    let start = if name.is_empty() { 7 } else { 3 };
    let option = &option[start..];
    // 16 of the header, 16 of the end without its padding.
    let size = 32 + option.len() + name.len() + padding;
    let head = interface_header(size as u32, packet);
    let end = interface_end(size as u32);
    put(target, &[&head, option, name, &end[3 - padding..]], size)
}

/// Writes the description of a packet's interface, whose ticks are nanoseconds, or reports how many
/// bytes of it, fewer than all, were written before the device failed.
pub fn write_interface<O: Output>(packet: &Packet<'_>, output: &mut O) -> Result<(), Stopped>
    ensures { WritesExactly O.Output output.old
        (interface_text packet.now.link packet.now.snap packet.now.name.now) result output.new }
{
    put_interface_parts(packet, output, |output, parts, _| {
        write_all_parts(output, parts)
    })
}
