//! The units of a capture that lies in memory, pcap or pcapng.
ghost use Rattle.std.specs.Prelude.{◌≡◌, List, length, take, drop};
ghost use Rattle.capkit_c.specs.{Texts.put_text, Units.comment_by, Layout.declared_in};
ghost use Rattle.capkit_c.specs.declared.memory.layout.Interface.{Interface};
ghost use Rattle.capkit_c.specs.Reading.{CallLeaves, UnitLeaves, found_number};
ghost use Rattle.capkit_c.specs.Skipping.{SkipTells};

use crate::memory::{
    Found, Interface, Packet, Reader, Skip, comment_of, next_packet, next_unit, skip_unit,
};
use crate::texts::{FOUND, put_text};

/// The number of what a call found, as C sees it (`library/include/capkit.h`): 0 is a packet.
pub(crate) fn found_number(found: Found) -> u32
    ensures { result ≡ found_number found }
{
    match found {
        Found::Packet => 0,
        Found::Fault(fault) => FOUND + fault.number(),
        Found::End => 222,
        Found::Unit => 223,
        Found::NoRoom => 224,
    }
}

/// Reads on to the next packet, past units without one, and returns 0; 222 at the clean end; 224 if
/// the table has no room for the interface of the next unit; else the number of the first check
/// that the next unit fails. In these cases the packet is unchanged, and the reader is in front of
/// that unit.
#[unsafe(no_mangle)]
pub extern "C" fn capkit_next(
    reader: &mut Reader,
    interfaces: &mut [Interface],
    capture: &[u8],
    packet: &mut Packet,
) -> u32
    ensures { CallLeaves capture.now reader.old reader.new interfaces.old interfaces.new packet.old
        packet.new result }
{
    found_number(next_packet(reader, interfaces, capture, packet))
}

/// Reads the unit at the reader's place. If it has a packet it returns 0, if it has none 223, and
/// the reader is after it; 222 is the clean end; 224 that the table has no room for its interface;
/// any other number is that of the first check that it fails. In all cases but 0 and 223 nothing is
/// written.
#[unsafe(no_mangle)]
pub extern "C" fn capkit_next_unit(
    reader: &mut Reader,
    interfaces: &mut [Interface],
    capture: &[u8],
    packet: &mut Packet,
) -> u32
    ensures { UnitLeaves capture.now reader.old reader.new interfaces.old interfaces.new packet.old
        packet.new result }
{
    found_number(next_unit(reader, interfaces, capture, packet))
}

/// Goes past the unit at the reader's place, if `capkit_next_unit` refuses it for its time, its link
/// type or its options, though its lengths are sound, and returns 228. Otherwise nothing is written,
/// and the number is that of `capkit_next_unit`; or 202 if bytes of the unit are missing, 224 if the
/// table has no room for its interface.
#[unsafe(no_mangle)]
pub extern "C" fn capkit_skip(
    reader: &mut Reader,
    interfaces: &mut [Interface],
    capture: &[u8],
) -> u32
    ensures { SkipTells capture.now reader.old reader.new interfaces.old interfaces.new result }
{
    match skip_unit(reader, interfaces, capture) {
        Skip::Past => 228,
        Skip::Not(found) => found_number(found),
    }
}

/// Puts the comment of the packet that this reader found last into a buffer (`put_text`), and gives
/// the comment's length; 0 if the packet has none. For the reader it needs the form and the byte
/// order, nothing else, so the clauses hold whatever the table of interfaces is.
#[unsafe(no_mangle)]
pub extern "C" fn capkit_comment(
    reader: &Reader,
    capture: &[u8],
    packet: &Packet,
    buffer: &mut [u8],
) -> usize
    ensures count { (table : List Interface) → result ≡ length (comment_by
        (declared_in reader.now table) (take packet.now.options_length
        (drop packet.now.options_at capture.now))) }
    ensures put { (table : List Interface) → buffer.new ≡ put_text (comment_by
        (declared_in reader.now table) (take packet.now.options_length
        (drop packet.now.options_at capture.now))) buffer.old }
{
    put_text(comment_of(reader, capture, packet), buffer)
}
