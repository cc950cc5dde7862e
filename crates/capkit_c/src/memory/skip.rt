//! Past a unit that is refused for its time, its link type or its options, though its lengths are
//! sound.
ghost use Rattle.std.specs.Prelude.{◌≡◌, ◌<◌, ◌≤◌, length, Some, drop};
ghost use Rattle.cap_io.specs.Capture.{NoUnit, front_of};
ghost use Rattle.cap_pcapng.specs.{Effect.section_of, Interface.description_of};
ghost use Rattle.capkit_c.specs.Layout.{declared_in, first_interfaces, most_known, reader_form};
ghost use Rattle.capkit_c.specs.Skipping.{SkipLeaves, past_at, refused_part, with_interface};
ghost use Rattle.capkit_c.specs.inside.Skipping.{IsUnread, IsWholeFrame, Moves};
ghost use Rattle.cap_io.specs.declared.file_state.FileState.TheVariants as form;

use crate::memory::layout::{Interface, Packet, Reader};
use crate::memory::pcap::{FILE_HEADER, RECORD_HEADER, head_by_low_bits, record_size};
use crate::memory::reader::{Found, bytes_from, known_interface_count, next_unit};
use crate::memory::table::{KnownInterfaces, append_interface};
use cap_io::{FileState, first_link_with};
use cap_octet::{Fault, Order, u16_at, u32_at};
use cap_pcap::Head;
use cap_pcapng::{
    BlockEffect, BlockType, Clock, Frame, Interface as PcapngInterface, MOST_INTERFACES, frame,
};

/// The ticks per second of an interface whose options aren't read.
const MICROSECONDS: u64 = 1_000_000;

/// The packet of a unit that is read only to see what is found of it.
const NO_PACKET: Packet = Packet {
    time: 0,
    at: 0,
    options_at: 0,
    captured: 0,
    original: 0,
    options_length: 0,
    interface: 0,
    snap: 0,
    link_type: 0,
};

/// What a fault refuses of a unit.
#[derive(Clone, Copy)]
pub(crate) enum RefusedPart {
    Time,
    LinkType,
    /// Options of an interface.
    Options,
    /// Anything else: the end of the unit is unknown.
    Form,
}

/// What became of a unit that the caller wants to go past.
#[derive(Clone, Copy)]
pub enum Skip {
    /// The reader is past it.
    Past,
    /// Nothing is written: this is found of it.
    Not(Found),
}

/// What a fault refuses of a unit.
fn refused_part(fault: Fault) -> RefusedPart
    ensures { result ≡ refused_part fault }
{
    match fault {
        Fault::TimeOutOfRange => RefusedPart::Time,
        Fault::BadOption | Fault::BadTimeResolution => RefusedPart::Options,
        Fault::BadLinkTypeField => RefusedPart::LinkType,
        _ => RefusedPart::Form,
    }
}

/// The frame of the whole block that a text begins with, in a section of this byte order; `None` if
/// the block fails a check of it, or isn't all there.
fn whole_frame(order: Order, text: &[u8]) -> Option<Frame>
    ensures { IsWholeFrame order text.now result }
{
    let Some(first) = text.first_chunk::<12>() else {
        return None;
    };
    let frame = match frame(Some(order), first) {
        Ok(frame) => frame,
        Err(_) => return None,
    };
    let size = frame.length as usize;
    if text.len() < size {
        return None;
    }
    Some(frame)
}

/// The interface of the description block of this frame that a text begins with, of which the link
/// type and the snap length are read; `None` of any other block. With its offset no time of its
/// packets is in range.
fn unread_interface(frame: &Frame, text: &[u8]) -> Option<PcapngInterface<'static>>
    requires { frame.now.length ≤ length text.now }
    ensures { IsUnread frame.now text.now result }
{
    let BlockType::Interface = frame.block_type else {
        return None;
    };
    // 8 type and total length, 2 link type, 2 reserved, 4 snap length, options, 4 total length
    if frame.length < 20 {
        return None;
    }
    let body = &text[8..frame.length as usize - 4];
    Some(PcapngInterface {
        link: u16_at(frame.order, body, 0),
        snap: u32_at(frame.order, body, 4),
        name: &[],
        clock: Clock {
            units: MICROSECONDS,
            offset: i64::MAX,
        },
    })
}

/// Goes past a unit of `size` bytes, after which the file is in this state and its section has this
/// many interfaces; or finds it truncated.
fn go_past(reader: &mut Reader, capture: &[u8], size: usize, form: FileState, count: usize) -> Skip
    requires some { 0 < size }
    requires bounds { count ≤ 256 }
    ensures { Moves capture.now size form count reader.old reader.new result }
{
    if bytes_from(capture, reader.offset).len() < size {
        return Skip::Not(Found::Fault(Fault::Truncated));
    }
    *reader = Reader::new_at(reader.offset + size, form, count);
    Skip::Past
}

/// Goes past the file header of pcap that a capture begins with, if its link type is refused.
fn skip_header(reader: &mut Reader, table: &mut [Interface], capture: &[u8], fault: Fault) -> Skip
    requires form { reader_form reader.old ≡ form.Unknown }
    requires refused { front_of (declared_in reader.old table.old)
        (drop reader.old.offset capture.now) ≡ NoUnit (Some fault) }
    ensures { SkipLeaves capture.now reader.old reader.new table.old table.new result }
{
    match refused_part(fault) {
        RefusedPart::LinkType => {
            let text = bytes_from(capture, reader.offset);
            if text.len() < FILE_HEADER {
                return Skip::Not(Found::Fault(Fault::Truncated));
            }
            let head = head_by_low_bits(text);
            go_past(reader, capture, FILE_HEADER, FileState::Pcap(head), 0)
        }
        _ => Skip::Not(Found::Fault(fault)),
    }
}

/// Goes past the record at the reader's place, in a pcap file with this header, if its time is
/// refused.
fn skip_record(
    reader: &mut Reader,
    table: &mut [Interface],
    capture: &[u8],
    head: &Head,
    fault: Fault,
) -> Skip
    requires form { reader_form reader.old ≡ form.Pcap head.now }
    requires refused { front_of (declared_in reader.old table.old)
        (drop reader.old.offset capture.now) ≡ NoUnit (Some fault) }
    ensures { SkipLeaves capture.now reader.old reader.new table.old table.new result }
{
    match refused_part(fault) {
        RefusedPart::Time => {
            let text = bytes_from(capture, reader.offset);
            if text.len() < RECORD_HEADER as usize {
                return Skip::Not(Found::Fault(Fault::Truncated));
            }
            let size = record_size(head, text);
            let count = reader.known_interfaces(table.len());
            go_past(reader, capture, size, FileState::Pcap(*head), count)
        }
        _ => Skip::Not(Found::Fault(fault)),
    }
}

/// Goes past the description block of this frame at the reader's place, in a section of this byte
/// order, and adds its interface to the table. `first` is the file's first link type so far.
fn skip_interface(
    reader: &mut Reader,
    table: &mut [Interface],
    capture: &[u8],
    frame: &Frame,
    interface: &PcapngInterface<'_>,
    first: Option<u16>,
    order: Order,
) -> Skip
    requires form { reader_form reader.old ≡ form.Pcapng order first }
    requires there { frame.now.length ≤ length (drop reader.old.offset capture.now) }
    requires some { 0 < frame.now.length }
    requires fits { most_known reader.old (length table.old) < 256 }
    requires unit { past_at capture.now reader.old table.old ≡ Some (record {
      size = frame.now.length;
      declared = with_interface first
          (section_of order
          (first_interfaces (most_known reader.old (length table.old)) table.old))
          (description_of interface.now);
    }) }
    ensures { SkipLeaves capture.now reader.old reader.new table.old table.new result }
{
    let count = reader.known_interfaces(table.len());
    if count == table.len() {
        return Skip::Not(Found::NoRoom);
    }
    let known = KnownInterfaces {
        entries: table,
        count,
    };
    let link = first_link_with(first, &known, &BlockEffect::Interface(*interface));
    append_interface(table, count, interface);
    let form = FileState::Pcapng(order, link);
    *reader = Reader::new_at(reader.offset + frame.length as usize, form, count + 1);
    Skip::Past
}

/// Goes past the block at the reader's place, in a section of this byte order, if its time or its
/// options are refused. `first` is the file's first link type so far.
fn skip_block(
    reader: &mut Reader,
    table: &mut [Interface],
    capture: &[u8],
    fault: Fault,
    first: Option<u16>,
    order: Order,
) -> Skip
    requires form { reader_form reader.old ≡ form.Pcapng order first }
    requires refused { front_of (declared_in reader.old table.old)
        (drop reader.old.offset capture.now) ≡ NoUnit (Some fault) }
    ensures { SkipLeaves capture.now reader.old reader.new table.old table.new result }
{
    let text = bytes_from(capture, reader.offset);
    let Some(frame) = whole_frame(order, text) else {
        return Skip::Not(Found::Fault(fault));
    };
    match refused_part(fault) {
        RefusedPart::Time => {
            let count = reader.known_interfaces(table.len());
            let form = FileState::Pcapng(order, first);
            go_past(reader, capture, frame.length as usize, form, count)
        }
        RefusedPart::Options => {
            let Some(interface) = unread_interface(&frame, text) else {
                return Skip::Not(Found::Fault(fault));
            };
            if reader.known_interfaces(table.len()) >= MOST_INTERFACES {
                return Skip::Not(Found::Fault(fault));
            }
            skip_interface(reader, table, capture, &frame, &interface, first, order)
        }
        _ => Skip::Not(Found::Fault(fault)),
    }
}

/// Goes past the unit at the reader's place, which is refused by this fault, if its lengths are
/// sound.
fn skip_refused(reader: &mut Reader, table: &mut [Interface], capture: &[u8], fault: Fault) -> Skip
    requires { front_of (declared_in reader.old table.old) (drop reader.old.offset capture.now)
        ≡ NoUnit (Some fault) }
    ensures { SkipLeaves capture.now reader.old reader.new table.old table.new result }
{
    match reader.file_state() {
        FileState::Unknown => skip_header(reader, table, capture, fault),
        FileState::Pcap(head) => skip_record(reader, table, capture, &head, fault),
        FileState::Pcapng(order, first) => {
            skip_block(reader, table, capture, fault, first, order)
        }
    }
}

/// Goes past the unit at the reader's place if it is refused for its time, its link type or its
/// options. If it isn't, nothing is written.
pub fn skip_unit(reader: &mut Reader, table: &mut [Interface], capture: &[u8]) -> Skip
    ensures { SkipLeaves capture.now reader.old reader.new table.old table.new result }
{
    let form = reader.file_state();
    let count = known_interface_count(reader, form, table.len());
    let mut after = *reader;
    let mut packet = NO_PACKET;
    // The unit is read on copies, in a table without room for a further interface: none is entered.
    match next_unit(&mut after, &mut table[..count], capture, &mut packet) {
        Found::Fault(fault) => skip_refused(reader, table, capture, fault),
        Found::NoRoom => {
            if count < table.len() {
                return Skip::Not(Found::Unit);
            }
            Skip::Not(Found::NoRoom)
        }
        found => Skip::Not(found),
    }
}
