//! The unit that some bytes begin with.
ghost use Rattle.std.specs.Prelude.{◌≡◌, ◌<◌, ◌≤◌, IfOk, IfErr, List, Some, [], length};
ghost use Rattle.cap_octet.specs.{Checks.checked, declared.number.Order.Order};
ghost use Rattle.cap_pcap.specs.{Header.header_fault, Header.header_in, Record.most_captured};
ghost use Rattle.cap_pcapng.specs.{Effect.interfaces_after, Effect.section_of, Interface.Described};
ghost use Rattle.cap_io.specs.Capture.{NoUnit, PcapFile, first_link_after, front_of, is_pcapng};
ghost use Rattle.cap_io.specs.FirstUnit.{BeginsWithUnit, IsSomeFor};
ghost use Rattle.cap_io.specs.{Reading.declared_by, inside.Reading.BeginsAt};
ghost use Rattle.cap_io.specs.inside.Reading.{record_spans};
ghost use Rattle.cap_io.specs.declared.file_state.FileState.TheVariants as state;
ghost use Rattle.cap_pcapng.specs.declared.effect.BlockEffect.TheVariants as does;

use crate::file_state::FileState;
use crate::next_unit::FILE_HEADER_LENGTH;
use crate::pcapng::BLOCK_FRONT;
use cap_octet::Fault;
use cap_pcap::{Head, RecordHead, read_head, read_magic, read_record};
use cap_pcapng::{BlockEffect, Interfaces, PacketSpans, Span, begins_section, block_effect, frame};

/// How many bytes of a record are in front of its data.
pub(crate) const RECORD_HEADER_LENGTH: usize = 16;

/// A unit that fails no check.
#[derive(Clone, Copy)]
pub struct FoundUnit<'a> {
    /// In bytes.
    pub size: usize,
    /// The state of the file after it.
    pub file: FileState,
    /// What it does among the interfaces of its section. In pcap, which has none, a record has a
    /// packet, and the file header does nothing.
    pub effect: BlockEffect<'a>,
}

/// Whether a file that begins with these bytes is pcapng: with the type of a section header.
fn is_pcapng(bytes: &[u8]) -> bool
    ensures { result ≡ is_pcapng bytes.now }
{
    match bytes.first_chunk::<4>() {
        Some(first) => begins_section(first),
        None => false,
    }
}

/// The file header of pcap that some bytes begin with, or the first check that it fails:
/// `NotACaptureFile` without a magic number in the first four bytes, `Truncated` where fewer than
/// the header's 24 are there, and then those of the header (`read_head`).
fn header_in(bytes: &[u8]) -> Result<Head, Fault>
    ensures { result ≡ checked (header_fault bytes.now) (header_in bytes.now) }
{
    if bytes.len() < 4 || read_magic(bytes).is_none() {
        return Err(Fault::NotACaptureFile);
    }
    let Some(header) = bytes.first_chunk::<FILE_HEADER_LENGTH>() else {
        return Err(Fault::Truncated);
    };
    read_head(header)
}

/// The place where the packet of a record with this header lies: after the header, without options.
#[inline(always)]
pub(crate) fn record_spans(found: &RecordHead) -> PacketSpans
    requires { found.now.captured ≤ most_captured }
    ensures { result ≡ record_spans found.now }
{
    PacketSpans {
        size: RECORD_HEADER_LENGTH as u32 + found.captured,
        bytes: Span::new(RECORD_HEADER_LENGTH as u32, found.captured),
        options: Span::new(RECORD_HEADER_LENGTH as u32, 0),
        interface: 0,
        time: found.time,
        orig: found.orig,
    }
}

/// The place of the packet in the record that these bytes of a pcap file begin with; or the first
/// check that the record fails: `Truncated` if its header of 16 bytes is cut, the checks of the
/// header (`read_record`), `Truncated` if its data are cut.
#[inline(always)]
pub fn record_in(head: &Head, bytes: &[u8]) -> Result<PacketSpans, Fault>
    requires some { 0 < length bytes.now }
    ensures ok { IfOk result (λ spans. (interfaces : List Described)
        → BeginsWithUnit (state.Pcap head.now) interfaces bytes.now (record {
          size = spans.size;
          file = state.Pcap head.now;
          effect = does.Packet spans;
        })) }
    ensures err { IfErr result (λ fault. front_of (PcapFile head.now) bytes.now
        ≡ NoUnit (Some fault)) }
{
    let Some(front) = bytes.first_chunk::<RECORD_HEADER_LENGTH>() else {
        return Err(Fault::Truncated);
    };
    let record = match read_record(head, front) {
        Ok(record) => record,
        Err(fault) => return Err(fault),
    };
    let spans = record_spans(&record);
    if bytes.len() < spans.size as usize {
        return Err(Fault::Truncated);
    }
    Ok(spans)
}

/// The first link type that a file has declared once a block with this effect is read: `first`, if
/// one was known before it, else that of the first interface of the section after it; `None` if
/// there is neither. The section's byte order doesn't matter, so the clause holds for each.
pub fn first_link_with<T: Interfaces>(
    first: Option<u16>,
    table: &T,
    effect: &BlockEffect<'_>,
) -> Option<u16>
    ensures { (order : Order) → result ≡ first_link_after first
        (section_of order (interfaces_after effect.now (T.list table.now))) }
{
    if let Some(link) = first {
        return Some(link);
    }
    match (effect, table.get(0)) {
        (BlockEffect::Section, _) => None,
        (_, Some(interface)) => Some(interface.link),
        (BlockEffect::Interface(interface), None) => Some(interface.link),
        (_, None) => None,
    }
}

/// The block that some bytes of a pcapng file begin with, or the first check that it fails.
pub(crate) fn block_in<'a, T: Interfaces>(
    file: &FileState,
    table: &T,
    bytes: &'a [u8],
) -> Result<FoundUnit<'a>, Fault>
    requires begins { BeginsAt file.now bytes.now }
    requires bare { file.now ≡ state.Unknown → T.list table.now ≡ [] }
    ensures ok { IfOk result (BeginsWithUnit file.now (T.list table.now) bytes.now) }
    ensures err { IfErr result (λ fault. 0 < length bytes.now
        → front_of (declared_by file.now (T.list table.now)) bytes.now ≡ NoUnit (Some fault)) }
{
    // 12 bytes, the length of the shortest block, show its frame.
    let Some(front) = bytes.first_chunk::<BLOCK_FRONT>() else {
        return Err(Fault::Truncated);
    };
    let frame = match frame(file.order(), front) {
        Ok(frame) => frame,
        Err(fault) => return Err(fault),
    };
    let size = frame.length as usize;
    if bytes.len() < size {
        return Err(Fault::Truncated);
    }
    match block_effect(table, &frame, &bytes[..size]) {
        Ok(effect) => {
            let link = first_link_with(file.first_link(), table, &effect);
            Ok(FoundUnit {
                size,
                file: FileState::Pcapng(frame.order, link),
                effect,
            })
        }
        Err(fault) => Err(fault),
    }
}

/// The unit that some bytes begin with, given what the units before it declare: the file header of
/// pcap, a record or a block; or the first check that it fails. The bytes aren't empty if a unit
/// was read before: that would be the clean end.
pub fn unit_in<'a, T: Interfaces>(
    file: &FileState,
    table: &T,
    bytes: &'a [u8],
) -> Result<FoundUnit<'a>, Fault>
    requires some { IsSomeFor file.now bytes.now }
    requires bare { file.now ≡ state.Unknown → T.list table.now ≡ [] }
    ensures ok { IfOk result (BeginsWithUnit file.now (T.list table.now) bytes.now) }
    ensures err { IfErr result (λ fault. front_of (declared_by file.now (T.list table.now)) bytes.now
        ≡ NoUnit (Some fault)) }
{
    match *file {
        FileState::Unknown => {
            if !is_pcapng(bytes) {
                return match header_in(bytes) {
                    Ok(head) => Ok(FoundUnit {
                        size: FILE_HEADER_LENGTH,
                        file: FileState::Pcap(head),
                        effect: BlockEffect::Nothing,
                    }),
                    Err(fault) => Err(fault),
                };
            }
        }
        FileState::Pcap(head) => {
            return match record_in(&head, bytes) {
                Ok(spans) => Ok(FoundUnit {
                    size: spans.size as usize,
                    file: FileState::Pcap(head),
                    effect: BlockEffect::Packet(spans),
                }),
                Err(fault) => Err(fault),
            };
        }
        FileState::Pcapng(_, _) => {}
    }
    block_in(file, table, bytes)
}
