//! The blocks of a pcapng file, read from a device.
ghost use Rattle.std.specs.Prelude.{◌≡◌, ◌^◌, ◌<◌, ◌≤◌, IfOk, IfErr, true, IsTrue, OnErr, []};
ghost use Rattle.std.specs.Prelude.{Option, false, is_some, length};
ghost use Rattle.cap_pcapng.specs.{Interface.FitSection, Effect.Enters, Effect.section_of};
ghost use Rattle.cap_pcapng.specs.inside.Effect.{IsEntryFault};
ghost use Rattle.cap_io.specs.inside.Reading.{BeginsBlock, IsConsistent, ReadsUnit};
ghost use Rattle.cap_io.specs.{Reading.declared_by, Capture.first_link_after};
ghost use Rattle.cap_io.specs.inside.Reading.{known_order};

use crate::file_state::{FileState, NextUnit};
use crate::next_unit::UnitReader;
use crate::unit::{make_room, read_front, read_rest};
use cap_octet::{Fault, Input, Order};
use cap_pcapng::{BlockEffect, BlockType, Frame, PacketSpans, Table, block_effect, frame};
use std::alloc::Allocator;

/// How many bytes of a block are read first: the 8 in front of its body, and 4 of that, which in a
/// section header are the byte-order magic.
pub(crate) const BLOCK_FRONT: usize = 12;

/// Makes the checks of a whole block of this frame, updates the table to the interfaces that its
/// section has after it, and returns the place of its packet; `None` if it has none. The fault is
/// that of the first check that fails, or `NoMemory` for an interface, and leaves the table
/// unchanged.
fn apply_block<A: Allocator>(
    table: &mut Table<A>,
    frame: &Frame,
    bytes: &[u8],
) -> Result<Option<PacketSpans>, Fault>
    requires whole { length bytes.now ≡ frame.now.length }
    requires shortest { 12 ≤ frame.now.length }
    requires section { FitSection table.old }
    ensures section { FitSection table.new }
    ensures ok { IfOk result (λ spans. Enters frame.now table.old bytes.now spans table.new) }
    ensures err { IfErr result (IsEntryFault frame.now table.old bytes.now) }
    ensures kept { OnErr result (table.new ≡ table.old) }
{
    match block_effect(table, frame, bytes)? {
        BlockEffect::Section => {
            table.clear();
            Ok(None)
        }
        BlockEffect::Interface(interface) => {
            table.push(&interface)?;
            Ok(None)
        }
        BlockEffect::Packet(spans) => Ok(Some(spans)),
        BlockEffect::Nothing => Ok(None),
    }
}

/// The first link type that an interface of the file declared, up to and with a block: the one that
/// was known before it, else that of the first interface of the table after it. `None` if no
/// interface was declared.
fn first_link_type<A: Allocator>(first: Option<u16>, table: &Table<A>) -> Option<u16>
    ensures { (order : Order) → result ≡ first_link_after first (section_of order table.now) }
{
    match (first, table.get(0)) {
        (None, Some(interface)) => Some(interface.link),
        _ => first,
    }
}

/// Whether the next block with a packet, and all blocks before it, are wholly among these bytes.
/// `false` even if a block among them fails a check of its frame.
// No more of its answer is stated: see `Source::has_next_at_hand`.
pub(crate) fn holds_packet(order: Order, bytes: &[u8]) -> bool
    ensures { result ≡ true → 12 ≤ length bytes.now }
{
    let mut order = order;
    let mut rest = bytes;
    while let Some(front) = rest.first_chunk::<BLOCK_FRONT>() {
        let Ok(frame) = frame(Some(order), front) else {
            return false;
        };
        let size = frame.length as usize;
        if size > rest.len() {
            return false;
        }
        if let BlockType::SimplePacket | BlockType::EnhancedPacket = frame.block_type {
            return true;
        }
        order = frame.order;
        rest = &rest[size..];
    }
    false
}

impl<I: Input, A: Allocator> UnitReader<I, A> {
    /// Reads a block, whose first 12 bytes came already, to the start of the buffer, and updates
    /// the table and the state of the file to those after it. The checks of its length are made
    /// before the buffer grows.
    pub(crate) fn read_block(&mut self, front: &[u8; 12]) -> Result<NextUnit, Fault>
        requires consistent { IsConsistent self.old.file self.old.table }
        requires begins { BeginsBlock self.old.file front.now }
        requires bounded { I.given self.old.input < 2 ^ 63 }
        ensures { ReadsUnit I.Input self.old front.now result self.new }
    {
        let found = frame(self.file.order(), front)?;
        let size = found.length as usize;
        make_room(&mut self.buffer, size)?;
        read_rest(&mut self.input, front, self.buffer.as_mut_slice(), size)?;
        match apply_block(&mut self.table, &found, &self.buffer[..size]) {
            Ok(Some(packet)) => {
                self.spans = packet;
                Ok(NextUnit::Packet)
            }
            Ok(None) => {
                let link = first_link_type(self.file.first_link(), &self.table);
                self.file = FileState::Pcapng(found.order, link);
                Ok(NextUnit::Other(size))
            }
            Err(fault) => Err(fault),
        }
    }

    /// Reads the next block of a pcapng file, or finds the clean end. A fault is that of the first
    /// check that the block fails, `Truncated`, `ReadFailed` or `NoMemory`.
    pub(crate) fn next_block(&mut self) -> Result<NextUnit, Fault>
        requires section { IsTrue (is_some (known_order self.old.file)) }
        requires consistent { IsConsistent self.old.file self.old.table }
        ensures { ReadsUnit I.Input self.old [] result self.new }
    {
        let mut front = [0; BLOCK_FRONT];
        if !read_front(&mut self.input, &mut front)? {
            return Ok(NextUnit::End);
        }
        self.read_block(&front)
    }
}
