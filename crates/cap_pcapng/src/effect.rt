//! What a block does among the interfaces of its section: it begins a section, adds an interface or
//! has a packet; with the checks of it that need these interfaces.
ghost use Rattle.std.specs.Prelude.{◌≡◌, ◌+◌, ◌≤◌, IfOk, IfErr, length};
ghost use Rattle.cap_pcapng.specs.{Answer.ChecksGive, Unit.checks_among, inside.Effect.PacketFound};
ghost use Rattle.cap_pcapng.specs.{inside.Effect.fault_among, Block.parts_in, Block.parts_of};
ghost use Rattle.cap_pcapng.specs.Effect.{HasEffect, IsBlockFault, LiesAsSaid, span_bytes};
ghost use Rattle.cap_pcapng.specs.declared.blocks.Block.TheVariants as a;

use crate::blocks::{Block, EnhancedBlock, SimpleBlock};
use crate::frames::Frame;
use crate::interface::Interface;
use crate::read::block;
use crate::table::MOST_INTERFACES;
use cap_octet::{Fault, Order};

/// The place where the data of an enhanced packet begin in its block.
const ENHANCED_DATA: u32 = 28;

/// The place where the data of a simple packet begin in its block.
const SIMPLE_DATA: u32 = 12;

/// Where some bytes of a unit, which is a record or a block here, lie.
#[derive(Clone, Copy)]
pub struct Span {
    /// The place where they begin in the unit.
    pub start: u32,
    /// How many they are.
    pub length: u32,
}

impl Span {
    /// `length` bytes of a unit, from place `start` on.
    pub fn new(start: u32, length: u32) -> Self
        ensures { result ≡ record { start = start; length = length } }
    {
        Span { start, length }
    }

    /// These bytes, of a buffer that begins with the unit.
    pub fn bytes_in(self, bytes: &[u8]) -> &[u8]
        requires { self.start + self.length ≤ length bytes.now }
        ensures { result.now ≡ span_bytes self bytes.now }
    {
        &bytes[self.start as usize..][..self.length as usize]
    }
}

/// The place of a packet in its unit, and what is in front of its data.
#[derive(Clone, Copy)]
pub struct PacketSpans {
    /// The size of its unit, in bytes.
    pub size: u32,
    /// The place where its data lie.
    pub bytes: Span,
    /// The place where the options of its block lie; none but in an enhanced packet.
    pub options: Span,
    /// The number of its interface in its section; 0 in pcap.
    pub interface: u32,
    /// Nanoseconds since 1970-01-01 00:00:00 UTC, below 2^63.
    pub time: u64,
    /// The original length, in bytes.
    pub orig: u32,
}

impl PacketSpans {
    /// The spans of no packet, all zeros: what a reader has before its first packet, whose spans
    /// replace them. No clause: nothing is read by them.
    pub fn of_no_packet() -> Self {
        PacketSpans {
            size: 0,
            bytes: Span::new(0, 0),
            options: Span::new(0, 0),
            interface: 0,
            time: 0,
            orig: 0,
        }
    }
}

/// The interfaces of a section by their numbers.
pub trait Interfaces {
    ghost use Rattle.std.specs.{Option.option_map, Prelude.List, Prelude.slice_get};
    ghost use Rattle.cap_pcapng.specs.Interface.{Described, description_of};

    /// The interfaces, from number 0 on.
    ghost list: { Self → List Described };

    /// How many interfaces there are.
    fn count(&self) -> usize
        ensures { result ≡ length (list self.now) };

    /// The interface with this number, counted from 0; `None` if there is none.
    fn get(&self, number: u32) -> Option<Interface<'_>>
        ensures { option_map description_of result ≡ slice_get (list self.now) number };
}

/// What a block does that passed all of its checks.
#[derive(Clone, Copy)]
pub enum BlockEffect<'a> {
    /// A section begins, without interfaces.
    Section,
    /// The section has an interface more.
    Interface(Interface<'a>),
    /// The block has a packet, of an interface of the section.
    Packet(PacketSpans),
    /// A block of another type, which is skipped.
    Nothing,
}

/// The fault to report of a block whose own checks gave this one, after these interfaces. It is the
/// same, but if there are 256 interfaces already, `TooManyInterfaces` comes before a fault of a
/// further one's options.
fn fault_in_full_table<T: Interfaces>(table: &T, fault: Fault) -> Fault
    ensures { result ≡ fault_among (T.list table.now) fault }
{
    match fault {
        Fault::BadOption | Fault::BadTimeResolution if table.count() >= MOST_INTERFACES => {
            Fault::TooManyInterfaces
        }
        _ => fault,
    }
}

/// The place of the packet of an enhanced packet block of `size` bytes, or the first check that it
/// fails: its interface isn't known (`UnknownInterface`), its data with their padding end outside
/// the body (`BadBody`), its time is out of range (`TimeOutOfRange`).
fn enhanced_packet_spans<T: Interfaces>(
    table: &T,
    block: &EnhancedBlock<'_>,
    size: u32,
) -> Result<PacketSpans, Fault>
    requires { 28 + length block.now.rest.now ≤ size }
    ensures { ChecksGive (checks_among (T.list table.now) (parts_of (a.Enhanced block.now))) result
        (PacketFound
        block.now.order (T.list table.now) (parts_of (a.Enhanced block.now)) 28 size
        block.now.rest.now) }
{
    let Some(interface) = table.get(block.interface) else {
        return Err(Fault::UnknownInterface);
    };
    // Only whether the padded data end inside the body; spans show the place of the data.
    block.data()?;
    let time = interface.clock.time_at(block.ticks)?;
    // 0      28 = ENHANCED_DATA     following
    // header | data, padding        | options | total length
    //        |-------- block.rest ------------|
    let options = block.options().rest.len() as u32;
    let following = ENHANCED_DATA + block.rest.len() as u32 - options;
    Ok(PacketSpans {
        size,
        bytes: Span::new(ENHANCED_DATA, block.captured),
        options: Span::new(following, options),
        interface: block.interface,
        time,
        orig: block.orig,
    })
}

/// The place of the packet of a simple packet block of `size` bytes, one of interface 0 at time 0;
/// or the first check that it fails: there is no interface (`UnknownInterface`), its data with
/// their padding end outside the body (`BadBody`).
fn simple_packet_spans<T: Interfaces>(
    table: &T,
    block: &SimpleBlock<'_>,
    size: u32,
) -> Result<PacketSpans, Fault>
    ensures { ChecksGive (checks_among (T.list table.now) (parts_of (a.Simple block.now))) result
        (λ spans. (order : Order) → PacketFound order (T.list table.now)
        (parts_of (a.Simple block.now)) 12 size block.now.rest.now spans) }
{
    let Some(interface) = table.get(0) else {
        return Err(Fault::UnknownInterface);
    };
    // Only whether the padded data end inside the body; spans show the place of the data.
    block.data(interface.snap)?;
    Ok(PacketSpans {
        size,
        bytes: Span::new(SIMPLE_DATA, block.captured(interface.snap)),
        options: Span::new(SIMPLE_DATA, 0),
        interface: 0,
        time: 0,
        orig: block.orig,
    })
}

/// Makes all checks of a whole block of this frame, and returns what it does among the interfaces
/// of its section so far; or the first check that it fails. The table is left to the caller.
pub fn block_effect<'a, T: Interfaces>(
    table: &T,
    frame: &Frame,
    bytes: &'a [u8],
) -> Result<BlockEffect<'a>, Fault>
    requires whole { length bytes.now ≡ frame.now.length }
    requires shortest { 12 ≤ frame.now.length }
    ensures ok { IfOk result (HasEffect frame.now (T.list table.now) bytes.now) }
    ensures lies { IfOk result (LiesAsSaid (parts_in frame.now bytes.now)) }
    ensures err { IfErr result (IsBlockFault frame.now (T.list table.now) bytes.now) }
{
    match block(frame, bytes) {
        Ok(Block::Section) => Ok(BlockEffect::Section),
        Ok(Block::Interface(block)) => {
            if table.count() >= MOST_INTERFACES {
                return Err(Fault::TooManyInterfaces);
            }
            Ok(BlockEffect::Interface(block.interface))
        }
        Ok(Block::Enhanced(block)) => match enhanced_packet_spans(table, &block, frame.length) {
            Ok(spans) => Ok(BlockEffect::Packet(spans)),
            Err(fault) => Err(fault),
        },
        Ok(Block::Simple(block)) => match simple_packet_spans(table, &block, frame.length) {
            Ok(spans) => Ok(BlockEffect::Packet(spans)),
            Err(fault) => Err(fault),
        },
        Ok(Block::Skipped) => Ok(BlockEffect::Nothing),
        Err(fault) => Err(fault_in_full_table(table, fault)),
    }
}
