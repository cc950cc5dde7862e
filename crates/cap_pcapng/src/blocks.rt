//! What the body of a block says, with its data lent. Places in a body are in bytes:
//!
//! ```text
//! section    0 byte-order magic  4 major version  6 minor version  8 section length
//! interface  0 link type         2 reserved       4 snap length    8 options
//! enhanced   0 interface         4 ticks, the high half             8 ticks, the low half
//!           12 captured length  16 original length                 20 data, padding, options
//! simple     0 original length                                      4 data, padding
//! ```
ghost use Rattle.std.specs.Prelude.{◌≡◌, drop, take};
ghost use Rattle.cap_octet.specs.Checks.{checked, first_failing};
ghost use Rattle.cap_pcapng.specs.Block.{body_checks, data_checks, parts_in_body, parts_of};
ghost use Rattle.cap_pcapng.specs.{Answer.ChecksGive, Block.simple_captured, Padding.padded_length};
ghost use Rattle.cap_pcapng.specs.declared.blocks.Block.TheVariants as a;
ghost use Rattle.cap_pcapng.specs.declared.frames.BlockType.TheVariants as kind;

use crate::interface::Interface;
use crate::options::{Options, padded_length};
use cap_octet::{Fault, Order, u16_at, u32_at};

/// A block that passed its own checks (draft-ietf-opsawg-pcapng, "Block Types").
#[derive(Clone, Copy)]
pub enum Block<'a> {
    /// A section header block.
    Section,
    /// An interface description block.
    Interface(InterfaceBlock<'a>),
    /// An enhanced packet block.
    Enhanced(EnhancedBlock<'a>),
    /// A simple packet block.
    Simple(SimpleBlock<'a>),
    /// A block of another type.
    Skipped,
}

/// An interface description block.
#[derive(Clone, Copy)]
pub struct InterfaceBlock<'a> {
    /// The interface that it describes.
    pub interface: Interface<'a>,
    /// All of its options.
    pub options: Options<'a>,
}

/// An enhanced packet block.
#[derive(Clone, Copy)]
pub struct EnhancedBlock<'a> {
    /// The byte order of the block.
    pub order: Order,
    /// The number of its interface, counted from 0 in its section.
    pub interface: u32,
    /// The time, in ticks of its interface.
    pub ticks: u64,
    /// The captured length, in bytes.
    pub captured: u32,
    /// The original length, in bytes.
    pub orig: u32,
    /// The padded data and the options after them.
    pub rest: &'a [u8],
}

/// A simple packet block.
#[derive(Clone, Copy)]
pub struct SimpleBlock<'a> {
    /// The original length, in bytes.
    pub orig: u32,
    /// The padded data and what follows them in the body.
    pub rest: &'a [u8],
}

/// Checks the body of a section header, of version 1.0 or 1.2, or returns the first check that it
/// fails: it is shorter than 16 bytes (`BadBody`), or of another version (`BadVersion`). Its
/// byte-order magic was checked with the frame, and its section length isn't looked at.
pub(crate) fn check_section_body(order: Order, body: &[u8]) -> Result<(), Fault>
    ensures { result ≡ checked (first_failing (body_checks kind.Section order body.now)) tt }
{
    if body.len() < 16 {
        return Err(Fault::BadBody);
    }
    let major = u16_at(order, body, 4);
    let minor = u16_at(order, body, 6);
    if major != 1 || (minor != 0 && minor != 2) {
        return Err(Fault::BadVersion);
    }
    Ok(())
}

/// The captured bytes, which are the first ones of the rest of a body, without their padding; or
/// `BadBody` if the rest is shorter than these bytes with their padding.
fn data_in(rest: &[u8], captured: u32) -> Result<&[u8], Fault>
    ensures { ChecksGive (data_checks captured rest.now) result
        (λ bytes. bytes.now ≡ take captured rest.now) }
{
    if padded_length(u64::from(captured)) > rest.len() as u64 {
        return Err(Fault::BadBody);
    }
    Ok(&rest[..captured as usize])
}

impl<'a> EnhancedBlock<'a> {
    /// Reads the body of an enhanced packet block, or returns `BadBody` if it is shorter than 20
    /// bytes. Whether its data lie in the body is left to `data`.
    pub(crate) fn of_body(order: Order, body: &'a [u8]) -> Result<Self, Fault>
        ensures { ChecksGive (body_checks kind.EnhancedPacket order body.now) result
            (λ b. parts_of (a.Enhanced b) ≡ parts_in_body kind.EnhancedPacket order body.now) }
    {
        if body.len() < 20 {
            return Err(Fault::BadBody);
        }
        let high = u64::from(u32_at(order, body, 4));
        let low = u64::from(u32_at(order, body, 8));
        Ok(EnhancedBlock {
            order,
            interface: u32_at(order, body, 0),
            // 2^32 times the high half: the proof reads a product instead of a shift.
            ticks: high * 4_294_967_296 + low,
            captured: u32_at(order, body, 12),
            orig: u32_at(order, body, 16),
            rest: &body[20..],
        })
    }

    /// The captured bytes, or `BadBody` if the body is shorter than they are with their padding.
    pub fn data(&self) -> Result<&'a [u8], Fault>
        ensures { ChecksGive (data_checks self.now.captured self.now.rest.now) result
            (λ bytes. bytes.now ≡ take self.now.captured self.now.rest.now) }
    {
        data_in(self.rest, self.captured)
    }

    /// The options after the padded data; none if the body ends before.
    pub fn options(&self) -> Options<'a>
        ensures order { result.order ≡ self.now.order }
        ensures rest { result.rest.now ≡ drop (padded_length self.now.captured) self.now.rest.now }
    {
        let padded = padded_length(u64::from(self.captured)) as usize;
        Options::new(self.order, &self.rest[padded.min(self.rest.len())..])
    }
}

impl<'a> SimpleBlock<'a> {
    /// Reads the body of a simple packet block, or returns `BadBody` if it is shorter than 4
    /// bytes. Whether its data lie in the body is left to `data`.
    pub(crate) fn of_body(order: Order, body: &'a [u8]) -> Result<Self, Fault>
        ensures { ChecksGive (body_checks kind.SimplePacket order body.now) result
            (λ b. parts_of (a.Simple b) ≡ parts_in_body kind.SimplePacket order body.now) }
    {
        if body.len() < 4 {
            return Err(Fault::BadBody);
        }
        Ok(SimpleBlock {
            orig: u32_at(order, body, 0),
            rest: &body[4..],
        })
    }

    /// The captured length, in bytes, if the interface has this snap length: the original one,
    /// but at most that; 0 means no snap length.
    pub fn captured(&self, snap: u32) -> u32
        ensures { result ≡ simple_captured self.now.orig snap }
    {
        if snap == 0 {
            self.orig
        } else {
            self.orig.min(snap)
        }
    }

    /// The captured bytes if the interface has this snap length, or `BadBody` if the body is
    /// shorter than they are with their padding.
    pub fn data(&self, snap: u32) -> Result<&'a [u8], Fault>
        ensures { ChecksGive (data_checks (simple_captured self.now.orig snap) self.now.rest.now)
            result
            (λ bytes. bytes.now ≡ take (simple_captured self.now.orig snap) self.now.rest.now) }
    {
        data_in(self.rest, self.captured(snap))
    }
}
