//! A block is read in two steps: its first 12 bytes, then all of them.
ghost use Rattle.std.specs.Prelude.{◌≡◌, ◌≤◌, ◌%◌, ◌++◌, IfOk, IfErr, None, Some};
ghost use Rattle.cap_octet.specs.Checks.{checked};
ghost use Rattle.cap_pcapng.specs.Block.{IsDescribedIfAny, block_fault, body_checks, option_checks};
ghost use Rattle.cap_pcapng.specs.Answer.{ChecksGive};
ghost use Rattle.cap_pcapng.specs.Block.{parts_in, parts_in_body, parts_of};
ghost use Rattle.cap_pcapng.specs.Frame.{frame_fault, frame_in, is_section, most_block};

use crate::blocks::{Block, EnhancedBlock, InterfaceBlock, SimpleBlock, check_section_body};
use crate::frames::{BlockType, Frame, MOST_BLOCK, SECTION_TYPE, magic_order};
use cap_octet::{Fault, Order, u32_at};

/// Whether these are the first bytes of a section header, only by the block's type.
pub fn begins_section(bytes: &[u8; 4]) -> bool
    ensures { result ≡ is_section bytes.now }
{
    u32_at(Order::Little, bytes, 0) == SECTION_TYPE
}

/// Reads the first 12 bytes of a block in a section of this byte order, `None` if no section
/// began; or returns the first check that they fail:
///
/// - `NotACaptureFile`: no section began, and the block isn't a section header
/// - `BadByteOrderMagic`: a section header has none
/// - `BadBlockLength`: the total length is below 12 or no multiple of 4
/// - `TooLong`: the total length is above 1,048,576
pub fn frame(section: Option<Order>, bytes: &[u8; 12]) -> Result<Frame, Fault>
    ensures answer { result ≡ checked (frame_fault section bytes.now) (frame_in section bytes.now) }
    ensures shortest { IfOk result (λ frame. 12 ≤ frame.length) }
    ensures longest { IfOk result (λ frame. frame.length ≤ most_block) }
    ensures whole { IfOk result (λ frame. frame.length % 4 ≡ 0) }
{
    // As `begins_section`, which has four bytes.
    let is_section = u32_at(Order::Little, bytes, 0) == SECTION_TYPE;
    let order = if is_section {
        magic_order(bytes).ok_or(Fault::BadByteOrderMagic)?
    } else {
        section.ok_or(Fault::NotACaptureFile)?
    };
    let length = u32_at(order, bytes, 4);
    if length < 12 || length % 4 != 0 {
        return Err(Fault::BadBlockLength);
    }
    if length > MOST_BLOCK {
        return Err(Fault::TooLong);
    }
    let block_type = if is_section {
        BlockType::Section
    } else {
        BlockType::of_number(u32_at(order, bytes, 0))
    };
    Ok(Frame {
        order,
        block_type,
        length,
    })
}

/// Reads the body of a block, between its two total lengths, or returns the first check that fails:
/// those that `block` lists from `ObsoletePacketBlock` on.
fn read_body<'a>(frame: &Frame, body: &'a [u8]) -> Result<Block<'a>, Fault>
    ensures parts { ChecksGive (body_checks frame.now.block_type frame.now.order body.now
        ++ option_checks (parts_in_body frame.now.block_type frame.now.order body.now)) result
        (λ block. parts_of block ≡ parts_in_body frame.now.block_type frame.now.order body.now) }
    ensures described { IfOk result IsDescribedIfAny }
{
    match frame.block_type {
        BlockType::Section => check_section_body(frame.order, body).map(|()| Block::Section),
        BlockType::Interface => InterfaceBlock::of_body(frame.order, body).map(Block::Interface),
        BlockType::ObsoletePacket => Err(Fault::ObsoletePacketBlock),
        BlockType::SimplePacket => SimpleBlock::of_body(frame.order, body).map(Block::Simple),
        BlockType::EnhancedPacket => EnhancedBlock::of_body(frame.order, body).map(Block::Enhanced),
        BlockType::Other => Ok(Block::Skipped),
    }
}

/// Reads the block with this frame at the start of `bytes`, or returns the first check that fails:
///
/// - `BadBlockLength`: a length below 12, or its two total lengths differ
/// - `Truncated`: `bytes` end before the block does
/// - `ObsoletePacketBlock`
/// - `BadBody`: too short for its type
/// - `BadVersion`: a section of another version than 1.0 and 1.2
/// - `BadOption`, `BadTimeResolution`: an option of an interface doesn't fit in the body, or has a
///   wrong value
///
/// The caller makes the checks that need the interfaces of its section (`block_effect`).
pub fn block<'a>(frame: &Frame, bytes: &'a [u8]) -> Result<Block<'a>, Fault>
    ensures parts { IfOk result (λ block. parts_of block ≡ parts_in frame.now bytes.now) }
    ensures described { IfOk result IsDescribedIfAny }
    ensures passes { IfOk result (λ _. block_fault frame.now bytes.now ≡ None) }
    ensures refused { IfErr result (λ fault. block_fault frame.now bytes.now ≡ Some fault) }
{
    let size = frame.length as usize;
    if size < 12 {
        return Err(Fault::BadBlockLength);
    }
    if bytes.len() < size {
        return Err(Fault::Truncated);
    }
    // 0 type, 4 total length, 8 body, and the total length again in the last four bytes.
    let end = size - 4;
    if u32_at(frame.order, bytes, end) != frame.length {
        return Err(Fault::BadBlockLength);
    }
    read_body(frame, &bytes[8..end])
}
