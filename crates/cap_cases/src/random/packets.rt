//! The packets of a pcapng file that capkit wrote, block by block.

use std::alloc::{AllocError, Global};

/// The offset of a packet's data in its block.
const BEFORE_DATA: usize = 28;

/// A packet as it was written. Two are equal if they have the same interface, time, lengths, data
/// and comment.
#[derive(Clone, Copy, PartialEq)]
pub struct Packet<'b> {
    /// The block of its interface.
    interface: &'b [u8],
    /// Its own block after the interface's number.
    fields: &'b [u8],
    pub link: u16,
    /// In nanoseconds.
    pub time: u64,
    /// The original length.
    pub original: u32,
    pub data: &'b [u8],
    pub comment: &'b [u8],
}

/// The packets of a file, and whether it was nothing but whole blocks of known kinds.
#[derive(Drop)]
pub struct Packets<'b> {
    pub list: Vec<Packet<'b>>,
    pub is_whole: bool,
}

/// The little-endian number at a place.
fn number(bytes: &[u8], place: usize) -> Option<u32> {
    Some(u32::from_le_bytes(*bytes.get(place..)?.first_chunk::<4>()?))
}

/// The first block of some, and what is after it.
fn block(bytes: &[u8]) -> Option<(&[u8], &[u8])> {
    bytes.split_at_checked(number(bytes, 4)? as usize)
}

/// The comment among options, which is the only one; nothing if there are none.
fn comment(options: &[u8]) -> &[u8] {
    match number(options, 0) {
        Some(head) if 4 < options.len() => {
            let end = 4usize.saturating_add((head >> 16) as usize);
            options.get(4..end).unwrap_or_default()
        }
        _ => &[],
    }
}

/// The packet of a block, if its interface was described.
fn read_packet<'b>(block: &'b [u8], interfaces: &[&'b [u8]]) -> Option<Packet<'b>> {
    let interface = interfaces.get(number(block, 8)? as usize)?;
    let (high, low) = (number(block, 12)?, number(block, 16)?);
    let end = BEFORE_DATA.saturating_add(number(block, 20)? as usize);
    let options = end.div_ceil(4).saturating_mul(4);
    Some(Packet {
        interface: *interface,
        fields: block.get(12..)?,
        link: (number(interface, 8)? & 0xffff) as u16,
        time: u64::from(high) << 32 | u64::from(low),
        original: number(block, 24)?,
        data: block.get(BEFORE_DATA..end)?,
        comment: comment(block.get(options..)?),
    })
}

/// The packets of a file.
pub fn packets_of<'b>(alloc: Global, bytes: &'b [u8]) -> Result<Packets<'b>, AllocError> {
    let mut list = Vec::new(alloc);
    let mut interfaces: Vec<&'b [u8]> = Vec::new(alloc);
    let mut rest = bytes;
    let mut is_whole = true;
    for _ in 0..bytes.len() {
        let Some((first, following)) = block(rest) else {
            break;
        };
        rest = following;
        match (number(first, 0), read_packet(first, &interfaces)) {
            (Some(0x0A0D_0D0A), _) => {}
            (Some(1), _) => interfaces.push(first)?,
            (Some(6), Some(packet)) => list.push(packet)?,
            _ => is_whole = false,
        }
    }
    is_whole = is_whole && rest.is_empty();
    Ok(Packets { list, is_whole })
}
