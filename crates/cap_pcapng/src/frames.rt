//! The frame of every block: its type and its total length in front, the total length at its end.
ghost use Rattle.std.specs.Prelude.{◌≡◌};
ghost use Rattle.cap_pcapng.specs.Frame.{magic_order, type_of_block};

use cap_octet::{Order, u32_at};

/// The type of a section header block, which reads the same in both orders.
pub(crate) const SECTION_TYPE: u32 = 0x0a0d_0d0a;

/// The type of an interface description block.
pub(crate) const INTERFACE_TYPE: u32 = 1;

/// The type of an obsolete packet block.
const OBSOLETE_PACKET_TYPE: u32 = 2;

/// The type of a simple packet block.
const SIMPLE_PACKET_TYPE: u32 = 3;

/// The type of an enhanced packet block.
pub(crate) const ENHANCED_PACKET_TYPE: u32 = 6;

/// The byte-order magic of a section header block.
pub(crate) const BYTE_ORDER_MAGIC: u32 = 0x1a2b_3c4d;

/// The greatest total length of a block, in bytes.
pub(crate) const MOST_BLOCK: u32 = 1_048_576;

/// The types of blocks that are distinguished (draft-ietf-opsawg-pcapng, "Block Types").
#[derive(Clone, Copy)]
pub enum BlockType {
    /// The section header block.
    Section,
    /// The interface description block.
    Interface,
    /// The obsolete packet block.
    ObsoletePacket,
    /// The simple packet block.
    SimplePacket,
    /// The enhanced packet block.
    EnhancedPacket,
    /// Any other block.
    Other,
}

/// What a block's first 12 bytes say of it.
#[derive(Clone, Copy)]
pub struct Frame {
    /// The byte order of all numbers in the block.
    pub order: Order,
    pub block_type: BlockType,
    /// The total length, in bytes.
    pub length: u32,
}

impl BlockType {
    /// The type of a block that isn't a section header, by the number in its first four bytes.
    pub(crate) fn of_number(number: u32) -> Self
        ensures { result ≡ type_of_block number }
    {
        match number {
            INTERFACE_TYPE => BlockType::Interface,
            OBSOLETE_PACKET_TYPE => BlockType::ObsoletePacket,
            SIMPLE_PACKET_TYPE => BlockType::SimplePacket,
            ENHANCED_PACKET_TYPE => BlockType::EnhancedPacket,
            _ => BlockType::Other,
        }
    }
}

/// The byte order of a section header: the one in which its bytes 8 to 11 are the byte-order magic;
/// `None` if they are it in neither.
pub(crate) fn magic_order(bytes: &[u8; 12]) -> Option<Order>
    ensures { result ≡ magic_order bytes.now }
{
    [Order::Little, Order::Big]
        .into_iter()
        .find(|order| u32_at(*order, bytes, 8) == BYTE_ORDER_MAGIC)
}
