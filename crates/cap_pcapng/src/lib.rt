//! Blocks of pcapng files (draft-ietf-opsawg-pcapng), one at a time: read in both byte orders, and
//! written.
//!
//! `cap_io` calls it for files, the library (`capkit_c`) for captures in memory. [`frame`] reads
//! the first 12 bytes of a block. [`block_effect`] then checks the whole block, and returns what it
//! does among the interfaces of its section. [`write_packet`] writes a packet's block.
//!
//! Nothing here takes memory but `Table::push`.
#![tactic(auto)]

mod blocks;
mod clock;
mod effect;
mod frames;
mod interface;
pub mod laws;
mod options;
mod read;
mod table;
mod write;

pub use blocks::{Block, EnhancedBlock, InterfaceBlock, SimpleBlock};
pub use clock::Clock;
pub use effect::{BlockEffect, Interfaces, PacketSpans, Span, block_effect};
pub use frames::{BlockType, Frame};
pub use interface::{Interface, MOST_NAME, Name};
pub use options::{BlockOption, Options};
pub use read::{begins_section, block, frame};
pub use table::{MOST_INTERFACES, Table};
pub use write::{
    check_block_fits, put_interface_parts, put_packet_parts, section_bytes, write_interface,
    write_packet,
};
