//! What the file header and a record of pcap state, even if they fail a check.
ghost use Rattle.std.specs.Prelude.{◌≡◌, ◌≤◌, length};
ghost use Rattle.cap_pcap.specs.Record.{record_size};
ghost use Rattle.capkit_c.specs.Skipping.{head_by_low_bits};

use cap_octet::{Order, u32_at};
use cap_pcap::{Head, Resolution, read_magic};

/// The bytes of a file header.
pub(crate) const FILE_HEADER: usize = 24;

/// The bytes of a record in front of its data.
pub(crate) const RECORD_HEADER: u32 = 16;

/// What a file header says whose link type field is out of range: its link type is the lower 16 bits
/// of the field.
pub(crate) fn head_by_low_bits(text: &[u8]) -> Head
    requires { 24 ≤ length text.now }
    ensures { result ≡ head_by_low_bits text.now }
{
    let (order, resolution) = read_magic(text).unwrap_or((Order::Little, Resolution::Microseconds));
    let link = u32_at(order, text, 20) % 0x1_0000;
    Head {
        order,
        resolution,
        snap: u32_at(order, text, 16),
        link: link as u16,
    }
}

/// The bytes of the record that a text begins with, as its header says.
pub(crate) fn record_size(head: &Head, text: &[u8]) -> usize
    requires { 16 ≤ length text.now }
    ensures { result ≡ record_size head.now text.now }
{
    RECORD_HEADER as usize + u32_at(head.order, text, 8) as usize
}
