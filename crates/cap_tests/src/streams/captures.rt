//! Captures, and what a source returned of them.
ghost use Rattle.std.specs.Prelude.{◌<◌, ◌^◌};

use crate::captures::{HEADER, push_record};
use cap_io::Source;
use cap_octet::{Fault, Input, Packet};
use std::alloc::{Allocator, Global};
use std::test::Fail;

/// The file header and records of these sizes.
pub fn capture(alloc: Global, sizes: &[usize]) -> Result<Vec<u8>, Fail> {
    let mut bytes = Vec::from_slice(alloc, HEADER)?;
    for size in sizes {
        push_record(&mut bytes, 1, &vec![in alloc; 0xab; *size]?)?;
    }
    Ok(bytes)
}

/// What a source returned: the number of packets, the first result that wasn't a packet, and the
/// offset then.
pub type Seen = (u32, Result<bool, Fault>, u64);

/// Reads to the first result that isn't a packet.
pub fn read_on<I: Input, A: Allocator>(source: &mut Source<I, A>) -> Seen {
    for packets in 0..1_000 {
        let last = source.advance();
        if last != Ok(true) {
            return (packets, last, source.offset());
        }
    }
    (1_000, Ok(true), source.offset())
}

/// A packet of an interface with this snap length and no name.
pub fn packet(link: u16, snap: u32, time: u64, bytes: &[u8]) -> Packet<'_>
    requires { time < 2 ^ 63 }
{
    Packet {
        link,
        snap,
        name: &[],
        time,
        orig: 9,
        bytes,
        comment: &[],
    }
}
