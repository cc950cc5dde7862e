//! What is known of a file and of its current unit.
ghost use Rattle.std.specs.Option.{IfSome, option_map};
ghost use Rattle.std.specs.Prelude.{◌≡◌, ◌+◌, ◌≤◌, length, take};
ghost use Rattle.cap_octet.specs.Packet.{captured};
ghost use Rattle.cap_io.specs.Reading.{declared_by, most_in_unit, packet_in_unit};
ghost use Rattle.cap_io.specs.inside.Reading.{FitsBuffer, known_first_link, known_order};

use cap_octet::{Order, Packet};
use cap_pcap::Head;
use cap_pcapng::{Options, PacketSpans, Table};
use std::alloc::Allocator;

/// What the units read so far determine for the next ones, besides the interfaces of a section.
#[derive(Clone, Copy)]
pub enum FileState {
    /// No unit was read.
    Unknown,
    /// A pcap file with this file header.
    Pcap(Head),
    /// A pcapng file: the byte order of the current section, and the first link type that an
    /// interface of the file declared.
    Pcapng(Order, Option<u16>),
}

impl FileState {
    /// The byte order of the current section; `None` if there is none, as in pcap.
    pub(crate) fn order(self) -> Option<Order>
        ensures { result ≡ known_order self }
    {
        match self {
            FileState::Unknown | FileState::Pcap(_) => None,
            FileState::Pcapng(order, _) => Some(order),
        }
    }

    /// The first link type that the units declare; `None` if none does.
    pub(crate) fn first_link(self) -> Option<u16>
        ensures { result ≡ known_first_link self }
    {
        match self {
            FileState::Unknown => None,
            FileState::Pcap(head) => Some(head.link),
            FileState::Pcapng(_, first) => first,
        }
    }

    /// The packet that lies at these spans of the unit at the start of a buffer, lent from there.
    /// `None` if no unit was read or the table hasn't the packet's interface; neither is true of a
    /// source with a current packet.
    #[inline(always)]
    pub(crate) fn packet<'a, A: Allocator>(
        self,
        spans: &PacketSpans,
        buffer: &'a [u8],
        table: &'a Table<A>,
    ) -> Option<Packet<'a>>
        requires { FitsBuffer spans.now buffer.now }
        ensures packet { option_map captured result ≡ packet_in_unit
            (declared_by self table.now) spans.now (take spans.now.size buffer.now) }
        ensures short { IfSome result (λ packet. length packet.bytes.now ≤ most_in_unit) }
    {
        let bytes = spans.bytes.bytes_in(buffer);
        match self {
            FileState::Unknown => None,
            FileState::Pcap(head) => Some(Packet {
                link: head.link,
                snap: head.snap,
                name: &[],
                time: spans.time,
                orig: spans.orig,
                bytes,
                comment: &[],
            }),
            FileState::Pcapng(order, _) => {
                let interface = table.get(spans.interface)?;
                let rest = spans.options.bytes_in(buffer);
                Some(Packet {
                    link: interface.link,
                    snap: interface.snap,
                    name: interface.name,
                    time: spans.time,
                    orig: spans.orig,
                    bytes,
                    comment: Options { order, rest }.comment(),
                })
            }
        }
    }
}

/// Which unit was read next.
#[derive(Clone, Copy)]
pub(crate) enum NextUnit {
    /// A unit of this size, without a packet.
    Other(usize),
    /// A packet; the reader's `spans` are its place.
    Packet,
    /// The clean end.
    End,
}
