//! The caller's state of a capture, in C's layout.
ghost use Rattle.std.specs.Prelude.{◌≡◌, ◌≤◌, [], length};
ghost use Rattle.cap_pcapng.specs.Interface.{description_of};
ghost use Rattle.cap_io.specs.{Reading.declared_by, Capture.first_link_of};
ghost use Rattle.cap_io.specs.Text.{interface_of, is_same};
ghost use Rattle.capkit_c.specs.Layout.{HasLink, described_of, reader_form, most_known};
ghost use Rattle.capkit_c.specs.{Layout.order_of_flag, Writer.output_interface};
ghost use Rattle.cap_octet.specs.Packet.{captured};

use cap_io::FileState;
use cap_octet::{Order, Packet as OctetPacket};
use cap_pcap::{Head, Resolution};
use cap_pcapng::{Clock, Interface as PcapngInterface, MOST_INTERFACES, MOST_NAME};

/// The position in a capture, and the declarations of the units before it. All zeros is the start
/// of a capture.
#[repr(C)]
#[derive(Clone, Copy)]
pub struct Reader {
    /// The place where the next unit begins, in bytes from the start.
    pub offset: usize,
    /// The snap length of a pcap file, in bytes; 0 is none.
    pub snap: u32,
    /// The number of interfaces of a pcapng file's current section so far.
    pub interfaces: u32,
    /// The first link type of the file, if one is declared.
    pub link_type: u16,
    /// 1 if it is.
    pub has_link_type: u8,
    /// 1 in pcap, 2 in pcapng, 0 if no unit was read.
    pub form: u8,
    /// 1 if the numbers of the file, or of the current section, have their high byte first.
    pub big_endian: u8,
    /// 1 if a pcap file has nanoseconds.
    pub nanoseconds: u8,
}

/// The ticks of an interface that is written: nanoseconds.
const NANOSECONDS: u64 = 1_000_000_000;

/// What is written of a pcapng file so far. All zeros is the start of a file.
#[repr(C)]
#[derive(Clone, Copy)]
pub struct Writer {
    /// The number of its interfaces, which are the first ones of the caller's table.
    pub interfaces: u32,
    /// 0 if its section header isn't written yet.
    pub has_section: u32,
}

/// An interface of a section.
#[repr(C)]
#[derive(Clone, Copy)]
pub struct Interface {
    /// The ticks per second; 0 counts as 1.
    pub units: u64,
    /// What is added to each time, in seconds.
    pub offset: i64,
    /// The snap length, in bytes; 0 is none.
    pub snap: u32,
    pub link_type: u16,
    pub name_length: u8,
    /// Its name is the first `name_length` of these bytes.
    pub name: [u8; 255],
}

/// A packet.
#[repr(C)]
#[derive(Clone, Copy)]
pub struct Packet {
    /// Nanoseconds since 1970-01-01 00:00:00 UTC, below 2^63.
    pub time: u64,
    /// The place where its bytes begin in the capture.
    pub at: usize,
    /// The place where the options of its block begin in the capture.
    pub options_at: usize,
    /// The number of captured bytes.
    pub captured: u32,
    /// The number of bytes that it had on the wire.
    pub original: u32,
    /// The length of the options in bytes; 0 in pcap.
    pub options_length: u32,
    /// The number of its interface, from 0 in its section; 0 in pcap.
    pub interface: u32,
    /// The snap length of its interface or its file, in bytes; 0 is none.
    pub snap: u32,
    pub link_type: u16,
}

/// The byte order that a flag shows: 0 is little-endian, every other number big-endian.
fn order_of_flag(flag: u8) -> Order
    ensures { result ≡ order_of_flag flag }
{
    if flag == 0 { Order::Little } else { Order::Big }
}

/// The flag that shows a byte order.
fn flag_of_order(order: Order) -> u8
    ensures { order_of_flag result ≡ order }
{
    match order {
        Order::Little => 0,
        Order::Big => 1,
    }
}

impl Reader {
    /// The state of the file after the units so far, without its table of interfaces.
    pub(crate) fn file_state(&self) -> FileState
        ensures { result ≡ reader_form self.now }
    {
        match self.form {
            1 => FileState::Pcap(Head {
                order: order_of_flag(self.big_endian),
                resolution: if self.nanoseconds == 0 {
                    Resolution::Microseconds
                } else {
                    Resolution::Nanoseconds
                },
                snap: self.snap,
                link: self.link_type,
            }),
            2 => FileState::Pcapng(
                order_of_flag(self.big_endian),
                if self.has_link_type == 0 {
                    None
                } else {
                    Some(self.link_type)
                },
            ),
            _ => FileState::Unknown,
        }
    }

    /// The number of interfaces of the section so far, by the reader; at most as many as the table
    /// has room for (`room`), and 256, whatever C wrote.
    pub(crate) fn known_interfaces(&self, room: usize) -> usize
        ensures value { result ≡ most_known self.now room }
        ensures fits { result ≤ room }
        ensures bounds { result ≤ 256 }
    {
        (self.interfaces as usize).min(room).min(MOST_INTERFACES)
    }

    /// A reader at `offset` bytes from the start of a file, whose units so far declare `form` and
    /// this many interfaces. What they don't declare is 0.
    pub(crate) fn new_at(offset: usize, form: FileState, interfaces: usize) -> Self
        requires { interfaces ≤ 256 }
        ensures offset { result.offset ≡ offset }
        ensures form { reader_form result ≡ form }
        ensures interfaces { result.interfaces ≡ interfaces }
        ensures link { HasLink (first_link_of (declared_by form [])) result }
    {
        let mut reader = Reader {
            offset,
            snap: 0,
            interfaces: interfaces as u32,
            link_type: 0,
            has_link_type: 0,
            form: 0,
            big_endian: 0,
            nanoseconds: 0,
        };
        match form {
            FileState::Unknown => {}
            FileState::Pcap(head) => {
                reader.form = 1;
                reader.big_endian = flag_of_order(head.order);
                reader.nanoseconds = match head.resolution {
                    Resolution::Microseconds => 0,
                    Resolution::Nanoseconds => 1,
                };
                reader.snap = head.snap;
                reader.link_type = head.link;
                reader.has_link_type = 1;
            }
            FileState::Pcapng(order, first) => {
                reader.form = 2;
                reader.big_endian = flag_of_order(order);
                if let Some(link) = first {
                    reader.link_type = link;
                    reader.has_link_type = 1;
                }
            }
        }
        reader
    }
}

impl Interface {
    /// The entry of the caller's table for an interface that `cap_pcapng` read. Its name, of 255
    /// bytes at most, is copied, and the rest of `name` is 0, which no clause states.
    pub(crate) fn of_pcapng(read: &PcapngInterface<'_>) -> Self
        ensures { described_of result ≡ description_of read.now }
    {
        let mut name = [0; MOST_NAME];
        name[..read.name.len()].copy_from_slice(read.name);
        Interface {
            units: read.clock.units,
            offset: read.clock.offset,
            snap: read.snap,
            link_type: read.link,
            name_length: read.name.len() as u8,
            name,
        }
    }

    /// The entry of the caller's table for the interface of a packet that is written. The rest of
    /// `name` is 0, which no clause states.
    pub(crate) fn of_packet(packet: &OctetPacket<'_>) -> Self
        requires { length packet.now.name.now ≤ 255 }
        ensures { output_interface result ≡ interface_of (captured packet.now) }
    {
        let mut name = [0; MOST_NAME];
        name[..packet.name.len()].copy_from_slice(packet.name);
        Interface {
            units: NANOSECONDS,
            offset: 0,
            snap: packet.snap,
            link_type: packet.link,
            name_length: packet.name.len() as u8,
            name,
        }
    }

    /// Whether this is the interface of a packet: link type, snap length and name are equal.
    pub(crate) fn is_of(&self, packet: &OctetPacket<'_>) -> bool
        ensures { result
            ≡ is_same (interface_of (captured packet.now)) (output_interface self.now) }
    {
        packet.link == self.link_type
            && (packet.snap == self.snap && packet.name == &self.name[..self.name_length as usize])
    }

    /// The interface as blocks know it, with its name lent.
    pub(crate) fn as_pcapng(&self) -> PcapngInterface<'_>
        ensures { description_of result ≡ described_of self.now }
    {
        PcapngInterface {
            link: self.link_type,
            snap: self.snap,
            name: &self.name[..self.name_length as usize],
            clock: self.clock(),
        }
    }

    /// How the ticks of its packets become times. A caller may have left `units` at 0, which counts
    /// as 1: nothing is divided by 0.
    fn clock(&self) -> Clock
        ensures units { result.units ≡ (described_of self.now).units }
        ensures offset { result.offset ≡ self.now.offset }
    {
        Clock {
            units: self.units.max(1),
            offset: self.offset,
        }
    }
}
