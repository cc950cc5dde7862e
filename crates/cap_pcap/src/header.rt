//! The headers of a savefile and of its records (draft-ietf-opsawg-pcap), read:
//!
//! ```text
//! file header    0 magic number   4 major version  6 minor version  8 reserved
//!               16 snap length   20 link type
//! record header  0 seconds        4 part of a second                8 captured length
//!               12 original length
//! ```
ghost use Rattle.std.specs.Prelude.{◌≡◌, ◌/◌, ◌≤◌, ◌<◌, ◌^◌, length, IfOk};
ghost use Rattle.cap_octet.specs.Checks.{checked, first_failing};
ghost use Rattle.cap_pcap.specs.Record.{field_checks, most_captured, nanoseconds_of_part};
ghost use Rattle.cap_pcap.specs.Record.{parts_of_second, record_header_in};
ghost use Rattle.cap_pcap.specs.Header.{form_in, header_fault, header_in, magic};

use cap_octet::date::NANOS_PER_SECOND;
use cap_octet::{Fault, Order, u16_at, u32_at};

/// The magic number of a savefile with microseconds.
const MICROSECOND_MAGIC: u32 = 0xa1b2_c3d4;

/// The magic number of a savefile with nanoseconds.
const NANOSECOND_MAGIC: u32 = 0xa1b2_3c4d;

/// The most captured bytes that a record may have: 2^18, as in libpcap.
pub(crate) const MOST_CAPTURED: u32 = 262_144;

/// The parts of a second in which a savefile counts, by its magic number.
#[derive(Clone, Copy)]
pub enum Resolution {
    Microseconds,
    Nanoseconds,
}

/// What a file header, of 24 bytes, says of all packets after it.
#[derive(Clone, Copy)]
pub struct Head {
    /// The byte order of all numbers in the file.
    pub order: Order,
    pub resolution: Resolution,
    /// The snap length, in bytes.
    pub snap: u32,
    /// The link type (tcpdump.org's list of LINKTYPE_ values).
    pub link: u16,
}

/// What a record's header, of 16 bytes, says of its packet.
#[derive(Clone, Copy)]
pub struct RecordHead {
    /// Nanoseconds since 1970-01-01 00:00:00 UTC.
    pub time: u64,
    /// The captured length, in bytes.
    pub captured: u32,
    /// The original length, in bytes.
    pub orig: u32,
}

impl Resolution {
    /// The magic number of a savefile of this resolution.
    pub(crate) fn magic(self) -> u32
        ensures { result ≡ magic self }
    {
        match self {
            Resolution::Microseconds => MICROSECOND_MAGIC,
            Resolution::Nanoseconds => NANOSECOND_MAGIC,
        }
    }

    /// How many of its parts make a second.
    fn parts_of_second(self) -> u32
        ensures { result ≡ parts_of_second self }
    {
        match self {
            Resolution::Microseconds => 1_000_000,
            Resolution::Nanoseconds => NANOS_PER_SECOND as u32,
        }
    }

    /// How many nanoseconds one of its parts of a second has.
    pub(crate) fn nanoseconds_of_part(self) -> u64
        ensures { result ≡ nanoseconds_of_part self }
    {
        match self {
            Resolution::Microseconds => 1_000,
            Resolution::Nanoseconds => 1,
        }
    }

    /// How many of its parts of a second these nanoseconds are, rounded down. Each divisor is a
    /// constant, so that the compiler needs no division, as one by `nanoseconds_of_part` would.
    pub(crate) fn whole_parts(self, nanoseconds: u64) -> u64
        ensures { result ≡ nanoseconds / nanoseconds_of_part self }
    {
        match self {
            Resolution::Microseconds => nanoseconds / 1_000,
            Resolution::Nanoseconds => nanoseconds,
        }
    }
}

/// The byte order and the resolution that the first four bytes of a savefile, its magic number,
/// show; `None` if they aren't a magic number in either order. The caller knows four bytes to be
/// there.
pub fn read_magic(bytes: &[u8]) -> Option<(Order, Resolution)>
    requires { 4 ≤ length bytes.now }
    ensures { result ≡ form_in bytes.now }
{
    match u32_at(Order::Little, bytes, 0) {
        MICROSECOND_MAGIC => return Some((Order::Little, Resolution::Microseconds)),
        NANOSECOND_MAGIC => return Some((Order::Little, Resolution::Nanoseconds)),
        _ => {}
    }
    match u32_at(Order::Big, bytes, 0) {
        MICROSECOND_MAGIC => Some((Order::Big, Resolution::Microseconds)),
        NANOSECOND_MAGIC => Some((Order::Big, Resolution::Nanoseconds)),
        _ => None,
    }
}

/// Reads a file header, or reports the first check that it fails: no magic number
/// (`NotACaptureFile`), another version than 2.4 (`BadVersion`), a link type field above 65,535
/// (`BadLinkTypeField`).
pub fn read_head(bytes: &[u8; 24]) -> Result<Head, Fault>
    ensures { result ≡ checked (header_fault bytes.now) (header_in bytes.now) }
{
    let Some((order, resolution)) = read_magic(bytes) else {
        return Err(Fault::NotACaptureFile);
    };
    if u16_at(order, bytes, 4) != 2 || u16_at(order, bytes, 6) != 4 {
        return Err(Fault::BadVersion);
    }
    let link = u32_at(order, bytes, 20);
    if link > 0xffff {
        return Err(Fault::BadLinkTypeField);
    }
    Ok(Head {
        order,
        resolution,
        snap: u32_at(order, bytes, 16),
        link: link as u16,
    })
}

/// Reads the header before a record's data, or reports the first check that its fields fail: more
/// than 262,144 captured bytes (`TooLong`), a part of a second that is a second or more
/// (`TimeOutOfRange`).
pub fn read_record(head: &Head, bytes: &[u8; 16]) -> Result<RecordHead, Fault>
    ensures answer { result
        ≡ checked (first_failing (field_checks head.now bytes.now))
        (record_header_in head.now bytes.now) }
    ensures in_range { IfOk result (λ found. found.time < 2 ^ 63) }
    ensures short { IfOk result (λ found. found.captured ≤ most_captured) }
{
    // Most files are little-endian with microseconds. For them both are constants here, so that the
    // inlined body has no branch on either.
    if let (Order::Little, Resolution::Microseconds) = (head.order, head.resolution) {
        let usual = Head {
            order: Order::Little,
            resolution: Resolution::Microseconds,
            ..*head
        };
        return read_header_fields(&usual, bytes);
    }
    read_unusual_header(head, bytes)
}

/// `read_header_fields`, out of line: for files of another byte order or resolution than the usual
/// one.
#[cold]
#[inline(never)]
fn read_unusual_header(head: &Head, bytes: &[u8; 16]) -> Result<RecordHead, Fault>
    ensures answer { result
        ≡ checked (first_failing (field_checks head.now bytes.now))
        (record_header_in head.now bytes.now) }
    ensures in_range { IfOk result (λ found. found.time < 2 ^ 63) }
    ensures short { IfOk result (λ found. found.captured ≤ most_captured) }
{
    read_header_fields(head, bytes)
}

/// Reads a record's header in the byte order and the resolution of its file, or reports the first
/// check that its fields fail: what `read_record` does, without its split by files.
// Inlined, so that for the usual file both are constants.
#[inline(always)]
fn read_header_fields(head: &Head, bytes: &[u8; 16]) -> Result<RecordHead, Fault>
    ensures answer { result
        ≡ checked (first_failing (field_checks head.now bytes.now))
        (record_header_in head.now bytes.now) }
    ensures in_range { IfOk result (λ found. found.time < 2 ^ 63) }
    ensures short { IfOk result (λ found. found.captured ≤ most_captured) }
{
    let captured = u32_at(head.order, bytes, 8);
    if captured > MOST_CAPTURED {
        return Err(Fault::TooLong);
    }
    let part = u32_at(head.order, bytes, 4);
    if part >= head.resolution.parts_of_second() {
        return Err(Fault::TimeOutOfRange);
    }
    let seconds = u64::from(u32_at(head.order, bytes, 0));
    Ok(RecordHead {
        time: seconds * NANOS_PER_SECOND + u64::from(part) * head.resolution.nanoseconds_of_part(),
        captured,
        orig: u32_at(head.order, bytes, 12),
    })
}
