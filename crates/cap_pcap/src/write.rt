//! The headers of a savefile and of its records, as they are written: little-endian, at the places
//! that `header.rt` has.
ghost use Rattle.std.specs.Prelude.{◌≡◌, None};
ghost use Rattle.cap_octet.specs.{Packet.captured, Checks.checked, Checks.first_failing};
ghost use Rattle.cap_pcap.specs.Encoding.{IsPcap, file_header, record_header, resolution_of};
ghost use Rattle.cap_pcap.specs.{Header.magic, Encoding.record_fit_checks};

use crate::header::{MOST_CAPTURED, Resolution};
use byteorder::{ByteOrder, LittleEndian};
use cap_octet::date::NANOS_PER_SECOND;
use cap_octet::{Fault, Format, Packet};

/// The resolution in which a pcap format writes times. The format isn't pcapng.
fn resolution_of(format: Format) -> Resolution
    requires { IsPcap format }
    ensures { result ≡ resolution_of format }
{
    match format {
        Format::Pcap => Resolution::Microseconds,
        Format::NsecPcap => Resolution::Nanoseconds,
        Format::Pcapng => unreachable!(),
    }
}

/// Checks that a record can hold a packet, or returns the first check that fails: more than 262,144
/// captured bytes (`TooLong`), a time of 2^32 seconds or more (`TimeOutOfRange`). The format isn't
/// pcapng; both pcap formats hold the same packets, so that the body doesn't ask which.
pub fn fits(_format: Format, packet: &Packet<'_>) -> Result<(), Fault>
    requires { IsPcap _format }
    ensures { result ≡ checked (first_failing (record_fit_checks (captured packet.now))) tt }
{
    if packet.bytes.len() > MOST_CAPTURED as usize {
        return Err(Fault::TooLong);
    }
    if packet.time / NANOS_PER_SECOND > 0xffff_ffff {
        return Err(Fault::TimeOutOfRange);
    }
    Ok(())
}

/// The file header of a pcap format, version 2.4, with the link type of the packets and 262,144 as
/// the snap length, which no record exceeds. The format isn't pcapng.
pub fn head_bytes(format: Format, link: u16) -> [u8; 24]
    requires { IsPcap format }
    ensures { result ≡ file_header (resolution_of format) link }
{
    // 0 magic number, 4 and 6 version, 16 snap length, 20 link type
    let mut bytes = [0; 24];
    LittleEndian::write_u32(&mut bytes, resolution_of(format).magic());
    LittleEndian::write_u16(&mut bytes[4..], 2);
    LittleEndian::write_u16(&mut bytes[6..], 4);
    LittleEndian::write_u32(&mut bytes[16..], MOST_CAPTURED);
    LittleEndian::write_u32(&mut bytes[20..], u32::from(link));
    bytes
}

/// The header of a packet's record, in front of its data; the time is cut to the parts of a second
/// that the format has. The format isn't pcapng, and the caller knows by `fits` that
/// it holds the packet.
pub fn record_bytes(format: Format, packet: &Packet<'_>) -> [u8; 16]
    requires form { IsPcap format }
    requires fits { first_failing (record_fit_checks (captured packet.now)) ≡ None }
    ensures { result ≡ record_header (resolution_of format) (captured packet.now) }
{
    let part = resolution_of(format).whole_parts(packet.time % NANOS_PER_SECOND);
    // 0 seconds, 4 part of a second, 8 captured length, 12 original length
    let mut bytes = [0; 16];
    LittleEndian::write_u32(&mut bytes, (packet.time / NANOS_PER_SECOND) as u32);
    LittleEndian::write_u32(&mut bytes[4..], part as u32);
    LittleEndian::write_u32(&mut bytes[8..], packet.bytes.len() as u32);
    LittleEndian::write_u32(&mut bytes[12..], packet.orig);
    bytes
}
