//! Captures that the tests put together.

use std::alloc::{AllocError, Global};
use std::test::Fail;

/// A pcap file header: little-endian, microseconds, snap length 262,144, Ethernet.
pub const HEADER: &[u8] = b"\xd4\xc3\xb2\xa1\x02\0\x04\0\0\0\0\0\0\0\0\0\0\0\x04\0\x01\0\0\0";

/// One of version 2.3.
const OTHER_VERSION: &[u8] = b"\xd4\xc3\xb2\xa1\x02\0\x03\0\0\0\0\0\0\0\0\0\0\0\x04\0\x01\0\0\0";

/// One of link type 276, which isn't filtered.
const OTHER_LINK: &[u8] = b"\xd4\xc3\xb2\xa1\x02\0\x04\0\0\0\0\0\0\0\0\0\0\0\x04\0\x14\x01\0\0";

/// A little-endian section header of version 1.0.
const SECTION: &[u8] =
    b"\n\r\r\n\x1c\0\0\0M<+\x1a\x01\0\0\0\xff\xff\xff\xff\xff\xff\xff\xff\x1c\0\0\0";

/// Interfaces of Ethernet and of raw IP, without a limit of captured bytes.
const ETHERNET: &[u8] = b"\x01\0\0\0\x14\0\0\0\x01\0\0\0\0\0\0\0\x14\0\0\0";

const RAW: &[u8] = b"\x01\0\0\0\x14\0\0\0\x65\0\0\0\0\0\0\0\x14\0\0\0";

/// A block of no known type.
const UNKNOWN: &[u8] = b"\x63\0\0\0\x0c\0\0\0\x0c\0\0\0";

/// The first bytes of a record.
const CUT: &[u8] = b"\x03\0\0\0\0\0\0\0\x01";

/// Appends a pcap record at this second.
pub fn push_record(bytes: &mut Vec<u8>, second: u8, data: &[u8]) -> Result<(), AllocError> {
    let length = u32::try_from(data.len()).unwrap_or(0).to_le_bytes();
    bytes.extend_from_slice(&[second, 0, 0, 0, 0, 0, 0, 0])?;
    bytes.extend_from_slice(&length)?;
    bytes.extend_from_slice(&length)?;
    bytes.extend_from_slice(data)
}

/// A packet of four bytes, the first one this number, of the interface with this number.
fn block_on(interface: u8) -> [u8; 36] {
    let mut block = [0; 36];
    block[0] = 6;
    block[4] = 36;
    block[8] = interface;
    block[20] = 4;
    block[24] = 4;
    block[28] = interface;
    block[32] = 36;
    block
}

/// Appends what a word means: `pcap`, `pcap-2.3` and `pcap-276` for a file header, `section`,
/// `ether` and `raw` for a section and for interfaces of pcapng, `on-0` and `on-1` for packets of
/// these, `unknown` for a block, `cut` for the beginning of a record, a number for a record of four
/// bytes at this second, and `-` for nothing.
fn push_part(bytes: &mut Vec<u8>, word: &str) -> Result<(), Fail> {
    match word {
        "pcap" => bytes.extend_from_slice(HEADER)?,
        "pcap-2.3" => bytes.extend_from_slice(OTHER_VERSION)?,
        "pcap-276" => bytes.extend_from_slice(OTHER_LINK)?,
        "section" => bytes.extend_from_slice(SECTION)?,
        "ether" => bytes.extend_from_slice(ETHERNET)?,
        "raw" => bytes.extend_from_slice(RAW)?,
        "on-0" => bytes.extend_from_slice(&block_on(0))?,
        "on-1" => bytes.extend_from_slice(&block_on(1))?,
        "unknown" => bytes.extend_from_slice(UNKNOWN)?,
        "cut" => bytes.extend_from_slice(CUT)?,
        "-" => {}
        second => push_record(bytes, second.parse::<u8>()?, &[7; 4])?,
    }
    Ok(())
}

/// The parts of a capture, one after another (`push_part`).
pub fn capture_of(alloc: Global, words: &str) -> Result<Vec<u8>, Fail> {
    let mut bytes = Vec::new(alloc);
    for word in words.split_whitespace() {
        push_part(&mut bytes, word)?;
    }
    Ok(bytes)
}
