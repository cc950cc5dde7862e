//! What can be wrong with a capture, a device, memory or a job.
ghost use Rattle.std.specs.Prelude.{◌≡◌, ◌<◌};
ghost use Rattle.cap_octet.specs.Fault.{fault_number, fault_text, numbered_fault};

use std::error::Error;
use std::fmt;

/// The faults, in the order of their numbers, 1 to 21. A further one has 29: 22 to 28 are other
/// results of the library for C.
#[derive(Clone, Copy, Debug, PartialEq, Eq)]
pub enum Fault {
    /// 1: the file has fewer than four bytes, or the first four aren't a magic number, or a block
    /// of another type is in front of the first section header.
    NotACaptureFile,
    /// 2: the file ends inside a file header, a record or a block, and has at least four bytes.
    Truncated,
    /// 3: the version isn't 2.4 (pcap), or 1.0 or 1.2 (pcapng).
    BadVersion,
    /// 4: a record has over 262,144 captured bytes, or a block over 1,048,576 bytes in all.
    TooLong,
    /// 5: a total length is below 12 or no multiple of 4, or the two of a block differ.
    BadBlockLength,
    /// 6: a section header has no byte-order magic.
    BadByteOrderMagic,
    /// 7: a packet is of an interface that its section doesn't describe before it.
    UnknownInterface,
    /// 8: an option of an interface doesn't fit in its block, or its value has a wrong length.
    BadOption,
    /// 9: a body is shorter than its type or its captured length asks for.
    BadBody,
    /// 10: a part of a second is a second or more; a time isn't from 0 to 2^63 - 1 nanoseconds, or
    /// not below 2^32 seconds if a pcap file is written.
    TimeOutOfRange,
    /// 11: a section describes over 256 interfaces.
    TooManyInterfaces,
    /// 12: a resolution is above 12 (of ten) or 32 (of two).
    BadTimeResolution,
    /// 13: the link type field of a pcap file header is above 65,535.
    BadLinkTypeField,
    /// 14: an obsolete packet block (type 2).
    ObsoletePacketBlock,
    /// 15: the device failed in a read.
    ReadFailed,
    /// 16: an allocation failed.
    NoMemory,
    /// 17: the device failed in a write.
    WriteFailed,
    /// 18: a packet to a pcap file has another link type than the first.
    LinkTypesDiffer,
    /// 19: an expression reads no packets of this link type.
    LinkTypeNotFiltered,
    /// 20: the packet has the number 2^63 or a greater one.
    TooManyPackets,
    /// 21: a pcapng output would have over 4,096 interfaces.
    TooManyOutputInterfaces,
}

impl Fault {
    /// Its number, 1 to 21.
    pub fn number(self) -> u32
        ensures number { result ≡ fault_number self }
        ensures below_100 { result < 100 }
    {
        match self {
            Fault::NotACaptureFile => 1,
            Fault::Truncated => 2,
            Fault::BadVersion => 3,
            Fault::TooLong => 4,
            Fault::BadBlockLength => 5,
            Fault::BadByteOrderMagic => 6,
            Fault::UnknownInterface => 7,
            Fault::BadOption => 8,
            Fault::BadBody => 9,
            Fault::TimeOutOfRange => 10,
            Fault::TooManyInterfaces => 11,
            Fault::BadTimeResolution => 12,
            Fault::BadLinkTypeField => 13,
            Fault::ObsoletePacketBlock => 14,
            Fault::ReadFailed => 15,
            Fault::NoMemory => 16,
            Fault::WriteFailed => 17,
            Fault::LinkTypesDiffer => 18,
            Fault::LinkTypeNotFiltered => 19,
            Fault::TooManyPackets => 20,
            Fault::TooManyOutputInterfaces => 21,
        }
    }

    /// The fault with a number; `None` if no fault has it.
    pub fn from_number(number: u32) -> Option<Self>
        ensures { result ≡ numbered_fault number }
    {
        Some(match number {
            1 => Fault::NotACaptureFile,
            2 => Fault::Truncated,
            3 => Fault::BadVersion,
            4 => Fault::TooLong,
            5 => Fault::BadBlockLength,
            6 => Fault::BadByteOrderMagic,
            7 => Fault::UnknownInterface,
            8 => Fault::BadOption,
            9 => Fault::BadBody,
            10 => Fault::TimeOutOfRange,
            11 => Fault::TooManyInterfaces,
            12 => Fault::BadTimeResolution,
            13 => Fault::BadLinkTypeField,
            14 => Fault::ObsoletePacketBlock,
            15 => Fault::ReadFailed,
            16 => Fault::NoMemory,
            17 => Fault::WriteFailed,
            18 => Fault::LinkTypesDiffer,
            19 => Fault::LinkTypeNotFiltered,
            20 => Fault::TooManyPackets,
            21 => Fault::TooManyOutputInterfaces,
            _ => return None,
        })
    }

    /// What messages call the fault.
    pub fn text(self) -> &'static str
        ensures { result.now ≡ fault_text self }
    {
        match self {
            Fault::NotACaptureFile => "not a capture file",
            Fault::Truncated => "truncated",
            Fault::BadVersion => "bad version",
            Fault::TooLong => "too long",
            Fault::BadBlockLength => "bad block length",
            Fault::BadByteOrderMagic => "bad byte-order magic",
            Fault::UnknownInterface => "unknown interface",
            Fault::BadOption => "bad option",
            Fault::BadBody => "bad body",
            Fault::TimeOutOfRange => "time out of range",
            Fault::TooManyInterfaces => "too many interfaces",
            Fault::BadTimeResolution => "bad time resolution",
            Fault::BadLinkTypeField => "bad link type field",
            Fault::ObsoletePacketBlock => "obsolete packet block",
            Fault::ReadFailed => "read failed",
            Fault::NoMemory => "no memory",
            Fault::WriteFailed => "write failed",
            Fault::LinkTypesDiffer => "link types differ",
            Fault::LinkTypeNotFiltered => "link type not filtered",
            Fault::TooManyPackets => "too many packets",
            Fault::TooManyOutputInterfaces => "too many output interfaces",
        }
    }
}

impl fmt::Display for Fault {
    ghost use Rattle.std.specs.Prelude.{Some};

    ghost output = { λ fault. Some (fault_text fault) };

    /// Writes the fault's text.
    fn fmt<W: fmt::Write>(&self, f: &mut fmt::Formatter<W>) -> fmt::Result {
        write!(f, "{}", self.text())
    }
}

impl Error for Fault {}
