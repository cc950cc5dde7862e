//! A packet, whatever file it came from.
ghost use Rattle.std.specs.Prelude.{◌≤◌, ◌<◌, ◌^◌, length};

/// A packet whose name, bytes and comment are lent.
#[derive(Clone, Copy)]
pub struct Packet<'a> {
    /// The link type (tcpdump.org's list of LINKTYPE_ values).
    pub link: u16,
    /// The snap length of its interface or file, in bytes; 0 is none in pcapng.
    pub snap: u32,
    /// The name of its interface, at most 255 bytes; empty if there is none.
    pub name: &'a [u8],
    /// Nanoseconds since 1970-01-01 00:00:00 UTC, below 2^63.
    pub time: u64,
    /// The original length, in bytes.
    pub orig: u32,
    /// The captured bytes.
    pub bytes: &'a [u8],
    /// Its comment, at most 65,535 bytes; empty if there is none, as in pcap.
    pub comment: &'a [u8],
    ghost short_name: { length name.now ≤ 255 },
    ghost short_comment: { length comment.now ≤ 65535 },
    ghost time_in_range: { time < 2 ^ 63 },
}
