//! Which network header a packet has, by its link type.
ghost use Rattle.std.specs.Prelude.{◌≡◌, ◌≤◌, IfSome};
ghost use Rattle.cap_octet.specs.NetworkHeader.{header_after, link_header_length, network_header};
ghost use Rattle.cap_octet.specs.Link.{longest_header};
ghost use Rattle.cap_octet.specs.NetworkHeader.{header_by_ethertype, header_by_version};

use crate::assigned::{ETHERTYPE_ARP, ETHERTYPE_IPV4, ETHERTYPE_IPV6, ETHERTYPE_RARP};
use crate::link::Link;
use crate::number::{Order, u16_at};

/// The network headers that lines and expressions know, by their protocols.
#[derive(Clone, Copy)]
pub enum NetworkKind {
    Ipv4,
    Ipv6,
    Arp,
    Rarp,
}

/// What a packet has after its link header.
#[derive(Clone, Copy)]
pub enum NetworkHeader {
    /// A header of this kind, as far as it is captured.
    Known(NetworkKind),
    /// One of another EtherType.
    OtherType(u16),
    /// One of another version of IP.
    OtherVersion(u8),
    /// This link type isn't known.
    OtherLink(u16),
    /// The captured bytes end before they say what.
    Short,
}

/// How many bytes the link header has, after which the network header begins; 0 for a link type
/// that isn't known.
#[inline]
pub fn link_header_length(link: u16) -> usize
    ensures value { result ≡ link_header_length link }
    ensures bound { result ≤ longest_header }
{
    match Link::of_link_type(link) {
        Some(link) => link.header_length(),
        None => 0,
    }
}

/// The network header that an EtherType shows: `OtherType` of one that isn't known.
#[inline]
fn header_by_ethertype(ethertype: u16) -> NetworkHeader
    ensures { result ≡ header_by_ethertype ethertype }
{
    match ethertype {
        ETHERTYPE_IPV4 => NetworkHeader::Known(NetworkKind::Ipv4),
        ETHERTYPE_IPV6 => NetworkHeader::Known(NetworkKind::Ipv6),
        ETHERTYPE_ARP => NetworkHeader::Known(NetworkKind::Arp),
        ETHERTYPE_RARP => NetworkHeader::Known(NetworkKind::Rarp),
        other => NetworkHeader::OtherType(other),
    }
}

/// The network header that a version of IP shows: `OtherVersion` of neither 4 nor 6.
#[inline]
fn header_by_version(version: u8) -> NetworkHeader
    ensures { result ≡ header_by_version version }
{
    match version {
        4 => NetworkHeader::Known(NetworkKind::Ipv4),
        6 => NetworkHeader::Known(NetworkKind::Ipv6),
        other => NetworkHeader::OtherVersion(other),
    }
}

/// The network header of a packet whose link header has the EtherType at this place, big-endian;
/// `None` is raw IP, whose first four bits are the version of IP. `Short` if these
/// bytes aren't captured.
#[inline]
fn header_after(type_offset: Option<usize>, bytes: &[u8]) -> NetworkHeader
    requires { IfSome type_offset (λ at. at ≤ longest_header) }
    ensures { result ≡ header_after type_offset bytes.now }
{
    match type_offset {
        None if bytes.is_empty() => NetworkHeader::Short,
        // The higher four bits of the first byte.
        None => header_by_version(bytes[0] / 16),
        Some(at) if bytes.len() < at + 2 => NetworkHeader::Short,
        Some(at) => header_by_ethertype(u16_at(Order::Big, bytes, at)),
    }
}

/// The network header of a packet: by the EtherType in its link header, or of raw IP by the
/// version in its first four bits. `OtherLink` of a link type that isn't known.
#[inline]
pub fn network_header(link: u16, bytes: &[u8]) -> NetworkHeader
    ensures { result ≡ network_header link bytes.now }
{
    match Link::of_link_type(link) {
        Some(link) => header_after(link.type_offset(), bytes),
        None => NetworkHeader::OtherLink(link),
    }
}
