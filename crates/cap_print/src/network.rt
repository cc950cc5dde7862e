//! What a line says of a packet's network header.
//!
//! A clause that asks for room in the text, or bounds what is appended, counts ten digits for each
//! number, and may have some bytes to spare. `start` is the place of the network header among the
//! packet's bytes; places in the header are added to it.
ghost use Rattle.std.specs.Prelude.{◌≡◌, ◌+◌, ◌*◌, ◌≤◌, ◌<◌, ◌++◌, decimal, length};
ghost use Rattle.cap_octet.specs.Link.{longest_header};
ghost use Rattle.cap_print.specs.Network.{addresses_end, address_with_port, arp_part, header_end};
ghost use Rattle.cap_print.specs.Network.{ip_endpoints, ip_part, is_later_fragment, layout_of};
ghost use Rattle.cap_print.specs.Network.{network_part, ports_at, protocol_text, type_text};

use crate::address::{network_u16, push_ipv4, push_ipv6};
use crate::hexadecimal::hex_four;
use crate::text::Text;
use cap_octet::assigned::{IPPROTO_ICMP, IPPROTO_ICMPV6, IPPROTO_TCP, IPPROTO_UDP};
use cap_octet::{NetworkHeader, NetworkKind, link_header_length, network_header};

/// A version of IP.
#[derive(Clone, Copy)]
pub(crate) enum Ip {
    V4,
    V6,
}

/// The places of the printed fields of an IP header, in bytes from its start.
#[derive(Clone, Copy)]
pub(crate) struct IpLayout {
    /// The number of the protocol after the header.
    protocol: usize,
    /// The source's address, which the destination's follows.
    addresses: usize,
    /// How many bytes an address has.
    address_length: usize,
}

/// The ports of source and destination, each if there is one.
type Ports = (Option<u16>, Option<u16>);

/// The places in a header of this version of IP (RFC 791, section 3.1; RFC 8200, section 3).
fn layout_of(ip: Ip) -> IpLayout
    ensures { result ≡ layout_of ip }
{
    match ip {
        Ip::V4 => IpLayout {
            protocol: 9,
            addresses: 12,
            address_length: 4,
        },
        Ip::V6 => IpLayout {
            protocol: 6,
            addresses: 8,
            address_length: 16,
        },
    }
}

/// The end of the two addresses of the IP header, and the header too if it has no options.
fn addresses_end(ip: Ip, start: usize) -> usize
    requires { start ≤ longest_header }
    ensures { result ≡ addresses_end ip start }
{
    let layout = layout_of(ip);
    start + layout.addresses + 2 * layout.address_length
}

/// Appends a text and after it a number in decimal, as `proto 47`.
#[inline(always)]
pub fn push_name_and_number(text: &mut Text, name: &[u8], number: u32)
    requires { length text.old + length name.now + 10 ≤ 256 }
    ensures value { text.new ≡ text.old ++ (name.now ++ decimal number) }
    ensures bound { length text.new ≤ length text.old + length name.now + 10 }
{
    text.push_all(name);
    text.push_decimal(number);
}

/// Appends the name of a protocol, or its number, as `proto 47`.
#[inline(always)]
#[tactic(auto, unfolding(crate::specs::Network::protocol_text))]
fn push_protocol(text: &mut Text, ip: Ip, protocol: u8)
    requires { length text.old + 16 ≤ 256 }
    ensures value { text.new ≡ text.old ++ protocol_text ip protocol }
    ensures bound { length text.new ≤ length text.old + 16 }
{
    match (ip, protocol) {
        (_, IPPROTO_TCP) => text.push_all(b"TCP"),
        (_, IPPROTO_UDP) => text.push_all(b"UDP"),
        (Ip::V4, IPPROTO_ICMP) => text.push_all(b"ICMP"),
        (Ip::V6, IPPROTO_ICMPV6) => text.push_all(b"ICMP6"),
        _ => {
            push_name_and_number(text, b"proto ", protocol as u32);
        }
    }
}

/// Appends the address at place `at`, of 4 or 16 bytes by the version of IP, and its port if there
/// is one, as `10.0.0.5.80`.
#[inline(always)]
fn push_address_with_port(text: &mut Text, ip: Ip, bytes: &[u8], at: usize, port: Option<u16>)
    requires room { length text.old + 54 ≤ 256 }
    requires there { at + (layout_of ip).address_length ≤ length bytes.now }
    ensures value { text.new ≡ text.old ++ address_with_port ip bytes.now at port }
    ensures bound { length text.new ≤ length text.old + 54 }
{
    match ip {
        Ip::V4 => push_ipv4(text, bytes, at),
        Ip::V6 => push_ipv6(text, bytes, at),
    }
    if let Some(port) = port {
        push_name_and_number(text, b".", port as u32);
    }
}

/// Appends `A > B: `, the addresses of source and destination of a header of IP, each with its port
/// if there are ports.
#[inline(always)]
#[tactic(auto, unfolding(crate::specs::Network::ip_endpoints))]
fn push_endpoints(text: &mut Text, ip: Ip, bytes: &[u8], start: usize, ports: Ports)
    requires room { length text.old + 113 ≤ 256 }
    requires there { (start ≤ longest_header) × (addresses_end ip start ≤ length bytes.now) }
    ensures value { text.new ≡ text.old ++ ip_endpoints ip start bytes.now ports }
    ensures bound { length text.new ≤ length text.old + 113 }
{
    let layout = layout_of(ip);
    let source = start + layout.addresses;
    let (from, to) = ports;
    push_address_with_port(text, ip, bytes, source, from);
    text.push_all(b" > ");
    push_address_with_port(text, ip, bytes, source + layout.address_length, to);
    text.push_all(b": ");
}

/// Whether an IPv4 packet is a later fragment, whose offset isn't 0, and so has no ports. Those of
/// IPv6 have a header of their own, which isn't read.
fn is_later_fragment(ip: Ip, bytes: &[u8], start: usize) -> bool
    requires place { start ≤ longest_header }
    requires there { addresses_end ip start ≤ length bytes.now }
    ensures { result ≡ is_later_fragment ip start bytes.now }
{
    match ip {
        // The lower 13 of the 16 bits from byte 6 on are the fragment's offset.
        Ip::V4 => network_u16(bytes, start + 6) % 8192 != 0,
        Ip::V6 => false,
    }
}

/// The end of the IP header: one of IPv4 states its length, in units of four bytes, in the lower
/// half of its first byte; one of IPv6 ends after its addresses.
fn header_end(ip: Ip, bytes: &[u8], start: usize) -> usize
    requires place { start ≤ longest_header }
    requires there { addresses_end ip start ≤ length bytes.now }
    ensures value { result ≡ header_end ip start bytes.now }
    ensures bound { result ≤ longest_header + 60 }
{
    match ip {
        Ip::V4 => 4 * (bytes[start] as usize % 16) + start,
        Ip::V6 => addresses_end(ip, start),
    }
}

/// The two ports with which the headers of TCP and UDP begin, in the four bytes from place `at`;
/// none of another protocol, or if they aren't captured.
fn ports_at(protocol: u8, bytes: &[u8], at: usize) -> Ports
    requires { at ≤ longest_header + 60 }
    ensures { result ≡ ports_at protocol at bytes.now }
{
    if (protocol == IPPROTO_TCP || protocol == IPPROTO_UDP) && at + 4 <= bytes.len() {
        (
            Some(network_u16(bytes, at)),
            Some(network_u16(bytes, at + 2)),
        )
    } else {
        (None, None)
    }
}

/// Appends what a line says of a header of IP after its name: `A > B: ` with the protocol, or with
/// `fragment` if it is a later fragment; `[short]` if the addresses aren't all captured.
// Inlined with what it calls, so that the version is a constant in each copy.
#[inline(always)]
#[tactic(auto, unfolding(crate::specs::Network::ip_part))]
fn push_ip_part(text: &mut Text, ip: Ip, bytes: &[u8], start: usize)
    requires room { length text.old + 129 ≤ 256 }
    requires place { start ≤ longest_header }
    ensures value { text.new ≡ text.old ++ ip_part ip start bytes.now }
    ensures bound { length text.new ≤ length text.old + 129 }
{
    if bytes.len() < addresses_end(ip, start) {
        text.push_all(b"[short]");
        return;
    }
    if is_later_fragment(ip, bytes, start) {
        push_endpoints(text, ip, bytes, start, (None, None));
        text.push_all(b"fragment");
        return;
    }
    let protocol = bytes[start + layout_of(ip).protocol];
    let ports = ports_at(protocol, bytes, header_end(ip, bytes, start));
    push_endpoints(text, ip, bytes, start, ports);
    push_protocol(text, ip, protocol);
}

/// Appends what a line says of an ARP or RARP header after its name: its operation (bytes 6 and 7),
/// and the IPv4 addresses of sender and target (from bytes 14 and 24 on), as RFC 826 has them with
/// Ethernet; or `[short]` if its 28 bytes aren't all captured.
#[tactic(auto, unfolding(crate::specs::Network::arp_part))]
fn push_arp_part(text: &mut Text, bytes: &[u8], start: usize)
    requires room { length text.old + 120 ≤ 256 }
    requires place { start ≤ longest_header }
    ensures value { text.new ≡ text.old ++ arp_part start bytes.now }
    ensures bound { length text.new ≤ length text.old + 120 }
{
    if bytes.len() < start + 28 {
        text.push_all(b" [short]");
        return;
    }
    push_name_and_number(text, b" op ", network_u16(bytes, start + 6) as u32);
    text.push_all(b" ");
    push_ipv4(text, bytes, start + 14);
    text.push_all(b" > ");
    push_ipv4(text, bytes, start + 24);
}

/// Appends an EtherType, as `type 0x0800`.
#[tactic(auto, unfolding(crate::specs::Network::type_text))]
pub fn push_type(text: &mut Text, kind: u16)
    requires { length text.old + 11 ≤ 256 }
    ensures value { text.new ≡ text.old ++ type_text kind }
    ensures bound { length text.new ≡ length text.old + 11 }
{
    text.push_all(b"type 0x");
    text.push_all(&hex_four(kind));
}

/// Appends what a line says of the captured bytes after the link header.
// With this inside, a job's step grows too large to be inlined itself.
#[inline(never)]
#[tactic(auto, unfolding(crate::specs::Network::network_part, crate::specs::Network::header_part))]
pub fn push_network_part(text: &mut Text, link: u16, bytes: &[u8])
    requires { length text.old + 133 ≤ 256 }
    ensures value { text.new ≡ text.old ++ network_part link bytes.now }
    ensures bound { length text.new ≤ length text.old + 133 }
{
    let start = link_header_length(link);
    match network_header(link, bytes) {
        NetworkHeader::Known(NetworkKind::Ipv4) => {
            text.push_all(b"IP ");
            push_ip_part(text, Ip::V4, bytes, start);
        }
        NetworkHeader::Known(NetworkKind::Ipv6) => {
            text.push_all(b"IP6 ");
            push_ip_part(text, Ip::V6, bytes, start);
        }
        NetworkHeader::Known(NetworkKind::Arp) => {
            text.push_all(b"ARP");
            push_arp_part(text, bytes, start);
        }
        NetworkHeader::Known(NetworkKind::Rarp) => {
            text.push_all(b"RARP");
            push_arp_part(text, bytes, start);
        }
        NetworkHeader::OtherType(kind) => push_type(text, kind),
        NetworkHeader::OtherVersion(version) => {
            push_name_and_number(text, b"version ", version as u32)
        }
        NetworkHeader::OtherLink(link) => { push_name_and_number(text, b"link ", link as u32) }
        NetworkHeader::Short => text.push_all(b"[short]"),
    }
}
