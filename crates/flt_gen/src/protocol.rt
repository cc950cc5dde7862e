//! Protocols, Ethernet addresses, `broadcast` and `multicast`, as rows of the table of primitives.

ghost use Rattle.std.specs.Prelude.{◌≡◌, ◌≤◌};
ghost use Rattle.flt_gen.specs.Primitives.{after, check_formula, proto_formula, ether_host};
ghost use Rattle.flt_gen.specs.Primitives.{mac_tests, cast_formula};
ghost use Rattle.flt_gen.specs.{Formula.Single, Elementary.kind_test, inside.Emits.EmitsFormula};

use crate::code::{Code, Result, Targets};
use crate::elementary::{
    Elementary, FrameKind, Offset, compares_at, compares_under, has_ip_proto, has_ip6_proto,
    has_type, is_at, kind_test, network_offset,
};
use cap_octet::Link;
use cap_octet::assigned::{IPPROTO_ICMP, IPPROTO_ICMPV6, IPPROTO_TCP, IPPROTO_UDP};
use flt_ast::Direction;
use flt_bpf::operation::Width;
use flt_words::{Cast, Comparison, Protocol, Side};
use std::alloc::Allocator;

/// The tests for a MAC address of 48 bits in the six bytes from a place on: one for the first four
/// bytes, one for the last two.
pub fn mac_tests(at: u32, address: u64) -> [Elementary; 2]
    requires { at ≤ 6 }
    ensures { result ≡ mac_tests at address }
{
    let high = address / 0x1_0000 % 0x1_0000_0000;
    let low = address % 0x1_0000;
    [
        is_at(at, Width::Word, high as u32),
        is_at(at + 4, Width::HalfWord, low as u32),
    ]
}

impl<A: Allocator> Code<A> {
    /// Emits a test in frames of a kind.
    fn emit_of_kind(
        &mut self,
        link: Link,
        kind: FrameKind,
        test: Elementary,
        to: Targets,
    ) -> Result<usize>
        ensures { EmitsFormula link (after (kind_test link kind) (Single test)) to self.old result
            self.new }
    {
        let yes = self.emit_elementary(test, to)?;
        self.emit_elementary(kind_test(link, kind), Targets { yes, no: to.no })
    }

    /// Emits a protocol's keyword by itself, such as `tcp` or `arp`.
    pub fn emit_check(&mut self, link: Link, protocol: Protocol, to: Targets) -> Result<usize>
        ensures { EmitsFormula link (check_formula link protocol) to self.old result self.new }
    {
        let kind = match protocol {
            Protocol::Ether => FrameKind::Ethernet,
            Protocol::Ip => FrameKind::Ip,
            Protocol::Ip6 => FrameKind::Ip6,
            Protocol::Arp => FrameKind::Arp,
            Protocol::Rarp => FrameKind::Rarp,
            Protocol::Tcp => return self.emit_proto(link, None, IPPROTO_TCP.into(), to),
            Protocol::Udp => return self.emit_proto(link, None, IPPROTO_UDP.into(), to),
            Protocol::Icmp => {
                return self.emit_proto(link, Some(Protocol::Ip), IPPROTO_ICMP.into(), to);
            }
            Protocol::Icmp6 => {
                return self.emit_proto(link, Some(Protocol::Ip6), IPPROTO_ICMPV6.into(), to);
            }
        };
        self.emit_elementary(kind_test(link, kind), to)
    }

    /// Emits `proto N`, where N is a field of the protocol `below`: `ip`, `ip6` or `ether`; `None`
    /// means IPv4 or IPv6. Extension headers of IPv6 aren't skipped. With any other protocol no
    /// packet matches.
    pub fn emit_proto(
        &mut self,
        link: Link,
        below: Option<Protocol>,
        protocol: u32,
        to: Targets,
    ) -> Result<usize>
        ensures { EmitsFormula link (proto_formula link below protocol) to self.old result
            self.new }
    {
        let (ip, ip6) = (has_ip_proto(link, protocol), has_ip6_proto(link, protocol));
        match below {
            Some(Protocol::Ip) => self.emit_of_kind(link, FrameKind::Ip, ip, to),
            Some(Protocol::Ip6) => self.emit_of_kind(link, FrameKind::Ip6, ip6, to),
            Some(Protocol::Ether) => self.emit_elementary(has_type(link, protocol), to),
            None => {
                let no = self.emit_of_kind(link, FrameKind::Ip6, ip6, to)?;
                self.emit_of_kind(link, FrameKind::Ip, ip, Targets { yes: to.yes, no })
            }
            Some(_) => Ok(to.no),
        }
    }

    /// Emits `ether host M`.
    pub fn emit_ether_host(
        &mut self,
        link: Link,
        direction: Direction,
        address: u64,
        to: Targets,
    ) -> Result<usize>
        ensures { EmitsFormula link (ether_host link direction address) to self.old result
            self.new }
    {
        // The source is at byte 6 of a frame, the destination at byte 0.
        let (source, destination) = (mac_tests(6, address), mac_tests(0, address));
        let yes = self.emit_sides(direction, false, &source, &destination, to)?;
        let to = Targets { yes, no: to.no };
        self.emit_elementary(kind_test(link, FrameKind::Ethernet), to)
    }

    /// Emits `broadcast` or `multicast`, with the protocol before it, or none. With a protocol that
    /// isn't allowed, no packet matches; such expressions were refused before.
    pub fn emit_cast(
        &mut self,
        link: Link,
        protocol: Option<Protocol>,
        cast: Cast,
        to: Targets,
    ) -> Result<usize>
        ensures { EmitsFormula link (cast_formula link protocol cast) to self.old result self.new }
    {
        let (kind, is_group) = match (cast, protocol) {
            (Cast::Broadcast, None | Some(Protocol::Ether)) => {
                // All 48 bits of the address are set.
                let destination = Direction::One(Side::Destination);
                return self.emit_ether_host(link, destination, 0xffff_ffff_ffff, to);
            }
            (Cast::Multicast, None | Some(Protocol::Ether)) => {
                // The lowest bit of the first byte of the destination, at byte 0, is set.
                let (first, bit) = (Offset::Fixed(0), Some(1));
                let is_group = compares_under(bit, first, Width::Byte, Comparison::NotEqual, 0);
                (FrameKind::Ethernet, is_group)
            }
            (Cast::Multicast, Some(Protocol::Ip)) => {
                // The first byte of the destination address: groups begin at 224.0.0.0.
                let first = Offset::Fixed(network_offset(link) + 16);
                let is_group = compares_at(first, Width::Byte, Comparison::AtLeast, 224);
                (FrameKind::Ip, is_group)
            }
            (Cast::Multicast, Some(Protocol::Ip6)) => {
                // The first byte of an IPv6 destination address: groups are ff00::/8.
                let is_group = is_at(network_offset(link) + 24, Width::Byte, 255);
                (FrameKind::Ip6, is_group)
            }
            (_, Some(_)) => return Ok(to.no),
        };
        self.emit_of_kind(link, kind, is_group, to)
    }
}
