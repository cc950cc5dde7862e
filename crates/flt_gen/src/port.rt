//! Ports, as a row of the table of primitives. They are tested layer by layer: the network header
//! (`emit_ports`), TCP or UDP, and that the packet isn't a later fragment (`emit_transport_ports`),
//! the ports (`emit_wanted`).

ghost use Rattle.std.specs.Prelude.{◌≡◌};
ghost use Rattle.flt_gen.specs.Primitives.{transport_ports, ip_transport, ip6_transport};
ghost use Rattle.flt_gen.specs.{Elementary.kind_test, inside.Emits.EmitsFormula};
ghost use Rattle.flt_gen.specs.Primitives.{port_formula, after, port_places};
ghost use Rattle.flt_gen.specs.inside.Emitted.{wanted_formula};

use crate::code::{Code, Result, Targets};
use crate::elementary::{
    Elementary, FrameKind, Offset, Sides, first_fragment, has_ip_proto, has_ip6_proto, kind_test,
    network_offset,
};
use crate::intervals::Numbers;
use crate::wanted::Wanted;
use cap_octet::Link;
use cap_octet::assigned::{IPPROTO_TCP, IPPROTO_UDP};
use flt_bpf::operation::Width;
use flt_words::Protocol;
use std::alloc::Allocator;

/// The transport header after a network header: the tests of TCP and UDP, the test that the packet
/// isn't a later fragment, which has no ports, and the places of both ports.
#[derive(Clone, Copy)]
pub struct Transport {
    pub tcp: Elementary,
    pub udp: Elementary,
    /// `None` for IPv6: a fragment has another next header there.
    pub no_later_fragment: Option<Elementary>,
    pub source: Offset,
    pub destination: Offset,
}

/// The transport header after an IPv4 header. That has no fixed length: the ports are at the bytes
/// 0 and 2 past its end.
fn ip_transport(link: Link) -> Transport
    ensures { result ≡ ip_transport link }
{
    let start = network_offset(link);
    Transport {
        tcp: has_ip_proto(link, IPPROTO_TCP.into()),
        udp: has_ip_proto(link, IPPROTO_UDP.into()),
        no_later_fragment: Some(first_fragment(link)),
        source: Offset::AfterHeader(start, start),
        destination: Offset::AfterHeader(start, start + 2),
    }
}

/// The transport header after an IPv6 header, which has 40 bytes: the ports come right after it.
fn ip6_transport(link: Link) -> Transport
    ensures { result ≡ ip6_transport link }
{
    let start = network_offset(link);
    Transport {
        tcp: has_ip6_proto(link, IPPROTO_TCP.into()),
        udp: has_ip6_proto(link, IPPROTO_UDP.into()),
        no_later_fragment: None,
        source: Offset::Fixed(start + 40),
        destination: Offset::Fixed(start + 42),
    }
}

/// Where both ports after a header stand.
fn port_places(header: Transport) -> Sides
    ensures { result ≡ port_places header }
{
    Sides {
        width: Width::HalfWord,
        source: header.source,
        destination: header.destination,
    }
}

impl<A: Allocator> Code<A> {
    /// Emits the ports after a header that names the protocol that is asked for, or, if none is,
    /// TCP or UDP. With another protocol than these two it is no. Before the ports comes the test
    /// that the packet isn't a later fragment, if there is one.
    fn emit_transport_ports(
        &mut self,
        link: Link,
        header: Transport,
        protocol: Option<Protocol>,
        wanted: Wanted,
        numbers: &Numbers<'_>,
        to: Targets,
    ) -> Result<usize>
        ensures { EmitsFormula link (transport_ports header protocol (wanted_formula link wanted
            numbers.now)) to self.old result self.new }
    {
        let (first, last) = match protocol {
            Some(Protocol::Tcp) => (None, header.tcp),
            Some(Protocol::Udp) => (None, header.udp),
            None => (Some(header.tcp), header.udp),
            Some(_) => return Ok(to.no),
        };
        let mut yes = self.emit_wanted(link, port_places(header), wanted, numbers, to)?;
        if let Some(test) = header.no_later_fragment {
            yes = self.emit_elementary(test, Targets { yes, no: to.no })?;
        }
        let no = self.emit_elementary(last, Targets { yes, no: to.no })?;
        match first {
            None => Ok(no),
            Some(test) => self.emit_elementary(test, Targets { yes, no }),
        }
    }

    /// Emits the ports after a header, in frames of its kind.
    fn emit_ports_of_kind(
        &mut self,
        link: Link,
        kind: FrameKind,
        header: Transport,
        protocol: Option<Protocol>,
        wanted: Wanted,
        numbers: &Numbers<'_>,
        to: Targets,
    ) -> Result<usize>
        ensures { EmitsFormula link (after (kind_test link kind) (transport_ports header protocol
            (wanted_formula link wanted numbers.now))) to self.old result self.new }
    {
        let yes = self.emit_transport_ports(link, header, protocol, wanted, numbers, to)?;
        self.emit_elementary(kind_test(link, kind), Targets { yes, no: to.no })
    }

    /// Emits `port` and `portrange`, after a header of IPv4 or of IPv6.
    pub fn emit_ports(
        &mut self,
        link: Link,
        protocol: Option<Protocol>,
        wanted: Wanted,
        numbers: &Numbers<'_>,
        to: Targets,
    ) -> Result<usize>
        ensures { EmitsFormula link (port_formula link protocol (wanted_formula link wanted numbers.now))
            to self.old result self.new }
    {
        let (ip, ip6) = (ip_transport(link), ip6_transport(link));
        let no = self.emit_ports_of_kind(link, FrameKind::Ip6, ip6, protocol, wanted, numbers, to)?;
        let to = Targets { yes: to.yes, no };
        self.emit_ports_of_kind(link, FrameKind::Ip, ip, protocol, wanted, numbers, to)
    }
}
