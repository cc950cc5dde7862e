//! The number of elementary tests that a primitive counts as: at least the number in the formula
//! that it means. docs/inside/COMPILER.md has the table.
//!
//! The number fits a byte: it is at most 15, that of `portrange` without a protocol for both sides.
//! The clauses state greater bounds, up to 27, because they allow 8 tests for the sides, the most
//! that `side_tests` returns.

ghost use Rattle.std.specs.Prelude.{◌≡◌, ◌≤◌};
ghost use Rattle.flt_ast.specs.Counts.{side_tests, proto_tests, check_tests, ether_tests};
ghost use Rattle.flt_ast.specs.Counts.{cast_tests, ip4_tests, ip6_test_count, transport_tests};
ghost use Rattle.flt_ast.specs.Counts.{port_tests, address_tests, value_tests, accessor_test_count};

use crate::qualifiers::{CompleteQualifiers, Direction};
use crate::value::Value;
use flt_words::{Cast, Protocol, Side, ValueType};

/// The number of tests for a direction: `tests` for each side that it means.
fn side_tests(direction: Direction, tests: u8) -> u8
    requires { tests ≤ 4 }
    ensures count { result ≡ side_tests direction tests }
    ensures upper_bound { result ≤ 8 }
{
    match direction {
        Direction::One(_) => tests,
        Direction::Both(_) => tests + tests,
    }
}

/// The number of tests for a protocol number: two, for the EtherType and the number; four if no
/// protocol is named, for IPv4 and IPv6. `ether proto`, which has one test, counts as two.
fn proto_tests(protocol: Option<Protocol>) -> u8
    ensures count { result ≡ proto_tests protocol }
    ensures upper_bound { result ≤ 4 }
{
    match protocol {
        None => 4,
        Some(_) => 2,
    }
}

/// The number of tests for a protocol by itself: one above IP counts as its number does (`tcp` as
/// `proto 6`), any other as one test.
pub(crate) fn check_tests(protocol: Protocol) -> u8
    ensures count { result ≡ check_tests protocol }
    ensures upper_bound { result ≤ 4 }
{
    match protocol {
        Protocol::Tcp | Protocol::Udp => proto_tests(None),
        Protocol::Icmp => proto_tests(Some(Protocol::Ip)),
        Protocol::Icmp6 => proto_tests(Some(Protocol::Ip6)),
        _ => 1,
    }
}

/// The number of tests for a MAC address: one whether the link is Ethernet, and two for each side
/// (four bytes, then two).
fn ether_tests(direction: Direction) -> u8
    ensures count { result ≡ ether_tests direction }
    ensures upper_bound { result ≤ 9 }
{
    1 + side_tests(direction, 2)
}

/// The number of tests for `broadcast`, which is tested as the MAC address of a destination, or for
/// `multicast`: the protocol, and one bit or byte of the address.
pub(crate) fn cast_tests(cast: Cast) -> u8
    ensures count { result ≡ cast_tests cast }
    ensures upper_bound { result ≤ 9 }
{
    match cast {
        Cast::Broadcast => ether_tests(Direction::One(Side::Destination)),
        Cast::Multicast => 2,
    }
}

/// The number of tests for an IPv4 address or network: one for the EtherType, and one for each
/// side. Without a protocol there are three times as many, for IPv4, ARP and RARP.
fn ip4_tests(protocol: Option<Protocol>, direction: Direction) -> u8
    ensures count { result ≡ ip4_tests protocol direction }
    ensures upper_bound { result ≤ 27 }
{
    let one_form = 1 + side_tests(direction, 1);
    match protocol {
        None => one_form + one_form + one_form,
        Some(_) => one_form,
    }
}

/// The number of tests for TCP or UDP: one if the protocol is named, else one for each.
fn transport_tests(protocol: Option<Protocol>) -> u8
    ensures count { result ≡ transport_tests protocol }
    ensures upper_bound { result ≤ 2 }
{
    match protocol {
        None => 2,
        Some(_) => 1,
    }
}

/// The number of tests for ports, with `tests` for each side: 1 for a port, 2 for a range. IPv4
/// takes one more than IPv6, since a later fragment has no ports.
fn port_tests(protocol: Option<Protocol>, direction: Direction, tests: u8) -> u8
    requires { tests ≤ 2 }
    ensures count { result ≡ port_tests protocol direction tests }
    ensures upper_bound { result ≤ 23 }
{
    let transport = transport_tests(protocol);
    let sides = side_tests(direction, tests);
    (1 + transport + 1 + sides) + (1 + transport + sides)
}

/// The number of tests for an address or a network, depending on its kind; an IPv6 address is
/// tested as four words.
fn address_tests(protocol: Option<Protocol>, direction: Direction, value: Value) -> u8
    ensures count { result ≡ address_tests protocol direction value }
    ensures upper_bound { result ≤ 27 }
{
    match value {
        Value::Mac(_) => ether_tests(direction),
        Value::Ip6(_, _) => 1 + side_tests(direction, 4),
        _ => ip4_tests(protocol, direction),
    }
}

/// The number of tests for a value with all its qualifiers.
pub(crate) fn value_tests(qualifiers: CompleteQualifiers, value: Value) -> u8
    ensures count { result ≡ value_tests qualifiers value }
    ensures upper_bound { result ≤ 27 }
{
    match qualifiers.value_type {
        ValueType::Host | ValueType::Net => address_tests(
            qualifiers.protocol,
            qualifiers.direction,
            value,
        ),
        ValueType::Port => port_tests(qualifiers.protocol, qualifiers.direction, 1),
        ValueType::PortRange => port_tests(qualifiers.protocol, qualifiers.direction, 2),
        ValueType::Proto => proto_tests(qualifiers.protocol),
    }
}

/// The number of tests for an accessor, such as `tcp[13]`: one for its protocol; above IPv4 three,
/// for the EtherType, the protocol number, and that the packet isn't a later fragment.
pub(crate) fn accessor_tests(protocol: Protocol) -> u8
    ensures count { result ≡ accessor_test_count protocol }
    ensures upper_bound { result ≤ 3 }
{
    match protocol {
        Protocol::Tcp | Protocol::Udp | Protocol::Icmp => 3,
        _ => 1,
    }
}
