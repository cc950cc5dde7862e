//! Decides which values, protocols and directions go with a type, and which numbers are in range.
//! `node` asks this for each node with a value (faults E7 and E8).

ghost use Rattle.std.specs.Prelude.{◌≡◌};
ghost use Rattle.flt_ast.specs.Fits.{has_ip4_addresses, has_ip6_addresses, has_port_numbers};
ghost use Rattle.flt_ast.specs.Fits.{has_protocol_numbers, has_mac_addresses, is_net_mask};
ghost use Rattle.flt_ast.specs.Fits.{is_ip4_prefix_len, is_ip6_prefix_len, fit_if, fit_of};
ghost use Rattle.flt_ast.specs.Fits.{is_cast_misfit};

use crate::value::{NetMask, Value};
use flt_words::{Cast, Protocol, ValueType};

/// Whether a value goes with a type and a protocol, and then whether its numbers are in range.
#[derive(Clone, Copy, PartialEq, Eq)]
pub enum Fit {
    /// The value doesn't go with its type or its protocol (E7).
    Misfit,
    /// It goes with them, and a number in it is out of range (E8).
    OutOfRange,
    /// It goes with them, and its numbers are in range.
    InRange,
}

/// The fit of a value by two answers: whether it goes with its type and protocol, and whether its
/// numbers are in range. One that doesn't go with them is a misfit, whatever its numbers are.
fn fit_if(fits: bool, in_range: bool) -> Fit
    ensures { result ≡ fit_if fits in_range }
{
    match (fits, in_range) {
        (true, true) => Fit::InRange,
        (true, false) => Fit::OutOfRange,
        (false, _) => Fit::Misfit,
    }
}

/// Whether a value goes with a type and a protocol, and its numbers are in range: the table of all
/// types, as docs/FILTER.md has it ("What fits").
pub(crate) fn fit_of(value_type: ValueType, value: Value, protocol: Option<Protocol>) -> Fit
    ensures { result ≡ fit_of value_type value protocol }
{
    match value_type {
        ValueType::Host => host_fit(value, protocol),
        ValueType::Net => net_fit(value, protocol),
        ValueType::Port => match value {
            Value::Number(number, NetMask::Unwritten) => fit_if(
                has_port_numbers(protocol),
                number <= 65535,
            ),
            _ => Fit::Misfit,
        },
        ValueType::PortRange => match value {
            Value::Range { first, last } => {
                fit_if(has_port_numbers(protocol), first <= 65535 && last <= 65535)
            }
            _ => Fit::Misfit,
        },
        ValueType::Proto => match value {
            Value::Number(number, NetMask::Unwritten) => proto_fit(number, protocol),
            _ => Fit::Misfit,
        },
    }
}

/// The fit of a value of the type `host`: an IPv4, IPv6 or MAC address in full.
fn host_fit(value: Value, protocol: Option<Protocol>) -> Fit
    ensures { result ≡ fit_of ValueType.Host value protocol }
{
    match value {
        Value::Dotted(dotted, NetMask::Unwritten) => {
            fit_if(dotted.parts == 4 && has_ip4_addresses(protocol), true)
        }
        Value::Ip6(_, None) => fit_if(has_ip6_addresses(protocol), true),
        Value::Mac(_) => fit_if(has_mac_addresses(protocol), true),
        _ => Fit::Misfit,
    }
}

/// The fit of a value of the type `net`: an IPv4 address or its first parts, without more, with a
/// mask or with the length of a prefix, or an IPv6 address, without more or with the length of a
/// prefix. A number is the first byte of an IPv4 address.
fn net_fit(value: Value, protocol: Option<Protocol>) -> Fit
    ensures { result ≡ fit_of ValueType.Net value protocol }
{
    match value {
        Value::Number(number, mask) => fit_if(
            is_net_mask(mask) && has_ip4_addresses(protocol),
            number <= 255 && is_ip4_prefix_len(mask),
        ),
        Value::Dotted(_, mask) => fit_if(
            is_net_mask(mask) && has_ip4_addresses(protocol),
            is_ip4_prefix_len(mask),
        ),
        Value::Ip6(_, len) => fit_if(has_ip6_addresses(protocol), is_ip6_prefix_len(len)),
        _ => Fit::Misfit,
    }
}

/// The fit of a number of the type `proto`: after `ether` an EtherType, from 1536 (0x600) on, below
/// which the field is a length; else a protocol number of one byte.
fn proto_fit(number: u32, protocol: Option<Protocol>) -> Fit
    ensures { result ≡ fit_of ValueType.Proto (Value.Number number NetMask.Unwritten) protocol }
{
    match protocol {
        Some(Protocol::Ether) => fit_if(true, number >= 1536 && number <= 65535),
        _ => fit_if(has_protocol_numbers(protocol), number <= 255),
    }
}

/// Whether IPv4 addresses go with a protocol, or with none written: `ip`, `arp`, `rarp`.
fn has_ip4_addresses(protocol: Option<Protocol>) -> bool
    ensures { result ≡ has_ip4_addresses protocol }
{
    matches!(
        protocol,
        None | Some(Protocol::Ip | Protocol::Arp | Protocol::Rarp)
    )
}

/// Whether IPv6 addresses go with a protocol, or with none written: `ip6`.
fn has_ip6_addresses(protocol: Option<Protocol>) -> bool
    ensures { result ≡ has_ip6_addresses protocol }
{
    matches!(protocol, None | Some(Protocol::Ip6))
}

/// Whether ports go with a protocol, or with none written: `tcp`, `udp`.
fn has_port_numbers(protocol: Option<Protocol>) -> bool
    ensures { result ≡ has_port_numbers protocol }
{
    matches!(protocol, None | Some(Protocol::Tcp | Protocol::Udp))
}

/// Whether IP protocol numbers go with a protocol, or with none written: `ip`, `ip6`.
fn has_protocol_numbers(protocol: Option<Protocol>) -> bool
    ensures { result ≡ has_protocol_numbers protocol }
{
    matches!(protocol, None | Some(Protocol::Ip | Protocol::Ip6))
}

/// Whether MAC addresses go with a protocol, which has to be written: `ether`.
fn has_mac_addresses(protocol: Option<Protocol>) -> bool
    ensures { result ≡ has_mac_addresses protocol }
{
    matches!(protocol, Some(Protocol::Ether))
}

/// Whether a network may have this mask: one of `mask D` needs all four parts of an address; `/ N`
/// and none written are always right.
fn is_net_mask(mask: NetMask) -> bool
    ensures { result ≡ is_net_mask mask }
{
    match mask {
        NetMask::Mask(dotted) => dotted.parts == 4,
        _ => true,
    }
}

/// Whether the length of a prefix, if one is written, is at most the 32 bits of an IPv4 address. A
/// written mask is in range too.
fn is_ip4_prefix_len(mask: NetMask) -> bool
    ensures { result ≡ is_ip4_prefix_len mask }
{
    match mask {
        NetMask::Prefix(len) => len <= 32,
        _ => true,
    }
}

/// Whether the length of a prefix, if one is written, is at most the 128 bits of an IPv6 address.
fn is_ip6_prefix_len(len: Option<u32>) -> bool
    ensures { result ≡ is_ip6_prefix_len len }
{
    match len {
        Some(len) => len <= 128,
        None => true,
    }
}

/// Whether `broadcast` or `multicast` doesn't go with the protocol before it: `broadcast` after
/// `ip` or `ip6`. It is asked only of protocols that the parser takes there: `ether`, `ip` and
/// `ip6`.
pub(crate) fn is_cast_misfit(protocol: Option<Protocol>, cast: Cast) -> bool
    ensures { result ≡ is_cast_misfit protocol cast }
{
    matches!(
        (protocol, cast),
        (Some(Protocol::Ip | Protocol::Ip6), Cast::Broadcast)
    )
}
