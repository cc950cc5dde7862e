//! The tests that primitives are made of, as data, and their table for every link: each looks at
//! one field of a packet, unless the link type itself decides the test. The doc of each function
//! says what holds if its test matches. `emit.rt` has their code.

ghost use Rattle.std.specs.Prelude.{◌≡◌, ◌≤◌, IfSome, Some, None};
ghost use Rattle.cap_octet.specs.Link.{longest_header, network_offset};
ghost use Rattle.flt_gen.specs.Elementary.{is_at, is_masked, compares_at, compares_under};
ghost use Rattle.flt_gen.specs.Elementary.{kind_test, type_test, has_type, has_type_at};
ghost use Rattle.flt_gen.specs.Elementary.{first_fragment, has_ip_proto, has_ip6_proto};
ghost use Rattle.flt_gen.specs.inside.Code.{same_offset, same_width, same_mask, is_loaded, left_by};

use cap_octet::Link;
use cap_octet::assigned::{ETHERTYPE_ARP, ETHERTYPE_IPV4, ETHERTYPE_IPV6, ETHERTYPE_RARP};
use flt_bpf::operation::Width;
use flt_words::Comparison;

/// What a frame is by its link header, or by its version if there is none.
#[derive(Clone, Copy)]
pub enum FrameKind {
    Ethernet,
    Ip,
    Ip6,
    Arp,
    Rarp,
}

/// The place where a field begins, in bytes from the start of the packet.
#[derive(Clone, Copy)]
pub enum Offset {
    /// At this number.
    Fixed(u32),
    /// At the second number plus the length of the header that begins at the first. The low half of
    /// that header's first byte gives its length, in words of 4 bytes.
    AfterHeader(u32, u32),
    /// At the sum of both. It is read at X, which holds the first.
    AtIndex(u32, u32),
}

/// The numbers from the first to the last.
#[derive(Clone, Copy)]
pub struct Interval {
    pub low: u32,
    pub high: u32,
}

/// The place of a field, its width and the bits of it that count, or all if there is no mask.
#[derive(Clone, Copy)]
pub struct FieldPlace {
    pub offset: Offset,
    pub width: Width,
    pub mask: Option<u32>,
}

/// A test of a field: the field, of which only the bits of the mask count, or all if there is no
/// mask, is compared with a number.
#[derive(Clone, Copy)]
pub struct FieldTest {
    pub offset: Offset,
    pub width: Width,
    pub mask: Option<u32>,
    pub comparison: Comparison,
    pub value: u32,
}

/// A test that the link type itself decides, or a test of a field.
#[derive(Clone, Copy)]
pub enum Elementary {
    /// Yes or no, whatever the packet is.
    Outcome(bool),
    Field(FieldTest),
}

/// The places of a source and a destination, both addresses or both ports, and their width.
#[derive(Clone, Copy)]
pub struct Sides {
    pub width: Width,
    pub source: Offset,
    pub destination: Offset,
}

impl Elementary {
    /// The field that A holds after the test, if that is one of a field.
    pub fn left(self) -> Option<FieldPlace>
        ensures { result ≡ left_by self }
    {
        match self {
            Elementary::Outcome(_) => None,
            Elementary::Field(field) => Some(FieldPlace {
                offset: field.offset,
                width: field.width,
                mask: field.mask,
            }),
        }
    }
}

/// Whether both places are the same.
fn same_offset(one: Offset, other: Offset) -> bool
    ensures { result ≡ same_offset one other }
{
    match (one, other) {
        (Offset::Fixed(one), Offset::Fixed(other)) => one == other,
        (Offset::AfterHeader(one, at), Offset::AfterHeader(other, other_at))
        | (Offset::AtIndex(one, at), Offset::AtIndex(other, other_at)) => {
            one == other && at == other_at
        }
        _ => false,
    }
}

/// Whether both widths are the same.
fn same_width(one: Width, other: Width) -> bool
    ensures { result ≡ same_width one other }
{
    matches!(
        (one, other),
        (Width::Word, Width::Word) | (Width::HalfWord, Width::HalfWord) | (Width::Byte, Width::Byte)
    )
}

/// Whether both masks are the same, or there is none.
fn same_mask(one: Option<u32>, other: Option<u32>) -> bool
    ensures { result ≡ same_mask one other }
{
    match (one, other) {
        (None, None) => true,
        (Some(one), Some(other)) => one == other,
        _ => false,
    }
}

/// Whether a test looks at the bits of `held`, the field that A holds, if it holds one.
pub fn is_loaded(held: Option<FieldPlace>, test: FieldTest) -> bool
    ensures { result ≡ is_loaded held test }
{
    match held {
        None => false,
        Some(held) => {
            same_offset(held.offset, test.offset)
                && (same_width(held.width, test.width) && same_mask(held.mask, test.mask))
        }
    }
}

/// The place where the network header begins, in bytes from the start of the packet.
pub fn network_offset(link: Link) -> u32
    ensures place { result ≡ network_offset link }
    ensures near { result ≤ longest_header }
{
    link.header_length() as u32
}

/// The field at a place is a number.
pub fn is_at(at: u32, width: Width, value: u32) -> Elementary
    ensures { result ≡ is_at at width value }
{
    compares_at(Offset::Fixed(at), width, Comparison::Equal, value)
}

/// The bits of the field at a place under a mask are a number.
fn is_masked(at: u32, width: Width, mask: u32, value: u32) -> Elementary
    ensures { result ≡ is_masked at width mask value }
{
    let offset = Offset::Fixed(at);
    compares_under(Some(mask), offset, width, Comparison::Equal, value)
}

/// The field at `offset` compares with a number as `comparison` says.
pub fn compares_at(offset: Offset, width: Width, comparison: Comparison, value: u32) -> Elementary
    ensures { result ≡ compares_at offset width comparison value }
{
    compares_under(None, offset, width, comparison, value)
}

/// The field at `offset`, or its bits under a mask, compares with a number.
pub fn compares_under(
    mask: Option<u32>,
    offset: Offset,
    width: Width,
    comparison: Comparison,
    value: u32,
) -> Elementary
    ensures { result ≡ compares_under mask offset width comparison value }
{
    Elementary::Field(FieldTest {
        offset,
        width,
        mask,
        comparison,
        value,
    })
}

/// The EtherType at a place in the link header is this number. Raw IP has none.
fn has_type_at(type_offset: Option<usize>, ethertype: u32) -> Elementary
    requires { IfSome type_offset (λ at. at ≤ longest_header) }
    ensures { result ≡ has_type_at type_offset ethertype }
{
    match type_offset {
        None => Elementary::Outcome(false),
        Some(at) => is_at(at as u32, Width::HalfWord, ethertype),
    }
}

/// The EtherType in the link header is this number.
pub fn has_type(link: Link, ethertype: u32) -> Elementary
    ensures { result ≡ has_type link ethertype }
{
    has_type_at(link.type_offset(), ethertype)
}

/// A frame is of a kind: by the EtherType at a place, or of raw IP, which has none, by the version
/// in the upper half of its first byte.
fn type_test(type_offset: Option<usize>, kind: FrameKind) -> Elementary
    requires { IfSome type_offset (λ at. at ≤ longest_header) }
    ensures { result ≡ type_test type_offset kind }
{
    match (type_offset, kind) {
        (_, FrameKind::Ethernet) => Elementary::Outcome(false),
        (None, FrameKind::Ip) => is_masked(0, Width::Byte, 0xf0, 0x40),
        (None, FrameKind::Ip6) => is_masked(0, Width::Byte, 0xf0, 0x60),
        (at, FrameKind::Ip) => has_type_at(at, u32::from(ETHERTYPE_IPV4)),
        (at, FrameKind::Ip6) => has_type_at(at, u32::from(ETHERTYPE_IPV6)),
        (at, FrameKind::Arp) => has_type_at(at, u32::from(ETHERTYPE_ARP)),
        (at, FrameKind::Rarp) => has_type_at(at, u32::from(ETHERTYPE_RARP)),
    }
}

/// A frame is of a kind: Ethernet only by the link type, the others as in `type_test`.
pub fn kind_test(link: Link, kind: FrameKind) -> Elementary
    ensures { result ≡ kind_test link kind }
{
    match kind {
        FrameKind::Ethernet => Elementary::Outcome(matches!(link, Link::Ether)),
        _ => type_test(link.type_offset(), kind),
    }
}

/// An IPv4 packet is the first fragment, or whole: the offset, the lower 13 bits of the half word
/// at byte 6, is 0 (RFC 791, section 3.1).
pub fn first_fragment(link: Link) -> Elementary
    ensures { result ≡ first_fragment link }
{
    is_masked(network_offset(link) + 6, Width::HalfWord, 0x1fff, 0)
}

/// The protocol that an IPv4 header names, at byte 9, is this number (RFC 791, section 3.1).
pub fn has_ip_proto(link: Link, protocol: u32) -> Elementary
    ensures { result ≡ has_ip_proto link protocol }
{
    is_at(network_offset(link) + 9, Width::Byte, protocol)
}

/// The next header that an IPv6 header names, at byte 6, is this number (RFC 8200, section 3).
pub fn has_ip6_proto(link: Link, protocol: u32) -> Elementary
    ensures { result ≡ has_ip6_proto link protocol }
{
    is_at(network_offset(link) + 6, Width::Byte, protocol)
}
