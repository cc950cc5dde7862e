//! Hosts and networks of IPv4 and IPv6, as rows of the table of primitives. A word of an IPv6
//! address without significant bits is tested only if the test decides something: in clauses,
//! `.._needed` is the row without the other tests of such words.

ghost use Rattle.std.specs.Prelude.{◌≡◌, ◌+◌, ◌≤◌};
ghost use Rattle.cap_octet.specs.Link.{longest_header};
ghost use Rattle.flt_gen.specs.Primitives.{partial_mask, address_places};
ghost use Rattle.flt_gen.specs.inside.Emitted.{is_idle, last_test, ip6_needed, wanted_formula};
ghost use Rattle.flt_gen.specs.{inside.Emits.EmitsFormula};
ghost use Rattle.flt_gen.specs.Primitives.{hosts_of_kind, hosts_formula, ip6_test, ip6_tests};

use crate::code::{Code, Result, Targets};
use crate::elementary::{
    Elementary, FieldTest, FrameKind, Offset, Sides, kind_test, network_offset,
};
use crate::intervals::Numbers;
use crate::wanted::{Wanted, address_test};
use cap_octet::Link;
use flt_ast::{Direction, ip4_prefix_mask};
use flt_bpf::operation::Width;
use flt_words::{Comparison, Protocol};
use std::alloc::Allocator;

/// The mask of a word of 32 bits, or `None` if all of its bits count.
pub fn partial_mask(mask: u32) -> Option<u32>
    ensures { result ≡ partial_mask mask }
{
    if mask == u32::MAX { None } else { Some(mask) }
}

/// Where both addresses of a header of a kind stand: IPv4 (RFC 791), at bytes 12 and 16, or ARP and
/// RARP (RFC 826), at bytes 14 and 24.
fn address_places(link: Link, kind: FrameKind) -> Sides
    ensures { result ≡ address_places link kind }
{
    let (source, destination) = match kind {
        FrameKind::Ip => (12, 16),
        _ => (14, 24),
    };
    let start = network_offset(link);
    Sides {
        width: Width::Word,
        source: Offset::Fixed(start + source),
        destination: Offset::Fixed(start + destination),
    }
}

/// The test that one of the four words (0 to 3) of the IPv6 address that begins at a place is that
/// of `address`, as far as the prefix goes; without a prefix all bits count.
#[tactic(auto, using(crate::proofs::Masks::word_power))]
pub fn ip6_test(prefix: Option<u32>, address: u128, at: u32, word: u32) -> Elementary
    requires { (at ≤ longest_header + 24) × (word ≤ 3) }
    ensures { result ≡ ip6_test prefix address at word }
{
    let mask = match prefix {
        None => None,
        Some(bits) => partial_mask(ip4_prefix_mask(bits.saturating_sub(32 * word))),
    };
    // Word 0 is the highest: 96 bits are below it.
    let part = address / 2u128.pow(96 - 32 * word) % 0x1_0000_0000;
    address_test(mask, part as u32, Offset::Fixed(at + 4 * word))
}

/// The tests of all four words of the IPv6 address that begins at a place, as `ip6_test` makes
/// them.
pub fn ip6_tests(prefix: Option<u32>, address: u128, at: u32) -> [Elementary; 4]
    requires { at ≤ longest_header + 24 }
    ensures { result ≡ ip6_tests prefix address at }
{
    [
        ip6_test(prefix, address, at, 0),
        ip6_test(prefix, address, at, 1),
        ip6_test(prefix, address, at, 2),
        ip6_test(prefix, address, at, 3),
    ]
}

/// Whether a test that `ip6_test` makes is of a word of which no bit counts, and compares it with
/// 0, so that it is yes wherever the word is captured.
pub fn is_idle(test: Elementary) -> bool
    ensures { result ≡ is_idle test }
{
    match test {
        Elementary::Field(field) => field.mask == Some(0) && field.value == 0,
        Elementary::Outcome(_) => false,
    }
}

/// The test of the last of some words. If no bit of it counts, it only asks whether the word is
/// captured: every number is 0 at least.
pub fn last_test(test: Elementary) -> Elementary
    ensures { result ≡ last_test test }
{
    match test {
        Elementary::Field(field) if is_idle(test) => Elementary::Field(FieldTest {
            mask: None,
            comparison: Comparison::AtLeast,
            value: 0,
            ..field
        }),
        _ => test,
    }
}

impl<A: Allocator> Code<A> {
    /// Emits hosts in a header of a kind: IPv4, ARP or RARP.
    fn emit_hosts_of_kind(
        &mut self,
        link: Link,
        kind: FrameKind,
        wanted: Wanted,
        numbers: &Numbers<'_>,
        to: Targets,
    ) -> Result<usize>
        ensures { EmitsFormula link (hosts_of_kind link kind (wanted_formula link wanted numbers.now)) to
            self.old result self.new }
    {
        let yes = self.emit_wanted(link, address_places(link, kind), wanted, numbers, to)?;
        self.emit_elementary(kind_test(link, kind), Targets { yes, no: to.no })
    }

    /// Emits `host` and `net` of IPv4, in the headers that their protocol allows: without one those
    /// of IPv4, ARP and RARP. After a protocol other than these three it is no.
    pub fn emit_hosts(
        &mut self,
        link: Link,
        protocol: Option<Protocol>,
        wanted: Wanted,
        numbers: &Numbers<'_>,
        to: Targets,
    ) -> Result<usize>
        ensures { EmitsFormula link (hosts_formula link protocol (wanted_formula link wanted
            numbers.now)) to self.old result self.new }
    {
        let kind = match protocol {
            Some(Protocol::Ip) => FrameKind::Ip,
            Some(Protocol::Arp) => FrameKind::Arp,
            Some(Protocol::Rarp) => FrameKind::Rarp,
            Some(_) => return Ok(to.no),
            None => {
                let yes = to.yes;
                let no = self.emit_hosts_of_kind(link, FrameKind::Rarp, wanted, numbers, to)?;
                let to = Targets { yes, no };
                let no = self.emit_hosts_of_kind(link, FrameKind::Arp, wanted, numbers, to)?;
                let to = Targets { yes, no };
                return self.emit_hosts_of_kind(link, FrameKind::Ip, wanted, numbers, to);
            }
        };
        self.emit_hosts_of_kind(link, kind, wanted, numbers, to)
    }

    /// Emits `host` and `net` of IPv6, with the length of the prefix where not the whole address
    /// counts.
    pub fn emit_ip6(
        &mut self,
        link: Link,
        direction: Direction,
        prefix: Option<u32>,
        address: u128,
        to: Targets,
    ) -> Result<usize>
        ensures { EmitsFormula link (ip6_needed link direction prefix address) to self.old result
            self.new }
    {
        let start = network_offset(link);
        // The addresses stand at bytes 8 and 24 of the header (RFC 8200, section 3).
        let source = ip6_tests(prefix, address, start + 8);
        let destination = ip6_tests(prefix, address, start + 24);
        let yes = self.emit_sides(direction, true, &source, &destination, to)?;
        self.emit_elementary(kind_test(link, FrameKind::Ip6), Targets { yes, no: to.no })
    }
}
