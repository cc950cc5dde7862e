//! Searches for a field, or either of two, in some intervals: trees of tests.

ghost use Rattle.std.specs.Prelude.{◌≡◌};
ghost use Rattle.flt_gen.specs.inside.{Emits.Emits, Emits.EmitsFormula, Code.emit_after};
ghost use Rattle.flt_gen.specs.inside.Search.{are_few, low_of, held_if, chain_of};
ghost use Rattle.flt_gen.specs.inside.Search.{search, within_formula};
ghost use Rattle.flt_gen.specs.inside.Search.{few_formula, many_formula, sought_formula, most_in_turn};
ghost use Rattle.flt_gen.specs.inside.Search.{fewest_at_index, are_alone, are_at_index};
ghost use Rattle.flt_gen.specs.inside.Search.{index_of, at_index, sides_at_index};
ghost use Rattle.cap_octet.specs.declared.link.Link.{Link};

use crate::code::{Code, Targets};
use crate::elementary::{FieldPlace, Interval, Offset, Sides, compares_at, network_offset};
use crate::intervals::Numbers;
use cap_octet::Link;
use flt_ast::Direction;
use flt_bpf::operation::Width;
use flt_words::{Comparison, Join, Protocol, Side};
use std::alloc::{AllocError, Allocator};

/// How often intervals are halved at most, down to few: 4,096 of them take twelve times.
const MOST_HALVINGS: usize = 16;

/// How many addresses of ARP or RARP aren't halved. Few packets have them, so a short program counts
/// more than few steps. Each half of more has 25 at least, so the tests between halves make a list
/// longer by 4 % at most.
const MOST_RARE: usize = 50;

/// How many members as the first one aren't halved after a protocol, or none: single addresses, if
/// few packets have the protocol.
pub fn most_in_turn(protocol: Option<Protocol>, first: Interval) -> usize
    ensures { result ≡ most_in_turn protocol first }
{
    match protocol {
        Some(Protocol::Arp | Protocol::Rarp) if first.low == first.high => MOST_RARE,
        _ => 0,
    }
}

/// Whether intervals aren't halved: `few` at most, or one, or two single numbers, since that would
/// be one more test.
fn are_few(few: usize, items: &[Interval]) -> bool
    ensures { result ≡ are_few few items.now }
{
    match items {
        _ if items.len() <= few => true,
        [] | [_] => true,
        [one, other] => one.low == one.high && other.low == other.high,
        _ => false,
    }
}

/// The lowest number of the first of some intervals; 0 if there is none.
fn low_of(items: &[Interval]) -> u32
    ensures { result ≡ low_of items.now }
{
    match items {
        [] => 0,
        [first, ..] => first.low,
    }
}

/// The fewest intervals that are looked for on either side at X. Fewer are shorter without it if
/// only headers of one kind are searched, as on raw IP or in `tcp and (host a or host b)`, or after
/// another test of addresses. Single numbers (`is_plain`) have to be more than networks or
/// ranges, and addresses, which are words, more than ports.
fn fewest_at_index(width: Width, is_plain: bool) -> usize
    ensures { result ≡ fewest_at_index width is_plain }
{
    match width {
        _ if !is_plain => 5,
        Width::Word => 24,
        _ => 8,
    }
}

/// Whether headers of only one kind have such fields: the addresses of raw IP, which has no ARP.
fn are_alone(link: Link, width: Width) -> bool
    ensures { result ≡ are_alone link width }
{
    match width {
        Width::Word => link.type_offset().is_none(),
        _ => false,
    }
}

/// Whether numbers are looked for at X: never if headers of only one kind have them, or if `few`
/// aren't halved.
fn are_at_index(few: usize, link: Link, at: Sides, numbers: &Numbers<'_>) -> bool
    ensures { result ≡ are_at_index few link at numbers.now }
{
    let first = numbers.first;
    few == 0
        && !are_alone(link, at.width)
        && numbers.all.len() >= fewest_at_index(at.width, first.low == first.high)
}

/// What X holds if both sides are read at it: how much further on the destination is than that of
/// an IPv4 header, or than a port right after the link header. So it is at the same place after X in
/// headers of each kind.
fn index_of(link: Link, at: Sides) -> u32
    ensures { result ≡ index_of link at }
{
    let past = match at.width {
        Width::Word => 16,
        _ => 2,
    };
    match at.destination {
        Offset::Fixed(place) => place.saturating_sub(network_offset(link) + past),
        _ => 0,
    }
}

/// Both sides, read at X.
fn sides_at_index(link: Link, at: Sides) -> Sides
    ensures { result ≡ sides_at_index link at }
{
    let index = index_of(link, at);
    Sides {
        source: at_index(index, at.source),
        destination: at_index(index, at.destination),
        ..at
    }
}

/// The same place, read at X, which holds `index`.
fn at_index(index: u32, offset: Offset) -> Offset
    ensures { result ≡ at_index index offset }
{
    match offset {
        Offset::Fixed(at) => Offset::AtIndex(index, at.saturating_sub(index)),
        _ => offset,
    }
}

impl<A: Allocator> Code<A> {
    /// Emits whether a field is in some intervals, which ascend, by one after the other. Returns the
    /// place where the code begins; for no interval that is `to.no`. It calls itself for each: they
    /// are few, once `emit_search` has halved them. `is_held`: A holds the field. `is_above`: it is
    /// known to be no less than the first one.
    fn emit_chain(
        &mut self,
        field: FieldPlace,
        is_held: bool,
        is_above: bool,
        items: &[Interval],
        to: Targets,
    ) -> Result<usize, AllocError>
        ensures { (link : Link) → Emits result
            (emit_after (held_if is_held field) link (chain_of field is_above items.now) to.yes to.no
            self.old) self.new }
    {
        let [first, others @ ..] = items else {
            return Ok(to.no);
        };
        let no = self.emit_chain(field, true, false, others, to)?;
        let upper = Targets { yes: to.yes, no };
        if first.low == first.high {
            return self.emit_compared(field, is_held, Comparison::Equal, first.low, upper);
        }
        if is_above {
            return self.emit_compared(field, is_held, Comparison::AtMost, first.high, upper);
        }
        let yes = self.emit_compared(field, true, Comparison::AtMost, first.high, upper)?;
        let to = Targets { yes, no: to.no };
        self.emit_compared(field, is_held, Comparison::AtLeast, first.low, to)
    }

    /// As `emit_chain`, by a binary search: the intervals are halved down to `few`, at most `halvings`
    /// times. A test decides whether the field is in the lower half.
    #[tactic(auto, using(crate::proofs::Search::search_steps))]
    fn emit_search(
        &mut self,
        few: usize,
        field: FieldPlace,
        is_held: bool,
        halvings: usize,
        is_above: bool,
        items: &[Interval],
        to: Targets,
    ) -> Result<usize, AllocError>
        ensures { (link : Link) → Emits result
            (emit_after (held_if is_held field) link (search few field halvings is_above
            items.now) to.yes to.no self.old) self.new }
    {
        if halvings == 0 || are_few(few, items) {
            return self.emit_chain(field, is_held, is_above, items, to);
        }
        let half = items.len() / 2;
        let (lower, upper) = (&items[..half], &items[half..]);
        let no = self.emit_search(few, field, true, halvings - 1, true, upper, to)?;
        let yes = self.emit_search(few, field, true, halvings - 1, is_above, lower, to)?;
        let to = Targets { yes, no };
        self.emit_compared(field, is_held, Comparison::Less, low_of(upper), to)
    }

    /// Emits whether a field, under a mask if there is one, is in some intervals, which ascend.
    /// Returns the place where the code begins.
    fn emit_within(
        &mut self,
        few: usize,
        mask: Option<u32>,
        items: &[Interval],
        offset: Offset,
        width: Width,
        to: Targets,
    ) -> Result<usize, AllocError>
        ensures { (link : Link) → EmitsFormula link (within_formula few mask items.now offset width) to
            self.old result self.new }
    {
        let field = FieldPlace {
            offset,
            width,
            mask,
        };
        self.emit_search(few, field, false, MOST_HALVINGS, false, items, to)
    }

    /// Emits whether either side is one of few numbers: the source is compared with the first
    /// member's, the destination with all, and the source with the others.
    fn emit_few(
        &mut self,
        few: usize,
        at: Sides,
        numbers: &Numbers<'_>,
        to: Targets,
    ) -> Result<usize, AllocError>
        ensures { (link : Link) → EmitsFormula link (few_formula few at numbers.now) to self.old
            result self.new }
    {
        let (yes, width, mask) = (to.yes, at.width, numbers.mask);
        let no = self.emit_within(few, mask, numbers.others, at.source, width, to)?;
        let to = Targets { yes, no };
        let no = self.emit_within(few, mask, numbers.all, at.destination, width, to)?;
        let to = Targets { yes, no };
        self.emit_within(few, mask, &[numbers.first], at.source, width, to)
    }

    /// Emits whether either side is one of many numbers. If the source is one of them, but not of
    /// the first member, it is asked whether the destination is captured.
    fn emit_many(
        &mut self,
        at: Sides,
        numbers: &Numbers<'_>,
        to: Targets,
    ) -> Result<usize, AllocError>
        ensures { (link : Link) → EmitsFormula link (many_formula at numbers.now) to self.old result
            self.new }
    {
        let (yes, width, mask) = (to.yes, at.width, numbers.mask);
        let no = self.emit_within(0, mask, numbers.all, at.destination, width, to)?;
        let captured = compares_at(at.destination, width, Comparison::AtLeast, 0);
        let asked = self.emit_elementary(captured, Targets { yes, no })?;
        let to = Targets { yes, no: asked };
        let yes = self.emit_within(0, mask, &[numbers.first], at.source, width, to)?;
        self.emit_within(0, mask, numbers.all, at.source, width, Targets { yes, no })
    }

    /// Emits whether the sides that a direction asks for are some numbers. Returns the place where
    /// the code begins. Many on either side are read at X, so that the same code may serve for
    /// headers of each kind. `few` aren't halved.
    pub fn emit_among(
        &mut self,
        few: usize,
        link: Link,
        direction: Direction,
        at: Sides,
        numbers: &Numbers<'_>,
        to: Targets,
    ) -> Result<usize, AllocError>
        ensures { EmitsFormula link (sought_formula few link direction at numbers.now) to self.old
            result self.new }
    {
        let offset = match direction {
            Direction::One(Side::Source) => at.source,
            Direction::One(Side::Destination) => at.destination,
            Direction::Both(Join::Or) if are_at_index(few, link, at, numbers) => {
                return self.emit_many(sides_at_index(link, at), numbers, to);
            }
            Direction::Both(Join::Or) => return self.emit_few(few, at, numbers, to),
            // Several numbers never have this direction (`same_direction` of group.rt).
            Direction::Both(Join::And) => return Ok(to.no),
        };
        self.emit_within(few, numbers.mask, numbers.all, offset, at.width, to)
    }
}
