//! Groups of addresses, ports, protocols or relations, which one search or decision tree looks for
//! together. The walk adds the members from the last one in the expression to the first.

ghost use Rattle.std.specs.Prelude.{◌≡◌, ◌≤◌, [], if◌then◌else◌, Some, None, length, IfOk, OnOk};
ghost use Rattle.flt_gen.specs.inside.Group.{no_group, same_type, same_protocol, same_direction};
ghost use Rattle.flt_gen.specs.inside.Group.{goes_with, is_prefix, net_member, member_of, is_empty};
ghost use Rattle.flt_gen.specs.inside.Group.{larger_group, is_searched, group_formula};
ghost use Rattle.flt_gen.specs.inside.Group.{rows_formula, several_formula, has_addresses};
ghost use Rattle.flt_gen.specs.inside.Group.{has_networks, case_goes_with, with_case, larger_by};
ghost use Rattle.std.specs.{Prelude.reverse, List.insert};
ghost use Rattle.flt_gen.specs.inside.{Group.entry_formula, Group.fewest_either, Cases.case_of};
ghost use Rattle.flt_gen.specs.inside.{Emits.EmitsFormula, Intervals.insert_ascending};

use crate::among::most_in_turn;
use crate::cases::{Case, are_either, case_of, put_case, same_words};
use crate::code::{Code, Result, Targets};
use crate::elementary::Interval;
use crate::intervals::{Numbers, Room};
use crate::number::emit_protocol_tests;
use crate::relation::{Relation, relation_test};
use crate::stack::Stack;
use crate::wanted::Wanted;
use cap_octet::Link;
use flt_ast::{CompleteQualifiers, Direction, Value};
use flt_words::{Join, Protocol, Side, ValueType};
use std::alloc::Allocator;
use std::marker::Model;

/// The most members of a group. Each is inserted in order among the others, so a group takes time
/// by the square of its length.
const MOST_TOGETHER: usize = 4096;

/// How many are looked for together at least where not each is one number: the code of two might be
/// longer than their bound allows.
const FEWEST_RANGES: usize = 3;

/// How many cases are decided together at least: fewer are shorter one after the other.
const FEWEST_CASES: usize = 8;

/// How many addresses and networks of IPv6 on one side are: fewer may be longer, if networks contain
/// others of the list.
const FEWEST_ADDRESSES: usize = 20;

/// How many addresses of IPv6 on either side are: the code of two might be longer than their bound
/// allows.
const FEWEST_EITHER_IP6: usize = 3;

/// How many MAC addresses on either side are, for the same reason: each has fewer tests.
const FEWEST_EITHER_MAC: usize = 4;

/// A member: a value with its qualifiers, or a relation.
#[derive(Clone, Copy)]
pub enum Entry {
    Value(CompleteQualifiers, Value),
    Relation(Relation),
}

/// Addresses, ports or protocols with the same qualifiers, as far as these count, or relations of
/// one accessor.
#[derive(Drop)]
pub struct Group<A: Allocator> {
    /// Those of the value that stands first in the expression. With relations they decide nothing.
    qualifiers: CompleteQualifiers,
    /// Whether each member is one number.
    is_plain: bool,
    /// The numbers of the value that stands first.
    first: Interval,
    /// The numbers of all, which ascend by their beginnings.
    all: Vec<Interval, A>,
    /// The member that stands first, if they are compared word by word; else they have numbers.
    case: Option<Case>,
    /// The members that are compared word by word, which ascend.
    cases: Vec<Case, A>,
    /// The members, of which the first in the expression is the latest.
    entries: Stack<Entry, A>,
    room: Room<A>,
}

impl<A: Allocator> Model for Group<A> {
    ghost use Rattle.flt_gen.specs.inside.Group.{Group};

    ghost Value = { Group };

    ghost view = { λ g. record {
      qualifiers = g.qualifiers;
      is_plain = g.is_plain;
      first = g.first;
      all = g.all.items;
      case = g.case;
      cases = g.cases.items;
      entries = g.entries;
    } };
}

/// Whether members of this type are addresses or networks of IPv4: else they are ports or ranges.
fn has_addresses(value_type: ValueType) -> bool
    ensures { result ≡ has_addresses value_type }
{
    matches!(value_type, ValueType::Host | ValueType::Net)
}

/// Whether members of both types are addresses, or of both ports.
fn same_type(one: ValueType, other: ValueType) -> bool
    ensures { result ≡ same_type one other }
{
    has_addresses(one) == has_addresses(other)
}

/// Whether both have no protocol, or the same.
fn same_protocol(one: Option<Protocol>, other: Option<Protocol>) -> bool
    ensures { result ≡ same_protocol one other }
{
    match (one, other) {
        (None, None) => true,
        (Some(one), Some(other)) => one == other,
        _ => false,
    }
}

/// Whether both have the same direction. `src and dst` counts as never the same: it isn't looked
/// for together.
fn same_direction(one: Direction, other: Direction) -> bool
    ensures { result ≡ same_direction one other }
{
    match (one, other) {
        (Direction::One(Side::Source), Direction::One(Side::Source)) => true,
        (Direction::One(Side::Destination), Direction::One(Side::Destination)) => true,
        (Direction::Both(Join::Or), Direction::Both(Join::Or)) => true,
        _ => false,
    }
}

/// Whether a mask is that of a prefix: its bits are the first ones.
fn is_prefix(mask: u32) -> bool
    ensures { result ≡ is_prefix mask }
{
    u64::from(mask) + 2u64.pow(32 - mask.count_ones()) == 0x1_0000_0000
}

/// A network as a member: `None` if it has no prefix, or if its address has other bits.
fn net_member(value: Value) -> Option<Interval>
    ensures { result ≡ net_member value }
{
    match value.ip4_net() {
        Some(net) if is_prefix(net.mask) && net.address & net.mask == net.address => {
            let (low, high) = (net.address, net.address + (u32::MAX - net.mask));
            Some(Interval { low, high })
        }
        _ => None,
    }
}

/// A value as a member of a group: an address or network of IPv4, a port or a range of ports.
/// `None` for a value that can't be one.
fn member_of(value_type: ValueType, value: Value) -> Option<Interval>
    ensures { result ≡ member_of value_type value }
{
    let (low, high) = match (value_type, value) {
        (ValueType::Net, value) => return net_member(value),
        (ValueType::Host, Value::Dotted(host, _)) => (host.address, host.address),
        (ValueType::Port, Value::Number(port, _)) => (port, port),
        (ValueType::PortRange, Value::Range { first, last }) => (first.min(last), first.max(last)),
        _ => return None,
    };
    Some(Interval { low, high })
}

/// The index at which an interval is put among others, so that they still ascend.
fn place_among(numbers: &[Interval], new: Interval) -> usize
    ensures inside { result ≤ length numbers.now }
    ensures place { insert numbers.now result new ≡ insert_ascending new numbers.now }
{
    let mut at = 0;
    // The label names the loop in its proof.
    'lower: while at < numbers.len() && numbers[at].low < new.low {
        at += 1;
    }
    at
}

/// How many cases with the words of this one are looked for together on either side at least.
fn fewest_either(case: Case) -> usize
    ensures { result ≡ fewest_either case }
{
    match case {
        Case::Mac(_) => FEWEST_EITHER_MAC,
        _ => FEWEST_EITHER_IP6,
    }
}

impl<A: Allocator> Group<A> {
    /// Takes all members out.
    pub fn clear(&mut self)
        ensures { self.new ≡ no_group }
    {
        self.qualifiers = NO_QUALIFIERS;
        self.is_plain = true;
        self.first = Interval { low: 0, high: 0 };
        self.all.clear();
        self.case = None;
        self.cases.clear();
        self.entries.clear();
    }

    /// Whether there is no member.
    pub fn is_empty(&self) -> bool
        ensures { result ≡ is_empty self.now.entries }
    {
        self.entries.entries().is_empty()
    }

    /// Whether a value with these qualifiers may join the members: any may if there are none, else
    /// one with the same (`same_type`, `same_protocol`, `same_direction`), while there are fewer
    /// than `MOST_TOGETHER`.
    fn goes_with(&self, qualifiers: CompleteQualifiers) -> bool
        ensures { result ≡ goes_with qualifiers self.now self.now.entries }
    {
        self.is_empty()
            || (self.case.is_none()
                && (same_type(qualifiers.value_type, self.qualifiers.value_type)
                    && (same_protocol(qualifiers.protocol, self.qualifiers.protocol)
                        && (same_direction(qualifiers.direction, self.qualifiers.direction)
                            && self.entries.entries().len() < MOST_TOGETHER))))
    }

    /// Whether a case with this direction may join the members: it may if there are none, else with
    /// their words and direction, while there are fewer than `MOST_TOGETHER`.
    fn case_goes_with(&self, case: Case, direction: Direction) -> bool
        ensures { result ≡ case_goes_with case direction self.now self.now.entries }
    {
        if self.is_empty() {
            return true;
        }
        match self.case {
            None => false,
            Some(other) => {
                same_words(direction, other, case)
                    && same_direction(direction, self.qualifiers.direction)
                    && self.entries.entries().len() < MOST_TOGETHER
            }
        }
    }

    /// Adds a case, if it goes with the members. Returns `false` if it isn't added.
    #[tactic(auto, using(std::proofs::lemmas::Grind::common_steps))]
    fn add_case(&mut self, qualifiers: CompleteQualifiers, entry: Entry, case: Case) -> Result<bool>
        ensures taken { IfOk result (λ taken. larger_by qualifiers entry case self.old
            ≡ (if taken then Some self.new else None)) }
        ensures same { IfOk result (λ taken. self.new ≡ (if taken then self.new else self.old)) }
    {
        if !self.case_goes_with(case, qualifiers.direction) {
            return Ok(false);
        }
        put_case(&mut self.cases, case)?;
        self.entries.push(entry)?;
        self.qualifiers = qualifiers;
        self.case = Some(case);
        Ok(true)
    }

    /// Adds an entry, which comes before the members in the expression, if it can be a member and
    /// goes with them. Returns `false` if it isn't added.
    pub fn add(&mut self, entry: Entry) -> Result<bool>
        ensures taken { IfOk result (λ taken. larger_group entry self.old
            ≡ (if taken then Some self.new else None)) }
        ensures same { IfOk result (λ taken. self.new ≡ (if taken then self.new else self.old)) }
    {
        let (qualifiers, value) = match entry {
            Entry::Value(qualifiers, value) => (qualifiers, value),
            Entry::Relation(relation) => {
                return self.add_case(NO_QUALIFIERS, entry, Case::Relation(relation));
            }
        };
        if let Some(case) = case_of(qualifiers, value) {
            return self.add_case(qualifiers, entry, case);
        }
        match member_of(qualifiers.value_type, value) {
            Some(new) if self.goes_with(qualifiers) => {
                let at = place_among(&self.all, new);
                self.all.insert(at, new)?;
                self.entries.push(entry)?;
                self.qualifiers = qualifiers;
                self.is_plain = new.low == new.high && self.is_plain;
                self.first = new;
                Ok(true)
            }
            _ => Ok(false),
        }
    }

    /// Whether the members are looked for together.
    fn is_searched(&self) -> bool
        ensures { result ≡ is_searched self.now }
    {
        let fewest = match self.case {
            None if self.is_plain => 2,
            None => FEWEST_RANGES,
            Some(case) if are_either(self.qualifiers.direction, case) => fewest_either(case),
            Some(Case::Ip6(_, _)) => FEWEST_ADDRESSES,
            Some(_) => FEWEST_CASES,
        };
        self.entries.entries().len() >= fewest
    }

    /// Whether networks are looked for, not only hosts or ports.
    fn has_networks(&self) -> bool
        ensures { result ≡ has_networks self.now }
    {
        has_addresses(self.qualifiers.value_type) && !self.is_plain
    }

    /// Emits the code that looks for the members. Returns the place where it begins.
    pub fn emit(&mut self, link: Link, code: &mut Code<A>, to: Targets) -> Result<usize>
        ensures { EmitsFormula link (group_formula link self.old) to code.old result code.new }
    {
        if !self.is_searched() {
            return code.emit_rows(link, self.entries.entries(), to);
        }
        if let Some(first) = self.case {
            return code.emit_cases(link, self.qualifiers.direction, first, &self.cases, to);
        }
        let has_networks = self.has_networks();
        let numbers = self.room.numbers(has_networks, self.first, &self.all)?;
        code.emit_several(link, self.qualifiers, &numbers, to)
    }
}

impl<A: Allocator> Code<A> {
    /// Emits the code that looks for several numbers, with their qualifiers.
    fn emit_several(
        &mut self,
        link: Link,
        qualifiers: CompleteQualifiers,
        numbers: &Numbers<'_>,
        to: Targets,
    ) -> Result<usize>
        ensures { EmitsFormula link (several_formula link qualifiers (has_addresses
            qualifiers.value_type) numbers.now) to self.old result self.new }
    {
        let (protocol, direction) = (qualifiers.protocol, qualifiers.direction);
        if has_addresses(qualifiers.value_type) {
            let wanted = Wanted::Several(direction, most_in_turn(protocol, numbers.first));
            return self.emit_hosts(link, protocol, wanted, numbers, to);
        }
        self.emit_ports(link, protocol, Wanted::Several(direction, 0), numbers, to)
    }

    /// Emits members one after the other, the last of the expression first.
    fn emit_rows(&mut self, link: Link, entries: &[Entry], to: Targets) -> Result<usize>
        ensures { EmitsFormula link (rows_formula link (reverse entries.now)) to self.old result
            self.new }
    {
        let mut no = to.no;
        for entry in entries {
            let to = Targets { yes: to.yes, no };
            no = self.emit_entry(link, *entry, to)?;
        }
        Ok(no)
    }

    /// Emits a member by itself.
    pub fn emit_entry(&mut self, link: Link, entry: Entry, to: Targets) -> Result<usize>
        ensures { EmitsFormula link (entry_formula link entry) to self.old result self.new }
    {
        match entry {
            Entry::Value(qualifiers, value) => self.emit_value(link, qualifiers, value, to),
            Entry::Relation(relation) => {
                let yes = self.emit_elementary(relation_test(link, relation), to)?;
                emit_protocol_tests(self, link, relation.protocol, Targets { yes, no: to.no })
            }
        }
    }
}

/// The qualifiers of a group without members. They decide nothing.
const NO_QUALIFIERS: CompleteQualifiers = CompleteQualifiers {
    protocol: None,
    direction: Direction::Both(Join::Or),
    value_type: ValueType::Host,
};

impl<A: Allocator + Clone> Group<A> {
    /// A group without members, which any value may join that can be a member at all. An error is
    /// an allocator that cannot be cloned.
    #[tactic(auto, using(std::proofs::lemmas::Grind::common_steps))]
    pub fn new(alloc: A) -> Result<Self>
        ensures { IfOk result (λ group. group ≡ no_group) }
    {
        Ok(Group {
            qualifiers: NO_QUALIFIERS,
            is_plain: true,
            first: Interval { low: 0, high: 0 },
            all: Vec::new(alloc.clone()?),
            case: None,
            cases: Vec::new(alloc.clone()?),
            entries: Stack::new(alloc.clone()?),
            room: Room::new(alloc)?,
        })
    }
}
