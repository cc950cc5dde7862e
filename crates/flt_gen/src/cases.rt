//! Lists of MAC addresses, of addresses and networks of IPv6, of protocol numbers, and of relations of
//! one accessor, as decision trees: the first words are compared by halves, and then the next ones.
//! Addresses are on one side, or on either if all of their words but the last are the same. A test
//! right below one of the same word, which halves the members, doesn't load it again.

ghost use Rattle.flt_gen.specs.inside.Cases.{case_of, same_words, key_of, insert_case, case_front};
ghost use Rattle.flt_gen.specs.inside.Cases.{case_tests, lowest, reach, word_test, keeps, all_keep};
ghost use Rattle.flt_gen.specs.inside.Cases.{test_at, from_test, middle, is_parted, chain};
ghost use Rattle.flt_gen.specs.inside.Cases.{decision, either_formula, few_of, list_formula};
ghost use Rattle.flt_gen.specs.inside.Cases.{cases_formula, shares, are_either, mac_place};
ghost use Rattle.std.specs.Prelude.{◌≡◌, ◌≤◌, ◌+◌, drop, length, OnOk, count_by, nat_lt};
ghost use Rattle.flt_gen.specs.inside.Cases.{ip6_place};
ghost use Rattle.flt_gen.specs.inside.{Emits.Emits, Emits.EmitsFormula, Emitted.needed_tests};
ghost use Rattle.flt_gen.specs.inside.Code.{emit_all, emit_formula, emit_after};
ghost use Rattle.cap_octet.specs.Link.{longest_header, network_offset};

use crate::address::{ip6_test, ip6_tests};
use crate::code::{Code, Result, Targets};
use crate::elementary::{
    Elementary, FieldPlace, FieldTest, FrameKind, has_ip_proto, has_ip6_proto, kind_test,
    network_offset,
};
use crate::number::emit_protocol_tests;
use crate::protocol::mac_tests;
use crate::relation::{Relation, relation_test};
use cap_octet::Link;
use flt_ast::{CompleteQualifiers, Direction, Value};
use flt_words::{Comparison, Join, Protocol, Side, ValueType};
use std::alloc::Allocator;

/// How many cases of several words are compared one after the other, at most. Each half of more
/// has 7 at least, of 3 instructions each, so the tests between halves make a list longer by 5 % at
/// most.
const MOST_OF_WORDS: usize = 13;

/// How many MAC addresses of a long list are, at most: it is longer then, and takes fewer steps.
const MOST_OF_LONG: usize = 4;

/// How many MAC addresses make a list long.
const LONG_LIST: usize = 40;

/// How many cases of one word are compared one after the other, at most. Each half of more has 20
/// at least, so the tests between halves make a list longer by 5 % at most.
const MOST_IN_TURN: usize = 40;

/// How often cases are halved, or all have the same word, at most.
const MOST_DECISIONS: usize = 64;

/// A MAC address divided by this is its first word.
const MAC_FRONT: u64 = 0x1_0000;

/// An address of IPv6 divided by this is its first three words.
const IP6_FRONT: u128 = 0x1_0000_0000;

/// A value that is compared word by word.
#[derive(Clone, Copy)]
pub enum Case {
    Mac(u64),
    /// An address of IPv6, with the length of its prefix where not all of its bits count.
    Ip6(Option<u32>, u128),
    IpProto(u32),
    Ip6Proto(u32),
    Relation(Relation),
}

/// A bound of the numbers that a word may be.
#[derive(Clone, Copy)]
enum Bound {
    Below(u32),
    From(u32),
    Exactly(u32),
}

/// A value with its qualifiers as a case: an address of one side or of either, a network of one side,
/// or a protocol of IPv4 or of IPv6. `None` for any other.
pub fn case_of(qualifiers: CompleteQualifiers, value: Value) -> Option<Case>
    ensures { result
        ≡ case_of qualifiers.value_type qualifiers.protocol qualifiers.direction value }
{
    match (qualifiers.value_type, qualifiers.direction, value) {
        (ValueType::Host, Direction::Both(Join::And), _) => None,
        (ValueType::Host, _, Value::Mac(address)) => Some(Case::Mac(address)),
        (ValueType::Host, _, Value::Ip6(address, _)) => Some(Case::Ip6(None, address)),
        (ValueType::Net, Direction::One(_), Value::Ip6(address, prefix)) => {
            Some(Case::Ip6(prefix, address))
        }
        (ValueType::Proto, _, Value::Number(number, _)) => match qualifiers.protocol {
            Some(Protocol::Ip) => Some(Case::IpProto(number)),
            Some(Protocol::Ip6) => Some(Case::Ip6Proto(number)),
            _ => None,
        },
        _ => None,
    }
}

/// Whether the words that two addresses have to share do so: on one side there are none.
fn shares(direction: Direction, are_same: bool) -> bool
    ensures { result ≡ shares direction are_same }
{
    match direction {
        Direction::Both(Join::Or) => are_same,
        _ => true,
    }
}

/// Whether both may be in one list: they are of one kind, so the same words are compared, and on
/// either side all words but the last are the same.
pub fn same_words(direction: Direction, one: Case, other: Case) -> bool
    ensures { result ≡ same_words direction one other }
{
    match (one, other) {
        (Case::Mac(one), Case::Mac(other)) => {
            shares(direction, one / MAC_FRONT == other / MAC_FRONT)
        }
        (Case::Ip6(prefix, one), Case::Ip6(other_prefix, other)) => {
            let are_hosts = prefix.is_none() && other_prefix.is_none();
            shares(direction, are_hosts && one / IP6_FRONT == other / IP6_FRONT)
        }
        (Case::IpProto(_), Case::IpProto(_)) | (Case::Ip6Proto(_), Case::Ip6Proto(_)) => true,
        (Case::Relation(one), Case::Relation(other)) => {
            one.protocol == other.protocol && one.size == other.size && one.index == other.index
        }
        _ => false,
    }
}

/// The number by which cases ascend.
pub fn key_of(case: Case) -> u128
    ensures { result ≡ key_of case }
{
    match case {
        Case::Mac(address) => address.into(),
        Case::Ip6(_, address) => address,
        Case::IpProto(number) | Case::Ip6Proto(number) => number.into(),
        Case::Relation(relation) => relation.number.into(),
    }
}

/// Puts a case among others, so that they still ascend.
pub fn put_case<A: Allocator>(cases: &mut Vec<Case, A>, new: Case) -> Result<()>
    ensures { OnOk result (cases.new.items ≡ insert_case new cases.old.items) }
{
    let key = key_of(new);
    let mut at = 0;
    for case in &*cases {
        if key_of(*case) < key {
            at += 1;
        }
    }
    Ok(cases.insert(at, new)?)
}

/// The place of a side's address in an Ethernet frame.
fn mac_place(direction: Direction) -> u32
    ensures { result ≡ mac_place direction }
{
    match direction {
        Direction::One(Side::Source) => 6,
        _ => 0,
    }
}

/// The place of a side's address in a packet of IPv6: byte 8 or 24 of its header (RFC 8200, section
/// 3).
fn ip6_place(link: Link, direction: Direction) -> u32
    ensures place { result ≡ network_offset link + ip6_place direction }
    ensures near { result ≤ longest_header + 24 }
{
    match direction {
        Direction::One(Side::Source) => network_offset(link) + 8,
        _ => network_offset(link) + 24,
    }
}

/// The test of a word of a case; `None` past its last one.
fn word_test(link: Link, direction: Direction, case: Case, word: usize) -> Option<Elementary>
    ensures { result ≡ word_test (case_tests link direction) word case }
{
    match (case, word) {
        (Case::Mac(address), 0 | 1) => Some(mac_tests(mac_place(direction), address)[word]),
        (Case::Ip6(prefix, address), 0..=3) => {
            Some(ip6_test(prefix, address, ip6_place(link, direction), word as u32))
        }
        (Case::IpProto(number), 0) => Some(has_ip_proto(link, number)),
        (Case::Ip6Proto(number), 0) => Some(has_ip6_proto(link, number)),
        (Case::Relation(relation), 0) => Some(relation_test(link, relation)),
        _ => None,
    }
}

/// The lowest number that a word may be for a test of it.
fn lowest(test: Option<Elementary>) -> u32
    ensures { result ≡ lowest test }
{
    match test {
        Some(Elementary::Field(field)) => field.value,
        _ => 0,
    }
}

/// How far past its value a test's numbers may reach: the bits that don't count.
fn reach(mask: Option<u32>) -> u32
    ensures { result ≡ reach mask }
{
    match mask {
        None => 0,
        Some(mask) => u32::MAX - mask,
    }
}

/// Whether all numbers for which a test is yes keep a bound.
fn keeps(bound: Bound, test: Option<Elementary>) -> bool
    ensures { result ≡ keeps bound test }
{
    let Some(Elementary::Field(field)) = test else {
        return false;
    };
    match bound {
        Bound::Below(number) => field.value.saturating_add(reach(field.mask)) < number,
        Bound::From(number) => number <= field.value,
        Bound::Exactly(number) => field.mask.is_none() && field.value == number,
    }
}

/// The test that the word of `test` is a number at least.
fn from_test(test: Option<Elementary>, number: u32) -> Elementary
    ensures { result ≡ from_test test number }
{
    match test {
        Some(Elementary::Field(field)) => Elementary::Field(FieldTest {
            mask: None,
            comparison: Comparison::AtLeast,
            value: number,
            ..field
        }),
        _ => Elementary::Outcome(false),
    }
}

/// Whether the tests of a word keep a bound in all of some cases.
fn all_keep(link: Link, direction: Direction, word: usize, bound: Bound, cases: &[Case]) -> bool
    ensures { result ≡ all_keep (case_tests link direction) word bound cases.now }
{
    for case in cases {
        if !keeps(bound, word_test(link, direction, *case, word)) {
            return false;
        }
    }
    true
}

/// The test of a word of the case at a place, if there is one.
fn test_at(
    link: Link,
    direction: Direction,
    word: usize,
    cases: &[Case],
    at: usize,
) -> Option<Elementary>
    ensures { result ≡ test_at (case_tests link direction) word cases.now at }
{
    match cases.get(at) {
        None => None,
        Some(case) => word_test(link, direction, *case, word),
    }
}

/// How many of some cases have a word that is lower than a number.
fn count_lower(link: Link, direction: Direction, word: usize, cases: &[Case], number: u64) -> usize
    ensures { result ≡ count_by
        (λ c. nat_lt (lowest (word_test (case_tests link direction) word c)) number) cases.now }
{
    let mut count = 0;
    for case in cases {
        if u64::from(lowest(word_test(link, direction, *case, word))) < number {
            count += 1;
        }
    }
    count
}

/// The place of the case with which the upper half begins: the first whose word isn't lower than
/// that of the middle one, or if that is the first of all, the first whose word is higher. Cases
/// ascend, so this place is a count of lower words; `is_parted` tests it afterwards, so no promise
/// rests on their order.
fn middle(link: Link, direction: Direction, word: usize, cases: &[Case]) -> usize
    ensures { result ≡ middle (case_tests link direction) word cases.now }
{
    let number = lowest(test_at(link, direction, word, cases, cases.len() / 2)).into();
    let at = count_lower(link, direction, word, cases, number);
    if at > 0 {
        return at;
    }
    count_lower(link, direction, word, cases, number + 1)
}

/// Whether cases from a place on are parted from those before by their words.
fn is_parted(link: Link, direction: Direction, word: usize, cases: &[Case], at: usize) -> bool
    ensures { result ≡ is_parted (case_tests link direction) word cases.now at }
{
    let number = lowest(test_at(link, direction, word, cases, at));
    at > 0
        && at < cases.len()
        && all_keep(link, direction, word, Bound::Below(number), &cases[..at])
        && all_keep(link, direction, word, Bound::From(number), &cases[at..])
}

/// Whether cases with this direction, as this one, are looked for on either side.
pub fn are_either(direction: Direction, case: Case) -> bool
    ensures { result ≡ are_either direction case }
{
    matches!(case, Case::Mac(_) | Case::Ip6(_, _)) && matches!(direction, Direction::Both(Join::Or))
}

/// How many of some cases with the words of this one are compared one after the other, at most.
fn few_of(one: Case, count: usize) -> usize
    ensures { result ≡ few_of one count }
{
    let half = count - count / 2;
    match one {
        Case::Mac(_) if count >= LONG_LIST => MOST_OF_LONG,
        Case::Mac(_) | Case::Ip6(_, _) => half.min(MOST_OF_WORDS),
        _ => half.min(MOST_IN_TURN),
    }
}

impl<A: Allocator> Code<A> {
    /// Emits the tests of words from one on, which all have to hold, without those that decide
    /// nothing. Returns the place where they begin; for no test that is `to.yes`.
    fn emit_words(&mut self, word: usize, tests: &[Elementary], to: Targets) -> Result<usize>
        ensures { Emits result
            (emit_all (needed_tests (drop word tests.now)) to.yes to.no self.old) self.new }
    {
        if word >= tests.len() {
            return Ok(to.yes);
        }
        self.emit_tests(true, &tests[word..], to)
    }

    /// Emits the tests of a case from a word on, as `emit_words`.
    fn emit_case_from(
        &mut self,
        link: Link,
        direction: Direction,
        word: usize,
        case: Case,
        to: Targets,
    ) -> Result<usize>
        ensures { Emits result (emit_all (needed_tests (drop word (case_tests link direction case)))
            to.yes to.no self.old) self.new }
    {
        match case {
            Case::Mac(address) => {
                self.emit_words(word, &mac_tests(mac_place(direction), address), to)
            }
            Case::Ip6(prefix, address) => {
                let tests = ip6_tests(prefix, address, ip6_place(link, direction));
                self.emit_words(word, &tests, to)
            }
            Case::IpProto(number) => self.emit_words(word, &[has_ip_proto(link, number)], to),
            Case::Ip6Proto(number) => self.emit_words(word, &[has_ip6_proto(link, number)], to),
            Case::Relation(relation) => self.emit_words(word, &[relation_test(link, relation)], to),
        }
    }

    /// Emits one case after the other. It calls itself for each: they are few, but where networks
    /// contain others of the list.
    fn emit_cases_in_turn(
        &mut self,
        link: Link,
        direction: Direction,
        word: usize,
        cases: &[Case],
        to: Targets,
    ) -> Result<usize>
        ensures { Emits result (emit_formula link (chain (case_tests link direction) word cases.now)
            to.yes to.no self.old) self.new }
    {
        match cases {
            [] => Ok(to.no),
            [first, others @ ..] => {
                let no = self.emit_cases_in_turn(link, direction, word, others, to)?;
                self.emit_case_from(link, direction, word, *first, Targets { yes: to.yes, no })
            }
        }
    }

    /// Emits cases by halves of one word after the other, down to `few`, or `most` times. `held` is
    /// the word that A holds, if it holds one.
    fn emit_decision(
        &mut self,
        held: Option<FieldPlace>,
        most: usize,
        few: usize,
        link: Link,
        direction: Direction,
        word: usize,
        cases: &[Case],
        to: Targets,
    ) -> Result<usize>
        ensures { Emits result (emit_after held link (decision few most (case_tests link direction)
            word cases.now) to.yes to.no self.old) self.new }
    {
        if most == 0 || cases.len() <= few {
            return self.emit_cases_in_turn(link, direction, word, cases, to);
        }
        let test = test_at(link, direction, word, cases, 0);
        if all_keep(link, direction, word, Bound::Exactly(lowest(test)), cases) {
            let Some(test) = test else {
                return Ok(to.no);
            };
            let next = word + 1;
            if test_at(link, direction, next, cases, 0).is_none() {
                return self.emit_elementary(test, to);
            }
            let yes = self.emit_decision(None, most - 1, few, link, direction, next, cases, to)?;
            return self.emit_elementary(test, Targets { yes, no: to.no });
        }
        let at = middle(link, direction, word, cases);
        if !is_parted(link, direction, word, cases, at) {
            return self.emit_cases_in_turn(link, direction, word, cases, to);
        }
        let number = lowest(test_at(link, direction, word, cases, at));
        let half = from_test(test, number);
        let left = half.left();
        let no = self.emit_decision(left, most - 1, few, link, direction, word, &cases[..at], to)?;
        let yes = self.emit_decision(left, most - 1, few, link, direction, word, &cases[at..], to)?;
        self.emit_test(held, half, Targets { yes, no })
    }

    /// Emits the tests in front of cases with the words of this one: the frames they may be in,
    /// or the tests that an accessor needs.
    fn emit_front(&mut self, link: Link, case: Case, to: Targets) -> Result<usize>
        ensures { Emits result (emit_all (case_front link case) to.yes to.no self.old) self.new }
    {
        let kind = match case {
            Case::Mac(_) => FrameKind::Ethernet,
            Case::Ip6(_, _) | Case::Ip6Proto(_) => FrameKind::Ip6,
            Case::IpProto(_) => FrameKind::Ip,
            Case::Relation(relation) => {
                return emit_protocol_tests(self, link, relation.protocol, to);
            }
        };
        self.emit_elementary(kind_test(link, kind), to)
    }

    /// Emits cases on either side, of which `first` stands first in the expression: if the source is
    /// one of them, but not that one, as much of the destination as a test of that one reads has to
    /// be captured.
    #[tactic(auto, using(crate::proofs::Decision::all_emitted))]
    fn emit_either(
        &mut self,
        link: Link,
        few: usize,
        first: Case,
        cases: &[Case],
        to: Targets,
    ) -> Result<usize>
        ensures { EmitsFormula link (either_formula link few first cases.now) to self.old result
            self.new }
    {
        let source = Direction::One(Side::Source);
        let destination = Direction::One(Side::Destination);
        let no = self.emit_decision(None, MOST_DECISIONS, few, link, destination, 0, cases, to)?;
        let yes = to.yes;
        let asked = self.emit_case_from(link, destination, 0, first, Targets { yes, no: yes })?;
        let later = self.emit_case_from(link, source, 0, first, Targets { yes, no: asked })?;
        let to = Targets { yes: later, no };
        self.emit_decision(None, MOST_DECISIONS, few, link, source, 0, cases, to)
    }

    /// Emits cases, of which `first` stands first in the expression.
    fn emit_list(
        &mut self,
        link: Link,
        direction: Direction,
        first: Case,
        cases: &[Case],
        to: Targets,
    ) -> Result<usize>
        ensures { EmitsFormula link (list_formula (are_either direction first) link direction first
            cases.now) to self.old result self.new }
    {
        let few = few_of(first, cases.len());
        if are_either(direction, first) {
            return self.emit_either(link, few, first, cases, to);
        }
        self.emit_decision(None, MOST_DECISIONS, few, link, direction, 0, cases, to)
    }

    /// Emits cases, of which `first` stands first in the expression, after the tests in front of
    /// them. Returns the place where the code begins.
    #[tactic(auto, using(crate::proofs::Decision::guarded_emitted))]
    pub fn emit_cases(
        &mut self,
        link: Link,
        direction: Direction,
        first: Case,
        cases: &[Case],
        to: Targets,
    ) -> Result<usize>
        ensures { EmitsFormula link (cases_formula link direction first cases.now) to self.old
            result self.new }
    {
        let yes = self.emit_list(link, direction, first, cases, to)?;
        self.emit_front(link, first, Targets { yes, no: to.no })
    }
}
