//! The abstract state at an instruction: what is known of the packet, of A and of X in each run
//! that reaches it; the join of two such states; and the states at all places, which here are
//! indices of instructions from the beginning of the code. What is known holds in each run: clauses
//! state it where facts are found, joined and added. Which fact gives way to another matters only
//! for the length of the code.
//!
//! `code` and `k` are those of a load: together they say which bytes of the packet it takes.

ghost use Rattle.std.specs.Prelude.{◌≡◌, ◌<◌, ◌==◌, true, Some, IsTrue, IfSome, List, All, ℕ};
ghost use Rattle.flt_bpf.specs.{Instructions.operation_of, declared.machine.State.State};
ghost use Rattle.flt_short.specs.inside.Facts.{same_index, same_load, same_field, claims_nothing};
ghost use Rattle.flt_short.specs.inside.Facts.{allows, load_of, Implies, same_held, holds_field};
ghost use Rattle.flt_short.specs.inside.Facts.{masked_held, held_after, known_after, Says};
ghost use Rattle.flt_short.specs.inside.Facts.{value_of, is_said, Holds, IsThere, HoldsAt};
ghost use Rattle.flt_short.specs.inside.Facts.{JoinsFact, JoinsFacts, JoinsBy, LearnsEqual, Learns};
ghost use Rattle.flt_short.specs.{inside.Facts.Arrives, declared.facts.IndexValue.IndexValue};

use flt_bpf::Wide;
use flt_bpf::operation::{AluOperation, Operand, Operation, Register, Source, Test, decode};

/// The number of facts kept at a place. One more takes the place of another (`place_for`).
pub const MOST_FACTS: usize = 7;

/// What X holds, by what put it there. Only numbers that fit a byte are kept, so that a state is
/// small.
#[derive(Clone, Copy)]
pub enum IndexValue {
    /// Anything.
    Unknown,
    /// The length of the IPv4 header that begins at this byte.
    HeaderLength(u8),
    /// This number.
    Number(u8),
}

/// A number of the packet: the value that the load with this code and this `k` puts into A; if
/// there is a mask, only its bits. The load is from a fixed place, or of the packet's length, or at
/// X while X holds `index`.
#[derive(Clone, Copy)]
pub struct Field {
    pub code: u16,
    pub index: IndexValue,
    pub k: u32,
    pub mask: Option<u32>,
}

/// A claim about a number: nothing, that it is this one, that it isn't, or that it is one of two.
#[derive(Clone, Copy)]
pub enum Claim {
    Nothing,
    Is(u32),
    IsNot(u32),
    IsOneOf(u32, u32),
}

/// A fact: the field is captured, and its number is as claimed. With `Nothing` neither is claimed.
#[derive(Clone, Copy)]
pub struct Fact {
    pub field: Field,
    pub claim: Claim,
}

/// The abstract value of A: A holds this in each run that reaches the place.
#[derive(Clone, Copy)]
pub enum Held {
    /// No run comes there.
    Unreached,
    /// Anything.
    Unknown,
    /// A field, which is captured.
    Field(Field),
    /// The value that the load at X with this code and this `k` would put there. X is unknown.
    AtIndex(u16, u32),
}

/// The abstract state at a place: it holds in each run that reaches the place.
#[derive(Clone, Copy)]
pub struct Known {
    pub held: Held,
    pub index: IndexValue,
    pub facts: [Fact; MOST_FACTS],
}

/// A fact that claims nothing.
const NOTHING_CLAIMED: Fact = Fact {
    field: Field {
        code: 0,
        index: IndexValue::Unknown,
        k: 0,
        mask: None,
    },
    claim: Claim::Nothing,
};

/// The state at a place if nothing is known of the runs that reach it.
pub fn nothing_known() -> Known
    ensures { (p : List ℕ) (n : ℕ) (s : State) → Holds p n result s }
{
    Known {
        held: Held::Unknown,
        index: IndexValue::Unknown,
        facts: [NOTHING_CLAIMED; MOST_FACTS],
    }
}

/// The state at a place that no run reaches.
pub fn unreached() -> Known {
    Known {
        held: Held::Unreached,
        ..nothing_known()
    }
}

/// Whether the same is known of X in two states.
pub fn same_index(one: IndexValue, other: IndexValue) -> bool
    ensures { result ≡ same_index one other }
{
    match (one, other) {
        (IndexValue::Unknown, IndexValue::Unknown) => true,
        (IndexValue::HeaderLength(at), IndexValue::HeaderLength(another)) => at == another,
        (IndexValue::Number(number), IndexValue::Number(another)) => number == another,
        _ => false,
    }
}

/// Whether two loads put the same into A.
fn same_load(one: &Field, other: &Field) -> bool
    ensures { result ≡ same_load one.now other.now }
{
    (one.code == other.code && one.k == other.k) && same_index(one.index, other.index)
}

/// Whether two fields are values of the same load, with the same mask or both without one.
pub fn same_field(one: &Field, other: &Field) -> bool
    ensures { result ≡ same_field one.now other.now }
{
    same_load(one, other) && one.mask == other.mask
}

/// Whether a claim is `Nothing`.
fn claims_nothing(claim: Claim) -> bool
    ensures { result ≡ claims_nothing claim }
{
    matches!(claim, Claim::Nothing)
}

/// Whether a number may be what is claimed.
fn allows(claim: Claim, number: u32) -> bool
    ensures { result ≡ allows claim number }
{
    match claim {
        Claim::Nothing => true,
        Claim::Is(one) => number == one,
        Claim::IsNot(one) => number != one,
        Claim::IsOneOf(one, other) => number == one || number == other,
    }
}

/// Whether the claim `other` holds of each number of which `claim` holds.
fn entails(claim: Claim, other: Claim) -> bool
    ensures { IsTrue result → Implies claim other }
{
    if claims_nothing(other) {
        return true;
    }
    match claim {
        Claim::Nothing => false,
        Claim::Is(number) => allows(other, number),
        Claim::IsNot(number) => matches!(other, Claim::IsNot(another) if another == number),
        Claim::IsOneOf(one, another) => allows(other, one) && allows(other, another),
    }
}

/// The join of two claims, of which one holds: the weaker of the two, that the number is one of two
/// numbers, or nothing.
fn joined_claim(claim: Claim, other: Claim) -> Claim
    ensures { Implies claim result × Implies other result }
{
    match (claim, other) {
        _ if entails(claim, other) => other,
        _ if entails(other, claim) => claim,
        (Claim::Is(one), Claim::Is(other)) => Claim::IsOneOf(one, other),
        _ => Claim::Nothing,
    }
}

/// The claim about the field of a fact that holds where two paths meet: this fact holds on one of
/// them, and all of `others` hold on the other. The first of these with which a claim is left
/// decides.
#[tactic(auto, using(crate::proofs::Knowing::joined_one, crate::proofs::Knowing::joined_none))]
fn claim_of_both(fact: &Fact, others: &[Fact]) -> Claim
    ensures { JoinsFact fact.now others.now (record { field = fact.now.field; claim = result }) }
{
    if claims_nothing(fact.claim) {
        return Claim::Nothing;
    }
    for other in others {
        if same_field(&fact.field, &other.field) {
            let claim = joined_claim(fact.claim, other.claim);
            if !claims_nothing(claim) {
                return claim;
            }
        }
    }
    Claim::Nothing
}

/// Changes facts to those that hold where two paths meet: all of them hold on one, and all of
/// `others` hold on the other.
fn join_facts(facts: &mut [Fact], others: &[Fact])
    ensures { JoinsFacts facts.old others.now facts.new }
{
    for at in 0..facts.len() {
        facts[at].claim = claim_of_both(&facts[at], others);
    }
}

/// Whether two values of A are the same value of the packet: not known of two that are `Unknown`.
pub fn same_held(one: &Held, other: &Held) -> bool
    ensures { result ≡ same_held one.now other.now }
{
    match (one, other) {
        (Held::Field(field), Held::Field(another)) => same_field(field, another),
        (Held::AtIndex(code, k), Held::AtIndex(another, other_k)) => {
            code == another && k == other_k
        }
        _ => false,
    }
}

/// The join of states: changes the state at a place so that it also holds in one more run, which
/// has the state `came`. If no run came before, it becomes `came`.
fn join(known: &mut Known, came: &Known)
    ensures { JoinsBy known.old.held known.old came.now known.new }
{
    if let Held::Unreached = known.held {
        *known = *came;
        return;
    }
    join_facts(&mut known.facts, &came.facts);
    if !same_held(&known.held, &came.held) {
        known.held = Held::Unknown;
    }
    if !same_index(known.index, came.index) {
        known.index = IndexValue::Unknown;
    }
}

/// The outcome of the test whether a number is this one, by a claim about it; `None` if the claim
/// doesn't decide it.
pub fn outcome_by_claim(claim: Claim, number: u32) -> Option<bool>
    ensures { IfSome result (λ outcome. (n : ℕ) → allows claim n ≡ true → (n == number) ≡ outcome) }
{
    match claim {
        Claim::Is(one) => Some(one == number),
        _ if allows(claim, number) => None,
        _ => Some(false),
    }
}

/// Whether a claim says something of whether a number is this one.
fn speaks_of(claim: Claim, number: u32) -> bool {
    match claim {
        Claim::Nothing => false,
        Claim::IsNot(one) => one == number,
        _ => true,
    }
}

/// The claim of the first fact that says something of whether a field is this number; `Nothing` if
/// no fact does.
#[tactic(auto, using(crate::proofs::Knowing::claimed))]
pub fn claim_about(facts: &[Fact], field: &Field, number: u32) -> Claim
    ensures { (p : List ℕ) (n v : ℕ) → All (Says p n) facts.now
        → value_of p n field.now ≡ Some v → allows result v ≡ true }
{
    for fact in facts {
        if same_field(&fact.field, field) && speaks_of(fact.claim, number) {
            return fact.claim;
        }
    }
    Claim::Nothing
}

/// Whether a new fact may take the place of an old one without loss: the old one claims nothing, or
/// follows from the new one.
fn gives_way(old: &Fact, fact: &Fact) -> bool {
    claims_nothing(old.claim)
        || (same_field(&old.field, &fact.field) && entails(fact.claim, old.claim))
}

/// The index of the fact whose place one more fact takes: the first one that it replaces
/// without loss, or else the last one.
fn place_for(facts: &[Fact; MOST_FACTS], fact: &Fact) -> usize
    ensures { result < MOST_FACTS }
{
    for at in 0..MOST_FACTS - 1 {
        if gives_way(&facts[at], fact) {
            return at;
        }
    }
    MOST_FACTS - 1
}

/// Adds a fact, in the place of the first one that it replaces without loss, or else of the last.
fn add_fact(known: &mut Known, field: Field, claim: Claim)
    ensures { (p : List ℕ) (n : ℕ) (s : State) → Holds p n known.old s
        → is_said claim (value_of p n field) ≡ true → Holds p n known.new s }
{
    let fact = Fact { field, claim };
    let at = place_for(&known.facts, &fact);
    known.facts[at] = fact;
}

/// Whether A holds the field of a load, perhaps masked, so that its bytes are captured.
fn holds_field(held: &Held, load: &Field) -> bool
    ensures { result ≡ holds_field held.now load.now }
{
    matches!(held, Held::Field(field) if same_load(field, load))
}

/// Whether the bytes that a load takes are captured, by what A holds or by a fact: any claim of
/// their number says so.
#[tactic(auto, using(crate::proofs::Knowing::field_there, crate::proofs::Knowing::there_by))]
pub fn is_captured(known: &Known, load: &Field) -> bool
    ensures { IsTrue result → (p : List ℕ) (n : ℕ) (s : State)
        → Holds p n known.now s → IsThere p n load.now }
{
    if holds_field(&known.held, load) {
        return true;
    }
    for fact in &known.facts {
        if same_load(&fact.field, load) && !claims_nothing(fact.claim) {
            return true;
        }
    }
    false
}

/// The value of A after a mask, by the value before. It is `Unknown` after two masks.
pub fn masked_held(held: Held, mask: u32) -> Held
    ensures { result ≡ masked_held held mask }
{
    match held {
        Held::Field(field) if field.mask.is_none() => Held::Field(Field {
            mask: Some(mask),
            ..field
        }),
        _ => Held::Unknown,
    }
}

/// Whether X holds the length of the header at this byte.
pub fn holds_header(index: IndexValue, at: u32) -> bool
    ensures { result ≡ same_index index (IndexValue.HeaderLength at) }
{
    matches!(index, IndexValue::HeaderLength(known) if u32::from(known) == at)
}

/// Whether X holds this number.
pub fn holds_number(index: IndexValue, number: u32) -> bool
    ensures { result ≡ same_index index (IndexValue.Number number) }
{
    matches!(index, IndexValue::Number(known) if u32::from(known) == number)
}

/// What an instruction loads if it is a load, while X holds `index`.
pub fn load_of(insn: Wide, index: IndexValue) -> Field
    ensures { result ≡ load_of insn index }
{
    Field {
        code: insn.code,
        index,
        k: insn.k,
        mask: None,
    }
}

/// The value of A after an instruction, by the values of A and X before. It is known after a load
/// of the packet or of its length, and after a mask of a field. A test keeps it; after all others
/// it is `Unknown`.
pub fn held_after(held: &Held, index: IndexValue, insn: Wide) -> Held
    ensures { result ≡ held_after (operation_of insn.code) held.now index insn }
{
    match decode(insn.code) {
        Some(Operation::LoadAbsolute(_) | Operation::Load(Register::Accumulator, Source::Length)) =>
            Held::Field(load_of(insn, IndexValue::Unknown)),
        Some(Operation::LoadIndirect(_)) => match index {
            IndexValue::Unknown => Held::AtIndex(insn.code, insn.k),
            _ => Held::Field(load_of(insn, index)),
        },
        Some(Operation::Compute(AluOperation::And, Operand::Constant)) => {
            masked_held(*held, insn.k)
        }
        Some(Operation::JumpIf(_, _)) => *held,
        _ => Held::Unknown,
    }
}

/// Changes the state before an instruction that isn't a test to the one after it. Facts are about
/// the packet, so they stay. What X holds is known only if a byte has room for it.
pub fn pass_insn(known: &mut Known, insn: Wide)
    ensures { known.new ≡ known_after (operation_of insn.code) known.old insn }
{
    let index = known.index;
    known.held = held_after(&known.held, index, insn);
    known.index = match decode(insn.code) {
        Some(Operation::LoadHeaderLength) if insn.k < 256 => IndexValue::HeaderLength(insn.k as u8),
        Some(Operation::Load(Register::Index, Source::Immediate)) if insn.k < 256 => {
            IndexValue::Number(insn.k as u8)
        }
        Some(Operation::LoadHeaderLength) => IndexValue::Unknown,
        Some(Operation::Load(Register::Index, _) | Operation::CopyToIndex) => IndexValue::Unknown,
        _ => index,
    };
}

/// The claim about a field after the test whether it is a number had this outcome. If the field is
/// known to be one of two numbers, and isn't this one, it is the other one.
#[tactic(auto, using(crate::proofs::Knowing::same_number))]
fn claim_by_outcome(facts: &[Fact], field: &Field, number: u32, outcome: bool) -> Claim
    ensures { (p : List ℕ) (n v : ℕ) → All (Says p n) facts.now → value_of p n field.now ≡ Some v
        → (v == number) ≡ outcome → allows result v ≡ true }
{
    if outcome {
        return Claim::Is(number);
    }
    match claim_about(facts, field, number) {
        Claim::IsOneOf(one, other) if number == one => Claim::Is(other),
        Claim::IsOneOf(one, other) if number == other => Claim::Is(one),
        _ => Claim::IsNot(number),
    }
}

/// Adds to the state what the outcome of a test shows, which is true if `field` is `number`.
fn learn_equal(known: &mut Known, field: Field, number: u32, outcome: bool)
    ensures { LearnsEqual known.old field number outcome known.new }
{
    let claim = claim_by_outcome(&known.facts, &field, number, outcome);
    add_fact(known, field, claim);
}

/// Adds to the state the fact that a test had this outcome. Only a test for equality, or of bits,
/// shows one, if A holds a field.
pub fn learn(known: &mut Known, insn: Wide, outcome: bool)
    ensures { Learns known.old insn outcome known.new }
{
    match decode(insn.code) {
        Some(Operation::JumpIf(Test::Equal, Operand::Constant)) => {
            if let Held::Field(field) = known.held {
                learn_equal(known, field, insn.k, outcome);
            }
        }
        Some(Operation::JumpIf(Test::AnyBit, Operand::Constant)) => {
            if let Held::Field(field) = masked_held(known.held, insn.k) {
                learn_equal(known, field, 0, !outcome);
            }
        }
        _ => {}
    }
}

/// The most instructions whose states are kept on the stack, about 220 bytes for each, so that
/// threading them allocates no memory.
pub const FEW: usize = 16;

/// The state at a place; if there is none, nothing is known.
pub fn known_at(seen: &[Known], place: usize) -> Known
    ensures { (p : List ℕ) (n : ℕ) (s : State) → HoldsAt p n seen.now place s → Holds p n result s }
{
    match seen.get(place) {
        Some(known) => *known,
        None => nothing_known(),
    }
}

/// Joins the state of one more run into the state at a place.
#[tactic(auto, using(crate::proofs::Knowing::arrives, crate::proofs::Knowing::arrives_nowhere))]
pub fn arrive(seen: &mut [Known], place: usize, known: &Known)
    ensures { Arrives known.now place seen.old seen.new }
{
    if place < seen.len() {
        join(&mut seen[place], known);
    }
}
