//! Jump threading: a test whose target is another test with a known outcome skips to the place
//! where that leads.
//!
//! A walk starts at each target of a test, with the state (`Known`) after that outcome. It passes
//! instructions whose effect follows from this state, and ends at the next place at which a run may
//! continue instead of at its start. At a test whose outcome isn't known it goes on after both
//! outcomes; if both lead to the same place, it ends there. The next walk starts at its end; the
//! end of the last one is the new target.
//!
//! In a walk a place is an index of the code that follows the test. Clauses state that what is
//! known stays true and that a run has the same answer. The contract of `threaded` follows.

ghost use Rattle.std.specs.Prelude.{IfOk, ◌≡◌, ◌<◌, ◌^◌, IfSome, Some};
ghost use Rattle.flt_bpf.specs.Instructions.{operation_of};
ghost use Rattle.flt_bpf.specs.declared.operation.Operand.TheVariants.{Constant};
ghost use Rattle.flt_bpf.specs.declared.operation.Operation.TheVariants.{JumpIf};
ghost use Rattle.flt_bpf.specs.declared.operation.Test.TheVariants.{Equal};
ghost use Rattle.flt_short.specs.inside.Threads.{IsDecided, Passes, is_free, LeadsTo, GoesOn};
ghost use Rattle.flt_short.specs.{Threads.Threads, inside.Threads.Moves, inside.Threads.IsThreaded};

use crate::alike::{goes_on_or_rejects, is_test};
use crate::facts::{
    FEW, Held, IndexValue, Known, arrive, claim_about, held_after, holds_header, holds_number,
    is_captured, known_at, learn, load_of, masked_held, nothing_known, outcome_by_claim, pass_insn,
    same_held, unreached,
};
use flt_bpf::operation::{AluOperation, Operand, Operation, Register, Source, Test, decode};
use flt_bpf::{Wide, is_return, reads_accumulator, sets_accumulator};
use std::alloc::{AllocError, Allocator};

/// The most instructions that a walk passes. This bounds the time that it takes.
const FUEL: usize = 128;

/// The walks that each target may have, each from the end of the one before it.
const WALKS: usize = 32;

/// The further walks for each instruction of the code, which all targets share.
const SHARED_WALKS: usize = 8;

/// Code of at most this many instructions is threaded only if a load occurs twice in it
/// (`repeats_a_load`). The search takes quadratic time, so longer code is always threaded.
const SHORT_CODE: usize = 64;

/// The position of a walk. A run that continues there, instead of at the start of the walk, has the
/// value of A from the start.
#[derive(Clone, Copy)]
pub struct Spot {
    /// An index of the code after the test.
    pub place: usize,
    /// What A would hold after the passed instructions.
    pub held: Held,
}

/// Whether A is this number if it is `held`; `None` if the facts don't decide it.
fn is_number(known: &Known, held: &Held, number: u32) -> Option<bool>
    ensures { IfSome result (λ outcome. IsDecided known.now Equal number held.now outcome) }
{
    let Held::Field(field) = held else {
        return None;
    };
    outcome_by_claim(claim_about(&known.facts, field, number), number)
}

/// The outcome of a test of A and a number if A is `held`; `None` if the facts don't decide it.
fn outcome_of(known: &Known, test: Test, number: u32, held: &Held) -> Option<bool>
    ensures { IfSome result (λ outcome. IsDecided known.now test number held.now outcome) }
{
    match test {
        Test::Equal => is_number(known, held, number),
        Test::AnyBit => match is_number(known, &masked_held(*held, number), 0) {
            Some(is_zero) => Some(!is_zero),
            None => None,
        },
        _ => None,
    }
}

/// How many instructions a test with a constant skips if A is `held`; `None` if the facts don't
/// decide it.
fn skipped_by_test(known: &Known, insn: Wide, test: Test, held: &Held) -> Option<u32>
    ensures { operation_of insn.code ≡ Some (JumpIf test Constant)
        → IfSome result (λ skipped. Passes known.now insn held.now skipped) }
{
    match outcome_of(known, test, insn.k, held) {
        Some(true) => Some(insn.yes),
        Some(false) => Some(insn.no),
        None => None,
    }
}

/// How many instructions a walk skips after this one, before which A would be `held`; `None` if the
/// walk ends before it. A walk passes only tests that the facts decide, and instructions that
/// change nothing but A and go on at the next one on each packet with this state.
#[tactic(auto, using(crate::proofs::Threading::walk_steps))]
fn skipped_after(known: &Known, insn: Wide, held: &Held) -> Option<u32>
    ensures { IfSome result (λ skipped. Passes known.now insn held.now skipped) }
{
    match decode(insn.code) {
        Some(Operation::JumpIf(test, Operand::Constant)) => {
            skipped_by_test(known, insn, test, held)
        }
        Some(Operation::LoadAbsolute(_))
            if is_captured(known, &load_of(insn, IndexValue::Unknown)) => { Some(0) }
        Some(Operation::LoadIndirect(_)) if is_captured(known, &load_of(insn, known.index)) => {
            Some(0)
        }
        Some(Operation::LoadIndirect(_))
            if same_held(&Held::AtIndex(insn.code, insn.k), &known.held) => { Some(0) }
        Some(Operation::LoadHeaderLength) if holds_header(known.index, insn.k) => Some(0),
        Some(Operation::Load(Register::Index, Source::Immediate))
            if holds_number(known.index, insn.k) => { Some(0) }
        Some(Operation::Load(Register::Accumulator, Source::Length)) => Some(0),
        Some(Operation::Compute(AluOperation::And, Operand::Constant)) => Some(0),
        _ => None,
    }
}

/// Whether the value of A doesn't matter before this code: it overwrites A, or ends the run,
/// without reading A. The function calls itself for each instruction before that; these are few.
fn is_free(code: &[Wide]) -> bool
    ensures { result ≡ is_free code.now }
{
    let [first, others @ ..] = code else {
        return false;
    };
    match decode(first.code) {
        None | Some(Operation::Jump | Operation::JumpIf(_, _)) => false,
        Some(Operation::ReturnConstant) => true,
        Some(operation) => {
            !reads_accumulator(operation) && (sets_accumulator(operation) || is_free(others))
        }
    }
}

/// The place of a spot if a run may continue there instead of at the start of the walk: the place
/// is inside the code, and A is the same there as after the passed instructions, or its value
/// doesn't matter. Else `best`, the last such place so far; at the start of a walk both are the
/// same.
#[tactic(auto, using(crate::proofs::Threading::stops))]
fn place_or_best(known: &Known, code: &[Wide], spot: &Spot, best: usize) -> usize
    ensures { LeadsTo known.now code.now spot.now best result }
{
    let place = spot.place;
    if place == best || place >= code.len() {
        return best;
    }
    if same_held(&spot.held, &known.held) {
        return place;
    }
    if is_free(&code[place..]) { place } else { best }
}

/// A place at which a run may continue instead of at the start of a walk that is at `spot`; `best`
/// if the walk finds none. It passes at most `fuel` instructions. If it may fork (`forks`), it ends
/// at the first such place; at a test that it can't pass it goes on after both outcomes. It may not
/// fork then, and finds the last such place of each: if that is the same, it is the result.
fn walk(fuel: usize, known: &Known, code: &[Wide], spot: &Spot, best: usize, forks: bool) -> usize
    ensures { LeadsTo known.now code.now spot.now best result }
{
    let start = best;
    let best = place_or_best(known, code, spot, best);
    if fuel == 0 || (forks && best != start) {
        return best;
    }
    let Some(insn) = code.get(spot.place) else {
        return best;
    };
    let (left, next) = (fuel - 1, spot.place + 1);
    if let Some(skipped) = skipped_after(known, *insn, &spot.held) {
        let held = held_after(&spot.held, known.index, *insn);
        let place = next + skipped as usize;
        return walk(left, known, code, &Spot { place, held }, best, forks);
    }
    if !forks || !is_test(insn) {
        return best;
    }
    let (place, held) = (next + insn.yes as usize, spot.held);
    let yes = walk(left, known, code, &Spot { place, held }, best, false);
    if yes == best {
        return best;
    }
    let place = next + insn.no as usize;
    let no = walk(left, known, code, &Spot { place, held }, best, false);
    if yes == no { yes } else { best }
}

/// The end of a chain of walks: each begins at the end of the one before it, and the last one stays
/// at its beginning, as at a return. If there are more than `WALKS`, it is the last of their ends
/// that another path may reach too, since that code is kept anyway. If there is none, the chain
/// goes on while some are `left` of the walks that all targets share.
fn last_place(known: &Known, code: &[Wide], from: usize, seen: &[Known], left: &mut usize) -> usize
    ensures { GoesOn known.now code.now from result }
{
    let (mut place, mut reached) = (from, from);
    for turn in 0..code.len() {
        if matches!(code.get(place), Some(insn) if is_return(insn.code)) {
            return place;
        }
        let held = known.held;
        let next = walk(FUEL, known, code, &Spot { place, held }, place, true);
        if next == place {
            return place;
        }
        place = next;
        if !matches!(seen.get(place), Some(known) if matches!(known.held, Held::Unreached)) {
            reached = place;
        }
        if turn >= WALKS {
            if reached != from {
                return reached;
            }
            if *left == 0 {
                return place;
            }
            *left -= 1;
        }
    }
    place
}

/// The threaded offset of a test whose old one is `skipped`; it is `skipped` if the new one exceeds
/// 32 bits or leads out of the code.
fn new_offset(known: &Known, code: &[Wide], skipped: u32, seen: &[Known], left: &mut usize) -> u32
    ensures { Moves known.now code.now skipped result }
{
    let place = last_place(known, code, skipped as usize, seen, left);
    // An expression's code is too short for an error: its places fit 32 bits.
    match u32::try_from(place) {
        Ok(target) if place < code.len() => target,
        _ => skipped,
    }
}

/// Threads one instruction: only a test changes, in both targets, and only if a run may reach it.
/// Joins the state after it, of a test by its outcome, into the state at each place where a run
/// continues. The next instruction is at the place `from` of the whole code. `here`, the state
/// before the instruction, may change, and isn't needed any more.
fn thread_insn(
    seen: &mut [Known],
    from: usize,
    here: &mut Known,
    insn: Wide,
    following: &[Wide],
    left: &mut usize,
) -> Wide
    requires { from < 2 ^ 63 }
    ensures { IsThreaded from here.old insn following.now result seen.old seen.new }
{
    if let Held::Unreached = here.held {
        return insn;
    }
    let Some(operation) = decode(insn.code) else {
        return insn;
    };
    if goes_on_or_rejects(operation) {
        pass_insn(here, insn);
        arrive(seen, from, here);
        return insn;
    }
    match operation {
        Operation::JumpIf(_, _) => {
            let mut yes = *here;
            learn(&mut yes, insn, true);
            learn(here, insn, false);
            let ahead = seen.get(from..).unwrap_or(&[]);
            let insn = Wide {
                code: insn.code,
                yes: new_offset(&yes, following, insn.yes, ahead, left),
                no: new_offset(here, following, insn.no, ahead, left),
                k: insn.k,
            };
            arrive(seen, from + insn.yes as usize, &yes);
            arrive(seen, from + insn.no as usize, here);
            insn
        }
        Operation::Jump => {
            arrive(seen, from + insn.k as usize, here);
            insn
        }
        _ => insn,
    }
}

/// Threads all instructions in order, each with the state at its place, which is the join of the
/// states on all paths to it. At first `seen` has no place that a run reaches. A run begins at
/// place 0, with nothing known.
fn thread_all(seen: &mut [Known], insns: &mut [Wide])
    ensures { Threads insns.new insns.old }
{
    arrive(seen, 0, &nothing_known());
    let mut left = SHARED_WALKS.saturating_mul(insns.len());
    for at in 0..insns.len() {
        let mut here = known_at(seen, at);
        let old = insns[at];
        let insn = thread_insn(seen, at + 1, &mut here, old, &insns[at + 1..], &mut left);
        insns[at] = insn;
    }
}

/// Whether an instruction loads bytes of the packet, its length, or the length of a header.
fn is_load(insn: Wide) -> bool {
    match decode(insn.code) {
        Some(Operation::LoadAbsolute(_) | Operation::LoadIndirect(_)) => true,
        Some(Operation::Load(_, Source::Length) | Operation::LoadHeaderLength) => true,
        _ => false,
    }
}

/// Whether a load occurs twice. Otherwise threading seldom changes anything. No clause is needed: a
/// wrong result would only take time or keep the old code.
fn repeats_a_load(insns: &[Wide]) -> bool {
    for at in 0..insns.len() {
        let (load, next) = (insns[at], at + 1);
        let (code, k) = (load.code, load.k);
        let repeats = |other: &Wide| other.code == code && other.k == k;
        if is_load(load) && insns[next..].iter().any(repeats) {
            return true;
        }
    }
    false
}

/// Threads at most `FEW` instructions, with their states on the stack: one for each but the last
/// two, which are returns. All states are filled at first, so there are few more than that.
fn thread_few(insns: &mut [Wide])
    ensures { Threads insns.new insns.old }
{
    match insns.len() {
        0..=10 => thread_all(&mut [unreached(); 8], insns),
        11..=12 => thread_all(&mut [unreached(); 10], insns),
        _ => thread_all(&mut [unreached(); FEW - 2], insns),
    }
}

/// Threads code: its tests skip tests whose outcome is known. The new code returns the same on each
/// packet. Code of at most 64 instructions in which no load occurs twice is returned unchanged,
/// since threading seldom changes it. The error is a failed allocation.
#[tactic(auto, using(crate::proofs::Threading::threads_itself))]
pub fn threaded<A: Allocator>(alloc: A, mut insns: Vec<Wide, A>) -> Result<Vec<Wide, A>, AllocError>
    ensures { IfOk result (λ new. Threads new.items insns.items) }
{
    if insns.len() <= SHORT_CODE && !repeats_a_load(&insns) {
        return Ok(insns);
    }
    if insns.len() <= FEW {
        thread_few(&mut insns);
        return Ok(insns);
    }
    let mut seen = vec![in alloc; unreached(); insns.len()]?;
    thread_all(&mut seen, &mut insns);
    Ok(insns)
}
