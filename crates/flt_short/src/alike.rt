//! Checks, instruction by instruction, that a new program does what an old one does. A and X must
//! be the same in both only if they may be read later. Checks too that it breaks no rule of
//! `flt_bpf::check`, except perhaps that on the length.
//!
//! Each instruction of the old program has a landing: the place from which on the new program does
//! the same, or nowhere. The rules 1 to 3 (`stands`) check this. `old` is an instruction of the old
//! program and `landing` is its landing; `after` are the instructions after it and `following`
//! their landings; `new` is the instruction of the new program at `landing`.
//!
//! Most clauses cite definitions that mirror the code, with the same names or without `is_`; the
//! contract of `replaces` states what follows from them (`Shortens`).

ghost use Rattle.std.specs.Prelude.{◌≡◌, ◌+◌, ◌-◌, ◌==◌, ◌&&◌, length, IsTrue, true};
ghost use Rattle.std.specs.Prelude.{None, count_by};
ghost use Rattle.flt_bpf.specs.Layout.{HasNoJump, is_branch};
ghost use Rattle.flt_bpf.specs.{Instructions.operation_of, inside.Flow.goes_on_or_rejects};
ghost use Rattle.flt_bpf.specs.Check.{fault_of, ends_in_return, IsFaultless};
ghost use Rattle.flt_short.specs.inside.Alike.{goes_on, same_step, is_masked_test, one_test};
ghost use Rattle.flt_short.specs.inside.Alike.{rejects, is_sure, code_from, are_copies, lands_at};
ghost use Rattle.flt_short.specs.inside.Alike.{left_out, stands, are_alike};
ghost use Rattle.flt_short.specs.Alike.{Shortens};

use flt_bpf::operation::{AluOperation, Operand, Operation, Source, Test, decode};
use flt_bpf::{
    WORDS, Wide, constant_fault, is_return, reads_accumulator, reads_index, sets_accumulator,
    sets_index,
};

/// The place of the new program that corresponds to an instruction of the old one: from there on
/// the new program does what the old one does from the instruction on.
#[derive(Clone, Copy)]
pub struct Landing {
    /// The number of instructions from there to the end of the new program; 0 is nowhere.
    pub place: usize,
    /// Whether A may be read from there on before it is set, so must be the same in both programs.
    pub accumulator: bool,
    /// Whether X may be read from there on before it is set, so must be the same in both programs.
    pub index: bool,
}

/// The last `place` instructions of the code; all of it if it has fewer.
fn code_from(code: &[Wide], place: usize) -> &[Wide]
    ensures { result.now ≡ code_from code.now place }
{
    &code[code.len().saturating_sub(place)..]
}

/// Whether two ends of the same code begin with the same instructions, up to a return, or to a test
/// with the same targets. The function calls itself for each instruction; few come between a test
/// and the next one.
fn are_copies(one: &[Wide], other: &[Wide]) -> bool
    ensures { result ≡ are_copies one.now other.now }
{
    let [first, rest @ ..] = one else {
        return false;
    };
    let [second, others @ ..] = other else {
        return false;
    };
    if first.code != second.code || first.k != second.k {
        return false;
    }
    match decode(first.code) {
        None | Some(Operation::Jump) => false,
        Some(Operation::ReturnConstant | Operation::ReturnAccumulator) => true,
        Some(Operation::JumpIf(_, _)) => {
            let (len, other_len) = (rest.len(), others.len());
            len.saturating_sub(first.yes as usize) == other_len.saturating_sub(second.yes as usize)
                && len.saturating_sub(first.no as usize)
                    == other_len.saturating_sub(second.no as usize)
        }
        Some(_) => are_copies(rest, others),
    }
}

/// Whether a way lands at `place`, or at a copy of the code there, and the registers that may be
/// read from there on are the same in both programs. The way skips `way` instructions of the old
/// program; `accumulator` and `index` are whether A and X are the same.
#[inline(always)]
fn lands_at(
    code: &[Wide],
    following: &[Landing],
    way: usize,
    place: usize,
    accumulator: bool,
    index: bool,
) -> bool
    ensures { result ≡ lands_at code.now following.now way place accumulator index }
{
    let Some(landing) = following.get(way) else {
        return false;
    };
    (landing.place > 0
        && (landing.place == place
            || are_copies(code_from(code, landing.place), code_from(code, place))))
        && ((!landing.accumulator || accumulator) && (!landing.index || index))
}

/// The place where an instruction at `place` leads that skips this number of others; nowhere if
/// the code ends before.
fn place_past(place: usize, skipped: u32) -> usize
    ensures { result ≡ place - (1 + skipped) }
{
    place.saturating_sub(1 + skipped as usize)
}

/// Whether both programs go on the same way after an instruction that both have, with this
/// operation: each way from it leads to a landing that fits. A jump (`ja`) is never accepted.
fn goes_on(
    code: &[Wide],
    operation: Operation,
    new: Wide,
    landing: Landing,
    old: Wide,
    following: &[Landing],
) -> bool
    ensures { result ≡ goes_on code.now operation new landing old following.now }
{
    let (place, accumulator, index) = (landing.place, landing.accumulator, landing.index);
    match operation {
        Operation::Jump => false,
        Operation::JumpIf(_, _) => {
            let (yes, no) = (place_past(place, new.yes), place_past(place, new.no));
            lands_at(code, following, old.yes as usize, yes, accumulator, index)
                && lands_at(code, following, old.no as usize, no, accumulator, index)
        }
        Operation::ReturnConstant | Operation::ReturnAccumulator => true,
        _ => {
            let same_a = sets_accumulator(operation) || accumulator;
            let same_x = sets_index(operation) || index;
            lands_at(code, following, 0, place_past(place, 0), same_a, same_x)
        }
    }
}

/// Rule 1: the instruction of the new program is that of the old one, perhaps with other offsets.
/// The registers that it reads are the same in both programs, and both go on the same way.
#[tactic(auto, unfolding(crate::specs::inside::Alike::same_step))]
fn same_step(code: &[Wide], new: Wide, landing: Landing, old: Wide, following: &[Landing]) -> bool
    ensures { result ≡ same_step code.now (operation_of old.code) new landing old following.now }
{
    let Some(operation) = decode(old.code) else {
        return false;
    };
    (old.code == new.code && old.k == new.k)
        && ((!reads_accumulator(operation) || landing.accumulator)
            && (!reads_index(operation) || landing.index))
        && goes_on(code, operation, new, landing, old, following)
}

/// Whether two instructions are a mask of A, and a test whether the result is 0.
pub fn is_masked_test(mask: Wide, test: Wide) -> bool
    ensures { result ≡ is_masked_test mask test }
{
    (mask.code == Operation::Compute(AluOperation::And, Operand::Constant).code()
        && test.code == Operation::JumpIf(Test::Equal, Operand::Constant).code())
        && test.k == 0
}

/// Rule 2: one test of bits (`69 k`) replaces a mask and a test whether the result is 0 (`84 k`,
/// `21 0`), with the opposite outcome. A is the same in both programs before them, and isn't read
/// after them.
#[tactic(auto, unfolding(crate::specs::inside::Alike::one_test))]
fn is_one_test(
    code: &[Wide],
    new: Wide,
    landing: Landing,
    old: Wide,
    after: &[Wide],
    following: &[Landing],
) -> bool
    ensures { result ≡ one_test code.now new landing old after.now following.now }
{
    let [test, ..] = after else {
        return false;
    };
    let (zero, other) = (1 + test.yes as usize, 1 + test.no as usize);
    let place = landing.place;
    let (yes, no) = (place_past(place, new.yes), place_past(place, new.no));
    (is_masked_test(old, *test)
        && (new.code == Operation::JumpIf(Test::AnyBit, Operand::Constant).code()
            && old.k == new.k))
        && (landing.accumulator
            && (lands_at(code, following, zero, no, false, landing.index)
                && lands_at(code, following, other, yes, false, landing.index)))
}

/// Whether an instruction returns the number 0, and so rejects the packet.
pub fn is_rejection(insn: Wide) -> bool
    ensures { result ≡ rejects insn }
{
    insn.code == Operation::ReturnConstant.code() && insn.k == 0
}

/// Whether an operation is one of these: a load of a number or of the packet's length, a copy, a
/// negation, or arithmetic other than `/` and `%`. After it the run goes on at the next instruction
/// on every packet, and memory is unchanged.
pub fn is_sure(operation: Operation) -> bool
    ensures { result ≡ is_sure operation }
{
    match operation {
        Operation::Load(_, Source::Immediate | Source::Length)
        | Operation::Negate
        | Operation::CopyToIndex
        | Operation::CopyToAccumulator => true,
        Operation::Compute(operator, _) => {
            !matches!(operator, AluOperation::Divide | AluOperation::Remainder)
        }
        _ => false,
    }
}

/// Whether after an operation the run goes on at the next instruction or ends with 0: the operation
/// isn't a jump, a test or a return.
pub fn goes_on_or_rejects(operation: Operation) -> bool
    ensures { result ≡ goes_on_or_rejects operation }
{
    use Operation::{Jump, JumpIf, ReturnAccumulator, ReturnConstant};
    !matches!(
        operation,
        Jump | JumpIf(_, _) | ReturnConstant | ReturnAccumulator
    )
}

/// Rule 3: the new program omits the instruction. Each way from it leads to its own landing; and it
/// has no effect that matters from there on, or the packet is rejected there.
#[tactic(auto, unfolding(crate::specs::inside::Alike::left_out))]
fn is_left_out(code: &[Wide], new: Wide, landing: Landing, old: Wide, following: &[Landing]) -> bool
    ensures { result ≡ left_out code.now (operation_of old.code) new landing old following.now }
{
    let (place, accumulator, index) = (landing.place, landing.accumulator, landing.index);
    match decode(old.code) {
        None => false,
        Some(Operation::JumpIf(_, _)) => {
            lands_at(code, following, old.yes as usize, place, accumulator, index)
                && lands_at(code, following, old.no as usize, place, accumulator, index)
        }
        Some(operation) => {
            (is_sure(operation) || (is_rejection(new) && goes_on_or_rejects(operation)))
                && lands_at(
                    code,
                    following,
                    0,
                    place,
                    accumulator && !sets_accumulator(operation),
                    index && !sets_index(operation),
                )
        }
    }
}

/// Whether the code, from a landing on, does what an instruction of the old code and those after it
/// do, by one of the three rules. An instruction that lands nowhere needs none.
fn stands(code: &[Wide], landing: Landing, old: Wide, after: &[Wide], following: &[Landing]) -> bool
    ensures { result ≡ stands code.now landing old after.now following.now }
{
    if landing.place == 0 {
        return true;
    }
    let [new, ..] = code_from(code, landing.place) else {
        return false;
    };
    landing.place <= code.len()
        && ((same_step(code, *new, landing, old, following)
            || is_one_test(code, *new, landing, old, after, following))
            || is_left_out(code, *new, landing, old, following))
}

/// Whether the code does, from each landing on, what the old code does from the instruction on that
/// lands there.
fn are_alike(code: &[Wide], old: &[Wide], landings: &[Landing]) -> bool
    requires { length landings.now ≡ length old.now }
    ensures { result ≡ are_alike code.now old.now landings.now }
{
    for at in 0..old.len() {
        let next = at + 1;
        if !stands(code, landings[at], old[at], &old[next..], &landings[next..]) {
            return false;
        }
    }
    true
}

/// Whether an instruction that has `following` others after it breaks no rule.
#[tactic(auto, unfolding(flt_bpf::specs::Check::fault_of))]
fn is_faultless(insn: Wide, following: usize) -> bool
    ensures { IsTrue result → fault_of insn following ≡ None }
{
    match decode(insn.code) {
        None => false,
        Some(Operation::Jump) => (insn.k as usize) < following,
        Some(Operation::JumpIf(_, _)) => {
            (insn.yes as usize) < following && (insn.no as usize) < following
        }
        Some(Operation::Load(_, Source::Memory) | Operation::Store(_)) => (insn.k as usize) < WORDS,
        Some(Operation::Compute(operator, Operand::Constant)) => {
            constant_fault(operator, insn.k).is_none()
        }
        Some(_) => true,
    }
}

/// Whether no instruction of the code is a jump (`ja` has the code 5), or breaks a rule.
fn are_faultless(code: &[Wide]) -> bool
    ensures { IsTrue result → IsFaultless code.now × HasNoJump code.now }
{
    for at in (0..code.len()).rev() {
        let insn = code[at];
        if insn.code == 5 || !is_faultless(insn, code.len() - 1 - at) {
            return false;
        }
    }
    true
}

/// Whether the last instruction is a return.
#[tactic(auto, using(flt_bpf::proofs::Checking::ends_as))]
fn ends_in_return(code: &[Wide]) -> bool
    ensures { IsTrue result → ends_in_return code.now ≡ true }
{
    matches!(code.last(), Some(last) if is_return(last.code))
}

/// Whether an instruction is a test, which the definition calls a branch.
pub fn is_test(insn: &Wide) -> bool
    ensures { result ≡ is_branch (operation_of insn.now.code) }
{
    matches!(decode(insn.code), Some(Operation::JumpIf(_, _)))
}

/// The number of tests in the code.
pub fn count_tests(code: &[Wide]) -> usize
    ensures { result ≡ count_by (λ i. is_branch (operation_of i.code)) code.now }
{
    code.iter().filter(|insn| is_test(insn)).count()
}

/// Whether a program is proved to replace an old one: its landings show that it does the same, it
/// has no more instructions and no more tests, it has no jump, and it breaks no rule except perhaps
/// that on the length. `false` doesn't mean that the programs differ.
#[tactic(auto, using(crate::proofs::Likeness::replaced))]
pub fn replaces(code: &[Wide], old: &[Wide], landings: &[Landing]) -> bool
    ensures { IsTrue result → Shortens code.now old.now }
{
    if code.len() > old.len() || landings.len() != old.len() || landings.is_empty() {
        return false;
    }
    // The old code's first instruction must land at the start of the new code.
    let first = landings[0];
    if first.place == 0 || first.place != code.len() || !are_alike(code, old, landings) {
        return false;
    }
    count_tests(code) <= count_tests(old) && are_faultless(code) && ends_in_return(code)
}
