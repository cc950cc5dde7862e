//! Makes the same code with fewer instructions, by peephole rules and tail merging: instructions
//! that no run reaches are omitted, a block that exists already isn't emitted again, and fewer
//! instructions replace several that do the same.
//!
//! The old code is read, and the new one grows, from the last instruction to the first. `at` is an
//! index of the old code; `place` counts from the end of the new code, 0 is nowhere. A *landing*
//! (`alike.rt`) is the place for an instruction of the old code, and whether A and X are read from
//! there on.
//!
//! Only the last two functions have clauses; a mistake in another one can't change a program's
//! answers. `replaces` (`alike.rt`) checks the new code with the landings noted here; if it returns
//! `false`, the old code is kept.

ghost use Rattle.std.specs.{Prelude.IfOk, Option.IfSome};
ghost use Rattle.flt_short.specs.Alike.{Shortens};

use crate::alike::{
    Landing, goes_on_or_rejects, is_masked_test, is_rejection, is_sure, is_test, replaces,
};
use flt_bpf::operation::{Operand, Operation, Test, decode};
use flt_bpf::{Wide, is_return, reads_accumulator, reads_index, sets_accumulator, sets_index};
use std::alloc::{AllocError, Allocator};

/// The factor of a multiplicative hash: 2^64 divided by the golden ratio, rounded to an odd number.
const HASH_FACTOR: usize = 0x9E37_79B9_7F4A_7C15;

/// The landing of an instruction that isn't in the new code.
const NOWHERE: Landing = Landing {
    place: 0,
    accumulator: false,
    index: false,
};

/// Fills the space of the new code that has no instruction yet, and is read outside the code.
const EMPTY: Wide = Wide {
    code: 0,
    yes: 0,
    no: 0,
    k: 0,
};

/// The landing of an instruction with this operation at `place`, after which the run goes on at the
/// landing `next`. A register is read from `place` on if the operation reads it, or if it is read
/// at `next` and the operation doesn't set it.
fn landing_before(operation: Operation, place: usize, next: Landing) -> Landing {
    Landing {
        place,
        accumulator: reads_accumulator(operation)
            || next.accumulator && !sets_accumulator(operation),
        index: reads_index(operation) || next.index && !sets_index(operation),
    }
}

/// The item at an index; past the end the other one.
fn item_or<T: Copy>(items: &[T], at: usize, other: T) -> T {
    if at < items.len() { items[at] } else { other }
}

/// The index in the old code of the instruction `offset` past the next one.
fn index_after(at: usize, offset: usize) -> usize {
    at.saturating_add(offset).saturating_add(1)
}

/// Whether an instruction ends a block: it is a test or a return. (A `ja` would too, but code in
/// which a run reaches one isn't shortened.)
fn ends_block(insn: Wide) -> bool {
    is_test(&insn) || is_return(insn.code)
}

/// The test with these offsets instead of its own. One that exceeds 32 bits leads elsewhere, and
/// then the new code isn't taken.
fn with_offsets(insn: Wide, yes: usize, no: usize) -> Wide {
    Wide {
        yes: u32::try_from(yes).unwrap_or(u32::MAX),
        no: u32::try_from(no).unwrap_or(u32::MAX),
        ..insn
    }
}

/// The number of entries in the table of tests for code of a length: a power of two, greater than
/// the number of tests in the code.
fn table_len(len: usize) -> usize {
    let least = len.saturating_add(1).max(16);
    least.checked_next_power_of_two().unwrap_or(16)
}

/// The entry of the table at which the search for a test with these targets begins, modulo the
/// number of entries.
fn first_entry(insn: Wide, yes: usize, no: usize) -> usize {
    let mut mixed = usize::from(insn.code);
    for part in [insn.k as usize, yes, no] {
        mixed = mixed.wrapping_mul(HASH_FACTOR).wrapping_add(part);
    }
    mixed.wrapping_mul(HASH_FACTOR) >> 32
}

/// The new code, which grows from its end to its beginning while the old code is read in that order
/// too. If a target is too far away or there is no room, an instruction lands nowhere, and so do
/// those that go on at it; or it lands at other code. Either way the new code isn't taken.
#[derive(Drop)]
struct Shortening<'a> {
    /// The old code.
    insns: &'a [Wide],
    /// The landing of each instruction of the old code.
    landings: &'a mut [Landing],
    /// The new code, from its last instruction to its first: `backwards[p]` is right in front of
    /// place p, so its own place is p + 1. There is room for as many instructions as the old code
    /// has; longer code isn't taken.
    backwards: &'a mut [Wide],
    /// The number of instructions of the new code.
    len: usize,
    /// A hash table of the places of the tests in the new code. Each is at the entry that was the
    /// first free one from `first_entry` on; 0 is free.
    tests: &'a mut [usize],
}

impl Shortening<'_> {
    /// Puts an instruction in front of the new code. If there is no room, the new code isn't
    /// shorter than the old one, and isn't taken in the end.
    fn push(&mut self, insn: Wide) {
        if self.len < self.backwards.len() {
            self.backwards[self.len] = insn;
            self.len += 1;
            if is_test(&insn) {
                self.note_test(insn);
            }
        }
    }

    /// Adds to the table the test that was put last.
    fn note_test(&mut self, test: Wide) {
        let top = self.len.saturating_sub(1);
        let yes = top.saturating_sub(test.yes as usize);
        let no = top.saturating_sub(test.no as usize);
        let first = first_entry(test, yes, no);
        for turn in 0..self.tests.len() {
            let entry = first.wrapping_add(turn) & self.tests.len().saturating_sub(1);
            if entry < self.tests.len() && self.tests[entry] == 0 {
                self.tests[entry] = self.len;
                return;
            }
        }
    }

    /// The landing of the instruction of the old code at an index; past its end nowhere.
    fn landing_at(&self, at: usize) -> Landing {
        item_or(self.landings, at, NOWHERE)
    }

    /// The instruction of the old code at an index; outside it `EMPTY`.
    fn old_insn(&self, at: usize) -> Wide {
        item_or(self.insns, at, EMPTY)
    }

    /// The instruction right in front of a place of the new code; `EMPTY` if there is no room.
    fn insn_before(&self, place: usize) -> Wide {
        item_or(self.backwards, place, EMPTY)
    }

    /// Notes the landing of an instruction of the old code.
    fn land(&mut self, at: usize, landing: Landing) {
        if at < self.landings.len() {
            self.landings[at] = landing;
        }
    }

    /// Marks that a run reaches an instruction of the old code: the instruction has a landing at
    /// place 1 until its own is noted.
    fn mark_reached(&mut self, at: usize) {
        let place = 1;
        self.land(at, Landing { place, ..NOWHERE });
    }

    /// Marks all instructions of the old code that a run reaches. Jumps only lead forward, so one
    /// pass over the code is enough.
    fn mark_all_reached(&mut self) {
        self.mark_reached(0);
        for at in 0..self.insns.len() {
            let insn = self.old_insn(at);
            if self.landing_at(at).place > 0 {
                if is_test(&insn) {
                    self.mark_reached(index_after(at, insn.yes as usize));
                    self.mark_reached(index_after(at, insn.no as usize));
                } else if !is_return(insn.code) {
                    self.mark_reached(index_after(at, 0));
                }
            }
        }
    }

    /// The test of bits (`69 k`) that replaces the mask at `at` and the test for 0 after it
    /// (`84 k`, `21 0`). `None` if these aren't the instructions at `at`, if A is read after them,
    /// or if both outcomes land at the same place.
    fn bits_test_at(&self, at: usize) -> Option<Wide> {
        let mask = self.old_insn(at);
        let test = self.old_insn(index_after(at, 0));
        if !is_masked_test(mask, test) {
            return None;
        }
        let zero = self.landing_at(index_after(at, 1 + test.yes as usize));
        let other = self.landing_at(index_after(at, 1 + test.no as usize));
        if zero.accumulator || other.accumulator || zero.place == other.place {
            return None;
        }
        // The new test holds if a bit is left, so the targets are swapped.
        Some(Wide {
            code: Operation::JumpIf(Test::AnyBit, Operand::Constant).code(),
            yes: test.no,
            no: test.yes,
            k: mask.k,
        })
    }

    /// The place of a test in the new code with the same code, `k` and targets; `None` if there is
    /// none. A test after the same instruction as in the old code is preferred, since that
    /// instruction can then be shared too.
    fn find_same_test(&self, at: usize, insn: Wide, yes: usize, no: usize) -> Option<usize> {
        let front = self.old_insn(at.wrapping_sub(1));
        let mut found = None;
        let first = first_entry(insn, yes, no);
        for turn in 0..self.tests.len() {
            let entry = first.wrapping_add(turn) & self.tests.len().saturating_sub(1);
            if entry >= self.tests.len() || self.tests[entry] == 0 {
                break;
            }
            let test = self.tests[entry];
            let place = test.saturating_sub(1);
            let other = self.insn_before(place);
            if place >= yes.max(no)
                && (other.code == insn.code && other.k == insn.k)
                && other.yes as usize == place.saturating_sub(yes)
                && other.no as usize == place.saturating_sub(no)
            {
                if self.stands_before(test, front) {
                    return Some(test);
                }
                found = Some(test);
            }
        }
        found
    }

    /// The place in the new code of a test with these targets: that of an equal test if there is
    /// one, or else the test is put in front. `None` if a target is nowhere or too far away.
    fn place_test(&mut self, at: usize, insn: Wide, yes: usize, no: usize) -> Option<usize> {
        if yes == 0 || no == 0 {
            return None;
        }
        if let Some(place) = self.find_same_test(at, insn, yes, no) {
            return Some(place);
        }
        let top = self.len;
        self.push(with_offsets(insn, top.saturating_sub(yes), top.saturating_sub(no)));
        Some(top.saturating_add(1))
    }

    /// Emits a test for the instruction at `at`, and notes the landing. The test replaces the
    /// instructions of the old code from `at` to `last`, and its offsets count from the one at
    /// `last`.
    fn emit_test(&mut self, at: usize, insn: Wide, last: usize) {
        let yes = self.landing_at(index_after(last, insn.yes as usize));
        let no = self.landing_at(index_after(last, insn.no as usize));
        // What is read after the test, as a landing at the place of the first outcome.
        let next = Landing {
            place: yes.place,
            accumulator: yes.accumulator || no.accumulator,
            index: yes.index || no.index,
        };
        if yes.place == no.place && yes.place > 0 {
            // Both ways lead to one place: no test is needed.
            self.land(at, next);
            return;
        }
        let place = self.place_test(at, insn, yes.place, no.place);
        if let (Some(operation), Some(place)) = (decode(insn.code), place) {
            self.land(at, landing_before(operation, place, next));
        }
    }

    /// Emits again, in front, the remainder of the block in which the instruction at `from` of the
    /// old code lands: from there to its test or return. Then an instruction that goes on there can
    /// be put right before the copy.
    fn emit_block_again(&mut self, from: usize) {
        let (landed, top) = (self.landing_at(from).place, self.len);
        let mut low = landed;
        for place in (0..landed).rev() {
            low = place;
            if ends_block(self.insn_before(place)) {
                break;
            }
        }
        let farther = top.saturating_sub(low);
        for place in low..landed {
            // The copy of a test has the same targets. No other instruction uses its offsets.
            let insn = self.insn_before(place);
            let yes = farther.saturating_add(insn.yes as usize);
            let no = farther.saturating_add(insn.no as usize);
            self.push(with_offsets(insn, yes, no));
        }
        // The old block now lands `farther` instructions in front of its earlier places.
        for at in from..self.insns.len() {
            let landing = self.landing_at(at);
            if landing.place > 0 {
                let place = landing.place.saturating_add(farther);
                self.land(at, Landing { place, ..landing });
            }
            if ends_block(self.old_insn(at)) {
                return;
            }
        }
    }

    /// Whether the instruction right in front of a place of the new code has the code and the `k`
    /// of this one; tests may have other targets.
    fn stands_before(&self, place: usize, insn: Wide) -> bool {
        let other = self.insn_before(place);
        other.code == insn.code && other.k == insn.k
    }

    /// Whether an operation is omitted before the landing `next`, and so lands there itself: it
    /// can't fail, and the register that it sets isn't read; or the packet is rejected there.
    fn is_left_out(&self, operation: Operation, next: Landing) -> bool {
        is_sure(operation)
            && !(sets_accumulator(operation) && next.accumulator)
            && !(sets_index(operation) && next.index)
            || goes_on_or_rejects(operation)
                && is_rejection(self.insn_before(next.place.wrapping_sub(1)))
    }

    /// Emits an instruction that is neither a test nor a return for the one at `at`, and notes the
    /// landing. After the instruction the run goes on at the landing of `next`, an index of the old
    /// code. If an equal instruction is right in front of that landing, it is shared; if another
    /// one is, the block at the landing is emitted again, and the instruction is put in front of
    /// the copy.
    fn emit_plain(&mut self, at: usize, insn: Wide, next: usize) {
        let landing = self.landing_at(next);
        let (Some(operation), true) = (decode(insn.code), landing.place > 0) else {
            return;
        };
        if self.is_left_out(operation, landing) {
            self.land(at, landing);
            return;
        }
        let mut place = landing.place.saturating_add(1);
        if place > self.len || !self.stands_before(landing.place, insn) {
            if place <= self.len {
                self.emit_block_again(next);
            }
            self.push(insn);
            place = self.len;
        }
        self.land(at, landing_before(operation, place, landing));
    }

    /// Emits an instruction of the old code, joined with the one after it if that is shorter.
    fn emit(&mut self, at: usize) {
        let insn = self.old_insn(at);
        match (self.bits_test_at(at), decode(insn.code)) {
            (Some(test), _) => self.emit_test(at, test, index_after(at, 0)),
            (_, Some(Operation::JumpIf(_, _))) => self.emit_test(at, insn, at),
            (_, Some(operation @ (Operation::ReturnConstant | Operation::ReturnAccumulator))) => {
                self.push(insn);
                self.land(at, landing_before(operation, self.len, NOWHERE));
            }
            _ => self.emit_plain(at, insn, index_after(at, 0)),
        }
    }

    /// Reads the whole old code, and emits what a run reaches, unless an earlier instruction is
    /// joined with it: then it lands nowhere, and if a run jumps to it, the new code isn't taken.
    /// Returns the number of instructions of the new code.
    fn read_all(&mut self) -> usize {
        self.mark_all_reached();
        for at in (0..self.insns.len()).rev() {
            let is_reached = self.landing_at(at).place > 0;
            self.land(at, NOWHERE);
            if is_reached && (at == 0 || self.bits_test_at(at - 1).is_none()) {
                self.emit(at);
            }
        }
        self.len
    }
}

/// Returns the length of the new code without the instructions in front of its entry. Instructions
/// of the old code that landed at those now land nowhere.
fn leave_out_front(landings: &mut [Landing], len: usize) -> usize {
    let entry = match landings.first() {
        Some(first) if first.place > 0 && first.place < len => first.place,
        _ => return len,
    };
    for landing in landings {
        if landing.place > entry {
            *landing = NOWHERE;
        }
    }
    entry
}

/// The shorter code, made in the space `backwards`; `None` if it doesn't replace `insns`.
fn replacement<A: Allocator>(
    insns: &[Wide],
    landings: &mut [Landing],
    mut backwards: Vec<Wide, A>,
    tests: &mut [usize],
) -> Option<Vec<Wide, A>>
    ensures { IfSome result (λ short. Shortens short.items insns.now) }
{
    let mut shortening = Shortening {
        insns,
        landings: &mut *landings,
        backwards: &mut backwards,
        len: 0,
        tests,
    };
    let len = shortening.read_all();
    backwards.truncate(leave_out_front(landings, len));
    backwards.reverse();
    replaces(&backwards, insns, landings).then_some(backwards)
}

/// Replaces code by code that returns the same on each packet, in no more instructions. If no such
/// code is found, for example because a run reaches a jump (`ja`), the old code is returned. The
/// error is a failed allocation, or an allocator that can't be cloned.
pub fn shortened<A: Allocator + Clone>(
    alloc: A,
    insns: Vec<Wide, A>,
) -> Result<Vec<Wide, A>, AllocError>
    ensures { IfOk result (λ short. Shortens short.items insns.items) }
{
    let mut landings = vec![in alloc.clone()?; NOWHERE; insns.len()]?;
    let backwards = vec![in alloc.clone()?; EMPTY; insns.len()]?;
    let mut tests = vec![in alloc; 0; table_len(insns.len())]?;
    match replacement(&insns, &mut landings, backwards, &mut tests) {
        Some(short) => Ok(short),
        None => Ok(insns),
    }
}
