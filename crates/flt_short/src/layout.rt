//! Lays out wide code as instructions, from its end to its beginning, so that all targets of a test
//! are placed before the test. The instructions placed so far are always a whole end of the code;
//! each function here puts more in front of them.

ghost use Rattle.std.specs.Prelude.{◌≡◌, ◌+◌, ◌-◌, ◌*◌, ◌^◌, ◌<◌, ◌≤◌, ℕ, List, length, IfOk};
ghost use Rattle.std.specs.Prelude.{OnOk, count_by};
ghost use Rattle.flt_bpf.specs.{Machine.start, Answer.answer_of, Check.IsValidUnlessLong};
ghost use Rattle.flt_bpf.specs.{Instructions.operation_of, Valid.MOST_INSTRUCTIONS, Valid.IsValid};
ghost use Rattle.flt_bpf.specs.Layout.{is_branch, HasNoJump, JumpsAreNeeded, IsShort};
ghost use Rattle.flt_short.specs.inside.Layout.{place_at, with_offsets, emitted, with_noted_jump};
ghost use Rattle.flt_short.specs.inside.Layout.{jump_near, near_place, is_near, with_way, way};
ghost use Rattle.flt_short.specs.inside.Layout.{with_test, put, placed_code};

use flt_bpf::insn::Insn;
use flt_bpf::operation::{Operation, decode};
use flt_bpf::wide::Wide;
use std::alloc::{AllocError, Allocator};
use std::marker::Model;

/// The most instructions that a conditional jump skips, since `jt` and `jf` are a byte each.
const MOST_OFFSET: usize = 255;

/// A jump that is laid out: its place, and the place where it leads.
#[derive(Clone, Copy)]
struct PlacedJump {
    place: usize,
    to: usize,
}

/// The place of the first of these jumps that leads to `to` and is near a test in front of `top`
/// instructions, though a jump comes between; `to` if there is none.
fn jump_near(jumps: &[PlacedJump], to: usize, top: usize) -> usize
    ensures { result ≡ jump_near jumps.now to top }
{
    match jumps {
        [] => to,
        [jump, others @ ..] => {
            if jump.to == to && top.saturating_sub(jump.place) < MOST_OFFSET {
                jump.place
            } else {
                jump_near(others, to, top)
            }
        }
    }
}

/// The code from some wide instruction to the end. A place is named by the number of instructions
/// from there on, which doesn't change as more are put in front:
///
///     place         3      2     1      0, the end
///     instruction   test   ld    ret
///
/// From an instruction that is put in front of these, an offset of 0 leads to place 3.
#[derive(Drop)]
struct Layout<A: Allocator> {
    /// The instructions, from the last to the first.
    backwards: Vec<Insn, A>,
    /// The place of each wide instruction, from the last to the first.
    places: Vec<usize, A>,
    /// The last four jumps, the one in front first. Unused entries lead from the end to the end.
    jumps: [PlacedJump; 4],
}

impl<A: Allocator> Model for Layout<A> {
    ghost use Rattle.std.specs.Prelude.{reverse};
    ghost use Rattle.flt_short.specs.inside.Layout.{PlacedCode};

    ghost Value = { PlacedCode };

    ghost view = { λ l. record {
      code = reverse l.backwards.items;
      places = reverse l.places.items;
      jumps = l.jumps;
    } };
}

/// The instruction that a wide one is with these offsets instead of its own.
fn with_offsets(insn: Wide, jt: u8, jf: u8) -> Insn
    ensures { result ≡ with_offsets insn jt jf }
{
    Insn {
        code: insn.code,
        jt,
        jf,
        k: insn.k,
    }
}

impl<A: Allocator> Layout<A> {
    /// The place of the instruction that is first in the code so far: how many there are.
    fn top(&self) -> usize
        ensures { result ≡ length self.now.code }
    {
        self.backwards.len()
    }

    /// The place where a wide instruction that is laid out next leads, if it skips `further` wide
    /// ones. Past the last of them it is the end, 0.
    fn target_place(&self, further: u32) -> usize
        ensures { result ≡ place_at self.now further }
    {
        let (further, count) = (further as usize, self.places.len());
        if further < count {
            self.places[count - 1 - further]
        } else {
            0
        }
    }

    /// The offset to a place from an instruction that is put in front: how many it skips. No place
    /// is greater than the first instruction's, so nothing is lost if the difference stops at 0.
    fn distance(&self, place: usize) -> usize
        ensures { result ≡ length self.now.code - place }
    {
        self.top().saturating_sub(place)
    }

    /// Puts an instruction in front.
    fn emit(&mut self, insn: Insn) -> Result<(), AllocError>
        ensures { OnOk result (self.new ≡ emitted insn self.old) }
    {
        self.backwards.push(insn)?;
        Ok(())
    }

    /// Puts in front a jump (`ja`) to a place, and notes it.
    fn emit_jump(&mut self, to: usize) -> Result<(), AllocError>
        requires { length self.old.code < 2 ^ 32 }
        ensures { OnOk result (self.new ≡ with_noted_jump to self.old) }
    {
        let offset = self.distance(to) as u32;
        self.emit(Insn {
            code: Operation::Jump.code(),
            jt: 0,
            jf: 0,
            k: offset,
        })?;
        let place = self.top();
        let [first, second, third, _] = self.jumps;
        self.jumps = [PlacedJump { place, to }, first, second, third];
        Ok(())
    }

    /// The target of a test that is put in front and leads to `to`: `to` if that is near, else one
    /// of the last jumps that is near and leads there. If there is none it is `to` too, for which
    /// the test needs a jump of its own.
    #[tactic(auto, unfolding(crate::specs::inside::Layout::near_place))]
    fn near_place(&self, to: usize) -> usize
        ensures { result ≡ near_place self.now to }
    {
        if self.distance(to) <= MOST_OFFSET {
            to
        } else {
            jump_near(&self.jumps, to, self.top())
        }
    }

    /// The place where a test that is put in front goes on to get to `to`: this one if the test
    /// skips at most `most` instructions, else that of a jump (`ja`) that this puts in front.
    fn reach(&mut self, to: usize, most: usize) -> Result<usize, AllocError>
        requires { length self.old.code < 2 ^ 32 }
        ensures code { OnOk result (self.new ≡ with_way (is_near self.old to most) to self.old) }
        ensures place { IfOk result (λ place. place ≡ way (is_near self.old to most) to self.old) }
    {
        if self.distance(to) <= most {
            return Ok(to);
        }
        self.emit_jump(to)?;
        Ok(self.top())
    }

    /// Puts a test in front that goes on at one of two places, and right after it the jumps that it
    /// needs, as few as possible: three instructions at most, which fit 32 bits by the clause. A
    /// jump for one place makes the other one farther by an instruction.
    #[tactic(auto, unfolding(crate::specs::inside::Layout::with_test))]
    fn emit_test(&mut self, insn: Wide, yes: usize, no: usize) -> Result<(), AllocError>
        requires { length self.old.code + 3 < 2 ^ 32 }
        ensures { OnOk result (self.new ≡ with_test insn yes no self.old) }
    {
        let most = MOST_OFFSET - usize::from(self.distance(yes) > MOST_OFFSET);
        let no = self.reach(no, most)?;
        let yes = self.reach(yes, MOST_OFFSET)?;
        let (jt, jf) = (self.distance(yes), self.distance(no));
        self.emit(with_offsets(insn, jt as u8, jf as u8))
    }

    /// Lays out one more wide instruction in front, and notes its place: a test or a jump with new
    /// offsets to the places of its targets, another one with the offsets 0, which it doesn't use.
    fn lay_insn(&mut self, insn: Wide) -> Result<(), AllocError>
        requires { length self.old.code + 3 < 2 ^ 32 }
        ensures { OnOk result (self.new ≡ put insn self.old) }
    {
        match decode(insn.code) {
            Some(Operation::JumpIf(_, _)) => {
                let (yes, no) = (self.target_place(insn.yes), self.target_place(insn.no));
                self.emit_test(insn, self.near_place(yes), self.near_place(no))?;
            }
            Some(Operation::Jump) => self.emit_jump(self.target_place(insn.k))?,
            _ => self.emit(with_offsets(insn, 0, 0))?,
        }
        let top = self.top();
        self.places.push(top)?;
        Ok(())
    }

    /// The instructions, from the first to the last.
    fn into_insns(self) -> Vec<Insn, A>
        ensures { result.items ≡ self.code }
    {
        let Layout { mut backwards, .. } = self;
        backwards.reverse();
        backwards
    }
}

impl<A: Allocator + Clone> Layout<A> {
    /// The layout of wide code, made from its last instruction to its first. Each becomes three at
    /// most, so of fewer than 2^30 the places fit 32 bits. An error is a failed allocation, or an
    /// allocator that cannot be cloned.
    #[tactic(auto, using(crate::proofs::PlacedSizes::room))]
    fn of_wide(alloc: A, wide: &[Wide]) -> Result<Self, AllocError>
        requires { length wide.now < 2 ^ 30 }
        ensures { IfOk result (λ layout. layout ≡ placed_code wide.now) }
    {
        let mut layout = Layout {
            backwards: Vec::new(alloc.clone()?),
            places: Vec::new(alloc),
            jumps: [PlacedJump { place: 0, to: 0 }; 4],
        };
        for at in (0..wide.len()).rev() {
            layout.lay_insn(wide[at])?;
        }
        Ok(layout)
    }
}

/// The instructions of wide code, which give the same answers. A target that is more than 255
/// instructions past the one after its test is reached by a jump (`ja`), so a test costs at most
/// two of them. Jumps of the wide code itself are kept. With fewer than 2^30 wide instructions the
/// number of any jump fits its 32 bits. Code that breaks no rule breaks none once it is laid out,
/// except that on the length: it may have grown.
///
/// An error is a failed allocation, or an allocator that cannot be cloned.
#[tactic(auto, using(crate::proofs::PlacedFaults::placed_rules))]
pub fn laid_out<A: Allocator + Clone>(alloc: A, wide: &[Wide]) -> Result<Vec<Insn, A>, AllocError>
    requires { length wide.now < 2 ^ 30 }
    ensures answers { IfOk result (λ code. (p : List ℕ) (n : ℕ)
        → answer_of code.items p n 0 start ≡ answer_of wide.now p n 0 start) }
    ensures at_least { IfOk result (λ code. length wide.now ≤ length code.items) }
    ensures at_most { IfOk result (λ code. length code.items
        ≤ length wide.now + 2 * count_by (λ i. is_branch (operation_of i.code)) wide.now) }
    ensures jumps { HasNoJump wide.now → IfOk result (λ code. JumpsAreNeeded code.items) }
    ensures short { HasNoJump wide.now → length wide.now ≤ 256
        → IfOk result (λ code. IsShort code.items (length wide.now)) }
    ensures faultless { IsValidUnlessLong wide.now
        → IfOk result (λ code. IsValidUnlessLong code.items) }
    ensures valid { IsValidUnlessLong wide.now → IfOk result
        (λ code. length code.items ≤ MOST_INSTRUCTIONS → IsValid code.items) }
{
    Ok(Layout::of_wide(alloc, wide)?.into_insns())
}
