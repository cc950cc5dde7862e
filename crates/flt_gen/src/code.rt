//! The code so far, which grows from its end to its beginning.

ghost use Rattle.std.specs.Prelude.{◌≡◌, ◌-◌, [], ◌∷◌, length, drop, OnOk, IfOk};
ghost use Rattle.flt_gen.specs.inside.Code.{plain, emit_branch};

use flt_bpf::Wide;
use flt_bpf::operation::{Operand, Operation, Test};
use std::alloc::{AllocError, Allocator};
use std::marker::Model;

/// The result of a call that fails only if it can't allocate, or has no room for a number.
pub type Result<T> = std::result::Result<T, AllocError>;

/// The code from some place to the end, kept last instruction first. A place is the number of
/// instructions from it to the end, which doesn't change when code is put in front:
///
///     place 3: jeq #80 ..     `top()`, the first instruction so far
///     place 2: ret #262144
///     place 1: ret #0
///
/// A test that is put in front of place 3 skips 3 - `to` instructions to get to place `to`. It may
/// skip any number of them.
#[derive(Drop)]
pub struct Code<A: Allocator> {
    backwards: Vec<Wide, A>,
}

impl<A: Allocator> Model for Code<A> {
    ghost use Rattle.std.specs.Prelude.{List, reverse};
    ghost use Rattle.flt_bpf.specs.declared.insn.Insn.{Insn};

    ghost Value = { List Insn };

    ghost view = { λ c. reverse c.backwards.items };
}

/// The places where a test goes on: if it holds, and if it doesn't.
#[derive(Clone, Copy)]
pub struct Targets {
    pub yes: usize,
    pub no: usize,
}

impl Targets {
    /// The targets of the opposite test.
    pub fn exchanged(self) -> Self
        ensures yes { result.yes ≡ self.no }
        ensures no { result.no ≡ self.yes }
    {
        Targets {
            yes: self.no,
            no: self.yes,
        }
    }
}

impl<A: Allocator> Code<A> {
    /// Code without an instruction yet.
    pub fn new(alloc: A) -> Self
        ensures { result ≡ [] }
    {
        Code {
            backwards: Vec::new(alloc),
        }
    }

    /// The place of the instruction that stands first.
    pub fn top(&self) -> usize
        ensures { result ≡ length self.now }
    {
        self.backwards.len()
    }

    /// The number of instructions in front of a place: a test that is put in front and goes on there
    /// skips as many. An error is a number of more than 32 bits: such code counts as out of memory.
    fn distance(&self, place: usize) -> Result<u32>
        ensures { IfOk result (λ skipped. skipped ≡ length self.now - place) }
    {
        u32::try_from(self.top().saturating_sub(place)).map_err(|_| AllocError)
    }

    /// Puts an instruction in front that isn't a test, with the number `k`.
    pub fn emit_plain(&mut self, operation: Operation, k: u32) -> Result<()>
        ensures { OnOk result (self.new ≡ plain operation k ∷ self.old) }
    {
        let code = operation.code();
        let (yes, no) = (0, 0);
        Ok(self.backwards.push(Wide { code, yes, no, k })?)
    }

    /// Puts a test of A and an operand in front, which goes on at one of two places.
    pub fn emit_branch(&mut self, test: Test, operand: Operand, k: u32, to: Targets) -> Result<()>
        ensures { OnOk result (self.new ≡ emit_branch test operand k to.yes to.no self.old) }
    {
        let (yes, no) = (self.distance(to.yes)?, self.distance(to.no)?);
        let code = Operation::JumpIf(test, operand).code();
        Ok(self.backwards.push(Wide { code, yes, no, k })?)
    }

    /// The instructions from the place `entry` on, in their order: what stands in front of it goes.
    #[tactic(auto, using(crate::proofs::Turned::reverse_taken))]
    pub fn into_insns(self, entry: usize) -> Vec<Wide, A>
        ensures { result.items ≡ drop (length self - entry) self }
    {
        let Code { mut backwards } = self;
        backwards.truncate(entry);
        backwards.reverse();
        backwards
    }
}
