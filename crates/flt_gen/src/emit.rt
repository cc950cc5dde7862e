//! Emits the code of elementary tests.

ghost use Rattle.std.specs.Prelude.{◌≡◌, length, OnOk, if◌then◌else◌};
ghost use Rattle.flt_gen.specs.inside.{Emits.Emits, Emits.EmitsFormula, Code.emit_field};
ghost use Rattle.flt_gen.specs.inside.Code.{emit_mask, emit_comparison, emit_elementary, emit_all};
ghost use Rattle.flt_gen.specs.inside.{Code.emit_test, Search.held_if, Search.field_test};
ghost use Rattle.flt_gen.specs.{Formula.sides, Primitives.sized_formula};
ghost use Rattle.flt_gen.specs.inside.Emitted.{needed_tests};
ghost use Rattle.cap_octet.specs.declared.link.Link.{Link};

use crate::address::{is_idle, last_test};
use crate::code::{Code, Result, Targets};
use crate::elementary::{Elementary, FieldPlace, Offset, is_loaded};
use flt_ast::Direction;
use flt_bpf::operation::{AluOperation, Operand, Operation, Register, Source, Test, Width};
use flt_words::{Comparison, Join, Side, Size};
use std::alloc::Allocator;

impl<A: Allocator> Code<A> {
    /// Emits the load of a field into A. Before a load after a header or at X, X is set.
    pub fn emit_field(&mut self, offset: Offset, width: Width) -> Result<()>
        ensures { OnOk result (self.new ≡ emit_field offset width self.old) }
    {
        match offset {
            Offset::Fixed(at) => self.emit_plain(Operation::LoadAbsolute(width), at),
            Offset::AfterHeader(header, at) => {
                self.emit_plain(Operation::LoadIndirect(width), at)?;
                self.emit_plain(Operation::LoadHeaderLength, header)
            }
            Offset::AtIndex(index, at) => {
                self.emit_plain(Operation::LoadIndirect(width), at)?;
                self.emit_plain(Operation::Load(Register::Index, Source::Immediate), index)
            }
        }
    }

    /// Emits the mask of A, if there is one: only its bits are left.
    pub fn emit_mask(&mut self, mask: Option<u32>) -> Result<()>
        ensures { OnOk result (self.new ≡ emit_mask mask self.old) }
    {
        match mask {
            None => Ok(()),
            Some(mask) => {
                let and = Operation::Compute(AluOperation::And, Operand::Constant);
                self.emit_plain(and, mask)
            }
        }
    }

    /// Emits a comparison of A with an operand, `k` or X. The machine has three of the six; the
    /// others exchange the targets.
    pub fn emit_comparison(
        &mut self,
        comparison: Comparison,
        operand: Operand,
        k: u32,
        to: Targets,
    ) -> Result<()>
        ensures { OnOk result
            (self.new ≡ emit_comparison comparison operand k to.yes to.no self.old) }
    {
        let back = to.exchanged();
        match comparison {
            Comparison::Equal => self.emit_branch(Test::Equal, operand, k, to),
            Comparison::NotEqual => self.emit_branch(Test::Equal, operand, k, back),
            Comparison::Less => self.emit_branch(Test::AtLeast, operand, k, back),
            Comparison::AtMost => self.emit_branch(Test::Greater, operand, k, back),
            Comparison::Greater => self.emit_branch(Test::Greater, operand, k, to),
            Comparison::AtLeast => self.emit_branch(Test::AtLeast, operand, k, to),
        }
    }

    /// Emits the comparison of a field with a number. The field is loaded, unless A holds it. Returns
    /// the place where the code begins.
    #[tactic(auto, using(crate::proofs::Search::loaded_if))]
    pub fn emit_compared(
        &mut self,
        field: FieldPlace,
        is_held: bool,
        comparison: Comparison,
        number: u32,
        to: Targets,
    ) -> Result<usize>
        ensures { Emits result (emit_test (held_if is_held field) (field_test field comparison
            number) to.yes to.no self.old) self.new }
    {
        self.emit_comparison(comparison, Operand::Constant, number, to)?;
        if !is_held {
            self.emit_mask(field.mask)?;
            self.emit_field(field.offset, field.width)?;
        }
        Ok(self.top())
    }

    /// Emits one test. A field isn't loaded again if it is `held`, the one that A holds, if it holds
    /// one. Returns the place where the code begins: for a test that the link type itself decides,
    /// which takes no code, that is one of the targets.
    pub fn emit_test(
        &mut self,
        held: Option<FieldPlace>,
        test: Elementary,
        to: Targets,
    ) -> Result<usize>
        ensures { Emits result (emit_test held test to.yes to.no self.old) self.new }
    {
        match test {
            Elementary::Outcome(true) => Ok(to.yes),
            Elementary::Outcome(false) => Ok(to.no),
            Elementary::Field(field) => {
                self.emit_comparison(field.comparison, Operand::Constant, field.value, to)?;
                if !is_loaded(held, field) {
                    self.emit_mask(field.mask)?;
                    self.emit_field(field.offset, field.width)?;
                }
                Ok(self.top())
            }
        }
    }

    /// Emits one test, as `emit_test`, of a field that A doesn't hold.
    pub fn emit_elementary(&mut self, test: Elementary, to: Targets) -> Result<usize>
        ensures { Emits result (emit_elementary test to.yes to.no self.old) self.new }
    {
        self.emit_test(None, test, to)
    }

    /// Emits some tests that all have to hold, each after the one before. Returns the place where
    /// they begin; for no test that is `to.yes`. It calls itself for each: they are few.
    ///
    /// If they are tests of an address's words (`are_words`), one of a word of which no bit counts
    /// is left out in front of another: if its word isn't captured, no later one is.
    #[tactic(auto, using(std::proofs::lemmas::Grind::common_steps))]
    pub fn emit_tests(
        &mut self,
        are_words: bool,
        tests: &[Elementary],
        to: Targets,
    ) -> Result<usize>
        ensures { Emits result (emit_all (if are_words then needed_tests tests.now else tests.now)
            to.yes to.no self.old) self.new }
    {
        match tests {
            [] => Ok(to.yes),
            [only] if are_words => self.emit_elementary(last_test(*only), to),
            [first, others @ ..] => {
                let yes = self.emit_tests(are_words, others, to)?;
                if are_words && is_idle(*first) {
                    return Ok(yes);
                }
                self.emit_elementary(*first, Targets { yes, no: to.no })
            }
        }
    }

    /// Emits the tests of the source and of the destination, as a direction asks for them. If they
    /// are tests of words of addresses (`are_words`), only those that decide come.
    #[tactic(auto, using(crate::proofs::Decision::all_emitted))]
    pub fn emit_sides(
        &mut self,
        direction: Direction,
        are_words: bool,
        source: &[Elementary],
        destination: &[Elementary],
        to: Targets,
    ) -> Result<usize>
        ensures { (link : Link) → EmitsFormula link (sides direction (if are_words then needed_tests
            source.now else source.now) (if are_words then needed_tests destination.now else
            destination.now)) to self.old result self.new }
    {
        match direction {
            Direction::One(Side::Source) => self.emit_tests(are_words, source, to),
            Direction::One(Side::Destination) => self.emit_tests(are_words, destination, to),
            Direction::Both(Join::And) => {
                let yes = self.emit_tests(are_words, destination, to)?;
                self.emit_tests(are_words, source, Targets { yes, no: to.no })
            }
            Direction::Both(Join::Or) => {
                let no = self.emit_tests(are_words, destination, to)?;
                self.emit_tests(are_words, source, Targets { yes: to.yes, no })
            }
        }
    }

    /// Emits `less N` and `greater N`: the original length is compared with a number.
    pub fn emit_length_test(&mut self, size: Size, number: u32, to: Targets) -> Result<usize>
        ensures { (link : Link) → EmitsFormula link (sized_formula size number) to self.old result
            self.new }
    {
        let comparison = match size {
            Size::Less => Comparison::AtMost,
            Size::Greater => Comparison::AtLeast,
        };
        self.emit_comparison(comparison, Operand::Constant, number, to)?;
        self.emit_plain(Operation::Load(Register::Accumulator, Source::Length), 0)?;
        Ok(self.top())
    }
}
