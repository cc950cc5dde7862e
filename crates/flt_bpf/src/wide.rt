//! An instruction whose jumps may go any distance.

use crate::insn::Insn;
use std::marker::Model;

/// One instruction of code that is not laid out yet: as [`Insn`], but a test may skip any number of
/// instructions. Its view is that of an instruction.
#[derive(Clone, Copy)]
pub struct Wide {
    /// What the instruction does.
    pub code: u16,
    /// Instructions to skip if the test holds.
    pub yes: u32,
    /// Instructions to skip if the test does not hold.
    pub no: u32,
    /// A number, a place in the packet, the number of a word, or how many instructions a jump
    /// skips.
    pub k: u32,
}

impl Model for Wide {
    ghost use Rattle.flt_bpf.specs.declared.insn.Insn.{Insn};

    ghost Value = { Insn };

    ghost view = { λ w. record { code = w.code; jt = w.yes; jf = w.no; k = w.k } };

    ghost inverse = { λ i. record { code = i.code; yes = i.jt; no = i.jf; k = i.k } };
}
