//! An instruction as it is in a program and on a line of a listing.

/// One instruction of a program. Which of the fields it uses, and for what, depends on its code;
/// the others may hold anything.
#[repr(C)]
#[derive(Clone, Copy, PartialEq, Eq)]
pub struct Insn {
    /// What the instruction does.
    pub code: u16,
    /// Instructions to skip if the test holds.
    pub jt: u8,
    /// Instructions to skip if the test does not hold.
    pub jf: u8,
    /// A number, a place in the packet, the number of a word, or how many instructions a jump
    /// skips.
    pub k: u32,
}
