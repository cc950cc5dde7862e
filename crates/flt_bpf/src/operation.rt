//! The operations that instructions have by their codes. These are the codes of BPF:
//! `BPF_LD | BPF_W | BPF_ABS` is 32. docs/inside/MACHINE.md has them in a table.

ghost use Rattle.std.specs.{Option.is_some, Prelude.◌≡◌, Prelude.Some, Prelude.true};
ghost use Rattle.flt_bpf.specs.{Instructions.code_of, Instructions.operation_of, Machine.load_size};

/// A register of 32 bits.
#[derive(Clone, Copy)]
pub enum Register {
    /// A, which arithmetic and tests work on.
    Accumulator,
    /// X, which places in the packet may count from.
    Index,
}

/// How many bytes of the packet a load takes: 4, 2 or 1.
#[derive(Clone, Copy)]
pub enum Width {
    Word,
    HalfWord,
    Byte,
}

impl Width {
    /// How many bytes of the packet a load takes.
    #[inline(always)]
    pub(crate) fn size(self) -> usize
        ensures { result ≡ load_size self }
    {
        match self {
            Width::Word => 4,
            Width::HalfWord => 2,
            Width::Byte => 1,
        }
    }
}

/// What a register is loaded with, if it isn't bytes of the packet.
#[derive(Clone, Copy)]
pub enum Source {
    /// The number k.
    Immediate,
    /// The word M[k].
    Memory,
    /// The original length of the packet.
    Length,
}

/// What arithmetic does with A and an operand, modulo 2^32.
#[derive(Clone, Copy)]
pub enum AluOperation {
    Add,
    Subtract,
    Multiply,
    /// Unsigned. By X = 0 it ends the run with 0.
    Divide,
    Or,
    And,
    /// By 32 or more it gives 0.
    ShiftLeft,
    /// By 32 or more it gives 0.
    ShiftRight,
    /// Unsigned. By X = 0 it ends the run with 0.
    Remainder,
    ExclusiveOr,
}

/// What a conditional jump asks of A and an operand.
#[derive(Clone, Copy)]
pub enum Test {
    Equal,
    Greater,
    AtLeast,
    /// Some bit is set in both.
    AnyBit,
}

/// The second operand of arithmetic and of a test.
#[derive(Clone, Copy)]
pub enum Operand {
    /// The number k.
    Constant,
    /// X.
    IndexRegister,
}

/// What an instruction does. A load of bytes that aren't all captured ends the run with 0.
#[derive(Clone, Copy)]
pub enum Operation {
    /// A = bytes of the packet at k.
    LoadAbsolute(Width),
    /// A = bytes of the packet at X + k modulo 2^32.
    LoadIndirect(Width),
    /// A register = k, M[k] or the original length.
    Load(Register, Source),
    /// X = four times the lower half of the byte at k, which is the length of an IPv4 header that
    /// begins there.
    LoadHeaderLength,
    /// M[k] = a register.
    Store(Register),
    /// A = A and an operand, computed.
    Compute(AluOperation, Operand),
    /// A = 0 - A.
    Negate,
    /// Skip k instructions.
    Jump,
    /// Skip jt instructions if the test holds, else jf.
    JumpIf(Test, Operand),
    /// The program returns k.
    ReturnConstant,
    /// The program returns A.
    ReturnAccumulator,
    /// X = A.
    CopyToIndex,
    /// A = X.
    CopyToAccumulator,
}

use AluOperation::*;
use Operand::{Constant, IndexRegister};
use Operation::*;
use Register::{Accumulator, Index};
use Source::{Immediate, Length, Memory};
use Test::{AnyBit, AtLeast, Equal, Greater};
use Width::{Byte, HalfWord, Word};

/// The table of codes, all but the last row, which `matched` adds: `matched` makes a match of it.
macro_rules! with_codes {
    ($($mode:tt)*) => {
        matched! {
            ($($mode)*)
            32 LoadAbsolute(Word),
            40 LoadAbsolute(HalfWord),
            48 LoadAbsolute(Byte),
            64 LoadIndirect(Word),
            72 LoadIndirect(HalfWord),
            80 LoadIndirect(Byte),
            0 Load(Accumulator, Immediate),
            96 Load(Accumulator, Memory),
            128 Load(Accumulator, Length),
            1 Load(Index, Immediate),
            97 Load(Index, Memory),
            129 Load(Index, Length),
            177 LoadHeaderLength,
            2 Store(Accumulator),
            3 Store(Index),
            4 Compute(Add, Constant),
            20 Compute(Subtract, Constant),
            36 Compute(Multiply, Constant),
            52 Compute(Divide, Constant),
            68 Compute(Or, Constant),
            84 Compute(And, Constant),
            100 Compute(ShiftLeft, Constant),
            116 Compute(ShiftRight, Constant),
            12 Compute(Add, IndexRegister),
            28 Compute(Subtract, IndexRegister),
            44 Compute(Multiply, IndexRegister),
            60 Compute(Divide, IndexRegister),
            76 Compute(Or, IndexRegister),
            92 Compute(And, IndexRegister),
            108 Compute(ShiftLeft, IndexRegister),
            124 Compute(ShiftRight, IndexRegister),
            148 Compute(Remainder, Constant),
            156 Compute(Remainder, IndexRegister),
            164 Compute(ExclusiveOr, Constant),
            172 Compute(ExclusiveOr, IndexRegister),
            132 Negate,
            5 Jump,
            21 JumpIf(Equal, Constant),
            37 JumpIf(Greater, Constant),
            53 JumpIf(AtLeast, Constant),
            69 JumpIf(AnyBit, Constant),
            29 JumpIf(Equal, IndexRegister),
            45 JumpIf(Greater, IndexRegister),
            61 JumpIf(AtLeast, IndexRegister),
            77 JumpIf(AnyBit, IndexRegister),
            6 ReturnConstant,
            22 ReturnAccumulator,
            7 CopyToIndex,
        }
    };
}

/// The match from a code to its operation, `$none` for any other number, or from an operation to
/// its code. `$more` gets the operation of the last row too (`known_operation` says why).
macro_rules! matched {
    (
        (operation of $code:expr, $(also $more:literal,)? else $none:expr)
        $($number:literal $name:ident $(($($part:ident),*))?,)*
    ) => {
        match $code {
            $($number => $name $(($($part),*))?,)*
            135 $(| $more)? => CopyToAccumulator,
            _ => $none,
        }
    };
    (
        (code of $operation:expr)
        $($number:literal $name:ident $(($($part:ident),*))?,)*
    ) => {
        match $operation {
            $($name $(($($part),*))? => $number,)*
            CopyToAccumulator => 135,
        }
    };
}

/// The operation with this code, or `None` if no operation has it.
// If this is inlined, the compiler makes one jump of this match and of the one on its result.
#[inline(always)]
#[tactic(auto, unfolding(crate::specs::Instructions::operation_of))]
pub fn decode(code: u16) -> Option<Operation>
    ensures { result ≡ operation_of code }
{
    Some(with_codes!(operation of code, else return None))
}

/// The operation with a code that some operation has: `decode` without the case of none.
// All codes fit a byte, so the match is on one, and with an arm for 255 the compiler's table of
// jumps has all bytes: its test whether the code is in the table doesn't wait for the code. A run
// takes 3 % less time so than by `decode`.
#[inline(always)]
#[tactic(auto, unfolding(crate::specs::Instructions::operation_of))]
pub(crate) fn known_operation(code: u16) -> Operation
    requires { is_some (operation_of code) ≡ true }
    ensures { operation_of code ≡ Some result }
{
    with_codes!(operation of code as u8, also 255, else unreachable!())
}

impl Operation {
    /// The code of the operation. `decode` gives the operation back.
    // If this is inlined, the code of an operation that is written out costs nothing.
    #[inline(always)]
    #[tactic(auto, unfolding(crate::specs::Instructions::operation_of))]
    pub fn code(self) -> u16
        ensures code { result ≡ code_of self }
        ensures back { operation_of result ≡ Some self }
    {
        with_codes!(code of self)
    }
}
