//! The registers that an operation reads, and those that it sets.

ghost use Rattle.std.specs.Prelude.{◌≡◌};
ghost use Rattle.flt_bpf.specs.Registers.{reads_accumulator, reads_index, sets_accumulator};
ghost use Rattle.flt_bpf.specs.Registers.{sets_index};

use crate::operation::{Operand, Operation, Register};

/// Whether what an operation does depends on A.
pub fn reads_accumulator(operation: Operation) -> bool
    ensures { result ≡ reads_accumulator operation }
{
    matches!(
        operation,
        Operation::Store(Register::Accumulator)
            | Operation::Compute(_, _)
            | Operation::Negate
            | Operation::JumpIf(_, _)
            | Operation::ReturnAccumulator
            | Operation::CopyToIndex
    )
}

/// Whether what an operation does depends on X.
pub fn reads_index(operation: Operation) -> bool
    ensures { result ≡ reads_index operation }
{
    matches!(
        operation,
        Operation::LoadIndirect(_)
            | Operation::Store(Register::Index)
            | Operation::Compute(_, Operand::IndexRegister)
            | Operation::JumpIf(_, Operand::IndexRegister)
            | Operation::CopyToAccumulator
    )
}

/// Whether an operation puts something into A.
pub fn sets_accumulator(operation: Operation) -> bool
    ensures { result ≡ sets_accumulator operation }
{
    matches!(
        operation,
        Operation::LoadAbsolute(_)
            | Operation::LoadIndirect(_)
            | Operation::Load(Register::Accumulator, _)
            | Operation::Compute(_, _)
            | Operation::Negate
            | Operation::CopyToAccumulator
    )
}

/// Whether an operation puts something into X.
pub fn sets_index(operation: Operation) -> bool
    ensures { result ≡ sets_index operation }
{
    matches!(
        operation,
        Operation::Load(Register::Index, _) | Operation::LoadHeaderLength | Operation::CopyToIndex
    )
}
