//! The name of an instruction, and what it works on, as libpcap's `bpf_image` writes them. The room
//! that the clauses ask for in the line's 80 bytes is the length of the longest such text.

ghost use Rattle.std.specs.Prelude.{◌≡◌, ◌+◌, ◌≤◌, ◌++◌, length, codes};
ghost use Rattle.flt_trace.specs.Text.{arithmetic_name, constant_text, load_name, operation_name};
ghost use Rattle.flt_trace.specs.Text.{hex, operand_text, signed_number, test_name};

use crate::line::Line;
use flt_bpf::operation::{AluOperation, Operand, Operation, Register, Source, Test, Width};

/// The name of a load of this many bytes of the packet into A.
fn load_name(width: Width) -> &'static str
    ensures name { result.now ≡ load_name width }
    ensures short { length result.now ≤ 3 }
{
    match width {
        Width::Word => "ld",
        Width::HalfWord => "ldh",
        Width::Byte => "ldb",
    }
}

/// The name of an operation of arithmetic, with k or with X.
fn arithmetic_name(operator: AluOperation) -> &'static str
    ensures name { result.now ≡ arithmetic_name operator }
    ensures short { length result.now ≤ 3 }
{
    match operator {
        AluOperation::Add => "add",
        AluOperation::Subtract => "sub",
        AluOperation::Multiply => "mul",
        AluOperation::Divide => "div",
        AluOperation::Or => "or",
        AluOperation::And => "and",
        AluOperation::ShiftLeft => "lsh",
        AluOperation::ShiftRight => "rsh",
        AluOperation::Remainder => "mod",
        AluOperation::ExclusiveOr => "xor",
    }
}

/// The name of a conditional jump with this test.
pub(crate) fn test_name(test: Test) -> &'static str
    ensures name { result.now ≡ test_name test }
    ensures short { length result.now ≤ 4 }
{
    match test {
        Test::Equal => "jeq",
        Test::Greater => "jgt",
        Test::AtLeast => "jge",
        Test::AnyBit => "jset",
    }
}

/// The name of an operation, which stands on the line after the place.
pub(crate) fn operation_name(operation: Operation) -> &'static str
    ensures name { result.now ≡ operation_name operation }
    ensures short { length result.now ≤ 4 }
{
    match operation {
        Operation::LoadAbsolute(width) | Operation::LoadIndirect(width) => load_name(width),
        Operation::Load(Register::Accumulator, _) => "ld",
        Operation::Load(Register::Index, _) => "ldx",
        Operation::LoadHeaderLength => "ldxb",
        Operation::Store(Register::Accumulator) => "st",
        Operation::Store(Register::Index) => "stx",
        Operation::Compute(operator, _) => arithmetic_name(operator),
        Operation::Negate => "neg",
        Operation::Jump => "ja",
        Operation::JumpIf(test, _) => test_name(test),
        Operation::ReturnConstant | Operation::ReturnAccumulator => "ret",
        Operation::CopyToIndex => "tax",
        Operation::CopyToAccumulator => "txa",
    }
}

/// Appends a number between two texts: in decimal, signed as C's `%d` has it, so with 11 bytes at
/// most.
fn push_number_between(line: &mut Line, before: &[u8], number: u32, following: &[u8])
    requires { length line.old + length before.now + 11 + length following.now ≤ 80 }
    ensures value { line.new ≡ line.old ++ (before.now ++ (signed_number number ++ following.now)) }
    ensures bound { length line.new ≤ length line.old + length before.now + 11
        + length following.now }
{
    line.push_all(before);
    line.push_signed(number);
    line.push_all(following);
}

/// Appends a constant that is loaded, compared with, or worked with bit by bit, in hexadecimal:
/// `#0x800`.
fn push_k_in_hex(line: &mut Line, number: u32)
    requires { length line.old + 11 ≤ 80 }
    ensures value { line.new ≡ line.old ++ (codes "#0x" ++ hex number) }
    ensures bound { length line.new ≤ length line.old + 11 }
{
    line.push_all(b"#0x");
    line.push_hex(number);
}

/// Appends a constant that is returned or calculated with, in decimal and signed: `#14`.
fn push_k_in_decimal(line: &mut Line, number: u32)
    requires { length line.old + 12 ≤ 80 }
    ensures value { line.new ≡ line.old ++ (codes "#" ++ signed_number number) }
    ensures bound { length line.new ≤ length line.old + 12 }
{
    line.push_all(b"#");
    line.push_signed(number);
}

/// Appends the constant of an operation of arithmetic: of `or`, `and` and `xor`, which work on
/// bits, in hexadecimal, else in decimal.
fn push_k_of_arithmetic(line: &mut Line, operator: AluOperation, k: u32)
    requires { length line.old + 12 ≤ 80 }
    ensures value { line.new ≡ line.old ++ constant_text operator k }
    ensures bound { length line.new ≤ length line.old + 12 }
{
    match operator {
        AluOperation::Or | AluOperation::And | AluOperation::ExclusiveOr => push_k_in_hex(line, k),
        _ => push_k_in_decimal(line, k),
    }
}

/// Appends what an operation works on: `[12]`, `#14`, `x`; nothing if its name says it all. Of
/// `ja` it is the place of the target in the program: `place` is that of the instruction, from 0.
pub(crate) fn push_operand(line: &mut Line, operation: Operation, k: u32, place: u32)
    requires { length line.old + 21 ≤ 80 }
    ensures value { line.new ≡ line.old ++ operand_text operation k place }
    ensures bound { length line.new ≤ length line.old + 21 }
{
    use Operation::*;
    match operation {
        LoadAbsolute(_) => push_number_between(line, b"[", k, b"]"),
        LoadIndirect(_) => push_number_between(line, b"[x + ", k, b"]"),
        Load(_, Source::Immediate) | JumpIf(_, Operand::Constant) => push_k_in_hex(line, k),
        Load(_, Source::Memory) | Store(_) => push_number_between(line, b"M[", k, b"]"),
        Load(_, Source::Length) => line.push_all(b"#pktlen"),
        LoadHeaderLength => push_number_between(line, b"4*([", k, b"]&0xf)"),
        Compute(operator, Operand::Constant) => push_k_of_arithmetic(line, operator, k),
        Compute(_, Operand::IndexRegister) | JumpIf(_, Operand::IndexRegister) => line.push(b'x'),
        Jump => line.push_decimal(u64::from(place) + 1 + u64::from(k)),
        ReturnConstant => push_k_in_decimal(line, k),
        Negate | ReturnAccumulator | CopyToIndex | CopyToAccumulator => {}
    }
}
