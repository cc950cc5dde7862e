//! The check of the caller's instructions, and their runs.
ghost use Rattle.std.specs.Prelude.{◌≡◌, ℕ, length};
ghost use Rattle.flt_bpf.specs.{Machine.machine, Machine.Answered, Valid.IsValid};
ghost use Rattle.flt_trace.specs.Trace.{Traces};
ghost use Rattle.capkit_c.specs.Running.{CheckLeaves, RunLeaves, rule_number};

use flt_bpf::{CheckFault, Insn, check_insns};
use flt_trace::{Step, run_any, run_insns, trace};

/// The number of a rule of valid programs as C sees it, 101 to 108 (`library/include/capkit.h`).
pub(crate) fn rule_number(fault: CheckFault) -> u32
    ensures { result ≡ rule_number fault }
{
    match fault {
        CheckFault::Empty => 101,
        CheckFault::TooLong => 102,
        CheckFault::UnknownCode => 103,
        CheckFault::JumpOut => 104,
        CheckFault::NoSuchWord => 105,
        CheckFault::DivisionByZero => 106,
        CheckFault::ShiftTooFar => 107,
        CheckFault::NoReturn => 108,
    }
}

/// Returns 0 if the instructions are a valid program, otherwise the number of the first rule that
/// they break. `index` becomes the index, from 0, of the instruction that breaks it; or 0 if the
/// rule is about the whole program, or the program is valid.
#[unsafe(no_mangle)]
pub extern "C" fn capkit_check(insns: &[Insn], index: &mut usize) -> u32
    ensures { CheckLeaves insns.now index.new result }
{
    match check_insns(insns) {
        Ok(()) => {
            *index = 0;
            0
        }
        Err((fault, at)) => {
            *index = at;
            rule_number(fault)
        }
    }
}

/// Runs a valid program on a packet of original length `len`, and returns its result; `steps`
/// becomes the number of executed instructions. The C caller must pass only instructions that were
/// compiled or passed the check.
#[unsafe(no_mangle)]
pub extern "C" fn capkit_run_unchecked(
    insns: &[Insn],
    packet: &[u8],
    len: u32,
    steps: &mut usize,
) -> u32
    requires { IsValid insns.now }
    ensures { machine insns.now packet.now len (length insns.now) ≡ Answered result steps.new }
{
    let (answer, count) = run_insns(insns, packet, len);
    *steps = count as usize;
    answer
}

/// What a valid program returns on a packet of original length `len`: 0 if it doesn't match. It
/// is `capkit_run_unchecked` without the number of steps.
#[unsafe(no_mangle)]
pub extern "C" fn capkit_matches_unchecked(insns: &[Insn], packet: &[u8], len: u32) -> u32
    requires { IsValid insns.now }
    ensures { (steps : ℕ) × (machine insns.now packet.now len (length insns.now)
        ≡ Answered result steps) }
{
    run_insns(insns, packet, len).0
}

/// The result of instructions, valid or not, on a packet of original length `len`, and the number of
/// executed instructions. Both are 0 if the run reaches an instruction that breaks a rule, or goes
/// past the end.
pub(crate) fn run(insns: &[Insn], packet: &[u8], len: u32) -> (u32, usize)
    ensures { RunLeaves insns.now packet.now len result.0 result.1 }
{
    match run_any(insns, packet, len) {
        Some((answer, count)) => (answer, count),
        None => (0, 0),
    }
}

/// Runs instructions, valid or not, on a packet of original length `len`, and returns their result;
/// `steps` becomes the number of executed instructions. If the run reaches an instruction that
/// breaks a rule, or goes past the end, it returns 0 and `steps` becomes 0.
#[unsafe(no_mangle)]
pub extern "C" fn capkit_run(insns: &[Insn], packet: &[u8], len: u32, steps: &mut usize) -> u32
    ensures { RunLeaves insns.now packet.now len result steps.new }
{
    let (answer, count) = run(insns, packet, len);
    *steps = count;
    answer
}

/// `capkit_run` without the number of steps.
#[unsafe(no_mangle)]
pub extern "C" fn capkit_matches(insns: &[Insn], packet: &[u8], len: u32) -> u32
    ensures { (steps : ℕ) × RunLeaves insns.now packet.now len result steps }
{
    run(insns, packet, len).0
}

/// Records in `steps` the state before each executed instruction of a valid program, as far as
/// there is room, and returns the number of executed instructions. Other elements don't change.
#[unsafe(no_mangle)]
pub extern "C" fn capkit_trace(insns: &[Insn], packet: &[u8], len: u32, steps: &mut [Step]) -> usize
    requires { IsValid insns.now }
    ensures { (answer : ℕ) × Traces insns.now packet.now len steps.old steps.new answer result }
{
    trace(insns, packet, len, steps).1
}
