//! Runs of a caller's instructions, which no program counts: step by step, with the machine's state
//! before each step, if the program is valid, and of instructions that weren't checked.
//!
//! Each step is the machine's own (`execute`, `advance` of `flt_bpf`). The jobs don't use this
//! crate, so the only runner that they can name counts.
ghost use Rattle.std.specs.Option.{IfSome};
ghost use Rattle.std.specs.Prelude.{◌≡◌, ℕ, ◌≤◌, ◌<◌, ◌^◌, length, slice_set, IsSome};
ghost use Rattle.flt_bpf.specs.{Machine.machine, Machine.Answered, Valid.IsValid};
ghost use Rattle.flt_trace.specs.{RunByRules.run_by_rules, Trace.Traces, inside.Trace.step_at};

use flt_bpf::{Flow, Insn, Position, State, WORDS, advance, execute, insn_fault};

/// The state of a run before one instruction.
#[repr(C)]
#[derive(Clone, Copy)]
pub struct Step {
    /// The index of the instruction, from 0.
    pub place: u32,
    /// The register A.
    pub accumulator: u32,
    /// The register X.
    pub index: u32,
    /// The words M.
    pub memory: [u32; WORDS],
}

/// Writes a step at an index of the caller's array, or nothing if the array ends before it.
fn put_step(steps: &mut [Step], at: usize, place: usize, state: &State)
    requires { place < 2 ^ 32 }
    ensures { steps.new ≡ slice_set steps.old at (step_at place state.now) }
{
    if at < steps.len() {
        steps[at] = Step {
            place: place as u32,
            accumulator: state.accumulator,
            index: state.index,
            memory: state.memory,
        };
    }
}

/// Runs a valid program on a packet of original length `len`, and writes into `steps` what the run
/// is before each instruction that it meets, from the first one on, as far as there is room.
/// Returns what the program returns, and how many instructions the run met, which may be more than
/// there is room for.
#[tactic(auto, using(flt_bpf::proofs::Checking::parts))]
pub fn trace(insns: &[Insn], packet: &[u8], len: u32, steps: &mut [Step]) -> (u32, usize)
    requires { IsValid insns.now }
    ensures { Traces insns.now packet.now len steps.old steps.new result.0 result.1 }
{
    let mut state = State::new();
    let mut place = 0;
    let mut count = 0;
    // The label names the loop in its proof.
    'places: loop {
        put_step(steps, count, place, &state);
        count += 1;
        match execute::<false>(&insns[place], packet, len, &mut state) {
            Flow::End(answer) => return (answer, count),
            Flow::Further(further) => place += 1 + further,
        }
    }
}

/// The answer of the instructions of a valid program, on a packet of original length `len`, and the
/// count of those that the run met, the last one included. Allocates nothing. Only a `Program`
/// knows how far its loads reach, so each load is tested.
#[inline(always)]
#[tactic(auto, using(flt_bpf::proofs::Checking::parts))]
pub fn run_insns(insns: &[Insn], packet: &[u8], len: u32) -> (u32, u32)
    requires { IsValid insns.now }
    ensures answer { machine insns.now packet.now len (length insns.now)
        ≡ Answered result.0 result.1 }
    ensures counts { (1 ≤ result.1) × (result.1 ≤ length insns.now) }
{
    let mut state = State::new();
    let mut at = Position {
        rest: insns,
        count: 0,
    };
    // The label names the loop in its proof.
    'turns: loop {
        if let Some(answer) = advance::<false>(&mut at, packet, len, &mut state) {
            return (answer, at.count);
        }
    }
}

/// The answer of instructions that passed no check, on a packet of original length `len`, and the
/// count of those that the run met, the last one included. Each is checked when it is met: `None`
/// if one breaks a rule, or the run goes past the end, which no valid program does.
/// `laws::any_run` states this in terms of the machine's run.
#[inline(never)]
pub fn run_any(insns: &[Insn], packet: &[u8], len: u32) -> Option<(u32, usize)>
    ensures run { result ≡ run_by_rules insns.now packet.now len }
    ensures answer { IfSome result (λ end. machine insns.now packet.now len (length insns.now)
        ≡ Answered end.0 end.1) }
    ensures valid { IsValid insns.now → IsSome result }
{
    let mut state = State::new();
    let mut place = 0;
    let mut count = 0;
    // The label names the loop in its proof.
    'places: while place < insns.len() {
        let insn = &insns[place];
        if insn_fault(insn, insns.len() - place - 1).is_some() {
            return None;
        }
        count += 1;
        match execute::<false>(insn, packet, len, &mut state) {
            Flow::End(answer) => return Some((answer, count)),
            Flow::Further(further) => place += 1 + further,
        }
    }
    None
}
