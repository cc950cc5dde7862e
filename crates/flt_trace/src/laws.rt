//! A law over the definition of runs by the rules: it is a theorem, and its function does nothing.

ghost use Rattle.std.specs.Prelude.{◌≡◌, ℕ, List, length, Some, None};
ghost use Rattle.flt_bpf.specs.Machine.{machine, Stands, Answered};
ghost use Rattle.flt_bpf.specs.{Valid.IsValid, declared.fault.CheckFault.CheckFault};
ghost use Rattle.flt_bpf.specs.declared.{insn.Insn.Insn, machine.State.State};
ghost use Rattle.flt_trace.specs.RunByRules.{run_by_rules, run_end, BreaksRuleAt};
ghost use Rattle.flt_trace.specs.RunByRules.{MeetsNoBrokenRule};

/// What `run_any` returns, in terms of the machine's run. If that meets no instruction that
/// breaks a rule, as with every valid program, it is the machine's answer and count, or `None`
/// if the run goes past the end. If the run meets a broken rule it is `None`. An answer and
/// count are always the machine's.
#[tactic(auto, using(crate::proofs::ByRules::run_laws))]
pub fn any_run()
    ensures unbroken { (insns : List Insn) (packet : List ℕ) (len : ℕ)
        → MeetsNoBrokenRule insns packet len
        → run_by_rules insns packet len ≡ run_end (machine insns packet len (length insns)) }
    ensures valid { (insns : List Insn) (packet : List ℕ) (len : ℕ) → IsValid insns
        → run_by_rules insns packet len ≡ run_end (machine insns packet len (length insns)) }
    ensures broken { (insns : List Insn) (packet : List ℕ) (len met place : ℕ) (state : State)
        (fault : CheckFault) → machine insns packet len met ≡ Stands place state
        → BreaksRuleAt insns fault place → run_by_rules insns packet len ≡ None }
    ensures answer { (insns : List Insn) (packet : List ℕ) (len answer count : ℕ)
        → run_by_rules insns packet len ≡ Some (answer, count)
        → machine insns packet len (length insns) ≡ Answered answer count }
{}
