//! Compiles an expression in all stages: its nodes are folded, the walk emits plain code, the code
//! is threaded and shortened in one or two rounds, and is laid out.

ghost use Rattle.std.specs.Prelude.{◌≡◌, ◌≤◌, IfOk, reverse};
ghost use Rattle.flt_gen.specs.{Correct.IsProgramOf, Counts.short_bound_of, inside.Round.IsRound};
ghost use Rattle.flt_gen.specs.inside.Walk.{emit_nodes, start_walk, insns_of};
ghost use Rattle.flt_bpf.specs.Layout.{JumpsAreNeeded, IsShort};

use crate::folding::folded_nodes;
use crate::walk::Walk;
use cap_octet::Link;
use flt_ast::{Checked, Node};
use flt_bpf::Wide;
use flt_bpf::operation::{Operation, decode};
use flt_bpf::program::{Program, check};
use flt_short::{laid_out, shortened, threaded};
use std::alloc::{AllocError, Allocator};

/// The most loads at fixed places, after the first round, of code that isn't optimised again. A
/// list of IPv4 addresses or ports has fewer, a chain of 16 conjunctions has more.
const FEW_LOADS: usize = 16;

/// `laid_out` takes fewer than 2^30 instructions. A checked expression never has as many (its bound
/// is at most 32,768), so the error for it is never returned.
const TOO_MANY: usize = 0x4000_0000;

/// The plain code of the tree with these nodes, before it is threaded, shortened and laid out: its
/// tests may skip any number of instructions. An error is a failed allocation, or an allocator that
/// cannot be cloned.
#[tactic(auto, using(std::proofs::lemmas::Grind::common_steps))]
fn wide_code<A: Allocator + Clone>(
    alloc: A,
    nodes: &[Node],
    link: Link,
) -> Result<Vec<Wide, A>, AllocError>
    ensures { IfOk result
        (λ code. code.items ≡ insns_of (emit_nodes link start_walk (reverse nodes.now))) }
{
    let mut walk = Walk::new(alloc)?;
    walk.emit_nodes(link, nodes)?;
    Ok(walk.into_insns())
}

/// Whether an instruction copies A to X. Accessors and operators with a computed right operand do.
fn has_index_copy(insns: &[Wide]) -> bool {
    for insn in insns {
        if insn.code == Operation::CopyToIndex.code() {
            return true;
        }
    }
    false
}

/// Whether code has more than `FEW_LOADS` loads at fixed places.
fn has_many_loads(insns: &[Wide]) -> bool {
    let mut left = FEW_LOADS;
    for insn in insns {
        if let Some(Operation::LoadAbsolute(_)) = decode(insn.code) {
            if left == 0 {
                return true;
            }
            left -= 1;
        }
    }
    false
}

/// The code after a round of the optimiser, which threads and shortens it, if one is wanted; else
/// the code itself.
fn optimised<A: Allocator + Clone>(
    alloc: A,
    insns: Vec<Wide, A>,
    is_wanted: bool,
) -> Result<Vec<Wide, A>, AllocError>
    ensures { IfOk result (λ new. IsRound new.items insns.items) }
{
    if !is_wanted {
        return Ok(insns);
    }
    let moved = threaded(alloc.clone()?, insns)?;
    shortened(alloc, moved)
}

/// A program that accepts (returns non-zero) exactly the packets that the expression, read on the
/// link, matches. It has at most as many instructions as the expression's bound, and none of
/// them is executed twice in a run.
///
/// It has a jump (`ja`) only if a conditional jump's target is more than 255 instructions past the
/// one after it. It has none, and at most `short_bound_of` instructions, if that number is at most
/// 256.
///
/// An error is a failed allocation, or an allocator that cannot be cloned.
pub fn generate<A: Allocator + Clone, B: Allocator>(
    alloc: A,
    expr: &Checked<B>,
    link: Link,
) -> Result<Program<A>, AllocError>
    ensures decides { IfOk result (λ program. IsProgramOf program.insns expr.now.expr link) }
    ensures jumps { IfOk result (λ program. JumpsAreNeeded program.insns) }
    ensures short { short_bound_of expr.now.expr ≤ 256
        → IfOk result (λ program. IsShort program.insns (short_bound_of expr.now.expr)) }
    ensures fresh { IfOk result (λ program. program.spent ≡ 0) }
{
    let nodes = folded_nodes(alloc.clone()?, expr.expr.nodes())?;
    let code = wide_code(alloc.clone()?, &nodes, link)?;
    // A walk of the second round gets further than one of the first, since less code is left.
    // `has_index_copy` and `has_many_loads` need no clause: a mistake would only cost length or
    // time.
    let copies_to_index = has_index_copy(&code);
    let once = optimised(alloc.clone()?, code, true)?;
    let is_wanted = copies_to_index || has_many_loads(&once);
    let short = optimised(alloc.clone()?, once, is_wanted)?;
    if short.len() >= TOO_MANY {
        return Err(AllocError);
    }
    let insns = laid_out(alloc, &short)?;
    match check(insns) {
        Ok(program) => Ok(program),
        // The plain code is valid, and each pass keeps it valid.
        Err(_) => unreachable!(),
    }
}
