//! The place where the program of an expression has jumps (`ja`).

use crate::filters::compilation::{CLASS, JUMP, compiled, count_of};
use flt_bpf::Insn;
use std::alloc::Global;
use std::test::Fail;

/// The farthest that a conditional jump reaches by its own offsets.
const FARTHEST: usize = 255;

/// Whether an offset of this instruction leads over `count` others.
fn leads_over(insn: &Insn, count: usize) -> bool {
    usize::from(insn.jt) == count || usize::from(insn.jf) == count
}

/// Whether each `ja` follows a conditional jump, at most one other `ja` between them, that
/// leads to it, and for a target that is more than 255 instructions past the one after that.
fn jumps_are_needed(insns: &[Insn]) -> bool {
    let mut test: Option<(usize, &Insn)> = None;
    for (at, insn) in insns.iter().enumerate() {
        if insn.code != JUMP {
            test = Some((at, insn));
            continue;
        }
        let Some((place, found)) = test else {
            return false;
        };
        let past = at.saturating_sub(place).saturating_sub(1);
        let target = past.saturating_add(1).saturating_add(insn.k as usize);
        if found.code & CLASS != JUMP || !leads_over(found, past) || target <= FARTHEST {
            return false;
        }
    }
    true
}

/// How many instructions a program has at most: 2, `for_a_test` for each test, and 6 for each node.
fn bound(for_a_test: usize, tests: usize, nodes: usize) -> usize {
    let of_tests = tests.saturating_mul(for_a_test);
    nodes
        .saturating_mul(6)
        .saturating_add(of_tests)
        .saturating_add(2)
}

/// The jumps of a program are needed. With `times` comparisons after `ip` it is no longer
/// than its bound: 2, and 6 for each test and node; where 2, 4 for each test and 6 for each node
/// are at most 256, no longer than that, and without `ja`.
fn meets_bounds(insns: &[Insn], times: usize) -> bool {
    let (tests, nodes) = (times.saturating_add(1), times.saturating_mul(2));
    let short = bound(4, tests, nodes);
    jumps_are_needed(insns)
        && insns.len() <= bound(6, tests, nodes)
        && (short > 256 || count_of(insns, JUMP) == 0 && insns.len() <= short)
}

/// `ip or len = 1` and so on, or with another number of the packet instead of the length, each time
/// compared with a value that is greater by `step`, 0 to 200 times. Returns how many jumps the
/// longest program has.
fn longest_has(alloc: Global, number: &str, step: usize) -> Result<usize, Fail> {
    let mut text = String::from_str(alloc, "ip")?;
    let mut jumps = 0;
    for times in 0..201usize {
        let insns = compiled(alloc, &text)?;
        if !meets_bounds(&insns, times) {
            return Err(Fail::new(format_args!("{times} times")));
        }
        jumps = count_of(&insns, JUMP);
        let value = step.saturating_mul(times).saturating_add(1);
        text.push_str(&format!(in alloc; " or {number} = {value}")?)?;
    }
    Ok(jumps)
}

/// The same length is asked for once, whatever the text.
#[test]
fn one_length_again_and_again(rt: HostRuntime) -> Result<(), Fail> {
    assert!(rt; longest_has(rt.alloc(), "len", 0)? == 0);
    Ok(())
}

/// Whether two bytes have one value is asked once, whatever the text.
#[test]
fn one_value_again_and_again(rt: HostRuntime) -> Result<(), Fail> {
    assert!(rt; longest_has(rt.alloc(), "ether[0:2]", 0)? == 0);
    Ok(())
}

/// A field is loaded once for all its numbers, so that each test is near the end.
#[test]
fn one_field_with_many_values(rt: HostRuntime) -> Result<(), Fail> {
    assert!(rt; longest_has(rt.alloc(), "len", 2)? == 0);
    Ok(())
}

/// A sum is computed for each test, so that the first tests are too far from the end.
#[test]
fn longer_and_longer(rt: HostRuntime) -> Result<(), Fail> {
    assert!(rt; longest_has(rt.alloc(), "ether[0:2] + 1", 2)? > 0);
    Ok(())
}
