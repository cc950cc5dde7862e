//! How programs of lists look for a number.

use crate::filters::compilation::{CLASS, JUMP, compiled, count_of};
use flt_bpf::Insn;
use std::alloc::{AllocError, Global};
use std::test::Fail;

/// The class of returns.
const RETURN: u16 = 6;

/// The code of `ld`, a load of four bytes.
const LOAD_WORD: u16 = 32;

/// How many instructions a run makes at most after a skip, by how many it makes from each
/// instruction on, the last one of the program first.
fn longest_after(longest: &[usize], skipped: usize) -> usize {
    let place = longest.len().saturating_sub(skipped).saturating_sub(1);
    longest.get(place).copied().unwrap_or(0)
}

/// How many instructions a run of the program makes at most.
fn longest_run(alloc: Global, insns: &[Insn]) -> Result<usize, AllocError> {
    let mut longest: Vec<usize> = Vec::new(alloc);
    for insn in insns.iter().rev() {
        let after = match insn.code & CLASS {
            RETURN => 0,
            JUMP if insn.code == JUMP => longest_after(&longest, insn.k as usize),
            JUMP => longest_after(&longest, usize::from(insn.jt)).max(longest_after(
                &longest,
                usize::from(insn.jf),
            )),
            _ => longest_after(&longest, 0),
        };
        longest.push(after.saturating_add(1))?;
    }
    Ok(longest_after(&longest, 0))
}

/// Sixteen ports are searched by halves: one after another they take 26 instructions.
#[test]
fn numbers_are_searched(rt: HostRuntime) -> Result<(), Fail> {
    let ports = "udp dst port 22 or 25 or 53 or 80 or 110 or 123 or 143 or 161 or 389 or 443 \
                 or 465 or 514 or 587 or 636 or 993 or 995";
    let insns = compiled(rt.alloc(), ports)?;
    assert!(rt; longest_run(rt.alloc(), &insns)? <= 14);
    Ok(())
}

/// Each address is loaded for all hosts, not for each of them; `ip host` has two addresses.
#[test]
fn fields_are_gathered(rt: HostRuntime) -> Result<(), Fail> {
    let hosts = "ip host 192.0.2.1 or 192.0.2.3 or 192.0.2.5 or 192.0.2.7 or 192.0.2.9 \
                 or 192.0.2.11 or 192.0.2.13 or 192.0.2.15 or 192.0.2.17 or 192.0.2.19";
    let insns = compiled(rt.alloc(), hosts)?;
    assert!(rt; count_of(&insns, LOAD_WORD) <= 3);
    Ok(())
}
