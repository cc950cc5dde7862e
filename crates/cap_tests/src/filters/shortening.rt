//! What the optimiser makes of code.

use crate::filters::compilation::code_of;
use flt_bpf::{Insn, Wide};
use flt_short::{shortened, threaded};
use std::alloc::{AllocError, Global};

/// Code, and the shorter one that is made of it; none if it stays. Each has a name before it.
const RULES: &str = "\
code without a rule
type; 21 0 1 2048; yes; no

the same with another type
type; 21 0 1 2054; yes; no

a load at X, in which a number is: accessors with a constant index aren't emitted so
0 0 0 14; 7 0 0 0; 72 0 0 2; 22 0 0 0

a load at X, in which none is
177 0 0 14; 72 0 0 2; 22 0 0 0

a mask and a test for 0 are one test of bits, whose sides are exchanged
48 0 0 20; 84 0 0 31; 21 0 1 0; yes; no
48 0 0 20; 69 1 0 31; yes; no

the second byte of UDP's source port in a packet that isn't a later fragment
40 0 0 20; 84 0 0 8191; 21 0 3 0; 177 0 0 14; 80 0 0 27; 21 0 1 2; yes; no
40 0 0 20; 69 3 0 8191; 177 0 0 14; 80 0 0 27; 21 0 1 2; yes; no

tests that end at the same place are left out
type; 21 4 0 7; 21 3 0 8; 21 2 0 9; 21 1 0 10; 21 0 0 11; yes
type; yes

a store isn't left out
type; 2 0 0 0; yes

a load that may fail isn't left out
type; 40 0 0 14; yes

what only leads to a rejection is left out
type; 2 0 0 0; 40 0 0 14; no
no

what leads to an acceptance isn't
type; 2 0 0 0; 40 0 0 14; yes

a test that both ways make is made once, and one that decides nothing is left out
type; 21 0 2 2048; protocol; 21 2 3 6; protocol; 21 0 1 6; yes; no
type; protocol; 21 0 1 6; yes; no

a test goes past what is known
type; 21 0 3 2048; protocol; 21 4 0 6; type; 21 0 3 2048; protocol; 21 0 1 17; yes; no
type; 21 0 4 2048; protocol; 21 1 0 6; 21 0 1 17; yes; no

all rules: `host 1.2.3.4 and port 5`, in part, where each operand asks for IPv4 again
type; 21 0 9 2048; 32 0 0 26; 21 0 7 16909060; type; 21 0 5 2048; 40 0 0 20; 84 0 0 8191; \
    21 0 2 0; 177 0 0 14; yes; no
type; 21 0 6 2048; 32 0 0 26; 21 0 4 16909060; 40 0 0 20; 69 2 0 8191; 177 0 0 14; yes; no

code with jumps: the layout, which comes later, writes them
type; 21 0 1 2048; 5 0 0 1; 5 0 0 4; type; 21 0 2 2048; protocol; 21 1 0 6; no; yes";

/// What a compilation makes of code: it is threaded and shortened.
fn made_of(alloc: Global, old: &[Insn]) -> Result<Vec<Insn>, AllocError> {
    let (mut code, mut made) = (Vec::new(alloc), Vec::new(alloc));
    for insn in old {
        code.push(Wide {
            code: insn.code,
            yes: u32::from(insn.jt),
            no: u32::from(insn.jf),
            k: insn.k,
        })?;
    }
    for insn in &shortened(alloc, threaded(alloc, code)?)? {
        made.push(Insn {
            code: insn.code,
            jt: u8::try_from(insn.yes).unwrap_or(u8::MAX),
            jf: u8::try_from(insn.no).unwrap_or(u8::MAX),
            k: insn.k,
        })?;
    }
    Ok(made)
}

#[test]
fn code_is_shortened_by_each_rule(rt: HostRuntime) {
    for row in RULES.split("\n\n") {
        let mut lines = row.lines();
        let (name, old) = (lines.next().unwrap_or(""), lines.next().unwrap_or(""));
        let wanted = code_of(&rt, lines.next().unwrap_or(old));
        let made = made_of(rt.alloc(), &code_of(&rt, old)).expect(&rt, "memory");
        assert!(rt; made == wanted, "{name}");
    }
}
