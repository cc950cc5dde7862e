//! Trees of texts, programs that a run of `compile` writes, and code from text.

use crate::words::words_of;
use cap_command::{Command, Compile};
use cap_octet::{Link, MemInput, MemOutput};
use cap_tools::run;
use flt_bpf::{Insn, read_listing};
use flt_lang::{Checked, check, parse, resolve};
use flt_words::{ExprFault, lex};
use std::alloc::{Allocator, Global};
use std::process::Abort;
use std::test::Fail;

/// The code of `ja`.
pub const JUMP: u16 = 5;

/// The bits of a code that say its class.
pub const CLASS: u16 = 7;

/// The tree of a text.
pub fn checked<A: Allocator + Clone>(alloc: &A, text: &str) -> Result<Checked<A>, ExprFault> {
    let tokens = lex(alloc.clone()?, text)?;
    let tree = parse(alloc.clone()?, &tokens)?;
    check(resolve(tree)?)
}

/// The instructions of the listing that a run of `compile` writes.
pub fn compiled(alloc: Global, text: &str) -> Result<Vec<Insn>, Fail> {
    let expr = String::from_str(alloc, text)?;
    let link = Link::Ether;
    let command = Command::Compile(Compile { expr, link });
    let names = words_of(alloc, "out")?;
    let inputs: Vec<MemInput<'_>> = Vec::new(alloc);
    let mut listing = vec![in alloc; 0u8; 30_000]?;
    let (out, err) = (MemOutput::new(&mut listing), MemOutput::new(&mut []));
    if !command.is_proper(inputs.len()) {
        return Err(Fail::from("the command may not be run"));
    }
    let (status, out, _) = run(alloc, command, names, inputs, out, err);
    if status != 0 {
        return Err(Fail::from("no listing"));
    }
    Ok(read_listing(alloc, out.written())?)
}

/// The instructions of a text, four numbers each, with `; ` between them. A word means an
/// instruction that many have: `type` loads the type of an Ethernet frame, `protocol` the protocol
/// of an IPv4 packet, and `yes` and `no` return.
pub fn code_of(rt: &(impl Abort + AllocGlobal), text: &str) -> Vec<Insn> {
    let count = text.split("; ").count();
    let mut listing = format!(in rt.alloc(); "{count}").expect(rt, "memory");
    for insn in text.split("; ") {
        let fields = match insn {
            "type" => "40 0 0 12",
            "protocol" => "48 0 0 23",
            "yes" => "6 0 0 262144",
            "no" => "6 0 0 0",
            _ => insn,
        };
        write!(listing, "\n{fields}").expect(rt, "memory");
    }
    read_listing(rt.alloc(), listing.as_bytes()).expect(rt, "a listing")
}

/// How many instructions have this code.
pub fn count_of(insns: &[Insn], code: u16) -> usize {
    let mut count = 0usize;
    for insn in insns {
        count = count.saturating_add(usize::from(insn.code == code));
    }
    count
}
