//! Writes listings in the form that `reading` reads; each line is built from its end.

ghost use Rattle.std.specs.Prelude.{◌≡◌, ℕ, ◌+◌, ◌<◌, ◌≤◌, List, [], ◌∷◌, ◌++◌, length, drop};
ghost use Rattle.std.specs.Prelude.{decimal, IsTrue, IfErr};
ghost use Rattle.cap_octet.specs.Device.{WritesAll, failures_of};
ghost use Rattle.flt_bpf.specs.Listing.{insn_line, listing};

use crate::insn::Insn;
use crate::program::Program;
use crate::reading::{BLANK, LINE_FEED};
use cap_octet::{Output, Stopped, write_all};
use std::alloc::Allocator;

/// The most bytes of a line: numbers of 5, 3, 3 and 10 digits, and a byte after each.
const MOST_LINE_BYTES: usize = 25;

/// Writes the listing of a program: the line of its length, and one line for each instruction. It
/// takes no memory. An error is a failure of the output in this call, and reports how many bytes,
/// fewer than all, were written before it.
pub fn write_listing<A: Allocator, O: Output>(
    program: &Program<A>,
    output: &mut O,
) -> Result<(), Stopped>
    ensures front { IfErr result (λ stopped. stopped.written < length (listing program.now.insns)) }
    ensures failed { O.failures output.new ≡ O.failures output.old + failures_of result }
    ensures room { O.room output.new ≡ O.room output.old }
    ensures exact { IsTrue O.tells → WritesAll (O.written output.old)
        (listing program.now.insns) result (O.written output.new) }
{
    let insns = program.insns();
    let mut line = [0; MOST_LINE_BYTES];
    let start = put_number(&mut line, MOST_LINE_BYTES, insns.len() as u64, LINE_FEED);
    write_all(output, &line[start..])?;
    let mut written = MOST_LINE_BYTES - start;
    for insn in insns {
        let start = put_insn_line(&mut line, insn);
        if let Err(stopped) = write_all(output, &line[start..]) {
            return Err(Stopped {
                written: written + stopped.written,
            });
        }
        written += MOST_LINE_BYTES - start;
    }
    Ok(())
}

/// Puts the line of an instruction, with its line feed, at the end of `line`, and returns the index
/// of its first digit: the last field is put first.
#[tactic(auto, using(crate::proofs::Digits::field_lengths))]
fn put_insn_line(line: &mut [u8; MOST_LINE_BYTES], insn: &Insn) -> usize
    ensures inside { result ≤ 25 }
    ensures written { drop result line.new ≡ insn_line insn.now ++ LINE_FEED ∷ [] }
{
    let k = put_number(line, MOST_LINE_BYTES, u64::from(insn.k), LINE_FEED);
    let jf = put_number(line, k, u64::from(insn.jf), BLANK);
    let jt = put_number(line, jf, u64::from(insn.jt), BLANK);
    put_number(line, jt, u64::from(insn.code), BLANK)
}

/// Puts a number in decimal, and the byte `following` after it, in front of what begins at the
/// index `end`, and returns the index of its first digit.
fn put_number(line: &mut [u8; MOST_LINE_BYTES], end: usize, number: u64, following: u8) -> usize
    requires room { length (decimal number) + 1 ≤ end }
    requires inside { end ≤ 25 }
    ensures start { result + length (decimal number) + 1 ≡ end }
    ensures written { drop result line.new ≡ decimal number ++ following ∷ drop end line.old }
{
    line[end - 1] = following;
    itoa::write_digits(number, line, end - 1)
}
