//! Instructions, as `tcpdump -d` prints them: `(000) ldh      [12]`, or for a test
//! `(001) jeq      #0x800           jt 2\tjf 5`. libpcap's `bpf_image` fills the name up to 8 bytes
//! with blanks, and the operand of a test up to 16. In clauses 80 is the room of a line, and 32 a
//! blank.

ghost use Rattle.std.specs.Prelude.{◌≡◌, ◌+◌, ◌-◌, ◌≤◌, ◌++◌, [], codes, length, replicate};
ghost use Rattle.flt_trace.specs.Text.{branch_text, front_text, hex, insn_text, operand_text};
ghost use Rattle.flt_trace.specs.Text.{filled_text, three_digits};

use crate::line::Line;
use crate::operand::{operation_name, push_operand};
use flt_bpf::Insn;
use flt_bpf::operation::{Operation, decode};
use itoa::Buffer;

/// Appends blanks until the line has `width` bytes from the index `start` on; none if it has as
/// many already.
fn pad_to_width(line: &mut Line, start: usize, width: usize)
    requires inside { start ≤ length line.old }
    requires room { start + width ≤ 80 }
    ensures { line.new ≡ line.old ++ replicate (width - (length line.old - start)) 32 }
{
    let len = line.len() - start;
    line.push_times(b' ', width.saturating_sub(len));
}

/// Appends a number in decimal, of three digits at least: with zeros before it (C's `%03d`).
fn push_three_digits(line: &mut Line, number: u32)
    requires { length line.old + 10 ≤ 80 }
    ensures value { line.new ≡ line.old ++ three_digits number }
    ensures bound { length line.new ≤ length line.old + 10 }
{
    let mut buffer = Buffer::new();
    let digits = buffer.format(number).as_bytes();
    line.push_times(b'0', 3usize.saturating_sub(digits.len()));
    line.push_all(digits);
}

/// Appends the name of an instruction, and blanks up to its column of 8 bytes.
fn push_name(line: &mut Line, name: &str)
    requires short { length name.now ≤ 8 }
    requires room { length line.old + 8 ≤ 80 }
    ensures value { line.new ≡ line.old ++ filled_text 8 name.now }
    ensures bound { length line.new ≤ length line.old + 8 }
{
    let start = line.len();
    line.push_all(name.as_bytes());
    pad_to_width(line, start, 8);
}

/// The line of an instruction up to its operand: its place in the program, from 0, and its name, as
/// in `(000) ldh      `. With a place of 10 digits it has 22 bytes.
fn line_front(place: u32, name: &str) -> Line
    requires { length name.now ≤ 8 }
    ensures value { result ≡ front_text place name.now }
    ensures bound { length result ≤ 22 }
{
    let mut line = Line::new();
    line.push(b'(');
    push_three_digits(&mut line, place);
    line.push_all(b") ");
    push_name(&mut line, name);
    line.push(b' ');
    line
}

/// Appends to what `line_front` begins the operand of a conditional jump, in a column of 16 bytes,
/// and the places of its two targets in the program, if the jump itself is at `place`.
fn push_branch(line: &mut Line, operation: Operation, insn: &Insn, place: u32)
    requires { length line.old ≤ 22 }
    ensures { line.new ≡ line.old ++ branch_text (operand_text operation insn.now.k place)
        (place + 1 + insn.now.jt) (place + 1 + insn.now.jf) }
{
    let start = line.len();
    push_operand(line, operation, insn.k, place);
    pad_to_width(line, start, 16);
    let next = u64::from(place) + 1;
    line.push_all(b" jt ");
    line.push_decimal(next + u64::from(insn.jt));
    line.push_all(b"\tjf ");
    line.push_decimal(next + u64::from(insn.jf));
}

/// An instruction as `tcpdump -d` prints it, without a line feed; `place` is its index in the
/// program, from 0. It is what libpcap's `bpf_image` writes.
///
/// The line differs from that in four things. A load of the original length into X (code 0x81),
/// which libpcap doesn't know, is `ldx #pktlen`. A load from 0xfffff000 on has no name here, since
/// it is a load like others. The target of a jump past 2^31 isn't a negative number. A code without
/// an operation has no targets.
#[tactic(auto, unfolding(crate::specs::Text::insn_text))]
pub fn insn_text(insn: &Insn, place: u32) -> Line
    ensures { result ≡ insn_text insn.now place }
{
    let Some(operation) = decode(insn.code) else {
        // A code of no operation is shown as a number.
        let mut line = line_front(place, "unimp");
        line.push_all(b"0x");
        line.push_hex(u32::from(insn.code));
        return line;
    };
    let mut line = line_front(place, operation_name(operation));
    match operation {
        Operation::JumpIf(_, _) => push_branch(&mut line, operation, insn, place),
        _ => push_operand(&mut line, operation, insn.k, place),
    }
    line
}
