//! What is reported of how a command ended, a line each.
//!
//! An error of these functions means that the messages' device failed in the call, after a prefix
//! of the line that isn't the whole.
ghost use Rattle.std.specs.Prelude.{◌≡◌, ◌+◌, ◌++◌, IsTrue, codes};
ghost use Rattle.cap_octet.specs.Device.{AppendsOrStops, failures_of};
ghost use Rattle.flt_bpf.specs.Message.{check_message, listing_message};
ghost use Rattle.flt_words.specs.Messages.{message_of};
ghost use Rattle.cap_process.specs.Messages.{fault_message, write_failed_message};
ghost use Rattle.cap_process.specs.Messages.{no_memory_message, refusal_message};
ghost use Rattle.cap_process.specs.Messages.{expression_message, code_message, line_feed};

use cap_filter::filter::Refusal;
use cap_octet::{DeviceFault, Fault, Output, write_parts};
use flt_bpf::{CheckFault, ListingFault};
use flt_words::ExprFault;
use itoa::Buffer;

/// Writes the message of a fault: the input's name, the offset, in digits, and the fault's text.
fn write_fault<'a, O: Output>(
    output: &mut O,
    name: &'a [u8],
    offset: &'a [u8],
    text: &'a [u8],
) -> Result<(), DeviceFault>
    ensures exact { IsTrue O.tells → AppendsOrStops result (O.written output.old)
        (codes "capkit: " ++ name.now ++ codes ": offset " ++ offset.now ++ codes ": " ++ text.now
        ++ line_feed) (O.written output.new) }
    ensures failed { O.failures output.new ≡ O.failures output.old + failures_of result }
{
    let parts: [&'a [u8]; 7] = [b"capkit: ", name, b": offset ", offset, b": ", text, b"\n"];
    write_parts(output, &parts)
}

/// Reports a fault at an offset, in bytes, of the input of this name.
pub fn report_fault<O: Output>(
    output: &mut O,
    name: &str,
    offset: u64,
    fault: Fault,
) -> Result<(), DeviceFault>
    ensures exact { IsTrue O.tells → AppendsOrStops result (O.written output.old)
        (fault_message name.now offset fault) (O.written output.new) }
    ensures failed { O.failures output.new ≡ O.failures output.old + failures_of result }
{
    let mut digits = Buffer::new();
    let offset = digits.format(offset).as_bytes();
    write_fault(output, name.as_bytes(), offset, fault.text().as_bytes())
}

/// Reports that the device of the output of this name failed.
pub fn report_write_failed<O: Output>(output: &mut O, name: &str) -> Result<(), DeviceFault>
    ensures exact { IsTrue O.tells → AppendsOrStops result (O.written output.old)
        (write_failed_message name.now) (O.written output.new) }
    ensures failed { O.failures output.new ≡ O.failures output.old + failures_of result }
{
    let parts: [&[u8]; 3] = [b"capkit: ", name.as_bytes(), b": write failed\n"];
    write_parts(output, &parts)
}

/// Reports that memory ran out before a unit was read: to begin a job, to read its filter, or to
/// compile its expression. So there is no input and no offset to name.
pub fn report_no_memory<O: Output>(output: &mut O) -> Result<(), DeviceFault>
    ensures exact { IsTrue O.tells → AppendsOrStops result (O.written output.old) no_memory_message
        (O.written output.new) }
    ensures failed { O.failures output.new ≡ O.failures output.old + failures_of result }
{
    write_parts(output, &[b"capkit: no memory\n"])
}

/// Writes the message of a refusal: what is refused (`subject`), why (`text`), and where: `words`
/// as " at line ", then a number in `digits`; both are empty if there is no place to name.
fn write_refusal<'a, O: Output>(
    output: &mut O,
    subject: &'a [u8],
    text: &'a [u8],
    words: &'a [u8],
    digits: &'a [u8],
) -> Result<(), DeviceFault>
    ensures exact { IsTrue O.tells → AppendsOrStops result (O.written output.old)
        (codes "capkit: " ++ subject.now ++ codes ": " ++ text.now ++ words.now ++ digits.now
        ++ line_feed) (O.written output.new) }
    ensures failed { O.failures output.new ≡ O.failures output.old + failures_of result }
{
    let parts: [&'a [u8]; 7] = [b"capkit: ", subject, b": ", text, words, digits, b"\n"];
    write_parts(output, &parts)
}

/// Reports why an expression was refused, and at which of its bytes, counted from 1, if the
/// fault has a place.
fn report_expression<O: Output>(output: &mut O, fault: ExprFault) -> Result<(), DeviceFault>
    ensures exact { IsTrue O.tells → AppendsOrStops result (O.written output.old)
        (expression_message (message_of fault)) (O.written output.new) }
    ensures failed { O.failures output.new ≡ O.failures output.old + failures_of result }
{
    let text = fault.text().as_bytes();
    match fault.place() {
        None => write_refusal(output, b"expression", text, b"", b""),
        Some(place) => {
            let mut digits = Buffer::new();
            let place = digits.format(place).as_bytes();
            write_refusal(output, b"expression", text, b" at ", place)
        }
    }
}

/// Reports why a text isn't a listing, and in which line, counted from 1, if the fault has one.
fn report_listing<O: Output>(output: &mut O, fault: ListingFault) -> Result<(), DeviceFault>
    ensures exact { IsTrue O.tells → AppendsOrStops result (O.written output.old)
        (code_message (listing_message fault)) (O.written output.new) }
    ensures failed { O.failures output.new ≡ O.failures output.old + failures_of result }
{
    let text = fault.text().as_bytes();
    match fault.line() {
        None => write_refusal(output, b"code", text, b"", b""),
        Some(line) => {
            let mut digits = Buffer::new();
            let line = digits.format(line).as_bytes();
            write_refusal(output, b"code", text, b" at line ", line)
        }
    }
}

/// Reports which rule instructions break, and the index, from 0, of the one that breaks it; a rule
/// on the whole has no index.
fn report_check<O: Output>(output: &mut O, fault: CheckFault, at: usize) -> Result<(), DeviceFault>
    ensures exact { IsTrue O.tells → AppendsOrStops result (O.written output.old)
        (code_message (check_message fault at)) (O.written output.new) }
    ensures failed { O.failures output.new ≡ O.failures output.old + failures_of result }
{
    let text = fault.text().as_bytes();
    if fault.has_index() {
        let mut digits = Buffer::new();
        let index = digits.format(at).as_bytes();
        write_refusal(output, b"code", text, b" at ", index)
    } else {
        write_refusal(output, b"code", text, b"", b"")
    }
}

/// Reports why a filter was refused: its expression, its listing or the listing's program; or that
/// there was no memory for it.
pub fn report_refusal<O: Output>(output: &mut O, refusal: Refusal) -> Result<(), DeviceFault>
    ensures exact { IsTrue O.tells → AppendsOrStops result (O.written output.old)
        (refusal_message refusal) (O.written output.new) }
    ensures failed { O.failures output.new ≡ O.failures output.old + failures_of result }
{
    match refusal {
        Refusal::Expression(ExprFault::Memory) | Refusal::Listing(ListingFault::Memory) => {
            report_no_memory(output)
        }
        Refusal::Expression(fault) => report_expression(output, fault),
        Refusal::Listing(fault) => report_listing(output, fault),
        Refusal::Program(fault, at) => report_check(output, fault, at),
    }
}
