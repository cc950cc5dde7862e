//! The parts of a step: a packet is decided, or an input that was read to its end is reported.
ghost use Rattle.std.specs.Prelude.{◌≡◌, ◌<◌, ◌≤◌, IsTrue, false, length, true};
ghost use Rattle.cap_octet.specs.Packet.{captured};
ghost use Rattle.cap_process.specs.inside.Selector.{FitsTally, GrowsByOne, HasFewMarks};
ghost use Rattle.cap_process.specs.inside.Selector.{policy_state};
ghost use Rattle.cap_process.specs.Output.{HasFewOutputInterfaces, room_to};
ghost use Rattle.cap_tools.specs.inside.Packets.{Closes, DecidesPacket, Offers, Spends, sieve};
ghost use Rattle.cap_tools.specs.inside.Packets.{end_after, end_of_failed_write, end_of_write};
ghost use Rattle.cap_tools.specs.{Packets.asks_report, inside.Packets.unless_failed};

use crate::messages::Messages;
use cap_inputs::{InputCursor, Inputs};
use cap_octet::{DeviceFault, Fault, Input, Output, Packet};
use cap_process::{JobOutput, Report, Selector, Verdict};
use std::alloc::Allocator;

/// How a job ended.
#[derive(Clone, Copy)]
pub enum JobEnd {
    /// All is written.
    Complete,
    /// By this fault the input with this index ends at its offset, or its current packet is
    /// refused, or there was no memory to write this packet.
    FaultIn(usize, Fault),
    /// The output's device failed.
    OutputFailed,
}

/// Writes a packet if it passes by its verdict; one that is skipped leaves the output unchanged.
/// The errors are those of `JobOutput::put`.
fn put_by_verdict<O: Output, A: Allocator>(
    verdict: Verdict,
    packet: &Packet<'_>,
    output: &mut JobOutput<O, A>,
) -> Result<(), Fault>
    ensures exact { IsTrue O.tells → Offers verdict (captured packet.now) output.old result
        output.new }
    ensures room { room_to output.new ≡ room_to output.old }
    ensures upper_bound { HasFewOutputInterfaces output.old → HasFewOutputInterfaces output.new }
{
    match verdict {
        Verdict::Pass | Verdict::PassLast => output.put(packet),
        Verdict::Skip => Ok(()),
    }
}

/// Decides the current packet of the input with this index, the `number`-th of the job from 1 on,
/// and writes it if it passes. The input has one. An error is how the job ends: the packet is
/// refused, or can't be written.
pub(crate) fn decide<I: Input, O: Output, A: Allocator + Copy + Drop>(
    cursor: &InputCursor<I, A>,
    input: usize,
    selector: &mut Selector<A>,
    output: &mut JobOutput<O, A>,
    number: u128,
) -> Result<Verdict, JobEnd>
    requires { cursor.now.waiting ≡ true }
    ensures exact { IsTrue O.tells → selector.old.state.passed < number
        → FitsTally selector.old.state.tally
        → DecidesPacket cursor.now.source.packet input number
        (sieve (policy_state selector.old) output.old)
        result (sieve (policy_state selector.new) output.new) }
    ensures policy { selector.new.policy ≡ selector.old.policy }
    ensures spends { Spends cursor.now.source.packet selector.old number selector.new }
    ensures passed { selector.old.state.passed ≤ number → selector.new.state.passed ≤ number }
    ensures counted { GrowsByOne selector.old.state.tally selector.new.state.tally }
    ensures marks { HasFewMarks selector.new.policy selector.new.state }
    ensures room { room_to output.new ≡ room_to output.old }
    ensures upper_bound { HasFewOutputInterfaces output.old → HasFewOutputInterfaces output.new }
{
    let mut packet = cursor.packet().unwrap();
    let verdict = match selector.judge(number, &mut packet) {
        Ok(verdict) => verdict,
        Err(fault) => return Err(JobEnd::FaultIn(input, fault)),
    };
    match put_by_verdict(verdict, &packet, output) {
        Ok(()) => Ok(verdict),
        Err(fault) => Err(end_of_failed_write(input, fault)),
    }
}

/// How a job ends after a packet with this verdict: complete after the last one that passes. `None`
/// if it goes on.
pub(crate) fn end_after(verdict: Verdict) -> Option<JobEnd>
    ensures { result ≡ end_after verdict }
{
    match verdict {
        Verdict::PassLast => Some(JobEnd::Complete),
        Verdict::Pass | Verdict::Skip => None,
    }
}

/// Reports an input that was read to its end, where packets are counted, and begins the count of
/// the next one. It returns the end if the job ends here: the output's device failed.
pub(crate) fn close<I: Input, O: Output, E: Output, A: Allocator>(
    inputs: &Inputs<I, A>,
    input: usize,
    selector: &mut Selector<A>,
    output: &mut JobOutput<O, A>,
    messages: &Messages<E, A>,
) -> Option<JobEnd>
    requires { input < length inputs.now.cursors }
    ensures exact { IsTrue O.tells → Closes messages.now.names inputs.now input
        (sieve (policy_state selector.old) output.old) result
        (sieve (policy_state selector.new) output.new) }
    ensures programs { selector.new.programs ≡ selector.old.programs }
    ensures policy { selector.new.policy ≡ selector.old.policy }
    ensures marks { HasFewMarks selector.old.policy selector.old.state
        → HasFewMarks selector.new.policy selector.new.state }
    ensures room { room_to output.new ≡ room_to output.old }
    ensures upper_bound { HasFewOutputInterfaces output.old → HasFewOutputInterfaces output.new }
    ensures kept { asks_report inputs.now.order selector.old.policy ≡ false
        → output.new ≡ output.old }
{
    let cursor = inputs.cursor(input);
    // No command counts the packets of merged inputs: a count would be of all, not of this one.
    if !inputs.is_in_turn() {
        return None;
    }
    let Some(tally) = selector.close() else {
        return None;
    };
    let report = Report {
        kind: cursor.kind(),
        size: cursor.offset(),
        tally,
    };
    unless_failed(output.report(messages.name(input), &report))
}

/// How a job ends whose output was written to: not yet, unless the output's device failed.
fn unless_failed(written: Result<(), DeviceFault>) -> Option<JobEnd>
    ensures { result ≡ unless_failed written }
{
    match written {
        Ok(()) => None,
        Err(_) => Some(JobEnd::OutputFailed),
    }
}

/// How a job ends with the last bytes of its output: complete, or the output's device failed.
pub(crate) fn end_of_write(written: Result<(), DeviceFault>) -> JobEnd
    ensures { result ≡ end_of_write written }
{
    match written {
        Ok(()) => JobEnd::Complete,
        Err(_) => JobEnd::OutputFailed,
    }
}

/// How a job ends whose current packet, of this input, passes and wasn't written: the output's
/// device failed, or the packet has this fault (its format refuses it, or there was no memory).
fn end_of_failed_write(input: usize, fault: Fault) -> JobEnd
    ensures { result ≡ end_of_failed_write input fault }
{
    match fault {
        Fault::WriteFailed => JobEnd::OutputFailed,
        _ => JobEnd::FaultIn(input, fault),
    }
}
