//! The output of a job: a capture, lines of packets, or a text.
//!
//! An error of these functions means that the device failed, unless a function says otherwise.
ghost use Rattle.std.specs.Prelude.{◌≡◌, ◌+◌, IfErr, IsTrue, true};
ghost use Rattle.cap_octet.specs.{Packet.captured, Device.AppendsOrStops, Device.failures_of};
ghost use Rattle.cap_print.specs.Rendering.{printed_text};
ghost use Rattle.cap_process.specs.Output.{HasFewOutputInterfaces, failures_to, room_to};
ghost use Rattle.cap_process.specs.{Reports.file_report, Output.target_at, Output.written_to};
ghost use Rattle.cap_process.specs.inside.Output.{EndsOutput, PutsIntoOutput, Reports, is_text};
ghost use Rattle.flt_bpf.specs.Listing.{listing};

use crate::report::{Report, write_report};
use cap_io::Sink;
use cap_octet::{DeviceFault, Fault, Format, Output, Packet};
use cap_print::{Options, Text, print_packet};
use flt_bpf::{Program, write_listing};
use std::alloc::Allocator;
use std::marker::Model;

/// What a job writes.
#[derive(Clone, Copy)]
pub enum Writing {
    /// The packets that pass, as a capture.
    Capture(Format),
    /// Reports, or a listing.
    Text,
    /// A line for each packet that passes.
    Lines(Options),
}

/// What packets, lines or a text are written into.
#[derive(Drop)]
pub(crate) enum Device<O: Output, A: Allocator> {
    Capture(Sink<O, A>),
    Text(O),
    /// The options of lines, a buffer for one line, and the output.
    Lines(Options, Text, O),
}

/// Writes packets into a capture or as lines, or reports or a listing as text.
#[derive(Drop)]
pub struct JobOutput<O: Output, A: Allocator> {
    device: Device<O, A>,
}

impl<O: Output, A: Allocator> Model for JobOutput<O, A> {
    ghost use Rattle.cap_process.specs.Output.{Target, target_of};

    ghost Value = { Target };

    ghost view = { λ d. target_of O.written O.failures O.room d.device };
}

impl<O: Output, A: Allocator> JobOutput<O, A> {
    /// An output to which nothing is written yet: `output` is the device, `writing` what must be
    /// written. It takes no memory.
    pub fn new(alloc: A, writing: Writing, output: O) -> Self
    where
        A: Copy,
        ensures { result ≡ target_at writing (O.written output) (O.failures output)
            (O.room output) }
    {
        let device = match writing {
            Writing::Capture(format) => Device::Capture(Sink::new(alloc, output, format)),
            Writing::Text => Device::Text(output),
            Writing::Lines(options) => Device::Lines(options, Text::new(), output),
        };
        JobOutput { device }
    }

    /// Writes a packet into a capture, or its line; a text has no packets, and is left unchanged.
    /// The errors are those of `Sink::put` for a capture, and `WriteFailed` for a line.
    pub fn put(&mut self, packet: &Packet<'_>) -> Result<(), Fault>
        ensures exact { IsTrue O.tells
            → PutsIntoOutput (captured packet.now) self.old result self.new }
        ensures room { room_to self.new ≡ room_to self.old }
        ensures upper_bound { HasFewOutputInterfaces self.old → HasFewOutputInterfaces self.new }
    {
        match &mut self.device {
            Device::Capture(sink) => sink.put(packet),
            Device::Text(_) => Ok(()),
            Device::Lines(options, text, output) => put_line(text, *options, packet, output),
        }
    }

    /// Makes the device write its buffered bytes, and returns whether it could.
    pub fn release(&mut self) -> bool
        ensures kept { self.new ≡ self.old }
        ensures sure { IsTrue O.tells → result ≡ true }
    {
        match &mut self.device {
            Device::Capture(sink) => sink.release(),
            Device::Text(output) => output.release(),
            Device::Lines(_, _, output) => output.release(),
        }
    }

    /// Writes the report of the input of this name into a text; other outputs are left unchanged.
    pub fn report(&mut self, name: &str, report: &Report) -> Result<(), DeviceFault>
        ensures exact { IsTrue O.tells → Reports (file_report name.now report.now.kind
            report.now.size report.now.tally) self.old result self.new }
        ensures room { room_to self.new ≡ room_to self.old }
        ensures upper_bound { HasFewOutputInterfaces self.old → HasFewOutputInterfaces self.new }
    {
        match &mut self.device {
            Device::Capture(_) => Ok(()),
            Device::Text(output) => write_report(output, name, report),
            Device::Lines(_, _, _) => Ok(()),
        }
    }

    /// Writes the listing of a program. The output must be a text.
    pub fn list(&mut self, program: &Program<A>) -> Result<(), DeviceFault>
        requires { is_text self.old ≡ true }
        ensures exact { IsTrue O.tells
            → Reports (listing program.now.insns) self.old result self.new }
        ensures room { room_to self.new ≡ room_to self.old }
        ensures upper_bound { HasFewOutputInterfaces self.old → HasFewOutputInterfaces self.new }
    {
        match &mut self.device {
            Device::Capture(_) => unreachable!(),
            Device::Text(output) => put_listing(program, output),
            Device::Lines(_, _, _) => unreachable!(),
        }
    }

    /// Ends what is written: a capture without packets gets its file header, with this link type,
    /// or 1, that of Ethernet, if there is none; in pcapng its section header, which has no link
    /// type.
    pub fn finish(&mut self, first_link: Option<u16>) -> Result<(), DeviceFault>
        ensures exact { IsTrue O.tells → EndsOutput first_link self.old result self.new }
        ensures room { room_to self.new ≡ room_to self.old }
        ensures upper_bound { HasFewOutputInterfaces self.old → HasFewOutputInterfaces self.new }
    {
        match &mut self.device {
            Device::Capture(sink) => match sink.finish(first_link) {
                Ok(()) => Ok(()),
                Err(_) => Err(DeviceFault),
            },
            Device::Text(_) | Device::Lines(_, _, _) => Ok(()),
        }
    }

    /// The device that was written to, as the last call left it.
    pub fn into_output(self) -> O
    where
        A: Drop,
        ensures written { O.written result ≡ written_to self }
        ensures failures { O.failures result ≡ failures_to self }
        ensures room { O.room result ≡ room_to self }
    {
        let JobOutput { device } = self;
        match device {
            Device::Capture(sink) => sink.into_output(),
            Device::Text(output) | Device::Lines(_, _, output) => output,
        }
    }
}

/// Writes the line of a packet into `text`, a buffer, and from there to the output; its bytes too,
/// if the options ask for them. The one error is `WriteFailed`.
// It hands on a copy, so that the packet itself need not lie in memory where `put` is inlined.
#[inline(always)]
fn put_line<O: Output>(
    text: &mut Text,
    options: Options,
    packet: &Packet<'_>,
    output: &mut O,
) -> Result<(), Fault>
    ensures exact { IsTrue O.tells → AppendsOrStops result (O.written output.old)
        (printed_text options (captured packet.now)) (O.written output.new) }
    ensures fault { IfErr result (λ fault. fault ≡ Fault.WriteFailed) }
    ensures failed { O.failures output.new ≡ O.failures output.old + failures_of result }
    ensures room { O.room output.new ≡ O.room output.old }
{
    let copy = *packet;
    put_whole_line(text, options, &copy, output)
}

/// `put_line`, out of line.
#[inline(never)]
fn put_whole_line<O: Output>(
    text: &mut Text,
    options: Options,
    packet: &Packet<'_>,
    output: &mut O,
) -> Result<(), Fault>
    ensures exact { IsTrue O.tells → AppendsOrStops result (O.written output.old)
        (printed_text options (captured packet.now)) (O.written output.new) }
    ensures fault { IfErr result (λ fault. fault ≡ Fault.WriteFailed) }
    ensures failed { O.failures output.new ≡ O.failures output.old + failures_of result }
    ensures room { O.room output.new ≡ O.room output.old }
{
    match print_packet(text, options, packet, output) {
        Ok(()) => Ok(()),
        Err(_) => Err(Fault::WriteFailed),
    }
}

/// Writes the listing of a program, as `write_listing` does. A device's failure is the one error.
fn put_listing<O: Output, A: Allocator>(
    program: &Program<A>,
    output: &mut O,
) -> Result<(), DeviceFault>
    ensures exact { IsTrue O.tells → AppendsOrStops result (O.written output.old)
        (listing program.now.insns) (O.written output.new) }
    ensures failed { O.failures output.new ≡ O.failures output.old + failures_of result }
    ensures room { O.room output.new ≡ O.room output.old }
{
    match write_listing(program, output) {
        Ok(()) => Ok(()),
        Err(_) => Err(DeviceFault),
    }
}
