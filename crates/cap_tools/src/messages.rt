//! The messages of a job, and the names of files in them.
ghost use Rattle.std.specs.Prelude.{◌≡◌, ◌+◌, IsTrue, map};
ghost use Rattle.std.specs.String.{string_bytes};
ghost use Rattle.cap_octet.specs.{Device.AppendsOrStops, Device.failures_of, Views.output_view};
ghost use Rattle.cap_tools.specs.Jobs.{end_message};
ghost use Rattle.cap_process.specs.{Messages.refusal_message, Messages.IsTold, Reports.name_at};

use crate::step::JobEnd;
use cap_filter::filter::Refusal;
use cap_inputs::Inputs;
use cap_octet::{DeviceFault, Input, Output};
use cap_process::message::{report_fault, report_refusal, report_write_failed};
use std::alloc::Allocator;
use std::marker::Model;

/// Reports by name, to a device. A message that can't be written is lost.
#[derive(Drop)]
pub struct Messages<E: Output, A: Allocator> {
    device: E,
    /// For the inputs, then of the output.
    names: Vec<String<A>, A>,
}

impl<E: Output, A: Allocator> Model for Messages<E, A> {
    ghost use Rattle.std.specs.{Prelude.map, String.string_bytes};
    ghost use Rattle.cap_octet.specs.Views.{output_view};
    ghost use Rattle.cap_tools.specs.Jobs.{MessagesView};

    ghost Value = { MessagesView };

    ghost view = { λ m. record {
      names = map string_bytes m.names.items;
      device = output_view (E.written m.device) (E.failures m.device);
    } };
}

impl<E: Output, A: Allocator> Messages<E, A> {
    /// Messages of a job over files of these names: for the inputs, then of the output.
    pub fn new(device: E, names: Vec<String<A>, A>) -> Self
        ensures { result ≡ record {
          names = map string_bytes names.items;
          device = output_view (E.written device) (E.failures device);
        } }
    {
        Messages { device, names }
    }

    /// The name of the input with this index, or of the output, whose index is that after the
    /// inputs'; empty if there is none.
    pub fn name(&self, index: usize) -> &str
        ensures { result.now ≡ name_at self.now.names index }
    {
        name_of(&self.names, index)
    }

    /// Reports how a job ended, if by a fault or a failed write. What can't be written is lost.
    pub fn end<I: Input>(&mut self, inputs: &Inputs<I, A>, end: JobEnd)
    where
        A: Copy + Drop,
        ensures exact { IsTold E.tells self.old.device
            (end_message self.old.names inputs.now.cursors end) self.new.device }
        ensures quiet { end ≡ JobEnd.Complete → self.new ≡ self.old }
        ensures names { self.new.names ≡ self.old.names }
    {
        let _ = write_end_message(&mut self.device, &self.names, inputs, end);
    }

    /// Reports why an expression or a listing is refused. What can't be written is lost.
    pub fn refuse(&mut self, refusal: Refusal)
        ensures exact { IsTold E.tells self.old.device (refusal_message refusal)
            self.new.device }
        ensures names { self.new.names ≡ self.old.names }
    {
        let _ = report_refusal(&mut self.device, refusal);
    }

    /// The messages' device, as the last message left it.
    pub fn into_device(self) -> E
    where
        A: Drop,
        ensures { output_view (E.written result) (E.failures result) ≡ self.device }
    {
        self.device
    }
}

/// Writes the message of how a job ended: a fault by the name and the offset of its input, a failed
/// write by the name of the output, which follows those of the inputs. If all is written there
/// isn't a message, and the device isn't called. An error means that the device failed.
fn write_end_message<I: Input, E: Output, A: Allocator + Copy + Drop>(
    device: &mut E,
    names: &Vec<String<A>, A>,
    inputs: &Inputs<I, A>,
    end: JobEnd,
) -> Result<(), DeviceFault>
    ensures exact { IsTrue E.tells → AppendsOrStops result (E.written device.old)
        (end_message (map string_bytes names.now.items) inputs.now.cursors end)
        (E.written device.new) }
    ensures failed { E.failures device.new ≡ E.failures device.old + failures_of result }
    ensures quiet { end ≡ JobEnd.Complete → device.new ≡ device.old }
{
    match end {
        JobEnd::Complete => Ok(()),
        JobEnd::FaultIn(input, fault) => {
            report_fault(device, name_of(names, input), inputs.offset(input), fault)
        }
        JobEnd::OutputFailed => report_write_failed(device, name_of(names, inputs.count())),
    }
}

/// The name at an index; empty if there is none.
fn name_of<A: Allocator>(names: &Vec<String<A>, A>, index: usize) -> &str
    ensures { result.now ≡ name_at (map string_bytes names.now.items) index }
{
    match names.get(index) {
        Some(name) => name.as_str(),
        None => "",
    }
}
