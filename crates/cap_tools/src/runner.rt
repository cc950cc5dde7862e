//! The program: its words, and a command over the files and standard streams that its names mean.
ghost use Rattle.std.specs.Prelude.{◌≡◌, ◌≤◌, IsTrue, map, string_bytes, true, vec_len};
ghost use Rattle.cap_octet.specs.Views.{device_view, fresh_input, fresh_output};
ghost use Rattle.cap_command.specs.{Call.call_of, Call.run_result, Command.is_proper};
ghost use Rattle.cap_tools.specs.{Run.CommandRuns, Start.assignment};
ghost use Rattle.capkit.specs.Line.{is_ready};

use crate::job::run;
use cap_command::Command;
use cap_octet::{Input, Output};
use capkit::ending::finish;
use capkit::opening::{Devices, open_devices, output_name, with_listing, with_output_name};
use capkit::progress::Progress;
use capkit::refusal::{refuse, refuse_not_utf8, run_or_refuse};
use capkit::stop::{Stop, report_stop};
use capkit::words::line_of_words;
use capkit::{Line, Usage};
use std::alloc::AllocError;
use std::env;
use std::io::ErrorKind;

/// Runs the command over its devices, and ends its progress. `names` are those of the inputs, then
/// of the output. It returns the status, and hands back the output and the messages' device.
fn run_over_devices<I: Input + Drop, O: Output, E: Output>(
    rt: &HostRuntime,
    command: Command,
    names: Vec<String>,
    devices: Devices<I, O, E>,
    progress: &Progress<'_>,
) -> (u8, O, E)
    requires { is_proper command (vec_len devices.inputs) ≡ true }
    ensures status { result.0 ≤ 2 }
    ensures exact { IsTrue I.tells → IsTrue O.tells → CommandRuns (assignment command)
        (call_of (map string_bytes names.items) (map (fresh_input I.Input) devices.inputs.items)
        (fresh_output O.Output devices.output) (fresh_output E.Output devices.messages))
        (run_result result.0 (device_view O.Output result.1) (device_view E.Output result.2)) }
{
    let Devices {
        inputs,
        output,
        messages,
    } = devices;
    let ended = run(rt.alloc(), command, names, inputs, output, messages);
    progress.end();
    ended
}

/// Opens the inputs in order, creates the output, runs the command, and returns its status. If
/// something can't be opened or created, or memory for that runs out, it reports this, runs nothing
/// and returns 1. A failed write that the command has reported is not reported again.
pub fn run_command<'a>(
    rt: &'a HostRuntime,
    command: Command,
    names: Vec<String>,
    output: &'a str,
    progress: &Progress<'_>,
) -> u8
    requires { is_proper command (vec_len names) ≡ true }
    ensures { result ≤ 2 }
{
    let Ok(names) = with_output_name(rt, names, output) else {
        return report_stop(rt, Stop::NoMemory);
    };
    // The last name is the output's.
    let inputs = &names[..names.len() - 1];
    let devices = match open_devices(rt, inputs, output, progress) {
        Ok(devices) => devices,
        Err(stop) => return report_stop(rt, stop),
    };
    let (status, target, messages) = run_over_devices(rt, command, names, devices, progress);
    match finish(rt.alloc(), status, target, messages, output) {
        Ok(status) => status,
        Err(stop) => report_stop(rt, stop),
    }
}

/// Runs the command of the line over the files and streams that its names mean, and returns its
/// status, 0, 1 or 2.
///
/// It reads the listing, if one is named, opens the inputs in order, and creates the output. The
/// first of these that fails is reported, and the status is 1; else the command runs.
pub fn run_line(rt: &HostRuntime, line: Line) -> u8
    requires { is_ready line ≡ true }
    ensures { result ≤ 2 }
{
    let Line {
        command,
        inputs: names,
        output,
        code,
    } = line;
    let output = output_name(&output);
    let listing = match &code {
        Some(name) => Some(name.as_str()),
        None => None,
    };
    let command = match with_listing(rt, command, listing) {
        Ok(command) => command,
        Err(stop) => return report_stop(rt, stop),
    };
    let progress = Progress::new(rt, names.as_slice(), output);
    run_command(rt, command, names, output, &progress)
}

/// Does what the words after the program's name ask for, and returns the status.
pub fn run_program(rt: &HostRuntime) -> u8
    ensures { result ≤ 2 }
{
    let words = match env::args(rt) {
        Ok(words) => words.skip(1).collect(rt.alloc()),
        Err(error) if error.kind() == ErrorKind::InvalidData => return refuse_not_utf8(rt),
        // If every word is UTF-8, only the lack of memory keeps them from being copied.
        Err(_) => Err(AllocError),
    };
    let Ok(words) = words else {
        return refuse(rt, Usage::Memory);
    };
    let parsed = line_of_words(rt, words);
    run_or_refuse(
        rt,
        parsed,
        |line: Line| -> u8
            requires { is_ready line ≡ true }
            ensures { result ≤ 2 }
        { run_line(rt, line) },
    )
}
