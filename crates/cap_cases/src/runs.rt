//! Runs of a command line over memory.

use crate::case::Case;
use crate::shown::Difference;
use cap_command::Command;
use cap_octet::{TrialInput, TrialOutput};
use cap_tools::{Job, Turn, run};
use cap_trial::{Trial, command_over, names_over};
use capkit::Line;
use std::alloc::{AllocError, Global};

/// More than any call moves.
pub const WHOLE: usize = 4_000_000;

/// How many bytes an output takes besides those that a case states.
const SPARE: usize = 1_000;

/// How many bytes a listing takes at most that no case states.
const LISTING: usize = 300_000;

/// How many bytes a listing has at most for each byte of its expression.
const EXPANSION: usize = 200;

/// How many bytes of messages are taken.
const MESSAGES: usize = 1_000;

/// An allocator that counts what is asked of it, and fails if a test asks it to.
type Memory = Trial<Global>;

/// The names of a run's inputs and of its output.
type Names<'m> = Vec<String<&'m Memory>, &'m Memory>;

/// The inputs of a run.
type Inputs<'d, 'm> = Vec<TrialInput<'d>, &'m Memory>;

/// A job over memory.
type TrialJob<'d, 'm> = Job<TrialInput<'d>, TrialOutput<'d>, TrialOutput<'d>, &'m Memory>;

/// The result of a run: its status, if it reached its end, and its devices.
type Left<'d> = (Option<u8>, TrialOutput<'d>, TrialOutput<'d>);

/// What devices over memory do.
#[derive(Clone, Copy)]
pub struct Devices {
    /// How many bytes a call moves at most.
    pub piece: usize,
    /// How many reads of each input are made before one that fails, if one does.
    pub failed_read: Option<u64>,
    /// How many allocations are made before one that fails, if one does.
    pub failed_allocation: Option<u64>,
    /// How many bytes of the case's input are there, at most.
    pub input: usize,
    /// How many bytes the output takes.
    pub output: usize,
    /// How many bytes of messages are taken.
    pub messages: usize,
    /// After how many steps the job is closed; else it is run to its end.
    pub steps: Option<u64>,
}

/// How many bytes listings of the words' expressions take at most, besides what any listing takes.
fn expansion(words: &[String]) -> usize {
    let mut size = 0usize;
    for word in words {
        size = size.saturating_add(word.len().saturating_mul(EXPANSION));
    }
    size
}

/// How many bytes the listing of the case's expression takes.
fn listing_room(case: &Case<'_>) -> usize {
    SPARE
        .saturating_add(expansion(&case.words))
        .saturating_add(expansion(&case.compiled))
        .min(LISTING)
}

/// Devices that move a given number of bytes per call, with room for so much output, and don't
/// fail.
pub fn roomy(piece: usize, output: usize) -> Devices {
    Devices {
        piece,
        failed_read: None,
        failed_allocation: None,
        input: usize::MAX,
        output,
        messages: MESSAGES,
        steps: None,
    }
}

/// Devices that move `piece` bytes per call, take all that the case states, and don't fail.
pub fn sound(case: &Case<'_>, piece: usize) -> Devices {
    roomy(piece, case.written.len().saturating_add(SPARE))
}

/// Devices that take the listing of the case's expression.
pub fn for_listing(case: &Case<'_>) -> Devices {
    roomy(WHOLE, listing_room(case))
}

/// The result of a run.
#[derive(Drop)]
pub struct Outcome {
    /// None if the job was closed before its end.
    pub status: Option<u8>,
    pub written: Vec<u8>,
    pub messages: Vec<u8>,
    /// How many allocations were asked for.
    pub allocations: u64,
}

/// What is after a text at the start of bytes, if it is present.
fn following<'b>(bytes: &'b [u8], text: &str) -> Option<&'b [u8]> {
    match bytes.split_at_checked(text.len()) {
        Some((front, rest)) if front == text.as_bytes() => Some(rest),
        _ => None,
    }
}

/// Whether messages are one, of these parts.
fn is_message(messages: &[u8], parts: &[&str]) -> bool {
    let mut rest = following(messages, "capkit: ").unwrap_or_default();
    for part in parts {
        match following(rest, part) {
            Some(more) => rest = more,
            None => return false,
        }
    }
    rest == b"\n".as_slice()
}

impl Outcome {
    /// Whether the run did what the case states.
    pub fn is_of(&self, case: &Case<'_>) -> bool {
        let is_counted = match case.allocations {
            Some(count) => self.allocations == count,
            None => true,
        };
        is_counted && self.is(&case.written, &case.messages, case.status)
    }

    /// Whether the run ended well, whatever it wrote.
    pub fn is_clean(&self) -> bool {
        self.status == Some(0) && self.messages.is_empty()
    }

    /// Whether the run wrote these bytes and failed, with a message of these parts.
    pub fn reports(&self, written: &[u8], parts: &[&str]) -> bool {
        self.status == Some(1)
            && self.written.as_slice() == written
            && is_message(&self.messages, parts)
    }

    /// Whether the run wrote these bytes and reported this, with this status.
    pub fn is(&self, written: &[u8], messages: &[u8], status: u8) -> bool {
        self.status == Some(status)
            && self.written.as_slice() == written
            && self.messages.as_slice() == messages
    }
}

/// The bytes of the listing that the line names; none if it names none.
fn listing_of<'c>(line: &Line, case: &'c Case<'_>) -> &'c [u8] {
    match &line.code {
        Some(name) => case.file(name, &case.listing),
        None => &[],
    }
}

/// The line's inputs.
fn inputs_over<'m, 'c>(
    memory: &'m Memory,
    line: &Line,
    case: &'c Case<'_>,
    devices: Devices,
) -> Result<Inputs<'c, 'm>, AllocError> {
    let mut inputs = Vec::new(memory);
    let input = case.input.get(..devices.input).unwrap_or(&case.input);
    let piece = devices.piece.max(1);
    for name in line.inputs.iter() {
        let bytes = case.file(name, input);
        let fails = case.about.is_empty() || name.as_str() == case.about;
        let failed_read = if fails {
            turn_of(devices.failed_read)
        } else {
            None
        };
        inputs.push(TrialInput::new(bytes, piece, failed_read))?;
    }
    Ok(inputs)
}

/// The number, from 1 on, of what comes after `before` others.
fn turn_of(before: Option<u64>) -> Option<u64> {
    Some(before?.saturating_add(1))
}

/// Makes `steps` steps, closes the job, and returns the status of the last step.
fn step_on<'d>(mut job: TrialJob<'d, '_>, steps: u64) -> Left<'d> {
    let mut status = None;
    for _ in 0..steps {
        status = match job.step() {
            Turn::More => None,
            Turn::Done(status) => Some(status),
        };
    }
    let (out, err) = job.close();
    (status, out, err)
}

/// Runs the command for `steps` steps, or to its end. None if it may not be run.
fn run_for<'d, 'm>(
    memory: &'m Memory,
    command: Command<&'m Memory>,
    names: Names<'m>,
    inputs: Inputs<'d, 'm>,
    (out, err): (TrialOutput<'d>, TrialOutput<'d>),
    steps: Option<u64>,
) -> Option<Left<'d>> {
    if !command.is_proper(inputs.len()) {
        return None;
    }
    let Some(steps) = steps else {
        let (status, out, err) = run(memory, command, names, inputs, out, err);
        return Some((Some(status), out, err));
    };
    match Job::new(memory, command, names, inputs, out, err) {
        Ok(job) => Some(step_on(job, steps)),
        Err(left) => {
            let (out, err) = left;
            Some((Some(1), out, err))
        }
    }
}

/// Runs the line's command, and returns its status and how many bytes it wrote and reported.
fn run_in(
    memory: &Memory,
    line: &Line,
    case: &Case<'_>,
    devices: Devices,
    (output, messages): (&mut [u8], &mut [u8]),
) -> Result<(Option<u8>, usize, usize), Difference> {
    let command = command_over(memory, line, listing_of(line, case))?;
    let names = names_over(memory, line)?;
    let inputs = inputs_over(memory, line, case, devices)?;
    let piece = devices.piece.max(1);
    let room = (
        TrialOutput::new(output, piece),
        TrialOutput::new(messages, piece),
    );
    memory.refuse(turn_of(devices.failed_allocation).unwrap_or(0));
    match run_for(memory, command, names, inputs, room, devices.steps) {
        Some((status, out, err)) => Ok((status, out.written().len(), err.written().len())),
        None => Err(Difference::Text("the command may not be run")),
    }
}

/// Runs the line's command over devices, with the case's inputs and listing.
pub fn run_line(
    alloc: Global,
    line: &Line,
    case: &Case<'_>,
    devices: Devices,
) -> Result<Outcome, Difference> {
    let mut written = vec![in alloc; 0u8; devices.output]?;
    let mut messages = vec![in alloc; 0u8; devices.messages]?;
    let memory = Trial::new(alloc);
    let room = (written.as_mut_slice(), messages.as_mut_slice());
    let (status, size, reported) = run_in(&memory, line, case, devices, room)?;
    written.truncate(size);
    messages.truncate(reported);
    Ok(Outcome {
        status,
        written,
        messages,
        allocations: memory.growths(),
    })
}
