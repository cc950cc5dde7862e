//! What a command is run over: its listing, its inputs and its output, opened in this order.
ghost use Rattle.std.specs.Prelude.{◌≡◌, ◌&&◌, ◌||◌, ◌+◌, ◌++◌, ◌∷◌, [], ℕ, not, is_none, IfErr};
ghost use Rattle.std.specs.Prelude.{IfOk, Ok, codes, false, length, map, option_map, string_bytes};
ghost use Rattle.std.specs.{Global.Vec, IoError.error_kind};
ghost use Rattle.std.specs.Prelude.{true, unwrap_or, vec_len};
ghost use Rattle.cap_command.specs.Command.{is_proper};
ghost use Rattle.capkit.specs.Line.{has_expression, with_code};

use crate::files::push_copy;
use crate::progress::{Counted, Progress};
use crate::stop::Stop;
pub use crate::streams::create_output;
use crate::streams::{Created, Opened};
use crate::waiting::{Buffering, buffering_of, may_wait};
use crate::{STANDARD, with_code};
use cap_command::Command;
use cap_octet::{StdInput, StdOutput};
use std::alloc::AllocError;
use std::io::{self, BufReader, BufWriter, ErrorKind, Read, Stderr};

/// The bytes of the buffer before each input, of which there may be 256. A longer one is read
/// hardly faster, and filled with zeros first.
const INPUT_BUFFER: usize = 65_536;

/// The bytes of the buffer before an output that is written when it is full. Each write begins and
/// ends inside a page of the system, which costs less if writes are long.
const OUTPUT_BUFFER: usize = 262_144;

/// The bytes of the buffer before an output that is written out before each read that may wait.
/// What a full buffer of an input becomes mostly fits it, so that few packets are written in two
/// parts.
const AWAITED_BUFFER: usize = 1_048_576;

/// How many bytes of a listing are read at most: one more than it may have, by which a longer one
/// is known.
const LISTING_ROOM: u64 = 1_048_577;

/// An input as the job reads it, after its buffer.
pub type Source<'a> = StdInput<Counted<'a, Opened>>;

/// The output as the job writes it, after its buffer.
pub type Target<'a> = StdOutput<Created<'a>>;

/// The first `LISTING_ROOM` bytes of the listing of this name. The errors are `NoMemory`, and
/// `CannotOpen`, even if it is opened and can't be read on.
pub fn read_listing<'a>(rt: &HostRuntime, name: &'a str) -> Result<Vec<u8>, Stop<'a>> {
    let Some(opened) = Opened::open(rt, name) else {
        return Err(Stop::CannotOpen(name));
    };
    let mut bytes = Vec::new(rt.alloc());
    match opened.take(LISTING_ROOM).read_to_end(&mut bytes) {
        Ok(_) => Ok(bytes),
        Err(error) if error.kind() == ErrorKind::OutOfMemory => Err(Stop::NoMemory),
        Err(_) => Err(Stop::CannotOpen(name)),
    }
}

/// The command with the bytes of its listing, if one is named; else the command as it is. An
/// error is that the listing can't be read, or that memory ran out.
pub fn with_listing<'a>(
    rt: &HostRuntime,
    command: Command,
    listing: Option<&'a str>,
) -> Result<Command, Stop<'a>>
    ensures unnamed { IfOk result (λ read. is_none listing.entry ≡ true → read ≡ command) }
    ensures named { IfOk result (λ read. is_none listing.entry ≡ false
        → (bytes : Vec ℕ) × (read ≡ with_code command bytes)) }
    ensures proper { IfOk result (λ read. (inputs : ℕ) → (is_proper command inputs &&
        (is_none listing.entry || not (has_expression command))) ≡ true
        → is_proper read inputs ≡ true) }
{
    let Some(name) = listing else {
        return Ok(command);
    };
    let bytes = read_listing(rt, name)?;
    Ok(with_code(command, bytes))
}

/// The buffer that was just made. An error, which can only be that memory ran out for it, becomes
/// `NoMemory`.
pub fn buffer_or_stop<'a, T: Drop>(made: io::Result<T>) -> Result<T, Stop<'a>>
    requires { IfErr made (λ error. error_kind error ≡ ErrorKind.OutOfMemory) }
    ensures { IfOk result (λ buffer. made ≡ Ok buffer) }
{
    match made {
        Ok(buffer) => Ok(buffer),
        Err(_) => Err(Stop::NoMemory),
    }
}

/// Opens the inputs of these names in order, each with a buffer before it, and counts what is read
/// of them as progress. An error names the first that can't be opened, or is that memory ran out.
pub fn open_inputs<'a, 'p>(
    rt: &HostRuntime,
    names: &'a [String],
    progress: &'p Progress<'p>,
) -> Result<Vec<Source<'p>>, Stop<'a>>
    ensures { IfOk result (λ inputs. vec_len inputs ≡ length names.entry.now) }
{
    let mut inputs = Vec::new(rt.alloc());
    for name in names {
        let Some(reader) = Opened::open(rt, name) else {
            return Err(Stop::CannotOpen(name));
        };
        let counted = Counted { reader, progress };
        let reader = buffer_or_stop(BufReader::with_capacity(rt.alloc(), INPUT_BUFFER, counted))?;
        if inputs.push(StdInput::new(reader)).is_err() {
            return Err(Stop::NoMemory);
        }
    }
    Ok(inputs)
}

/// The output with its buffer: none on a terminal; if a read may wait, one that is written out
/// before each such read; else one that is written out when it is full. An error means that memory
/// ran out.
pub fn buffer_output<'a>(
    rt: &HostRuntime,
    created: Created<'a>,
    may_wait: bool,
) -> Result<Target<'a>, Stop<'a>> {
    let (capacity, is_awaited) = match buffering_of(created.is_terminal(), may_wait) {
        Buffering::AtOnce => (0, false),
        Buffering::BeforeReads => (AWAITED_BUFFER, true),
        Buffering::WhenFull => (OUTPUT_BUFFER, false),
    };
    let writer = buffer_or_stop(BufWriter::with_capacity(rt.alloc(), capacity, created))?;
    if is_awaited {
        Ok(StdOutput::new_awaited(writer))
    } else {
        Ok(StdOutput::new(writer))
    }
}

/// What a command is run over: its inputs, its output, and the messages' device.
pub struct Devices<I, O, E> {
    pub inputs: Vec<I>,
    pub output: O,
    pub messages: E,
}

/// Opens the inputs in order, creates the output, and takes standard error for messages. An error
/// is the first of these that can't be done, or that memory ran out.
pub fn open_devices<'a, 't: 'a, 'p>(
    rt: &'t HostRuntime,
    names: &'a [String],
    output: &'t str,
    progress: &'p Progress<'p>,
) -> Result<Devices<Source<'p>, Target<'t>, StdOutput<Stderr>>, Stop<'a>>
    ensures { IfOk result (λ devices. vec_len devices.inputs ≡ length names.entry.now) }
{
    let inputs = open_inputs(rt, names, progress)?;
    let created = create_output(rt, output)?;
    let may_wait = may_wait(rt, names);
    let output = buffer_output(rt, created, may_wait)?;
    let messages = buffer_or_stop(BufWriter::new(rt.alloc(), rt.stderr()))?;
    Ok(Devices {
        inputs,
        output,
        messages: StdOutput::new(messages),
    })
}

/// The names of the inputs, and that of the output after them, as a run takes them. An error means
/// that memory ran out.
pub fn with_output_name(
    rt: &HostRuntime,
    mut names: Vec<String>,
    output: &str,
) -> Result<Vec<String>, AllocError>
    ensures count { IfOk result (λ all. vec_len all ≡ vec_len names + 1) }
    ensures names { IfOk result (λ all. map string_bytes all.items
        ≡ map string_bytes names.items ++ output.now ∷ []) }
{
    push_copy(rt.alloc(), &mut names, output)?;
    Ok(names)
}

/// The name of a line's output; `-`, which is standard output, if the line has none.
pub fn output_name(output: &Option<String>) -> &str
    ensures { result.now ≡ unwrap_or (option_map string_bytes output.now) (codes "-") }
{
    match output {
        Some(name) => name,
        None => STANDARD,
    }
}
