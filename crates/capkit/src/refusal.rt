//! Words that aren't a command line: what is reported of them, and the status.
ghost use Rattle.std.specs.Prelude.{◌≡◌, ◌≤◌, Bool, IfErr, IfOk, IfSome, length};
ghost use Rattle.std.specs.Result.{ForOk};
ghost use Rattle.capkit.specs.Status.{status_of};

use crate::message::{Errors, ShownBytes, refusal_text, tell};
use crate::stop::Stop;
use crate::{FAULT, Line, STANDARD, USAGE, Usage};
use std::env::{Env, FillError};
use std::io::ErrorKind;

/// Prints what the user asked to know of the command line, as its help, and returns whether it
/// could be written. A failed write is reported, unless the reader of a pipe went away.
fn print_answer(rt: &(impl AllocGlobal + Print + Errors), answer: &clap::Error) -> bool {
    match answer.print(rt) {
        Ok(()) => true,
        Err(error) => {
            if error.kind() != ErrorKind::BrokenPipe {
                tell(rt, Stop::WriteFailed(STANDARD));
            }
            false
        }
    }
}

/// Reports why clap refuses the words, with hints (`refusal_text`); if memory runs out for
/// these, in clap's own words. A report that can't be written is lost.
pub fn tell_refusal(rt: &(impl AllocGlobal + Print + Errors), error: &clap::Error) {
    let _ = match refusal_text(rt.alloc(), error) {
        Ok(text) => rt.write_text(&text),
        Err(_) => error.print(rt),
    };
}

/// The status of words that aren't a command line: 2, even if clap ran out of memory, or 1 of
/// `Usage::Memory`. For a request for help or the version it is 0 if the answer could be written,
/// and else 1.
fn status_of(usage: &Usage, is_written: bool) -> u8
    ensures { result ≡ status_of usage.now is_written }
{
    match usage {
        Usage::Refused(error) if error.use_stderr() => USAGE,
        Usage::Refused(_) if is_written => 0,
        Usage::Refused(_) | Usage::Memory => FAULT,
        _ => USAGE,
    }
}

/// Reports why words aren't a command line, or what the user asked to know of it, and returns the
/// status.
pub fn refuse(rt: &(impl AllocGlobal + Print + Errors), usage: Usage) -> u8
    ensures { (is_written : Bool) × (result ≡ status_of usage is_written) }
{
    let mut is_written = true;
    match &usage {
        Usage::Refused(error) if error.use_stderr() => tell_refusal(rt, error),
        Usage::Refused(answer) => is_written = print_answer(rt, answer),
        Usage::Memory => tell(rt, Stop::NoMemory),
        fault => tell(rt, format_args!("usage: {fault}")),
    }
    status_of(&usage, is_written)
}

/// How many bytes of a word that isn't UTF-8 a message shows at most; a longer word isn't shown.
const SHOWN_BYTES: usize = 4096;

/// Copies the first word that isn't UTF-8 into the buffer, and returns its length in bytes. Words
/// that are longer than the buffer are left out; `None` if there is no other one.
fn first_word_not_utf8(rt: &impl Env, buf: &mut [u8]) -> Option<usize>
    ensures { IfSome result (λ count. count ≤ length buf.new) }
{
    for place in 0..usize::MAX {
        match rt.arg(place, buf) {
            Ok(count) if str::from_utf8(&buf[..count]).is_err() => return Some(count),
            // A word that is longer than the buffer isn't looked at.
            Ok(_) | Err(FillError::TooLong) => {}
            Err(FillError::NotPresent) => return None,
        }
    }
    None
}

/// Reports that a word isn't UTF-8, and which, unless it is too long to be shown. It returns the
/// status of words that aren't a command line.
pub fn refuse_not_utf8(rt: &HostRuntime) -> u8
    ensures { result ≡ 2 }
{
    let mut buf = [0u8; SHOWN_BYTES];
    match first_word_not_utf8(rt, &mut buf) {
        Some(count) => {
            let bytes = &buf[..count];
            tell(
                rt,
                format_args!("usage: not UTF-8: {}", ShownBytes { bytes }),
            );
        }
        None => tell(rt, "usage: not UTF-8"),
    }
    USAGE
}

/// Runs the line by `run`, or reports why the words aren't a line; returns the status of either.
pub fn run_or_refuse<R: FnOnce(Line) -> u8 + Drop>(
    rt: &HostRuntime,
    parsed: Result<Line, Usage>,
    run: R,
) -> u8
    requires { ForOk parsed (R.pre run) }
    ensures ran { IfOk parsed (λ line. R.post run line result) }
    ensures refused { IfErr parsed (λ usage.
        (is_written : Bool) × (result ≡ status_of usage is_written)) }
{
    match parsed {
        Ok(line) => run(line),
        Err(usage) => refuse(rt, usage),
    }
}
