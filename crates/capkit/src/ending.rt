//! How a run ends: what is buffered is written, and what became of it is reported.
ghost use Rattle.std.specs.Prelude.{◌≡◌, ◌≢◌, ◌<◌, ◌≤◌, IfOk, IfSome, IsOkAnd, IsSome, IsUtf8};
ghost use Rattle.std.specs.Prelude.{List, OnOk, []};
ghost use Rattle.std.specs.Io.Buffered.{writer_buffer, writer_inner};
ghost use Rattle.std.specs.Result.{result_ok};
ghost use Rattle.std.specs.Prelude.{◌∷◌, ◌++◌, ℕ, is_some, true, false};
ghost use Rattle.capkit.specs.Ending.{has_failed, is_broken_pipe, status_after_writes};
ghost use Rattle.capkit.specs.Streams.{holds_old_bytes};

use crate::FAULT;
use crate::message::Shown;
use crate::opening::Target;
use crate::stop::Stop;
use crate::streams::Created;
use cap_octet::StdOutput;
use std::alloc::Global;
use std::io::{self, BufWriter, ErrorKind, Write};

/// Ends a run that the job ended with `status`: writes what is buffered to the output of the name
/// `output`, shows the run's message, and returns the status of the run. An error is that what is
/// buffered couldn't be written, which is still to be reported.
pub fn finish<'a, W: Write + Drop>(
    alloc: Global,
    status: u8,
    target: Target<'_>,
    messages: StdOutput<W>,
    output: &'a str,
) -> Result<u8, Stop<'a>>
    requires { status ≤ 2 }
    ensures within { IfOk result (λ ended. ended ≤ 2) }

    // The job's message reports its failed write, so it isn't reported here; and it isn't a
    // success.
    ensures exact { is_some target.entry.cause ≡ true → IsOkAnd result (λ ended. 0 < ended) }
{
    let (mut target, cause) = target.into_inner();
    let flushed = match flush_output(status, &mut target) {
        Ok(()) => None,
        Err(error) => Some(error.kind()),
    };
    let (messages, _) = messages.into_inner();
    let (mut errors, message) = messages.into_parts();
    let causes = (cause, flushed);
    tell_end(alloc, &mut errors, status, causes, &message, output)
}

/// Whether a write failed since the reader of a pipe went away; false if none failed.
fn is_broken_pipe(cause: Option<ErrorKind>) -> bool
    ensures { result ≡ is_broken_pipe cause }
{
    matches!(cause, Some(ErrorKind::BrokenPipe))
}

/// Removes what the output's file held before the run, unless the run failed and wrote nothing, and
/// writes what is buffered. The error is the system's.
pub fn flush_output(status: u8, target: &mut BufWriter<Created<'_>>) -> io::Result<()>
    ensures failed { status ≢ 0 → writer_buffer target.old ≡ []
        → holds_old_bytes (writer_inner target.new) ≡ holds_old_bytes (writer_inner target.old) }
    ensures done { status ≡ 0 → writer_buffer target.old ≡ []
        → OnOk result (holds_old_bytes (writer_inner target.new) ≡ false) }
{
    target.get_mut().empty_if_done(status)?;
    if target.buffer().is_empty() {
        // std's flush of a buffer doesn't state that it writes nothing then.
        return target.get_mut().flush();
    }
    target.flush()
}

/// The text of a run's message without the line break (byte 10) that ends it; `None` if there is
/// no message, or the bytes aren't a UTF-8 text that ends like this.
fn message_line(message: &[u8]) -> Option<&str>
    ensures text { IfSome result (λ text. message.now ≡ text.now ++ 10 ∷ []) }
    ensures whole { IsUtf8 message.now → (text : List ℕ) → message.now ≡ text ++ 10 ∷ []
        → IsSome result }
{
    match str::from_utf8(message) {
        Ok(text) => text.strip_suffix("\n"),
        Err(_) => None,
    }
}

/// Writes the message of a run, if there is one (`message_line`), with its control characters as
/// numbers, by one call if there is memory for the line. One that can't be written is lost.
fn tell_message<W: Write>(alloc: Global, errors: &mut W, message: &[u8]) {
    if let Some(text) = message_line(message) {
        let _ = match format!(in alloc; "{}\n", Shown { text }) {
            Ok(line) => errors.write_all(line.as_bytes()),
            // No memory for the line: it is written in parts.
            Err(_) => writeln!(errors, "{}", Shown { text }),
        };
    }
}

/// The status of a run that the job ended with `status`. `cause` is why a write of the job failed,
/// and `flushed` why the write after it did, of what was buffered; `None` if it didn't. It
/// returns `None` if the failure of the latter is still to be reported.
fn status_after_writes(
    status: u8,
    cause: Option<ErrorKind>,
    flushed: Option<ErrorKind>,
) -> Option<u8>
    ensures value { result ≡ status_after_writes status cause flushed }
    ensures failed { has_failed cause flushed ≡ true → IfSome result (λ status. 0 < status) }
    ensures within { status ≤ 2 → IfSome result (λ status. status ≤ 2) }
{
    match (cause, flushed) {
        (None, None) => Some(status),
        (Some(_), _) => Some(status.max(FAULT)),
        (None, Some(_)) if is_broken_pipe(flushed) => Some(FAULT),
        (None, Some(_)) => None,
    }
}

/// Shows the message of a run, and returns its status. `causes` are why a write of the job failed,
/// and why the write of what was buffered did; `None` if it didn't. The error is a failure of
/// the latter, which is still to be reported.
///
/// If the reader of a pipe went away, as of `| head`, no message says that the rest can't be
/// written.
pub fn tell_end<'a, W: Write>(
    alloc: Global,
    errors: &mut W,
    status: u8,
    causes: (Option<ErrorKind>, Option<ErrorKind>),
    message: &[u8],
    output: &'a str,
) -> Result<u8, Stop<'a>>
    ensures status { result_ok result ≡ status_after_writes status causes.0 causes.1 }
    ensures failed { has_failed causes.0 causes.1 ≡ true → IfOk result (λ ended. 0 < ended) }
    ensures within { status ≤ 2 → IfOk result (λ ended. ended ≤ 2) }
{
    let (cause, flushed) = causes;
    // The message is lost with the reader only if it is of a failed write.
    if !(is_broken_pipe(cause) || cause.is_some() && is_broken_pipe(flushed)) {
        tell_message(alloc, errors, message);
    }
    match status_after_writes(status, cause, flushed) {
        Some(status) => Ok(status),
        None => Err(Stop::WriteFailed(output)),
    }
}
