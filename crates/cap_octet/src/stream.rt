//! Devices over std's buffered readers and writers.
ghost use Rattle.std.specs.Io.Buffered.{reader_buffer, reader_remaining, writer_buffer};
ghost use Rattle.std.specs.Prelude.{◌≡◌, ℕ, ◌+◌, ◌≤◌, ◌<◌, ◌^◌, ◌||◌, IsTrue, IfOk, None, Option};
ghost use Rattle.std.specs.Prelude.{Some, false, [], List, true, drop, if◌then◌else◌, is_some};
ghost use Rattle.std.specs.{Io.StartsWith, Prelude.length, Io.KnownBytes.Keeps};
ghost use Rattle.std.proofs.Common.{rules};
ghost use Rattle.std.specs.Io.Buffered.{writer_contents};
ghost use Rattle.cap_octet.specs.Stream.{IsOneRead, IsOneWrite, IsPassed, bytes_at_hand};
ghost use Rattle.cap_octet.specs.Device.{Passes, Reads, Writes, count_of, failures_of};

use crate::count::ContractCount;
use crate::counting::{CountingReader, CountingWriter};
use crate::device::{DeviceFault, Input, Output};
use std::io::{BufReader, BufWriter, ErrorKind, Read, Write};

/// Fewer bytes than this are read from one input in all: 2^63.
const GIVEN_END: u64 = 0x8000_0000_0000_0000;

/// An input over a buffered reader of std, as of a file or of standard input. A read that would
/// reach 2^63 bytes in all is a failure.
#[derive(Drop)]
pub struct StdInput<R> {
    reader: CountingReader<R>,
    /// How many bytes were given so far.
    given: u64,
    failures: ContractCount,
    ghost bounded: { given < 2 ^ 63 },
}

impl<R: Read> StdInput<R> {
    /// An input that has given nothing yet.
    pub fn new(reader: BufReader<R>) -> Self
        ensures reader { result.reader.reader ≡ reader }
        ensures calls { result.reader.calls.count ≡ 0 }
        ensures given { ⟦<StdInput<R> as Input>⟧.given result ≡ 0 }
        ensures failures { ⟦<StdInput<R> as Input>⟧.failures result ≡ 0 }
    {
        StdInput {
            reader: CountingReader::new(reader),
            given: 0,
            failures: ContractCount::new(),
        }
    }

    /// Makes one read of the reader, whatever its own buffer holds, and returns what that returned;
    /// but a read that would reach 2^63 bytes in all is a failure, though the reader gave the
    /// bytes.
    // Out of line: std's errors are large, and where `read` copies what the buffer holds, the
    // compiler then sees that no error can come and keeps no room for one.
    #[cold]
    #[inline(never)]
    fn read_once(&mut self, buf: &mut [u8]) -> Result<usize, DeviceFault>
        ensures within { IfOk result (λ n. n ≤ length buf.old) }
        ensures counted { self.new.given ≡ self.old.given + count_of result }
        ensures bounded { self.new.given < 2 ^ 63 }
        ensures failed { self.new.failures.count ≡ self.old.failures.count + failures_of result }
        ensures passes { IsOneRead (reader_buffer self.old.reader.reader)
            (reader_remaining R.remaining self.old.reader.reader) self.old.given
            self.old.reader.calls.count result
            (reader_remaining R.remaining self.new.reader.reader) buf.new
            self.new.reader.calls.count }
    {
        match self.reader.read(buf) {
            Ok(count) if (count as u64) < GIVEN_END - self.given => {
                self.given += count as u64;
                Ok(count)
            }
            _ => {
                self.failures.add_one();
                Err(DeviceFault)
            }
        }
    }
}

impl<R: Read> Input for StdInput<R> {
    ghost tells = { false };

    ghost unread = { λ _. [] };

    ghost given = { λ s. s.given };

    ghost failures = { λ s. s.failures.count };

    ghost held = { λ s. bytes_at_hand s.given (reader_buffer s.reader.reader) };

    /// Fills this buffer from the reader's own, if that holds as many bytes; else makes one read
    /// of the reader into this buffer and returns what that returned. A read that would reach 2^63
    /// bytes in all is a failure.
    // Mostly the reader's buffer holds them. Then no room is made for std's errors, which are
    // large: `read_once` is out of line.
    #[inline(always)]
    fn read(&mut self, buf: &mut [u8]) -> Result<usize, DeviceFault>
        ensures within { IfOk result (λ n. n ≤ length buf.old) }
        ensures counted { self.new.given ≡ self.old.given + count_of result }
        ensures bounded { self.new.given < 2 ^ 63 }
        ensures failed { self.new.failures.count ≡ self.old.failures.count + failures_of result }
        ensures sure { ◌≡◌ {A = Option ℕ} (Some 0) (Some 0) }
        ensures exact { IsTrue false → Reads [] buf.old result [] buf.new }
        ensures passes { IsOneRead (reader_buffer self.old.reader.reader)
            (reader_remaining R.remaining self.old.reader.reader) self.old.given
            self.old.reader.calls.count result
            (reader_remaining R.remaining self.new.reader.reader) buf.new
            self.new.reader.calls.count }
    {
        let room = buf.len();
        let given = self.given + room as u64;
        let held = self.reader.buffer();
        if room <= held.len() && given < GIVEN_END {
            buf.copy_from_slice(&held[..room]);
            self.reader.consume(room);
            self.given = given;
            return Ok(room);
        }
        // Taken apart and put together again: where two ways hand over one result whole, LLVM no
        // longer sees that the way above returns `Ok`.
        match self.read_once(buf) {
            Ok(count) => Ok(count),
            Err(fault) => Err(fault),
        }
    }

    /// The bytes that the reader's own buffer holds; none if 2^63 in all would be reached by them.
    #[inline(always)]
    fn at_hand(&self) -> &[u8] {
        let held = self.reader.buffer();
        if self.given + held.len() as u64 >= GIVEN_END {
            // Of the same place, so that only a length is chosen.
            return &held[..0];
        }
        held
    }

    /// Takes `count` bytes of what the reader's buffer holds, if it holds as many, and returns
    /// `true`; else none, and returns `false`. None either where 2^63 bytes in all would be
    /// reached.
    #[inline(always)]
    fn pass(&mut self, count: usize) -> bool
        ensures counted { self.new.given ≡ self.old.given + (if result then count else 0) }
        ensures bounded { IsTrue result → self.new.given < 2 ^ 63 }
        ensures failed { self.new.failures.count ≡ self.old.failures.count }
        ensures sure { ◌≡◌ {A = Option ℕ} (Some 0) (Some 0) }
        ensures rest { ◌≡◌ {A = List ℕ} [] (drop (if result then count else 0) []) }
        ensures exact { IsTrue false → Passes [] count result [] }
        ensures passes { count ≤ length (bytes_at_hand self.old.given
            (reader_buffer self.old.reader.reader)) → result ≡ true }
        ensures stays { StartsWith (bytes_at_hand self.new.given
            (reader_buffer self.new.reader.reader))
            (drop (if result then count else 0)
            (bytes_at_hand self.old.given (reader_buffer self.old.reader.reader))) }
        ensures bytes { IsPassed (reader_buffer self.old.reader.reader)
            (reader_remaining R.remaining self.old.reader.reader) count result
            (reader_remaining R.remaining self.new.reader.reader) }
        ensures calls { self.new.reader.calls.count ≡ self.old.reader.calls.count }
    {
        if count > self.reader.buffer().len() || self.given + count as u64 >= GIVEN_END {
            return false;
        }
        self.reader.consume(count);
        self.given += count as u64;
        true
    }

    ghost unfailed = { Prim.search rules };
}

/// An output over a buffered writer of std, as of a file or of standard output. A write that takes
/// nothing of some bytes is a failure.
#[derive(Drop)]
pub struct StdOutput<W: Write + Drop> {
    writer: CountingWriter<W>,
    /// Whether somebody may be waiting for what is written.
    is_awaited: bool,
    /// Why it failed last; `None` if it never did.
    cause: Option<ErrorKind>,
    failures: ContractCount,
}

impl<W: Write + Drop> StdOutput<W> {
    /// An output to which nothing was written yet, and for which nobody waits.
    pub fn new(writer: BufWriter<W>) -> Self
        ensures writer { result.writer.writer ≡ writer }
        ensures calls { result.writer.calls.count ≡ 0 }
        ensures awaited { result.is_awaited ≡ false }
        ensures cause { result.cause ≡ None }
        ensures failures { ⟦<StdOutput<W> as Output>⟧.failures result ≡ 0 }
    {
        StdOutput {
            writer: CountingWriter::new(writer),
            is_awaited: false,
            cause: None,
            failures: ContractCount::new(),
        }
    }

    /// An output to which nothing was written yet, and for which somebody may be waiting, as at the
    /// other end of a pipe.
    pub fn new_awaited(writer: BufWriter<W>) -> Self
        ensures writer { result.writer.writer ≡ writer }
        ensures calls { result.writer.calls.count ≡ 0 }
        ensures awaited { result.is_awaited ≡ true }
        ensures cause { result.cause ≡ None }
        ensures failures { ⟦<StdOutput<W> as Output>⟧.failures result ≡ 0 }
    {
        let mut output = StdOutput::new(writer);
        output.is_awaited = true;
        output
    }

    /// The writer, as to flush it, and why it failed last; `None` if it never did.
    pub fn into_inner(self) -> (BufWriter<W>, Option<ErrorKind>)
        ensures writer { result.0 ≡ self.writer.writer }
        ensures cause { result.1 ≡ self.cause }
    {
        let StdOutput {
            writer,
            is_awaited: _,
            cause,
            failures: _,
        } = self;
        (writer.into_inner(), cause)
    }

    /// Makes one write of the writer with these bytes and returns what that returned; but a write
    /// that takes nothing of some bytes is a failure. The cause of a failure is kept.
    // Inlined if the buffer has room; elsewhere `write_out_of_line` is called.
    #[inline(always)]
    fn write_once(&mut self, buf: &[u8]) -> Result<usize, DeviceFault>
        ensures within { IfOk result (λ n. n ≤ length buf.now) }
        ensures some { IfOk result (λ n. 0 < length buf.now → 0 < n) }
        ensures failed { self.new.failures.count ≡ self.old.failures.count + failures_of result }
        ensures passes { IsOneWrite (writer_contents W.contents self.old.writer.writer)
            self.old.cause self.old.writer.calls.count buf.now result
            (writer_contents W.contents self.new.writer.writer) self.new.cause
            self.new.writer.calls.count }
    {
        let cause = match self.writer.write(buf) {
            Ok(count) if 0 < count || buf.is_empty() => return Ok(count),
            Ok(_) => ErrorKind::WriteZero,
            Err(error) => error.kind(),
        };
        self.cause = Some(cause);
        self.failures.add_one();
        Err(DeviceFault)
    }

    /// `write_once`, out of line: for a writer's buffer without room, so that the system may
    /// be called.
    // Apart from the inlined `write_once` in `write`, for which the compiler then sees that no call
    // of the system and no error can come.
    #[cold]
    #[inline(never)]
    fn write_out_of_line(&mut self, buf: &[u8]) -> Result<usize, DeviceFault>
        ensures within { IfOk result (λ n. n ≤ length buf.now) }
        ensures some { IfOk result (λ n. 0 < length buf.now → 0 < n) }
        ensures failed { self.new.failures.count ≡ self.old.failures.count + failures_of result }
        ensures passes { IsOneWrite (writer_contents W.contents self.old.writer.writer)
            self.old.cause self.old.writer.calls.count buf.now result
            (writer_contents W.contents self.new.writer.writer) self.new.cause
            self.new.writer.calls.count }
    {
        self.write_once(buf)
    }
}

impl<W: Write + Drop> Output for StdOutput<W> {
    ghost tells = { false };

    ghost written = { λ _. [] };

    ghost failures = { λ s. s.failures.count };

    /// Makes one write of the writer with these bytes and returns what that returned; but a write
    /// that takes nothing of some bytes is a failure.
    // Both branches call `write_once`: inlined here if the writer's buffer has room, else out of
    // line.
    #[inline(always)]
    fn write(&mut self, buf: &[u8]) -> Result<usize, DeviceFault>
        ensures within { IfOk result (λ n. n ≤ length buf.now) }
        ensures some { IfOk result (λ n. 0 < length buf.now → 0 < n) }
        ensures failed { self.new.failures.count ≡ self.old.failures.count + failures_of result }
        ensures room { ◌≡◌ {A = ℕ} 0 0 }
        ensures exact { IsTrue false → Writes [] buf.now result [] }
        ensures passes { IsOneWrite (writer_contents W.contents self.old.writer.writer)
            self.old.cause self.old.writer.calls.count buf.now result
            (writer_contents W.contents self.new.writer.writer) self.new.cause
            self.new.writer.calls.count }
    {
        if self.writer.has_room(buf.len()) {
            return self.write_once(buf);
        }
        // Taken apart and put together again, as in `read` of `StdInput`.
        match self.write_out_of_line(buf) {
            Ok(count) => Ok(count),
            Err(fault) => Err(fault),
        }
    }

    /// Whether somebody may be waiting for what it takes: whether `new_awaited` made it.
    fn is_awaited(&self) -> bool
        ensures { result ≡ self.now.is_awaited }
    {
        self.is_awaited
    }

    /// Writes out what the writer's buffer holds, and returns whether it could: `false` only if
    /// the writer failed in this call. What couldn't be written stays there, and the cause is kept.
    fn release(&mut self) -> bool
        ensures written { ◌≡◌ {A = List ℕ} [] [] }
        ensures failures { self.new.failures.count ≡ self.old.failures.count }
        ensures room { ◌≡◌ {A = ℕ} 0 0 }
        ensures sure { IsTrue false → result ≡ true }
        ensures bytes { Keeps (writer_contents W.contents self.old.writer.writer)
            (writer_contents W.contents self.new.writer.writer) }
        ensures empty { result ≡ true → writer_buffer self.new.writer.writer ≡ [] }
        ensures cause { result ≡ true → self.new.cause ≡ self.old.cause }
        ensures told { result ≡ false → is_some self.new.cause ≡ true }
        ensures failed { self.new.writer.failed_flushes.count
            ≡ self.old.writer.failed_flushes.count + (if result then 0 else 1) }
    {
        match self.writer.flush() {
            Ok(()) => true,
            Err(error) => {
                self.cause = Some(error.kind());
                false
            }
        }
    }

    ghost filled = { Prim.search rules };
}
