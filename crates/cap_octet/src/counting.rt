//! std's buffered readers and writers, with a count of the reads or writes that are made of them.
//! Three lines must be believed, not proved: those of `read`, `write` and `flush`, which make std's
//! call and count it. Nothing else counts.
ghost use Rattle.std.specs.Io.Buffered.{reader_buffer, reader_remaining, writer_buffer};
ghost use Rattle.std.specs.Io.{BufRead.DropsConsumable, Buffered.writer_contents};
ghost use Rattle.std.specs.Io.{ReadsAtMost, WritesAtMost};
ghost use Rattle.std.specs.Prelude.{◌≡◌, ◌+◌, [], OnOk, Some, drop, length};
ghost use Rattle.std.specs.Io.KnownBytes.{Keeps, ReadConsumes, WriteAppends};
ghost use Rattle.cap_octet.specs.Device.{failures_of};

use crate::count::ContractCount;
use std::io::{BufRead, BufReader, BufWriter, Read, Result, Write};

/// A reader, and how often it was read.
#[derive(Drop)]
pub(crate) struct CountingReader<R> {
    reader: BufReader<R>,
    calls: ContractCount,
}

impl<R: Read> CountingReader<R> {
    /// A reader with a count of 0.
    pub(crate) fn new(reader: BufReader<R>) -> Self
        ensures reader { result.reader ≡ reader }
        ensures calls { result.calls.count ≡ 0 }
    {
        CountingReader {
            reader,
            calls: ContractCount::new(),
        }
    }

    /// One read of the reader, counted.
    #[inline(always)]
    pub(crate) fn read(&mut self, buf: &mut [u8]) -> Result<usize>
        ensures at_most { ReadsAtMost result buf.new }
        ensures bytes { ReadConsumes (reader_remaining R.remaining self.old.reader)
            (reader_remaining R.remaining self.new.reader) result buf.new }
        ensures asked { self.new.calls.count ≡ self.old.calls.count + 1 }
    {
        self.calls.add_one();
        self.reader.read(buf)
    }

    /// The bytes that were read ahead and not yet taken. Reads nothing.
    #[inline(always)]
    pub(crate) fn buffer(&self) -> &[u8]
        ensures { result.now ≡ reader_buffer self.now.reader }
    {
        self.reader.buffer()
    }

    /// Takes `count` bytes of what its buffer holds, without a read, or all if it holds fewer.
    #[inline(always)]
    pub(crate) fn consume(&mut self, count: usize)
        ensures bytes { DropsConsumable (reader_remaining R.remaining self.old.reader)
            (reader_remaining R.remaining self.new.reader)
            (Some (length (reader_buffer self.old.reader))) count }
        ensures buffer { reader_buffer self.new.reader
            ≡ drop count (reader_buffer self.old.reader) }
        ensures calls { self.new.calls.count ≡ self.old.calls.count }
    {
        self.reader.consume(count);
    }
}

/// A writer, how often it was written to, and how often it couldn't be flushed.
#[derive(Drop)]
pub(crate) struct CountingWriter<W: Write + Drop> {
    writer: BufWriter<W>,
    calls: ContractCount,
    failed_flushes: ContractCount,
}

impl<W: Write + Drop> CountingWriter<W> {
    /// A writer with counts of 0.
    pub(crate) fn new(writer: BufWriter<W>) -> Self
        ensures writer { result.writer ≡ writer }
        ensures calls { result.calls.count ≡ 0 }
        ensures failed_flushes { result.failed_flushes.count ≡ 0 }
    {
        CountingWriter {
            writer,
            calls: ContractCount::new(),
            failed_flushes: ContractCount::new(),
        }
    }

    /// The writer without its counts; what its buffer holds stays there.
    pub(crate) fn into_inner(self) -> BufWriter<W>
        ensures { result ≡ self.writer }
    {
        self.writer
    }

    /// One write to the writer, counted.
    #[inline(always)]
    pub(crate) fn write(&mut self, buf: &[u8]) -> Result<usize>
        ensures at_most { WritesAtMost result buf.now }
        ensures bytes { WriteAppends (writer_contents W.contents self.old.writer)
            (writer_contents W.contents self.new.writer) result buf.now }
        ensures asked { self.new.calls.count ≡ self.old.calls.count + 1 }
        ensures failed_flushes { self.new.failed_flushes.count ≡ self.old.failed_flushes.count }
    {
        self.calls.add_one();
        self.writer.write(buf)
    }

    /// Writes out what its buffer holds; that isn't counted as a write to the writer. It is counted
    /// if it fails.
    pub(crate) fn flush(&mut self) -> Result<()>
        ensures bytes { Keeps (writer_contents W.contents self.old.writer)
            (writer_contents W.contents self.new.writer) }
        ensures empty { OnOk result (writer_buffer self.new.writer ≡ []) }
        ensures calls { self.new.calls.count ≡ self.old.calls.count }
        ensures failed { self.new.failed_flushes.count
            ≡ self.old.failed_flushes.count + failures_of result }
    {
        let flushed = self.writer.flush();
        if flushed.is_err() {
            self.failed_flushes.add_one();
        }
        flushed
    }

    /// Whether its buffer has room for `count` bytes and one more; std's `BufWriter` then copies
    /// them there and calls nothing. No clause: it only chooses between two ways that do the same.
    #[inline(always)]
    pub(crate) fn has_room(&self, count: usize) -> bool {
        count < self.writer.capacity() - self.writer.buffer().len()
    }
}
