//! A reader and a writer of marked bytes that count their calls and failures.
ghost use Rattle.std.specs.Prelude.{◌≤◌, IfOk};

use std::cell::Cell;
use std::io::{Error, ErrorKind, Read, Result, Write};

/// The byte at this place of a stream, never 0. 251 is a prime, so a buffer's worth of bytes that
/// is lost or comes twice shows at the next byte.
pub fn mark(place: usize) -> u8 {
    (place % 251) as u8 + 1
}

/// Fills a buffer with the bytes from this place on.
pub fn write_marks(place: usize, buf: &mut [u8]) {
    for (offset, byte) in buf.iter_mut().enumerate() {
        *byte = mark(place.wrapping_add(offset));
    }
}

/// Whether these are the bytes from this place on.
pub fn are_marks(place: usize, bytes: &[u8]) -> bool {
    for (offset, byte) in bytes.iter().enumerate() {
        if *byte != mark(place.wrapping_add(offset)) {
            return false;
        }
    }
    true
}

/// What a reader or a writer did so far.
#[derive(Clone, Copy)]
pub struct Counts {
    /// Every call but those to flush.
    pub calls: usize,
    /// Calls that failed.
    pub failures: usize,
    /// The bytes that it gave or took.
    pub bytes: usize,
    /// Whether these were the marked ones, in order.
    pub in_order: bool,
}

impl Counts {
    /// None yet.
    pub fn new() -> Self {
        Counts {
            calls: 0,
            failures: 0,
            bytes: 0,
            in_order: true,
        }
    }

    /// Whether this many calls were made, and each failed.
    pub fn are_failures(&self, calls: usize) -> bool {
        self.calls == calls && self.failures == calls
    }
}

/// What a call moves: at most `piece` bytes. Each call whose number is a multiple of `failing`
/// fails by this kind of error, none if that is 0.
#[derive(Clone, Copy)]
pub struct Manner {
    pub piece: usize,
    pub failing: usize,
    pub kind: ErrorKind,
}

impl Manner {
    /// Counts a call that would move `most` bytes, and returns how many of them it moves.
    fn count_call(&self, counts: &Cell<Counts>, most: usize) -> Result<usize>
        ensures { IfOk result (λ n. n ≤ most) }
    {
        let mut new = counts.get();
        new.calls = new.calls.wrapping_add(1);
        let fails = new.calls.checked_rem(self.failing) == Some(0);
        let count = if fails { 0 } else { most.min(self.piece) };
        new.failures = new.failures.wrapping_add(usize::from(fails));
        new.bytes = new.bytes.wrapping_add(count);
        counts.set(new);
        if fails {
            return Err(Error::from(self.kind));
        }
        Ok(count)
    }
}

/// Gives a given number of marked bytes.
#[derive(Drop)]
pub struct MarkedReader<'a> {
    pub len: usize,
    pub manner: Manner,
    pub counts: &'a Cell<Counts>,
}

impl Read for MarkedReader<'_> {
    fn read(&mut self, buf: &mut [u8]) -> Result<usize> {
        let place = self.counts.get().bytes;
        let most = buf.len().min(self.len.saturating_sub(place));
        let count = self.manner.count_call(self.counts, most)?;
        write_marks(place, &mut buf[..count]);
        Ok(count)
    }
}

/// Takes marked bytes.
#[derive(Drop)]
pub struct MarkedWriter<'a> {
    pub manner: Manner,
    pub counts: &'a Cell<Counts>,
}

impl Write for MarkedWriter<'_> {
    fn write(&mut self, buf: &[u8]) -> Result<usize> {
        let old = self.counts.get();
        let count = self.manner.count_call(self.counts, buf.len())?;
        let mut new = self.counts.get();
        new.in_order = old.in_order && are_marks(old.bytes, &buf[..count]);
        self.counts.set(new);
        Ok(count)
    }

    fn flush(&mut self) -> Result<()> {
        Ok(())
    }
}
