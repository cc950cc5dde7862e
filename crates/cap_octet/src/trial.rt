//! Devices for tests, over memory: they move a few bytes per call and fail when a test asks, and
//! the input counts its reads. The first clauses of a method are those of its trait with this
//! device's ghost members put in (`tells`, `failures` and so on).
ghost use Rattle.std.specs.{Io.StartsWith, Option.option_map, Prelude.◌≡◌, Prelude.ℕ, Prelude.◌+◌};
ghost use Rattle.std.specs.Prelude.{◌-◌, ◌≤◌, ◌<◌, ◌^◌, IsTrue, [], length, Some, None, true, IfOk};
ghost use Rattle.std.specs.Prelude.{IsErr, OnErr, min, is_some, drop, if◌then◌else◌, take};
ghost use Rattle.std.proofs.Common.{rules};
ghost use Rattle.cap_octet.specs.Device.{Passes, Reads, Writes, count_of, failures_of};

use crate::count::ContractCount;
use crate::device::{DeviceFault, Input, Output};
use crate::memory::{MemInput, MemOutput};

/// Gives the bytes of a slice, at most `piece` a read, and fails at its read number `fails_at`,
/// counted from 1; `None` is at no read.
#[derive(Drop)]
pub struct TrialInput<'a> {
    inner: MemInput<'a>,
    piece: usize,
    fails_at: Option<u64>,
    /// How many reads were made.
    reads: u64,
    failures: ContractCount,
    ghost moves: { 0 < piece },
    ghost unfailed: { 0 < failures.count → is_some fails_at ≡ true },
}

impl<'a> TrialInput<'a> {
    /// An input of exactly these bytes. `piece` is at least 1; without `fails_at` no read fails.
    pub fn new(bytes: &'a [u8], piece: usize, fails_at: Option<u64>) -> Self
        requires { 0 < piece }
        ensures unread { ⟦<TrialInput<'a> as Input>⟧.unread result ≡ bytes.entry.now }
        ensures given { ⟦<TrialInput<'a> as Input>⟧.given result ≡ 0 }
        ensures failures { ⟦<TrialInput<'a> as Input>⟧.failures result ≡ 0 }
        ensures settings { (result.piece ≡ piece) × (result.fails_at ≡ fails_at)
            × (result.reads ≡ 0) }
    {
        TrialInput {
            inner: MemInput::new(bytes),
            piece,
            fails_at,
            reads: 0,
            failures: ContractCount::new(),
        }
    }

    /// How many reads were made; at 2^64 - 1 the count stays.
    pub fn reads(&self) -> u64
        ensures { result ≡ self.now.reads }
    {
        self.reads
    }

    /// How many bytes were given so far.
    pub fn given(&self) -> usize
        ensures { result ≡ ⟦<TrialInput<'a> as Input>⟧.given self.now }
    {
        self.inner.given()
    }
}

impl Input for TrialInput<'_> {
    ghost tells = { true };

    ghost unread = { λ s. s.inner.rest.now };

    ghost given = { λ s. s.inner.given };

    ghost failures = { λ s. s.failures.count };

    /// Sure of no byte if a read must fail, which may be the first; else it never fails.
    ghost sure = { λ s. option_map {U = ℕ} (λ _. 0) s.fails_at };

    /// What one read gives; nothing if some read must fail.
    ghost held = { λ s. if is_some s.fails_at then [] else take s.piece s.inner.rest.now };

    /// Gives at most `piece` bytes; fails only when `reads` becomes `fails_at`.
    fn read(&mut self, buf: &mut [u8]) -> Result<usize, DeviceFault>
        ensures within { IfOk result (λ n. n ≤ length buf.old) }
        ensures counted { self.new.inner.given ≡ self.old.inner.given + count_of result }
        ensures bounded { self.new.inner.given < 2 ^ 63 }
        ensures failed { self.new.failures.count ≡ self.old.failures.count + failures_of result }
        ensures sure { option_map {U = ℕ} (λ _. 0) self.new.fails_at
            ≡ option_map {U = ℕ} (λ _. 0) self.old.fails_at }
        ensures exact { IsTrue true
            → Reads self.old.inner.rest.now buf.old result self.new.inner.rest.now buf.new }
        ensures piece { IfOk result (λ n. n ≤ self.old.piece) }
        ensures fails { OnErr result (self.old.fails_at ≡ Some self.new.reads) }
        ensures fails_there { self.old.fails_at ≡ Some self.new.reads → IsErr result }
        ensures settings { (self.new.piece ≡ self.old.piece)
            × (self.new.fails_at ≡ self.old.fails_at) }
        ensures reads { self.new.reads ≡ min (self.old.reads + 1) (2 ^ 64 - 1) }
    {
        self.reads = self.reads.saturating_add(1);
        if self.fails_at == Some(self.reads) {
            self.failures.add_one();
            return Err(DeviceFault);
        }
        let most = buf.len().min(self.piece);
        self.inner.read(&mut buf[..most])
    }

    /// What one read gives; nothing if some read must fail, so that reads are made and counted.
    fn at_hand(&self) -> &[u8] {
        if self.fails_at.is_some() {
            return &[];
        }
        let hand = self.inner.at_hand();
        &hand[..hand.len().min(self.piece)]
    }

    /// Takes `count` bytes if one read gives as many and no read must fail; else none, and
    /// returns `false`.
    fn pass(&mut self, count: usize) -> bool
        ensures counted { self.new.inner.given
            ≡ self.old.inner.given + (if result then count else 0) }
        ensures bounded { IsTrue result → self.new.inner.given < 2 ^ 63 }
        ensures failed { self.new.failures.count ≡ self.old.failures.count }
        ensures sure { option_map {U = ℕ} (λ _. 0) self.new.fails_at
            ≡ option_map {U = ℕ} (λ _. 0) self.old.fails_at }
        ensures rest { self.new.inner.rest.now
            ≡ drop (if result then count else 0) self.old.inner.rest.now }
        ensures exact { IsTrue true
            → Passes self.old.inner.rest.now count result self.new.inner.rest.now }
        ensures passes { count ≤ length (if is_some self.old.fails_at then []
            else take self.old.piece self.old.inner.rest.now) → result ≡ true }
        ensures stays { StartsWith (if is_some self.new.fails_at then []
            else take self.new.piece self.new.inner.rest.now)
            (drop (if result then count else 0) (if is_some self.old.fails_at then []
            else take self.old.piece self.old.inner.rest.now)) }
        ensures settings { (self.new.piece ≡ self.old.piece)
            × (self.new.fails_at ≡ self.old.fails_at) × (self.new.reads ≡ self.old.reads) }
    {
        if count > self.at_hand().len() {
            return false;
        }
        self.inner.pass(count)
    }

    ghost unfailed = { Prim.search rules };
}

/// Writes into a slice that it was lent, at most `piece` bytes per write, and fails only if that
/// is full.
#[derive(Drop)]
pub struct TrialOutput<'a> {
    inner: MemOutput<'a>,
    piece: usize,
    ghost moves: { 0 < piece },
}

impl<'a> TrialOutput<'a> {
    /// An output with nothing written and room for as many bytes as the slice has. `piece` is at
    /// least 1.
    pub fn new(bytes: &'a mut [u8], piece: usize) -> Self
        requires { 0 < piece }
        ensures written { ⟦<TrialOutput<'a> as Output>⟧.written result ≡ [] }
        ensures failures { ⟦<TrialOutput<'a> as Output>⟧.failures result ≡ 0 }
        ensures settings { result.piece ≡ piece }
        ensures room { ⟦<TrialOutput<'a> as Output>⟧.room result ≡ length bytes.entry.now }
    {
        TrialOutput {
            inner: MemOutput::new(bytes),
            piece,
        }
    }

    /// The bytes that were written so far.
    pub fn written(&self) -> &[u8]
        ensures { result.now ≡ ⟦<TrialOutput<'a> as Output>⟧.written self.now }
    {
        self.inner.written()
    }
}

impl Output for TrialOutput<'_> {
    ghost tells = { true };

    ghost written = { λ s. take s.inner.len s.inner.bytes.now };

    ghost failures = { λ s. s.inner.failures.count };

    ghost room = { λ s. length s.inner.bytes.now };

    /// Takes at most `piece` bytes, and fails only if the slice is full.
    fn write(&mut self, buf: &[u8]) -> Result<usize, DeviceFault>
        ensures within { IfOk result (λ n. n ≤ length buf.now) }
        ensures some { IfOk result (λ n. 0 < length buf.now → 0 < n) }
        ensures failed { self.new.inner.failures.count
            ≡ self.old.inner.failures.count + failures_of result }
        ensures room { length self.new.inner.bytes.now ≡ length self.old.inner.bytes.now }
        ensures exact { IsTrue true
            → Writes (take self.old.inner.len self.old.inner.bytes.now) buf.now result
            (take self.new.inner.len self.new.inner.bytes.now) }
        ensures piece { IfOk result (λ n. n ≤ self.old.piece) }
        ensures settings { self.new.piece ≡ self.old.piece }
    {
        let most = buf.len().min(self.piece);
        self.inner.write(&buf[..most])
    }

    ghost filled = { λ s failed. s.inner.filled failed };
}
