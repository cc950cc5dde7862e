//! Devices over memory, which show their bytes. The first clauses of a method are those of its
//! trait with this device's ghost members put in (`tells`, `failures` and so on).
ghost use Rattle.std.specs.Prelude.{◌≡◌, ℕ, ◌+◌, ◌≤◌, ◌<◌, ◌^◌, IsTrue, [], length, take};
ghost use Rattle.std.specs.Io.{StartsWith};
ghost use Rattle.std.proofs.Common.{rules};
ghost use Rattle.std.specs.Prelude.{if◌then◌else◌, drop, true, None, Option};
ghost use Rattle.cap_octet.specs.Device.{Passes, Writes};

use crate::count::ContractCount;
use crate::device::{DeviceFault, Input, Output};

/// Gives the bytes of a slice, and never fails.
#[derive(Drop)]
pub struct MemInput<'a> {
    /// The bytes that are left.
    rest: &'a [u8],
    /// How many bytes were given so far.
    given: usize,
    ghost bounded: { given + length rest.now < 2 ^ 63 },
}

impl<'a> MemInput<'a> {
    /// An input of exactly these bytes.
    pub fn new(bytes: &'a [u8]) -> Self
        ensures unread { ⟦<MemInput<'a> as Input>⟧.unread result ≡ bytes.entry.now }
        ensures given { ⟦<MemInput<'a> as Input>⟧.given result ≡ 0 }
    {
        MemInput {
            rest: bytes,
            given: 0,
        }
    }

    /// How many bytes were given so far.
    pub fn given(&self) -> usize
        ensures { result ≡ ⟦<MemInput<'a> as Input>⟧.given self.now }
    {
        self.given
    }
}

impl Input for MemInput<'_> {
    ghost tells = { true };

    ghost unread = { λ s. s.rest.now };

    ghost given = { λ s. s.given };

    ghost failures = { λ _. 0 };

    ghost sure = { λ _. None };

    ghost held = { λ s. s.rest.now };

    /// Gives as many of the bytes left as the buffer has room for. Never fails.
    fn read(&mut self, buf: &mut [u8]) -> Result<usize, DeviceFault> {
        let count = self.rest.len().min(buf.len());
        let (front, rest) = self.rest.split_at(count);
        buf[..count].copy_from_slice(front);
        self.rest = rest;
        self.given += count;
        Ok(count)
    }

    /// All bytes that are left.
    fn at_hand(&self) -> &[u8] {
        self.rest
    }

    /// Takes `count` bytes where as many are left; else none, and returns `false`.
    fn pass(&mut self, count: usize) -> bool
        ensures counted { self.new.given ≡ self.old.given + (if result then count else 0) }
        ensures bounded { IsTrue result → self.new.given < 2 ^ 63 }
        ensures failed { ◌≡◌ {A = ℕ} 0 0 }
        ensures sure { ◌≡◌ {A = Option ℕ} None None }
        ensures rest { self.new.rest.now ≡ drop (if result then count else 0) self.old.rest.now }
        ensures exact { IsTrue true → Passes self.old.rest.now count result self.new.rest.now }
        ensures passes { count ≤ length self.old.rest.now → result ≡ true }
        ensures stays { StartsWith self.new.rest.now
            (drop (if result then count else 0) self.old.rest.now) }
    {
        if count > self.rest.len() {
            return false;
        }
        self.rest = &self.rest[count..];
        self.given += count;
        true
    }

    ghost unfailed = { Prim.search rules };
}

/// Writes into a slice that it was lent, and fails only if that is full.
#[derive(Drop)]
pub struct MemOutput<'a> {
    bytes: &'a mut [u8],
    /// How many bytes were written; they are the slice's first.
    len: usize,
    failures: ContractCount,
    ghost inside: { len ≤ length bytes.now },
    ghost filled: { 0 < failures.count → length bytes.now ≤ length (take len bytes.now) },
}

impl<'a> MemOutput<'a> {
    /// An output with nothing written and room for as many bytes as the slice has.
    pub fn new(bytes: &'a mut [u8]) -> Self
        ensures written { ⟦<MemOutput<'a> as Output>⟧.written result ≡ [] }
        ensures failures { ⟦<MemOutput<'a> as Output>⟧.failures result ≡ 0 }
        ensures room { ⟦<MemOutput<'a> as Output>⟧.room result ≡ length bytes.entry.now }
    {
        MemOutput {
            bytes,
            len: 0,
            failures: ContractCount::new(),
        }
    }

    /// The bytes that were written so far.
    pub fn written(&self) -> &[u8]
        ensures { result.now ≡ ⟦<MemOutput<'a> as Output>⟧.written self.now }
    {
        &self.bytes[..self.len]
    }
}

impl Output for MemOutput<'_> {
    ghost tells = { true };

    ghost written = { λ s. take s.len s.bytes.now };

    ghost failures = { λ s. s.failures.count };

    /// All bytes of the slice.
    ghost room = { λ s. length s.bytes.now };

    /// Takes as many of the bytes as the slice has room for. Fails only if it is full.
    fn write(&mut self, buf: &[u8]) -> Result<usize, DeviceFault> {
        let room = self.bytes.len() - self.len;
        let count = buf.len().min(room);
        if count == 0 && !buf.is_empty() {
            self.failures.add_one();
            return Err(DeviceFault);
        }
        let end = self.len + count;
        self.bytes[self.len..end].copy_from_slice(&buf[..count]);
        self.len = end;
        Ok(count)
    }

    ghost filled = { λ s failed. s.filled failed };
}
