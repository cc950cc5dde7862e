//! An input that is watched from outside, even once it is gone.
ghost use Rattle.std.specs.Prelude.{[], if◌then◌else◌, true};
ghost use Rattle.std.proofs.Common.{rules};

use cap_octet::{DeviceFault, Input, MemInput};
use std::cell::Cell;

/// What was asked of an input.
#[derive(Clone, Copy, PartialEq, Eq)]
pub struct Asked {
    /// The calls that take bytes, or would.
    pub calls: u64,
    /// The bytes that it gave. Those that are lent at the end aren't among them.
    pub bytes: usize,
}

impl Asked {
    /// Nothing yet.
    pub fn nothing() -> Self {
        Asked { calls: 0, bytes: 0 }
    }
}

/// Gives the bytes of a slice. What is asked of it is counted outside of it.
#[derive(Drop)]
pub struct Watched<'a> {
    pub inner: MemInput<'a>,
    pub asked: &'a Cell<Asked>,
    /// Whether it shows what it has, so that bytes are taken without a read.
    pub lends: bool,
}

impl Watched<'_> {
    /// Counts a call that takes bytes, or would, and the bytes that are given with it.
    fn count(&self) {
        self.asked.set(Asked {
            calls: self.asked.get().calls.saturating_add(1),
            bytes: self.inner.given(),
        });
    }
}

impl Input for Watched<'_> {
    ghost tells = { true };

    ghost unread = { λ s. ⟦<MemInput<'static> as Input>⟧.unread s.inner };

    ghost given = { λ s. ⟦<MemInput<'static> as Input>⟧.given s.inner };

    ghost failures = { λ s. ⟦<MemInput<'static> as Input>⟧.failures s.inner };

    ghost held = { λ s. if s.lends then ⟦<MemInput<'static> as Input>⟧.held s.inner else [] };

    fn read(&mut self, buf: &mut [u8]) -> Result<usize, DeviceFault> {
        let returned = self.inner.read(buf);
        self.count();
        returned
    }

    fn at_hand(&self) -> &[u8] {
        if self.lends {
            self.inner.at_hand()
        } else {
            &[]
        }
    }

    fn pass(&mut self, count: usize) -> bool {
        let passes = count <= self.at_hand().len() && self.inner.pass(count);
        self.count();
        passes
    }

    ghost unfailed = { Prim.search rules };
}
