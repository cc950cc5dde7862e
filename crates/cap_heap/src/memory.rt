//! Memory that a caller lends.
ghost use Rattle.std.specs.Prelude.{◌≡◌};
ghost use Rattle.cap_heap.specs.Lending.{Place, bytes_at};

use std::marker::Model;
use std::mem;
use std::ptr::null_mut;

/// Memory that a caller lends: `size` bytes from `start` on, which is aligned to 16. Their values
/// don't matter. Bytes after the last whole 16 aren't used.
#[repr(C)]
#[derive(Drop)]
pub struct Memory {
    pub(crate) start: *mut u8,
    pub(crate) size: usize,
}

impl Model for Memory {
    ghost Value = { Place };

    ghost view = { λ memory. (memory.start, memory.size) };

    ghost inverse = { λ place. record { start = place.0; size = place.1 } };

    ghost also_owns = { λ memory. bytes_at memory.start memory.size };
}

impl Memory {
    /// No memory: a null pointer and 0 bytes.
    pub(crate) fn none() -> Memory
        ensures { result.1 ≡ 0 }
    {
        Memory {
            start: null_mut(),
            size: 0,
        }
    }

    /// Takes the memory; none remains.
    pub(crate) fn take(&mut self) -> Memory
        ensures { result ≡ self.old }
    {
        mem::replace(self, Memory::none())
    }

    /// The size in bytes, and the memory again, which still owns its bytes. It goes by value, since
    /// a struct with `also_owns` but no `also_shares` can't be read through a `&`.
    pub(crate) fn sized(self) -> (usize, Memory)
        ensures size { result.0 ≡ self.1 }
        ensures memory { result.1 ≡ self }
    {
        let size = self.size;
        (size, self)
    }
}
