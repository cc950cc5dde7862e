//! Memory as one block, and a heap in it.
ghost use Rattle.std.specs.Prelude.{◌≡◌, IfSome};
ghost use Rattle.cap_heap.specs.Lending.{block_token, IsGivenBack};
ghost use Rattle.cap_heap.specs.inside.Blocks.{HoldsBlock};

use crate::memory::Memory;
use crate::slot::Slot;
use bumpalo::Bump;
use std::alloc::{AllocError, Allocator};

/// What the start of memory and the blocks in it are aligned to, in bytes.
const UNIT: usize = 16;

/// `Bump` asks for a whole number of these, less a unit, and needs [`OVERHEAD`] of it.
const PAGE: usize = 4096;

const OVERHEAD: usize = 64;

/// An allocator with one block to give: all of the memory that was lent.
pub struct Region {
    size: usize,
    slot: Slot,
    ghost sized: { slot.1 ≡ size },
}

impl Region {
    /// An allocator over all of the memory that was lent, until [`Region::give_back`]. Meanwhile
    /// none is left in its place, so that nobody else takes it.
    pub fn over(memory: &mut Memory) -> Region
        ensures { result.slot ≡ memory.old }
    {
        let (size, memory) = memory.take().sized();
        Region {
            size,
            slot: Slot::new(memory),
        }
    }

    /// A heap in the memory. It has as many pages of 4,096 bytes as are in the memory and 16 bytes
    /// more, less 64 bytes; without a page it has 448 bytes at most. Bytes that it gave and that
    /// came back serve again if nothing was given after them.
    pub fn heap(&self) -> Bump<&Region> {
        let pages = self.size.saturating_add(UNIT) / PAGE * PAGE;
        if pages > 0 {
            if let Ok(heap) = Bump::try_with_capacity(self, pages - OVERHEAD) {
                return heap;
            }
        }
        Bump::new(self)
    }

    /// Gives the memory back: all of it, or none if a block of its heap is still in use. A heap has
    /// none in use once all that is allocated in it is dropped, and then itself.
    pub fn give_back(self, memory: &mut Memory)
        ensures { IsGivenBack self.slot memory.new }
    {
        let Region { size: _, slot } = self;
        *memory = slot.into_inner();
    }

    /// The memory, if none of it is in use and it has a block of this size and alignment.
    fn take(&self, size: usize, align: usize) -> Option<Memory>
        ensures { IfSome result (λ memory. (memory ≡ self.now.slot) × HoldsBlock memory size align) }
    {
        if align > UNIT || size > isize::MAX as usize {
            return None;
        }
        if self.size < UNIT || size > self.size / UNIT * UNIT {
            return None;
        }
        let (has, memory) = self.slot.replace(Memory::none()).sized();
        if has == 0 {
            return None;
        }
        Some(memory)
    }

    /// The size of the memory in bytes.
    fn size(&self) -> usize
        ensures { result ≡ self.now.slot.1 }
    {
        self.size
    }

    /// Puts the memory back.
    fn give(&self, memory: Memory)
        requires { memory ≡ self.now.slot }
    {
        self.slot.replace(memory);
    }
}

impl Drop for Region {
    fn drop(self) {
        let Region { size: _, slot } = self;
        drop(slot.into_inner());
    }
}

unsafe impl Allocator for Region {
    ghost dealloc_token = { λ region. block_token region.slot };

    fn allocate(&self, size: usize, align: usize) -> Result<*mut u8, AllocError> {
        match self.take(size, align) {
            Some(Memory { start, size: _ }) => Ok(start),
            None => Err(AllocError),
        }
    }

    unsafe fn deallocate(&self, ptr: *mut u8, _size: usize, _align: usize) {
        let size = self.size();
        self.give(Memory { start: ptr, size });
    }
}
