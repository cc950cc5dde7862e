//! A cell for memory.
ghost use Rattle.std.specs.Prelude.{◌≡◌};
ghost use base.Fml.{fex, fsep, ftrue};
ghost use Rattle.cap_heap.specs.Lending.{Place, IsGivenBack};
ghost use Rattle.cap_heap.specs.inside.Slots.{changes_by_reference};

use crate::memory::Memory;
use std::marker::{Move, Owns};

/// A cell that has the memory that it was made of, or none while a block of it is in use. A
/// contract sees that memory.
pub(crate) struct Slot {
    memory: Memory,
}

impl Owns for Slot {
    ghost Value = { Place };

    ghost shr_at = { λ lent. changes_by_reference Fields (λ it. fex (IsGivenBack lent it.memory) (λ _. ftrue)) };
}

impl Move for Slot {
    ghost own_val = { λ lent values. fex Inside (λ it. fsep (Fields.own_val it values) (fex (IsGivenBack lent it.memory) (λ _. ftrue))) };
}

impl Slot {
    pub(crate) fn new(memory: Memory) -> Slot
        ensures { result ≡ memory }
    {
        Slot { memory }
    }

    /// Puts memory in, and returns what it had.
    pub(crate) fn replace(&self, memory: Memory) -> Memory
        requires { IsGivenBack self.now memory }
        ensures { IsGivenBack self.now result }
    {
        let place = &raw const self.memory as *mut Memory;
        unsafe {
            let old = place.read();
            place.write(memory);
            old
        }
    }

    pub(crate) fn into_inner(self) -> Memory
        ensures { IsGivenBack self result }
    {
        let Slot { memory } = self;
        memory
    }
}
