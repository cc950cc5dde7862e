//! An allocator that counts what is asked of it, and refuses what a test asks it to.

use std::alloc::{AllocError, Allocator};
use std::cell::Cell;

/// How many growths were asked for since the last `refuse`, and which one is refused: its number
/// from 1, or 0 for none.
pub struct Plan {
    growths: Cell<u64>,
    refused: Cell<u64>,
}

/// An allocator that takes its memory from another one, but refuses one growth, or none. A growth
/// is a call of `allocate`; to make a vector longer, or its memory smaller, is one such call.
pub struct Trial<B: Allocator> {
    inner: B,
    plan: Plan,
}

impl<B: Allocator> Trial<B> {
    /// Refuses nothing.
    pub fn new(inner: B) -> Self {
        Trial {
            inner,
            plan: Plan {
                growths: Cell::new(0),
                refused: Cell::new(0),
            },
        }
    }

    /// Counts from 0 again, and refuses the growth with this number, from 1, or none at 0.
    pub fn refuse(&self, number: u64) {
        self.plan.growths.set(0);
        self.plan.refused.set(number);
    }

    /// How many growths were asked for since the last `refuse`, the refused one among them. The
    /// count stays at its greatest value.
    pub fn growths(&self) -> u64 {
        self.plan.growths.get()
    }
}

impl Drop for Plan {
    fn drop(self) {
        let Self {
            growths: _,
            refused: _,
        } = self;
    }
}

impl<B: Allocator> Drop for Trial<B> {
    fn drop(self) {
        let Self { inner: _, plan: _ } = self;
    }
}

/// Counts a growth, and returns whether it may be made.
fn admits(plan: &Plan) -> bool {
    let number = plan.growths.get().saturating_add(1);
    plan.growths.set(number);
    number != plan.refused.get()
}

unsafe impl<B: Allocator> Allocator for Trial<B> {
    ghost dealloc_token = { λ heap ty ptr. B.dealloc_token heap.inner ty ptr };

    fn allocate(&self, size: usize, align: usize) -> Result<*mut u8, AllocError> {
        if admits(&self.plan) {
            return self.inner.allocate(size, align);
        }
        Err(AllocError)
    }

    unsafe fn deallocate(&self, ptr: *mut u8, size: usize, align: usize) {
        self.inner.deallocate(ptr, size, align);
    }
}
