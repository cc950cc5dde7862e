//! Random choices that a seed determines.

use rand_core::{Rng, SeedableRng};
use rand_xoshiro::SplitMix64;

/// Choices in the order of a generator's numbers.
#[derive(Drop)]
pub struct Random {
    generator: SplitMix64,
}

impl Random {
    /// The choices of this seed.
    pub fn new(seed: u64) -> Self {
        Random {
            generator: SplitMix64::seed_from_u64(seed),
        }
    }

    /// Any number of 32 bits.
    pub fn half(&mut self) -> u64 {
        u64::from(self.generator.next_u32())
    }

    /// A number below this one; 0 if it is 0.
    pub fn below(&mut self, end: u64) -> u64 {
        self.generator.next_u64().checked_rem(end).unwrap_or(0)
    }

    /// A place among `count`; 0 if there are none.
    pub fn place(&mut self, count: usize) -> usize {
        self.below(count as u64) as usize
    }

    /// Whether what happens once in `times` times happens.
    pub fn one_in(&mut self, times: u64) -> bool {
        self.below(times) == 0
    }

    /// One of the values.
    pub fn pick<T: Copy + Default>(&mut self, values: &[T]) -> T {
        let place = self.place(values.len());
        values.get(place).copied().unwrap_or_default()
    }

    /// Fills the slice with any bytes.
    pub fn fill(&mut self, bytes: &mut [u8]) {
        self.generator.fill_bytes(bytes);
    }
}
