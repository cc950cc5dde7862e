//! Heaps over memory that a caller lends.
//!
//! The library for C calls it: each of its calls that allocates has a form that takes memory. A
//! [`Memory`] is what is lent. A [`Region`] is an allocator with one block to give, which is all of
//! it, and [`Region::heap`] is a heap in that block. Nothing outside of the memory is read or
//! written. If it is full, an allocation fails.
#![tactic(auto)]

mod memory;
mod region;
mod slot;

pub use memory::Memory;
pub use region::Region;
