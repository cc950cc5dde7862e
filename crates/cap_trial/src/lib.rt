//! What tests run on: an allocator that counts what is asked of it, and refuses what a test asks it
//! to, and commands over it.
//!
//! Only `cap_cases` and `cap_tests` use it, to make allocations fail. [`Trial`] takes its memory
//! from another allocator: `refuse` chooses the growth that fails, and `growths` returns how many
//! were asked for. [`command_over`] and [`names_over`] make a line's command and names over it.
#![tactic(auto)]

mod allocator;
mod commands;

pub use allocator::Trial;
pub use commands::{command_over, names_over, output_name};
