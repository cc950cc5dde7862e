//! Runs of instructions that aren't a `Program`, so that nothing counts them, and instructions as
//! `tcpdump -d` prints them.
//!
//! The library (`capkit_c`) calls it; the program doesn't. [`run_insns`] runs a valid program,
//! [`run_any`] any instructions, and [`trace`] writes the [`Step`]s of a run. [`insn_text`] makes
//! the line of an instruction.
//!
//! `walk` runs instructions; `text` makes the line of an instruction, with names and operands of
//! `operand`, in a buffer of `line`. Nothing here takes memory.
#![tactic(auto)]

pub mod laws;
mod line;
mod operand;
mod text;
mod walk;

pub use line::Line;
pub use text::insn_text;
pub use walk::{Step, run_any, run_insns, trace};
