//! The inputs of a job, and which of them comes next: in turn, or by time.
//!
//! Only `cap_tools` calls it. Each step of a job asks [`Inputs`] which action is [`Next`]: read an
//! input, decide its packet, or finish. An [`InputCursor`] is one input with its current packet.
#![tactic(auto)]

mod inputs;
mod queue;

pub use inputs::{InputCursor, Inputs, Next, Schedule};
