//! The job of a command, and the program that runs it over files and standard streams.
//!
//! A [`Job`] reads the inputs, decides their packets and writes the output, one step per call of
//! `step`; a [`Turn`] shows whether it goes on. [`run`] makes all steps and returns the status.
//! [`run_program`], which `capkit_main` calls, runs the command that the program's words ask for:
//! [`run_command`] opens what its names mean (`capkit::opening`), calls `run`, and reports how it
//! ended. Tests also call `step`, `run`, `run_line` and `run_command`.
#![tactic(auto)]

mod job;
mod messages;
mod runner;
mod start;
mod step;

pub use cap_command::{Command, Compile, Edit, Merge, Print, Shift};
pub use cap_inputs::InputCursor;
pub use job::{Job, Turn, run};
pub use runner::{run_command, run_line, run_program};
