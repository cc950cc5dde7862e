//! capkit edits, merges, filters and prints saved packet captures.
//!
//! This is the program that users run; `main` is all it has. It calls `run_program` of
//! `cap_tools`, which parses the words, runs the command and reports errors.
#![tactic(auto)]

use cap_tools::run_program;
use std::process::ExitCode;

/// Does what the words ask for, and exits with its status: 0 success, 1 error, 2 refused.
fn main(rt: HostRuntime) -> ExitCode {
    ExitCode::from(run_program(&rt))
}
