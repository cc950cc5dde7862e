//! The command line: the command that its words ask for, or why they are refused; and the files and
//! standard streams that its names mean.
//!
//! `cap_tools` calls it for the program, `cap_cases` for its tables. [`command_of`] returns a
//! [`Line`], which is a command with the names that it is run over, or a [`Usage`], which is the
//! reason for a refusal.
//!
//! - `edit_line`, `merge_line` and `print_line` have the tables of the subcommands: their options
//!   and help, an `options::Argument` each, and the ids by which their values are read.
//! - `options::commands` returns these tables. `arguments::matches_of` parses words by them, and
//!   returns clap's matches.
//! - `line` has a command's words as a [`Line`], by the module of its subcommand, as `edit_line`.
//! - `opening` has what a command is run over, `ending` how its run ends, and `refusal` what is
//!   reported of other words.
//!
//! A function without a clause deals with what no contract here knows: the files of the system, its
//! terminals and clock, and the texts of clap and of messages. `cap_tests` tests these functions.
#![tactic(auto)]

mod arguments;
mod creation;
mod edit_line;
pub mod ending;
mod examples;
mod files;
mod hints;
pub mod identity;
mod ids;
pub mod laws;
mod line;
mod merge_line;
pub mod message;
mod names;
pub mod opening;
mod options;
pub mod overwrites;
mod print_line;
pub mod progress;
mod range;
pub mod refusal;
pub mod stop;
pub mod streams;
mod usage;
mod values;
pub mod waiting;
pub mod words;

pub use line::{Line, command_of, with_code};
pub use names::STANDARD;
pub use usage::Usage;

/// The status of a run that a fault, a failed write or a lack of memory ended, or that found a name
/// that can't be opened or created.
pub const FAULT: u8 = 1;

/// The status of words that aren't a command line, and of an expression or a listing that is
/// refused.
pub const USAGE: u8 = 2;
