//! Commands with their options, as values.
//!
//! `capkit` makes a command of the words of a line, and `cap_tools` runs it over inputs and
//! outputs. [`Command`] has a variant for each command; `Command::is_proper` returns whether it may
//! be run. The fields of an [`Edit`] are in the order of its steps.
#![tactic(auto)]

mod command;

pub use command::{
    Command, Compile, Edit, LEAST_WINDOW, MOST_INPUTS, MOST_RANGES, MOST_WINDOW, Merge,
    PACKET_NUMBER_END, Print, Shift, is_range,
};
