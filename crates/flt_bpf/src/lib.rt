//! The packet-filter machine: its instructions, the check of a program, its runs, and listings of
//! programs. `flt_gen` makes programs for it, `cap_filter` runs them and reads listings, and the
//! library (`capkit_c`) checks and runs the programs of its callers.
//!
//! The machine is of the kind of S. McCanne and V. Jacobson, "The BSD Packet Filter" (1993): two
//! registers, 16 words of memory, loads from the packet, arithmetic and forward jumps. A
//! [`Program`] passed [`check`], so a [`run`] of it tests no rule again and ends after at most as
//! many instructions as the program has.
#![tactic(auto)]

mod fault;
pub mod insn;
pub mod laws;
mod machine;
pub mod operation;
mod position;
pub mod program;
mod reading;
mod registers;
mod running;
pub mod wide;
mod writing;

pub use fault::{CheckFault, ListingFault};
pub use insn::Insn;
pub use machine::{Flow, State, WORDS, compute, execute};
pub use position::{Position, advance};
pub use program::{Program, check, check_insns, constant_fault, insn_fault, is_return};
pub use reading::read_listing;
pub use registers::{reads_accumulator, reads_index, sets_accumulator, sets_index};
pub use running::run;
pub use wide::Wide;
pub use writing::write_listing;
