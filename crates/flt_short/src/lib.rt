//! Makes code shorter and faster: tests skip tests whose outcome is known, and fewer instructions
//! replace several that do the same; and lays it out: its tests skip any number of instructions
//! (`flt_bpf::Wide`), those of a program (`flt_bpf::Insn`) at most 255.
//!
//! `flt_gen` calls [`threaded`], then [`shortened`], and at last [`laid_out`].
//!
//! - `thread` moves the targets. `facts` has what is known of a packet and of A and X at each place
//!   that runs reach.
//! - `shorten` proposes shorter code. `alike` checks that the new code does what the old one does,
//!   and breaks no rule.
//! - `layout` adds a jump (`ja`) only for a target that is too far for its test.
//!
//! The terms of this crate:
//!
//! - *known*: what holds of the packet, A and X in each run that reaches a place (`facts`).
//! - *way*: a part of a run, from one place to another. A test has two ways on, a return none.
//! - *walk*: the way from a target of a test on, as far as the facts at the test decide (`thread`).
//! - *landing*: the place of the new code for an instruction of the old one, or nowhere; and
//!   whether A and X may be read from there on (`alike`).
#![tactic(auto)]

mod alike;
mod facts;
mod layout;
mod shorten;
mod thread;

pub use layout::laid_out;
pub use shorten::shortened;
pub use thread::threaded;
