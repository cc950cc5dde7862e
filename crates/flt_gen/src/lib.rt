//! Compiles filter expressions to programs of the packet-filter machine. `cap_filter` calls
//! [`generate`]; read that first, then `walk::Walk`.
//!
//! - `program` has all stages. `folding` first computes arithmetic on constants, and joins
//!   negations.
//! - `walk` takes the nodes from the last to the first and emits their code, with `waiting` (left
//!   operands and accessors, whose code is emitted later) and `number` (arithmetic).
//! - `elementary` has the tests of fields as data, with their table for each link. `code` is the
//!   code, which grows from its last instruction to its first; `emit` has the code of a test,
//!   `among` that of a search, and `cases` that of a decision tree.
//! - `protocol`, `address` and `port` emit the rows of the table of primitives
//!   (`specs/Primitives.antt`), with `wanted`, the tests of addresses and ports. `group` emits
//!   members of a list, which are looked for together; the numbers of hosts or ports are
//!   `intervals`. `value` emits any other value, and `relation` a comparison that may be a member.
//! - `stack` is the stack that these use, and `laws` has laws of the table of primitives.
#![tactic(auto)]

mod address;
mod among;
mod cases;
mod code;
mod elementary;
mod emit;
mod folding;
mod group;
mod intervals;
pub mod laws;
mod number;
mod port;
mod program;
mod protocol;
mod relation;
mod stack;
mod value;
mod waiting;
mod walk;
mod wanted;

pub use cap_octet::Link;
pub use program::generate;
