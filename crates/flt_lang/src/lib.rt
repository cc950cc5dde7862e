//! The filter language of pcap-filter(7): tokens become a tree, bare values take their qualifiers,
//! and a tree is checked before code is made of it.
//!
//! `cap_filter` calls the three steps in this order: [`parse`], [`resolve`] and [`check`]. The
//! library (`capkit_c`) calls [`bound`], the most instructions that a program of the tree has.
#![tactic(auto)]

mod checking;
mod counts;
mod frame;
pub mod laws;
mod nesting;
mod parser;
mod primitive;
mod reader;
mod resolving;

pub use checking::check;
pub use counts::{bound, nodes, tests, words};
pub use flt_ast::{
    Checked, CompleteQualifiers, Direction, Dotted, Expr, Ip4Net, NetMask, Node, Qualifiers, Value,
};
pub use parser::parse;
pub use resolving::resolve;
