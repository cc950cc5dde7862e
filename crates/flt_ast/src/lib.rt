//! The tree of an expression of pcap-filter(7): values with their qualifiers, nodes with what each
//! one counts as, which values fit, and which trees code can be made of.
//!
//! `flt_lang` makes the tree, `flt_gen` compiles it, and `flt_explain` writes it out. An [`Expr`]
//! is a tree, as a list of [`Node`]s. A [`Checked`] is a tree of which code can be made.
#![tactic(auto)]

mod expr;
mod fits;
mod node;
mod node_counts;
mod qualifiers;
mod value;

pub use expr::{Checked, Expr};
pub use node::Node;
pub use qualifiers::{CompleteQualifiers, Direction, Qualifiers};
pub use value::{Dotted, Ip4Net, NetMask, Value, ip4_prefix_mask};
