//! What an expression of the filter language means, written out as an expression again.
//!
//! Only the library uses it: `capkit_explain` of `capkit_c` calls [`explain`], which takes a tree
//! and returns a text with each value's qualifiers. The laws `laws::explained_back` and
//! `laws::writable` state when that text is read as the same tree again.
#![tactic(auto)]

mod backward;
mod explaining;
pub mod laws;
mod spelling;

pub use explaining::explain;
