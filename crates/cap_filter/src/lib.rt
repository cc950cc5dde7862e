//! Filters and compilations, and what they are refused for.
//!
//! `cap_tools` makes filters of words or of a listing, and compiles; `cap_process` asks a filter
//! about each packet. The library (`capkit_c`) calls `compile_text` and `read_expression`. First
//! read `filter::Filter`, whose `passes` decides a packet, `filter::Refusal`, and
//! `expression::compile_text`.
#![tactic(auto)]

mod compiled;
pub mod expression;
pub mod filter;
