//! The words of the filter language of pcap-filter(7): a text becomes a list of tokens, each with
//! its place. `flt_lang` makes a tree of them.
//!
//! `cap_filter` calls [`lex`], which returns the [`Token`]s of a text or its first [`ExprFault`].
//! `flt_ast`, `flt_lang` and `flt_gen` use the parts of tokens too, such as `Protocol`.
#![tactic(auto)]

mod address;
mod fault;
pub mod laws;
mod lexer;
mod number;
mod spelling;
mod token;
mod word;

pub use fault::ExprFault;
pub use lexer::lex;
pub use token::{
    Cast, Comparison, Join, Operator, Protocol, Side, Size, Token, TokenKind, ValueType,
};
