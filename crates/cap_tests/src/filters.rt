//! What no command line shows of expressions and programs.

mod clone_only;
pub mod compilation;
mod explaining;
mod expressions;
mod jumps;
mod layout;
mod lists;
mod machine;
mod shortening;
mod tokens;
