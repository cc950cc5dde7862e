//! The keys, in clap's matches, of the arguments that several commands have. A key in capitals is
//! also the name of the argument's value in help.

/// The input, or the first of several.
pub const FILE: &str = "FILE";

/// The format that is written.
pub const FORMAT: &str = "FORMAT";

/// The inputs after the first one.
pub const MORE: &str = "MORE";

/// The capture that is written.
pub const OUT: &str = "OUT";

/// The words of an expression.
pub const WORD: &str = "WORD";
