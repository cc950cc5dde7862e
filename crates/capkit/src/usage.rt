//! Why words aren't a command line.
ghost use Rattle.std.specs.Prelude.{◌≡◌};
ghost use Rattle.capkit.specs.declared.usage.Usage.TheVariants.{Memory};

use std::alloc::AllocError;
use thiserror::Error;

/// Why words aren't a command line. Its text is what a message calls it.
#[derive(Debug, Drop, Error)]
pub enum Usage {
    /// clap refuses the words, also for lack of memory, or handles a request for help or the
    /// version.
    #[error(transparent)]
    Refused(clap::Error),
    /// There are more than 512 ranges, or more than 256 inputs.
    #[error("too many values")]
    TooManyValues,
    /// A word names no range of packets.
    #[error("bad range")]
    BadRange,
    /// A word names no time, or no number of seconds.
    #[error("bad time")]
    BadTime,
    /// Options exclude each other, a listing excludes the words of an expression, or a format is
    /// given, and no capture to write.
    #[error("options exclude each other")]
    OptionsExclude,
    /// The output, unless it is standard output, is an input or the listing too, or standard input
    /// is two of these. `line_of_words` returns it even if the output is one of their files
    /// by another name.
    #[error("name used twice")]
    NameUsedTwice,
    /// No memory was left for the words or the line; `Refused` reports clap's own lack of it.
    #[error("no memory")]
    Memory,
}

/// A failed allocation, as `?` returns it.
impl From<AllocError> for Usage {
    ghost from_gives = { λ _ usage. usage ≡ Memory };

    fn from(_error: AllocError) -> Usage {
        Usage::Memory
    }
}
