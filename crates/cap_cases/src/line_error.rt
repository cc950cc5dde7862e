//! Why a line of a table can't be read.

use std::alloc::{AllocError, AllocFailed};
use std::fmt;

/// Why a line of a table can't be read.
#[derive(Drop)]
pub enum LineError {
    /// This is wrong with the line.
    Invalid(&'static str),
    /// Memory ran out.
    OutOfMemory,
}

impl fmt::Display for LineError {
    fn fmt<W: fmt::Write>(&self, f: &mut fmt::Formatter<W>) -> fmt::Result {
        f.write_str(match self {
            LineError::Invalid(text) => text,
            LineError::OutOfMemory => "out of memory",
        })
    }
}

impl From<AllocError> for LineError {
    fn from(_error: AllocError) -> Self {
        LineError::OutOfMemory
    }
}

impl<T: Drop> From<AllocFailed<T>> for LineError {
    fn from(_error: AllocFailed<T>) -> Self {
        LineError::OutOfMemory
    }
}
