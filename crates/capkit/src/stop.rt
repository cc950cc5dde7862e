//! Why a command stopped before its end.
ghost use Rattle.std.specs.Prelude.{◌≡◌};

use crate::FAULT;
use crate::message::{Errors, Shown, tell};
use std::fmt;

/// Why a command was not run to its end.
#[derive(Drop)]
pub enum Stop<'a> {
    /// The input of this name can't be opened, or the listing of this name can't be opened or read.
    CannotOpen(&'a str),
    /// The output of this name can't be created.
    CannotCreate(&'a str),
    /// What the command wrote can't be written to the output of this name.
    WriteFailed(&'a str),
    NoMemory,
}

impl fmt::Display for Stop<'_> {
    /// Writes `NAME: ` and why, or `no memory`; a name as `Shown` has it.
    fn fmt<W: fmt::Write>(&self, f: &mut fmt::Formatter<W>) -> fmt::Result {
        let (name, fault) = match self {
            Stop::CannotOpen(name) => (*name, "cannot open"),
            Stop::CannotCreate(name) => (*name, "cannot create"),
            Stop::WriteFailed(name) => (*name, "write failed"),
            Stop::NoMemory => return f.write_str("no memory"),
        };
        write!(f, "{}: {fault}", Shown { text: name })
    }
}

/// Reports on standard error why a command was not run to its end, and returns the status of that.
pub fn report_stop(rt: &(impl AllocGlobal + Errors), stop: Stop<'_>) -> u8
    ensures { result ≡ 1 }
{
    tell(rt, stop);
    FAULT
}
