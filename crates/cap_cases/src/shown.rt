//! What came instead of what a case states, as text.

use crate::runs::Outcome;
use std::alloc::{AllocError, Global};
use std::str;

/// How many bytes of an output are shown.
const SHOWN: usize = 400;

/// What came instead of what a case states.
#[derive(Drop)]
pub enum Difference {
    /// This is wrong.
    Text(&'static str),
    /// This was reported.
    Report(String),
    /// A run left this.
    Outcome(Outcome),
    /// By reads of one byte the run was through before this one.
    Through(usize),
    /// A message was met so often.
    Met(usize, String),
}

impl From<AllocError> for Difference {
    fn from(_error: AllocError) -> Self {
        Difference::Text("out of memory")
    }
}

/// The difference as text.
pub fn difference_text(alloc: Global, found: Difference) -> Result<String, AllocError> {
    match found {
        Difference::Text(text) => format!(in alloc; "  {text}\n"),
        Difference::Report(text) => Ok(text),
        Difference::Outcome(outcome) => outcome_text(alloc, &outcome),
        Difference::Through(read) => format!(in alloc; "  through before read {read}\n"),
        Difference::Met(count, message) => format!(in alloc; "  {count} times {message}\n"),
    }
}

/// The first bytes in hexadecimal digits.
pub fn digits_of(alloc: Global, bytes: &[u8]) -> Result<String, AllocError> {
    hex::encode(alloc, bytes.get(..SHOWN).unwrap_or(bytes))
}

/// How a run ended.
fn end_of(outcome: &Outcome) -> &'static str {
    match outcome.status {
        Some(0) => "status 0",
        Some(1) => "status 1",
        Some(2) => "status 2",
        Some(_) => "no status of a run",
        None => "closed",
    }
}

/// The result of a run: its status, its messages and its first bytes in hexadecimal digits.
fn outcome_text(alloc: Global, outcome: &Outcome) -> Result<String, AllocError> {
    let written = outcome.written.as_slice();
    let (end, size, count) = (end_of(outcome), written.len(), outcome.allocations);
    let messages = str::from_utf8(&outcome.messages).unwrap_or("not UTF-8\n");
    let digits = digits_of(alloc, written)?;
    format!(in alloc; "  {end}, {size} bytes written, {count} allocations\n{messages}{digits}\n")
}
