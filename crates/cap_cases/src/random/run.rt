//! Runs of command lines over memory, and comparisons of what comes of them.

use crate::case::Case;
use crate::check::accepted;
use crate::random::choices::Random;
use crate::runs::{Outcome, WHOLE, roomy, run_line};
use crate::shown::{Difference, digits_of};
use std::alloc::{AllocError, Global};
use std::str;

/// How many bytes an output takes: more than any run of a round writes.
const ROOM: usize = 40_000;

/// The result of a run or a comparison; an error ends the rounds.
pub type Compared<T = ()> = Result<T, Difference>;

/// What runs commands and compares, with what was counted so far.
#[derive(Drop)]
pub struct Fuzzer<'r> {
    rt: &'r HostRuntime,
    pub alloc: Global,
    pub random: Random,
    /// The seed of the round.
    pub seed: u64,
    /// What is compared.
    pub property: &'static str,
    /// How many comparisons were made of each property.
    pub counts: Vec<(&'static str, u64)>,
    /// How many of them differed.
    pub differing: u64,
}

/// The offset that a message names.
fn offset_in(message: &str) -> Option<usize> {
    let rest = message.strip_prefix("capkit: in: offset ")?;
    let (digits, _) = rest.split_once(": ")?;
    digits.parse::<usize>().ok()
}

/// Whether the status, the message and what was written go together, for an input of this size.
fn is_ended(outcome: &Outcome, size: usize) -> bool {
    let messages = str::from_utf8(&outcome.messages).unwrap_or("not UTF-8");
    let is_message = messages.starts_with("capkit: ")
        && messages.ends_with("\n")
        && messages.lines().count() == 1;
    let is_unwritten = outcome.written.is_empty();
    match (outcome.status, offset_in(messages)) {
        (Some(0), _) => messages.is_empty(),
        (Some(1), Some(0)) | (Some(2), _) => is_message && is_unwritten,
        (Some(1), Some(offset)) => is_message && offset <= size,
        _ => false,
    }
}

impl<'r> Fuzzer<'r> {
    /// Nothing is counted yet.
    pub fn new(rt: &'r HostRuntime) -> Self {
        Fuzzer {
            rt,
            alloc: rt.alloc(),
            random: Random::new(0),
            seed: 0,
            property: "",
            counts: Vec::new(rt.alloc()),
            differing: 0,
        }
    }

    /// Counts a comparison.
    fn count(&mut self, property: &'static str) -> Result<(), AllocError> {
        for (name, count) in self.counts.iter_mut() {
            if *name == property {
                *count = count.saturating_add(1);
                return Ok(());
            }
        }
        Ok(self.counts.push((property, 1))?)
    }

    /// Counts a comparison; if it differs its round is shown, and both sides.
    fn judge(
        &mut self,
        property: &'static str,
        is_met: bool,
        (left, right): (&[u8], &[u8]),
    ) -> Compared {
        self.count(property)?;
        if is_met {
            return Ok(());
        }
        self.differing = self.differing.saturating_add(1);
        let (left, right) = (digits_of(self.alloc, left)?, digits_of(self.alloc, right)?);
        let seed = self.seed;
        let text = format_args!("DIFFERS seed {seed}: {property}\n  {left}\n  {right}");
        match self.rt.println(text) {
            Ok(()) => Ok(()),
            Err(_) => Err(Difference::Text("standard output can't be written")),
        }
    }

    /// Records whether the property holds for two results.
    pub fn compare(&mut self, is_met: bool, left: &[u8], right: &[u8]) -> Compared {
        self.judge(self.property, is_met, (left, right))
    }

    /// Compares bytes.
    pub fn same(&mut self, left: &[u8], right: &[u8]) -> Compared {
        self.compare(left == right, left, right)
    }

    /// Compares what runs wrote, their messages and their statuses.
    pub fn same_outcome(&mut self, left: &Outcome, right: &Outcome) -> Compared {
        self.same(&left.written, &right.written)?;
        self.same(&left.messages, &right.messages)?;
        let is_met = left.status == right.status;
        self.compare(is_met, &left.messages, &right.messages)
    }

    /// Runs the line of these words on an input, and maybe on a listing. A run ends with a status
    /// and its message.
    pub fn run(&mut self, words: &[&str], input: &[u8], listing: &[u8]) -> Compared<Outcome> {
        let mut case = Case::new(self.alloc, 0, input)?;
        case.listing = Vec::from_slice(self.alloc, listing)?;
        let line = accepted(self.alloc, words, &[])?;
        let outcome = run_line(self.alloc, &line, &case, roomy(WHOLE, ROOM))?;
        let is_met = is_ended(&outcome, input.len());
        let sides = (outcome.messages.as_slice(), outcome.written.as_slice());
        self.judge("a run ends with a status and its message", is_met, sides)?;
        Ok(outcome)
    }

    /// Writes the packets of an input in a format.
    pub fn copy(&mut self, format: &str, input: &[u8]) -> Compared<Outcome> {
        self.run(&["edit", "-F", format, "in", "out"], input, &[])
    }

    /// Compiles an expression for a link.
    pub fn compile<'w>(&mut self, expression: &'w str, link: &'w str) -> Compared<Outcome> {
        self.run(&["compile", "--link", link, "--", expression], &[], &[])
    }

    /// Writes the packets of an input that match an expression, as pcapng.
    pub fn print(&mut self, expression: &str, input: &[u8]) -> Compared<Outcome> {
        self.run(&["print", "-w", "out", "--", "in", expression], input, &[])
    }

    /// Writes the packets of an input that a listing accepts, as pcapng.
    pub fn print_by(&mut self, listing: &[u8], input: &[u8]) -> Compared<Outcome> {
        let words = ["print", "-w", "out", "--code", "listing", "in"];
        self.run(&words, input, listing)
    }
}
