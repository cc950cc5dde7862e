//! Whether a case holds.

use crate::case::{Case, Kind, add_word};
use crate::runs::{Outcome, WHOLE, for_listing, run_line, sound};
use crate::shown::Difference;
use crate::sweeps;
use capkit::{Line, Usage, command_of};
use std::alloc::{AllocError, Global};

/// The place where a pcap file header has its link type.
const LINK_OFFSET: usize = 20;

/// The link type of raw IP, as LINKTYPE_RAW.
const RAW: u8 = 101;

/// The link type of Linux cooked captures, as LINKTYPE_LINUX_SLL.
const COOKED: u8 = 113;

/// The words before an expression that packets are printed by.
const PRINT: [&str; 6] = ["print", "-w", "out", "--format", "pcap", "in"];

/// The words of a print by the case's listing.
const PRINT_BY_LISTING: [&str; 8] = [
    "print", "-w", "out", "--format", "pcap", "--code", "listing", "in",
];

/// What main reports of words that aren't a line, and its status.
fn refusal_of(alloc: Global, usage: &Usage) -> Result<(String, u8), AllocError> {
    match usage {
        Usage::Refused(error) => {
            let status = if error.use_stderr() { 2 } else { 0 };
            Ok((format!(in alloc; "{error}")?, status))
        }
        Usage::Memory => Ok((format!(in alloc; "capkit: {usage}\n")?, 1)),
        _ => Ok((format!(in alloc; "capkit: usage: {usage}\n")?, 2)),
    }
}

/// The words of a line, one text after another.
fn words_of(alloc: Global, first: &[&str], more: &[String]) -> Result<Vec<String>, AllocError> {
    let mut words = Vec::new(alloc);
    for word in first {
        add_word(alloc, &mut words, word)?;
    }
    for word in more {
        add_word(alloc, &mut words, word)?;
    }
    Ok(words)
}

/// The line of these words, which must be accepted.
pub fn accepted(alloc: Global, first: &[&str], more: &[String]) -> Result<Line, Difference> {
    let words = words_of(alloc, first, more)?;
    match command_of(alloc, words) {
        Ok(line) => Ok(line),
        Err(_) => Err(Difference::Text("the words are refused")),
    }
}

/// Runs the line of these words, and takes a listing.
fn listing_of(
    alloc: Global,
    case: &Case<'_>,
    (first, more): (&[&str], &[String]),
) -> Result<Outcome, Difference> {
    let line = accepted(alloc, first, more)?;
    run_line(alloc, &line, case, for_listing(case))
}

/// Runs the line by whole pieces and by one byte per call.
fn check_runs(alloc: Global, case: &Case<'_>, line: &Line) -> Result<(), Difference> {
    for piece in [WHOLE, 1] {
        let outcome = run_line(alloc, line, case, sound(case, piece))?;
        if !outcome.is_of(case) {
            return Err(Difference::Outcome(outcome));
        }
    }
    Ok(())
}

/// How many lines there are.
fn count_lines(bytes: &[u8]) -> usize {
    let mut lines = 0usize;
    for byte in bytes {
        if *byte == b'\n' {
            lines = lines.saturating_add(1);
        }
    }
    lines
}

/// Whether the outcome is a listing of at most `most` instructions.
fn is_listing(outcome: &Outcome, most: Option<usize>) -> bool {
    let lines = count_lines(&outcome.written);
    let most = match most {
        Some(most) => most.saturating_add(1),
        None => usize::MAX,
    };
    outcome.is_clean() && 1 < lines && lines <= most
}

/// Whether the outcome is the listing that the case's line writes, or another one, as it states.
fn is_as_listed(case: &Case<'_>, outcome: &Outcome) -> bool {
    match case.is_same {
        Some(is_same) => {
            !case.listing.is_empty() && (outcome.written == case.listing) == is_same
        }
        None => true,
    }
}

/// Runs a line that writes a listing. What the first run writes is what the case states from then
/// on.
fn check_listing(alloc: Global, case: &mut Case<'_>, line: &Line) -> Result<(), Difference> {
    let outcome = run_line(alloc, line, case, for_listing(case))?;
    if !is_listing(&outcome, case.most) || !is_as_listed(case, &outcome) {
        return Err(Difference::Outcome(outcome));
    }
    case.written = outcome.written;
    check_runs(alloc, case, line)
}

/// Takes the listing that the case's line writes, if it has such a line.
fn compile_listing(alloc: Global, case: &mut Case<'_>) -> Result<(), Difference> {
    if case.compiled.is_empty() {
        return Ok(());
    }
    let outcome = listing_of(alloc, case, (&[], &case.compiled))?;
    case.listing = outcome.written;
    Ok(())
}

/// Runs the case's line.
fn check_line(alloc: Global, case: &mut Case<'_>, line: &Line) -> Result<(), Difference> {
    match case.most {
        Some(_) => check_listing(alloc, case, line)?,
        None => check_runs(alloc, case, line)?,
    }
    match case.sweep {
        Some(sweep) => sweeps::check(alloc, case, line, sweep),
        None => Ok(()),
    }
}

/// Runs the case's words.
fn check_words(alloc: Global, case: &mut Case<'_>) -> Result<(), Difference> {
    compile_listing(alloc, case)?;
    let line = accepted(alloc, &[], &case.words)?;
    check_line(alloc, case, &line)
}

/// The name of the link that the case's input states.
fn link_name(case: &Case<'_>) -> &'static str {
    match case.input.get(LINK_OFFSET) {
        Some(&RAW) => "raw",
        Some(&COOKED) => "cooked",
        _ => "ether",
    }
}

/// Runs the line of these words, and compares its result with what the case states.
fn check_by(
    alloc: Global,
    case: &Case<'_>,
    (first, more): (&[&str], &[String]),
) -> Result<(), Difference> {
    let line = accepted(alloc, first, more)?;
    check_runs(alloc, case, &line)
}

/// Compiles the case's expression, and prints by its listing.
fn check_by_listing(alloc: Global, case: &mut Case<'_>) -> Result<(), Difference> {
    let compile = ["compile", "--link", link_name(case)];
    let compiled = listing_of(alloc, case, (&compile, &case.words))?;
    if case.status == 2 && compiled.is_of(case) {
        return Ok(());
    }
    if !is_listing(&compiled, case.most) {
        return Err(Difference::Outcome(compiled));
    }
    case.listing = compiled.written;
    check_by(alloc, case, (&PRINT_BY_LISTING, &[]))
}

/// Why the case's words aren't a line.
fn usage_of(alloc: Global, case: &Case<'_>) -> Result<Usage, Difference> {
    let words = words_of(alloc, &[], &case.words)?;
    match command_of(alloc, words) {
        Ok(_) => Err(Difference::Text("accepted")),
        Err(usage) => Ok(usage),
    }
}

/// Compares what main reports of the case's words.
fn check_usage(alloc: Global, case: &Case<'_>) -> Result<(), Difference> {
    let usage = usage_of(alloc, case)?;
    let (text, status) = refusal_of(alloc, &usage)?;
    if text.as_bytes() == case.messages.as_slice() && status == case.status {
        return Ok(());
    }
    Err(Difference::Report(text))
}

/// Runs the case. An error is what came instead of what it states.
pub fn check(alloc: Global, case: &mut Case<'_>) -> Result<(), Difference> {
    match &case.kind {
        Kind::Run => check_words(alloc, case),
        Kind::Filter => {
            check_by(alloc, case, (&PRINT, &case.words))?;
            check_by_listing(alloc, case)
        }
        Kind::Usage => check_usage(alloc, case),
    }
}
