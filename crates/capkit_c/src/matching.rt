//! The next packet that a program accepts.
ghost use Rattle.capkit_c.specs.{Matching.Returns, Matching.SearchLeaves};
ghost use Rattle.capkit_c.specs.inside.Matching.{IsKnown, JudgedAs, StepLeaves};

use crate::memory::{Found, Interface, Packet, Reader, bytes_at, next_unit};
use crate::reading::found_number;
use crate::running::run;
use flt_bpf::{Insn, check_insns};
use flt_trace::run_insns;

/// The number of a packet of another link type than the program's.
const ANOTHER_LINK_TYPE: u32 = 226;

/// The most instructions that a search checks before their first run: that costs less than a few
/// runs in which each is checked.
const FEW: usize = 32;

/// What a search knows of its instructions.
#[derive(Clone, Copy)]
enum Known {
    /// Its runs have executed this many, each of which was checked.
    Executed(usize),
    /// They are a valid program.
    Valid,
    /// They break a rule.
    Invalid,
}

/// One step of a search.
#[derive(Clone, Copy)]
enum SearchStep {
    /// The search ends, and returns this number.
    Last(u32),
    /// It goes on, after this number of executed instructions.
    More(usize),
}

impl Known {
    /// What is known after this many more executed instructions. Once they are as many as the
    /// program has, its check costs no more than they did: then it is checked, and never again.
    fn after(self, insns: &[Insn], steps: usize) -> Self
        requires { IsKnown insns.now self }
        ensures { IsKnown insns.now result }
    {
        let Known::Executed(count) = self else {
            return self;
        };
        let count = count.saturating_add(steps);
        if count < insns.len() {
            return Known::Executed(count);
        }
        match check_insns(insns) {
            Ok(()) => Known::Valid,
            Err(_) => Known::Invalid,
        }
    }
}

/// Runs instructions on a packet of a capture: their result as `capkit_run` has it, and the number
/// of executed ones, each of which was checked. Those of a program that is known to be valid aren't
/// checked again, nor counted.
fn verdict(insns: &[Insn], known: Known, capture: &[u8], packet: &Packet) -> (u32, usize)
    requires { IsKnown insns.now known }
    ensures { Returns insns.now capture.now packet.now result.0 }
{
    let bytes = bytes_at(capture, packet.at, packet.captured);
    match known {
        Known::Valid => (run_insns(insns, bytes, packet.original).0, 0),
        Known::Executed(_) | Known::Invalid => run(insns, bytes, packet.original),
    }
}

/// Whether a packet ends the search for one that instructions for this link type accept.
fn judge(
    insns: &[Insn],
    known: Known,
    link_type: u16,
    capture: &[u8],
    packet: &Packet,
) -> SearchStep
    requires { IsKnown insns.now known }
    ensures { JudgedAs insns.now link_type capture.now packet.now result }
{
    if packet.link_type != link_type {
        return SearchStep::Last(ANOTHER_LINK_TYPE);
    }
    let (answer, steps) = verdict(insns, known, capture, packet);
    if answer == 0 {
        SearchStep::More(steps)
    } else {
        SearchStep::Last(0)
    }
}

/// One step of the search: reads the unit at the reader's place.
fn search_step(
    reader: &mut Reader,
    table: &mut [Interface],
    capture: &[u8],
    insns: &[Insn],
    known: Known,
    link_type: u16,
    packet: &mut Packet,
) -> SearchStep
    requires { IsKnown insns.now known }
    ensures { StepLeaves insns.now link_type capture.now reader.old reader.new table.old table.new
        packet.old packet.new result }
{
    match next_unit(reader, table, capture, packet) {
        Found::Unit => SearchStep::More(0),
        Found::Packet => judge(insns, known, link_type, capture, packet),
        found => SearchStep::Last(found_number(found)),
    }
}

/// Reads on to the next packet that instructions for packets of this link type accept (on which
/// `capkit_matches` returns non-zero), and returns 0. If a packet has another link type it returns
/// 226: the packet is that one, and the reader is after it. Other numbers are those of
/// `capkit_next`.
#[unsafe(no_mangle)]
pub extern "C" fn capkit_next_match(
    reader: &mut Reader,
    interfaces: &mut [Interface],
    capture: &[u8],
    insns: &[Insn],
    link_type: u16,
    packet: &mut Packet,
) -> u32
    ensures { SearchLeaves insns.now link_type capture.now reader.old reader.new interfaces.old
        interfaces.new packet.old packet.new result }
{
    let mut known = Known::Executed(0).after(insns, FEW);
    // The label names the loop in its proof.
    'search: loop {
        match search_step(reader, interfaces, capture, insns, known, link_type, packet) {
            SearchStep::Last(number) => return number,
            SearchStep::More(steps) => known = known.after(insns, steps),
        }
    }
}
