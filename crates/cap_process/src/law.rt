//! Laws of the definitions: each is the contract of a function that does nothing, or calls a law
//! that its proof needs.
//!
//! What an edit, a filter or a merge passes or writes is stated where fewer than 2^63 packets come
//! before the first fault of an input, since a packet's number is below that. A `count` is 1 or
//! more.
ghost use Rattle.cap_process.specs.Lists.{CountsAll, EndsWithoutTime, HasLastMarks, PassesFiltered};
ghost use Rattle.cap_process.specs.Whole.{EditWrites, InfosReports, MergeWrites, PrintLines};
ghost use Rattle.cap_process.specs.Whole.{PrintWrites, EditKeeps, EditsAlike, MergesOne};
ghost use Rattle.cap_process.specs.Whole.{CutsGivePrefixes, NegationParts, CopyEnds, EditEnds};
ghost use Rattle.cap_process.specs.Whole.{InfosEnds, MergeEnds, PrintEnds};

use cap_io::laws::items_back;

/// What `infos` counts packet by packet is what the list of a file's packets has: how many there
/// are, the sums of their lengths, their least, greatest and last time, and whether times ascend.
#[tactic(auto, using(crate::proofs::Lists::counts_all))]
pub fn report_counts_all()
    ensures { CountsAll }
{}

/// A filter passes the packets that its rule keeps, up to the first that it refuses; with a count,
/// the first `count` of them.
#[tactic(auto, using(crate::proofs::Lists::passes_filtered))]
pub fn print_passes_filtered()
    ensures { PassesFiltered }
{}

/// The window of an edit that looks for duplicates among n packets in a row has the marks (lengths
/// and digests) of the last n - 1 packets that were selected.
#[tactic(auto, using(crate::proofs::Lists::has_last_marks))]
pub fn window_has_last_marks()
    ensures { HasLastMarks }
{}

/// The selection of an edit ends at the first packet that is selected and whose time, once moved,
/// is out of range, and for a time nowhere else. What passes is what is unique of what is selected
/// before it.
#[tactic(auto, using(crate::proofs::Lists::ends_without_time))]
pub fn edit_ends_without_time()
    ensures { EndsWithoutTime }
{}

/// An edit writes the unique packets among those that it selects in its input, up to the first one
/// whose moved time is out of range or that its format refuses; if it writes none and its status is
/// 0, it writes the start of a file. Its status is 0, without a message, exactly if none of these
/// and no fault of the input ends it; else it reports the one that does.
pub fn edit_writes_unique()
    ensures output { EditWrites }
    ensures ends { EditEnds }
{}

/// A print as a capture writes the packets that match, or the first `count` of them, up to the
/// first that its filter or its format refuses; if it writes none and its status is 0, it writes
/// the start of a file. In each form its status is 0, without a message, exactly if it reaches its
/// count or a clean end of its input before a packet that is refused; else it reports what ends it.
pub fn print_writes_matching()
    ensures output { PrintWrites }
    ensures ends { PrintEnds }
{}

/// A print of lines writes the lines of the packets that match, or of the first `count` of them, up
/// to the first that its filter refuses.
pub fn print_has_their_lines()
    ensures { PrintLines }
{}

/// A merge writes the packets of its inputs in its order, up to the first fault of an input, or the
/// first packet that its format refuses; if it writes none and its status is 0, it writes the start
/// of a file. Its status is 0, without a message, exactly if neither ends it; else it reports the
/// one that does.
pub fn merge_writes_all()
    ensures output { MergeWrites }
    ensures ends { MergeEnds }
{}

/// `infos` writes the report of each input, up to the first that ends by a fault, which it then
/// reports; else its status is 0.
#[tactic(auto, using(crate::proofs::Wholes::infos_reports, crate::proofs::Wholes::infos_ends))]
pub fn infos_has_each_report()
    ensures output { InfosReports }
    ensures ends { InfosEnds }
{}

/// A merge of one file is its edit without options.
#[tactic(auto, using(crate::proofs::Wholes::merges_one))]
pub fn merge_of_one_is_its_edit()
    ensures { MergesOne }
{}

/// If its format carries all packets of a file, which has some, an edit without options keeps them,
/// as they are. Its status is 0, unless the file ends by a fault, which it then reports.
pub fn edit_keeps_what_is_carried()
    ensures output { EditKeeps }
    ensures ends { CopyEnds }
{
    items_back();
}

/// If its format carries all packets of a file, which has some, an edit without options of what
/// such an edit wrote writes the same bytes.
pub fn edit_again_is_alike()
    ensures { EditsAlike }
{
    items_back();
}

/// For packets with link types that expressions are read on, three lists are made: those that match
/// an expression, those that match its negation, and those that it rejects. Each packet is in one
/// of them, once.
#[tactic(auto, using(crate::proofs::Negations::negation_parts))]
pub fn negation_parts_packets()
    ensures { NegationParts }
{}

/// The packets of a file that is cut anywhere are the first ones of the whole file's.
#[tactic(auto, using(crate::proofs::Wholes::cuts_give_prefixes))]
pub fn cuts_give_prefixes()
    ensures { CutsGivePrefixes }
{}
