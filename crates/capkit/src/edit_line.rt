//! The command line of `edit`: the table of its options, and the edit that words mean, by its
//! options, its ranges and its names, or the first fault of them.
ghost use Rattle.std.specs.Prelude.{◌≡◌, ◌&&◌, IfOk, IfErr, OnOk, Some, None, is_none, is_some};
ghost use Rattle.std.specs.Prelude.{map, true, unwrap_or};
ghost use Rattle.std.specs.Option.{option_map_or};
ghost use Rattle.cap_command.specs.Command.{has_proper_ranges, is_proper_edit, is_proper_shift};
ghost use Rattle.cap_command.specs.Command.{is_window, least_window, most_window};
ghost use Rattle.clap.specs.Words.{first_of, found_of, rows_of};
ghost use Rattle.capkit.specs.Line.{edit_fault, has_bad_time, is_ready, option_fault, range_fault};
ghost use Rattle.capkit.specs.Line.{argument_number, shift_in};
ghost use Rattle.capkit.specs.Arguments.{most_32};
ghost use Rattle.capkit.specs.declared.edit_line.TheConstants.{WINDOW};
ghost use Rattle.capkit.specs.{Range.range_of, Line.HasOptions, Line.IsEditOf, Line.IsUsageOf};
ghost use Rattle.clap.specs.declared.builder.value_parser.ValueParser.TheVariants.{Names};
ghost use Rattle.capkit.specs.declared.arguments.Choices.{Choices};
ghost use Rattle.capkit.specs.{Arguments.edit_shape, inside.Arguments.shape_by};

use crate::examples::EDIT_HELP;
use crate::files::copies_of_texts;
use crate::ids;
use crate::line::Line;
use crate::names::uses_name_twice;
use crate::options::{Argument, CommandRow, FORMAT_HELP, MOST_32, Name, Value};
use crate::range::range_in;
use crate::usage::Usage;
use crate::values::{duration, flag, format, is_given, number_u32, text, texts, time};
use cap_command::{Command, Edit, LEAST_WINDOW, MOST_RANGES, MOST_WINDOW, Shift};
use clap::ArgMatches;
use std::alloc::Global;

/// Whether only the packets of the ranges are kept.
pub const KEEP: &str = "keep";

/// The first time that is kept.
pub const START: &str = "start";

/// The first time that is no longer kept.
pub const STOP: &str = "stop";

/// The number of bytes to remove from the start of a packet.
pub const CHOP_START: &str = "chop_start";

/// The number of bytes to remove from the end of a packet.
pub const CHOP_END: &str = "chop_end";

/// The most captured bytes that a packet keeps.
pub const SNAP: &str = "snap";

/// The number of seconds by which times are moved later.
pub const LATER: &str = "later";

/// The number of seconds by which times are moved earlier.
pub const EARLIER: &str = "earlier";

/// The number of packets among which duplicates are found.
pub const WINDOW: &str = "window";

/// The input of an edit.
pub const IN: &str = "IN";

/// Ranges of packets, by their numbers.
pub const RANGE: &str = "RANGE";

static EDIT: CommandRow = CommandRow {
    name: "edit",
    about: "Select and change packets, and remove duplicates",
    examples: EDIT_HELP,
    arguments: &[
        Argument {
            id: KEEP,
            name: Name::Letter('r'),
            value: Value::Flag,
            help: "Keep the packets in the ranges instead of deleting them",
        },
        Argument {
            id: START,
            name: Name::Letter('A'),
            value: Value::Text("T"),
            help: "Keep packets since T: 2026-01-31T12:00:00Z, or Unix time",
        },
        Argument {
            id: STOP,
            name: Name::Letter('B'),
            value: Value::Text("T"),
            help: "Keep packets before T",
        },
        Argument {
            id: CHOP_START,
            name: Name::Long("chop-start"),
            value: Value::Number("N", 0, MOST_32),
            help: "Remove the first N captured bytes of each packet",
        },
        Argument {
            id: CHOP_END,
            name: Name::Long("chop-end"),
            value: Value::Number("N", 0, MOST_32),
            help: "Remove the last N captured bytes, after --chop-start",
        },
        Argument {
            id: SNAP,
            name: Name::Letter('s'),
            value: Value::Number("N", 1, MOST_32),
            help: "Keep at most N captured bytes, after the chops",
        },
        Argument {
            id: LATER,
            name: Name::Long("later"),
            value: Value::Text("S"),
            help: "Move times S seconds later (up to 9 decimals)",
        },
        Argument {
            id: EARLIER,
            name: Name::Long("earlier"),
            value: Value::Text("S"),
            help: "Move times S seconds earlier",
        },
        Argument {
            id: WINDOW,
            name: Name::Letter('D'),
            value: Value::Number("N", LEAST_WINDOW as i64, MOST_WINDOW as i64),
            help: "Leave out duplicates within N packets, 2 to 1000000",
        },
        Argument {
            id: ids::FORMAT,
            name: Name::Letter('F'),
            value: Value::Format,
            help: FORMAT_HELP,
        },
        Argument {
            id: IN,
            name: Name::Place,
            value: Value::NeededFile,
            help: "Capture to read (- is standard input)",
        },
        Argument {
            id: ids::OUT,
            name: Name::Place,
            value: Value::NeededFile,
            help: "Capture to write (- is standard output)",
        },
        Argument {
            id: RANGE,
            name: Name::Place,
            value: Value::Words,
            help: "Packets to delete, by number from 1: N, or N-M (-r keeps them)",
        },
    ],
};

/// The row of `edit`.
// No other function names `EDIT`: each step of the proof would repeat its texts.
pub fn edit_row() -> &'static CommandRow
    ensures { (choices : Choices) → shape_by choices result.now
        ≡ edit_shape (Names choices.formats) }
{
    &EDIT
}

/// The ranges that the words name, at most `MOST_RANGES` (512). An error is that memory ran out, or
/// else the first of these: there are more (`TooManyValues`), or a word isn't a range (`BadRange`).
fn ranges_in(alloc: Global, words: &[&str]) -> Result<Vec<(u64, u64)>, Usage>
    ensures ranges { IfOk result (λ ranges. map Some ranges.items
        ≡ map range_of (map (λ word. word.now) words.now)) }
    ensures none { OnOk result (range_fault (map (λ word. word.now) words.now) ≡ None) }
    ensures proper { IfOk result (λ ranges. has_proper_ranges ranges.items ≡ true) }
    ensures fault { IfErr result (IsUsageOf (range_fault (map (λ word. word.now) words.now))) }
{
    if words.len() > MOST_RANGES {
        return Err(Usage::TooManyValues);
    }
    let mut ranges = Vec::with_capacity(alloc, words.len())?;
    for word in words {
        let Some(range) = range_in(word) else {
            return Err(Usage::BadRange);
        };
        if ranges.push(range).is_err() {
            return Err(Usage::Memory);
        }
    }
    Ok(ranges)
}

/// Whether the argument has a text of which this, the value that is read of it, is none.
fn is_bad(matches: &ArgMatches<'_>, id: &str, value: Option<u64>) -> bool
    ensures { result ≡ (is_some (first_of id.now (rows_of (found_of matches.now)))
        && is_none value) }
{
    is_given(matches, id) && value.is_none()
}

/// Whether one of the four arguments for times and durations has a text that isn't one.
fn has_bad_time(matches: &ArgMatches<'_>) -> bool
    ensures { result ≡ has_bad_time (rows_of (found_of matches.now)) }
{
    is_bad(matches, START, time(matches, START))
        || is_bad(matches, STOP, time(matches, STOP))
        || is_bad(matches, LATER, duration(matches, LATER))
        || is_bad(matches, EARLIER, duration(matches, EARLIER))
}

/// Checks the words of an edit besides its ranges. An error is the first of their faults: a bad
/// time, shifts both ways, a name used twice.
fn check_edit(matches: &ArgMatches<'_>) -> Result<(), Usage>
    ensures passes { OnOk result (option_fault (rows_of (found_of matches.now)) ≡ None) }
    ensures refused { IfErr result (λ usage. option_fault (rows_of (found_of matches.now))
        ≡ Some usage) }
{
    if has_bad_time(matches) {
        return Err(Usage::BadTime);
    }
    // clap isn't told that these exclude each other, since its line has no rule of one argument on
    // another (`line_is_simple` of `laws`).
    if is_given(matches, LATER) && is_given(matches, EARLIER) {
        return Err(Usage::OptionsExclude);
    }
    if uses_name_twice(text(matches, IN), &[], Some(text(matches, ids::OUT))) {
        return Err(Usage::NameUsedTwice);
    }
    Ok(())
}

/// How an edit shifts times: by the span of `--later` or `--earlier`, in nanoseconds, or not.
fn time_shift(matches: &ArgMatches<'_>) -> Shift
    ensures value { result ≡ shift_in (rows_of (found_of matches.now)) }
    ensures proper { is_proper_shift result ≡ true }
{
    match (duration(matches, LATER), duration(matches, EARLIER)) {
        // For both, which `check_edit` refuses, it would be the first.
        (Some(span), _) => Shift::Later(span),
        (None, Some(span)) => Shift::Earlier(span),
        (None, None) => Shift::None,
    }
}

/// How many bytes an argument asks to remove: its number, or 0 if it isn't given.
fn removed(matches: &ArgMatches<'_>, id: &str) -> u32
    ensures { result
        ≡ unwrap_or (argument_number 0 most_32 id.now (rows_of (found_of matches.now))) 0 }
{
    match number_u32(matches, id, 0, u32::MAX) {
        Some(count) => count,
        None => 0,
    }
}

/// The number of packets among which duplicates are found, if `-D` is given.
#[tactic(auto, using(crate::proofs::OptionValues::proper_window))]
fn window(matches: &ArgMatches<'_>) -> Option<u32>
    ensures value { result ≡ argument_number least_window most_window WINDOW.now
        (rows_of (found_of matches.now)) }
    ensures proper { option_map_or is_window result true ≡ true }
{
    number_u32(matches, WINDOW, LEAST_WINDOW, MOST_WINDOW)
}

/// The edit of these ranges, by its options. An option that isn't given changes nothing; without
/// one for the format it is pcapng.
#[tactic(auto, using(crate::proofs::Common::and_from, crate::proofs::OptionValues::one_or_more))]
fn edit_of(matches: &ArgMatches<'_>, ranges: Vec<(u64, u64)>) -> Edit
    requires { has_proper_ranges ranges.items ≡ true }
    ensures ranges { result.ranges ≡ ranges }
    ensures options { HasOptions (rows_of (found_of matches.now)) result }
    ensures proper { is_proper_edit result ≡ true }
{
    Edit {
        ranges,
        keep: flag(matches, KEEP),
        start: time(matches, START),
        stop: time(matches, STOP),
        chop_start: removed(matches, CHOP_START),
        chop_end: removed(matches, CHOP_END),
        snap: number_u32(matches, SNAP, 1, u32::MAX),
        shift: time_shift(matches),
        window: window(matches),
        format: format(matches, ids::FORMAT),
    }
}

/// The line of an edit, by clap's matches. An error is the first fault of its words, or that memory
/// ran out.
pub fn edit_line(alloc: Global, matches: &ArgMatches<'_>) -> Result<Line, Usage>
    ensures line { IfOk result (IsEditOf (rows_of (found_of matches.now))) }
    ensures faultless { OnOk result (edit_fault (rows_of (found_of matches.now)) ≡ None) }
    ensures ready { IfOk result (λ line. is_ready line ≡ true) }
    ensures fault { IfErr result (IsUsageOf (edit_fault (rows_of (found_of matches.now)))) }
{
    let ranges = ranges_in(alloc, texts(matches, RANGE))?;
    check_edit(matches)?;
    let output = String::from_str(alloc, text(matches, ids::OUT))?;
    let inputs = copies_of_texts(alloc, text(matches, IN), &[])?;
    Ok(Line {
        command: Command::Edit(edit_of(matches, ranges)),
        inputs,
        output: Some(output),
        code: None,
    })
}
