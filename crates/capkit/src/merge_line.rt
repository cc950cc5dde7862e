//! The command lines of `merge` and of `infos`: the tables of their options, and what words mean.
ghost use Rattle.std.specs.Prelude.{◌≡◌, IfOk, IfErr, OnOk, None, true};
ghost use Rattle.clap.specs.Words.{found_of, rows_of};
ghost use Rattle.capkit.specs.Line.{infos_fault, is_ready, merge_fault, IsInfosOf, IsMergeOf};
ghost use Rattle.capkit.specs.Line.{IsUsageOf};
ghost use Rattle.clap.specs.declared.builder.value_parser.ValueParser.TheVariants.{Names};
ghost use Rattle.capkit.specs.declared.arguments.Choices.{Choices};
ghost use Rattle.capkit.specs.Arguments.{infos_shape, merge_shape};
ghost use Rattle.capkit.specs.inside.Arguments.{shape_by};

use crate::examples::{INFOS_HELP, MERGE_HELP};
use crate::files::input_names;
use crate::ids;
use crate::line::Line;
use crate::options::{Argument, CommandRow, FILE, FORMAT_HELP, MORE, Name, Value};
use crate::usage::Usage;
use crate::values::{flag, format, text};
use cap_command::{Command, Merge};
use clap::ArgMatches;
use std::alloc::Global;

/// Whether a merge joins its inputs, one after another.
pub const APPEND: &str = "append";

static MERGE: CommandRow = CommandRow {
    name: "merge",
    about: "Merge captures into one, by time",
    examples: MERGE_HELP,
    arguments: &[
        Argument {
            id: APPEND,
            name: Name::Letter('a'),
            value: Value::Flag,
            help: "Concatenate the captures instead of merging by time",
        },
        Argument {
            id: ids::FORMAT,
            name: Name::Letter('F'),
            value: Value::Format,
            help: FORMAT_HELP,
        },
        Argument {
            id: ids::OUT,
            name: Name::Letter('w'),
            value: Value::NeededFile,
            help: "Capture to write (- is standard output)",
        },
        FILE,
        MORE,
    ],
};

/// The row of `merge`.
// No other function names `MERGE`: each step of the proof would repeat its texts.
pub fn merge_row() -> &'static CommandRow
    ensures { (choices : Choices) → shape_by choices result.now
        ≡ merge_shape (Names choices.formats) }
{
    &MERGE
}

static INFOS: CommandRow = CommandRow {
    name: "infos",
    about: "Report packet counts, sizes, times and order",
    examples: INFOS_HELP,
    arguments: &[FILE, MORE],
};

/// The row of `infos`.
// No other function names `INFOS`: each step of the proof would repeat its texts.
pub fn infos_row() -> &'static CommandRow
    ensures { (choices : Choices) → shape_by choices result.now ≡ infos_shape }
{
    &INFOS
}

/// The line of a merge, by clap's matches. An error is the first fault of its words, or that memory
/// ran out.
pub fn merge_line(alloc: Global, matches: &ArgMatches<'_>) -> Result<Line, Usage>
    ensures line { IfOk result (IsMergeOf (rows_of (found_of matches.now))) }
    ensures faultless { OnOk result (merge_fault (rows_of (found_of matches.now)) ≡ None) }
    ensures ready { IfOk result (λ line. is_ready line ≡ true) }
    ensures fault { IfErr result (IsUsageOf (merge_fault (rows_of (found_of matches.now)))) }
{
    let output = text(matches, ids::OUT);
    let merge = Merge {
        append: flag(matches, APPEND),
        format: format(matches, ids::FORMAT),
    };
    let inputs = input_names(alloc, matches, Some(output))?;
    let output = String::from_str(alloc, output)?;
    Ok(Line {
        command: Command::Merge(merge),
        inputs,
        output: Some(output),
        code: None,
    })
}

/// The command line of `infos`, by clap's matches: the names of its inputs. An error is the first
/// fault of its words, or that memory ran out.
pub fn infos_line(alloc: Global, matches: &ArgMatches<'_>) -> Result<Line, Usage>
    ensures line { IfOk result (IsInfosOf (rows_of (found_of matches.now))) }
    ensures faultless { OnOk result (infos_fault (rows_of (found_of matches.now)) ≡ None) }
    ensures ready { IfOk result (λ line. is_ready line ≡ true) }
    ensures fault { IfErr result (IsUsageOf (infos_fault (rows_of (found_of matches.now)))) }
{
    let inputs = input_names(alloc, matches, None)?;
    Ok(Line {
        command: Command::Infos,
        inputs,
        output: None,
        code: None,
    })
}
