//! What the words of a command line ask for.
ghost use Rattle.std.specs.Prelude.{◌≡◌, IfOk, IfErr, OnOk, None, map, true, string_bytes};
ghost use Rattle.clap.specs.Words.{found_of, rows_of};
ghost use Rattle.capkit.specs.Line.{fault_in, is_ready, with_code, IsUsageOf, IsLineOf, SaysLine};
ghost use Rattle.capkit.specs.Line.{SaysFault};

use crate::arguments::{Subcommand, matches_of, subcommand_of_name};
use crate::edit_line::edit_line;
use crate::merge_line::{infos_line, merge_line};
use crate::print_line::{compile_line, print_line};
use crate::usage::Usage;
use cap_command::{Command, Print};
use clap::ArgMatches;
use std::alloc::Global;

/// What a command line asks for: a command, and the names that it is run over.
#[derive(Drop)]
pub struct Line {
    /// The command, whose listing, if it has one, isn't read yet.
    pub command: Command,
    /// The names of the inputs, of which `-` is standard input.
    pub inputs: Vec<String>,
    /// The name of the output, of which `-` is standard output; standard output if there is
    /// none.
    pub output: Option<String>,
    /// The name of a listing, which must be read and put into the command (`with_code`) before
    /// that runs.
    pub code: Option<String>,
}

/// The line that clap's matches of a subcommand ask for. An error is the first fault of its words,
/// or that memory ran out.
fn line_of_matches(
    alloc: Global,
    asked: Subcommand,
    matches: &ArgMatches<'_>,
) -> Result<Line, Usage>
    ensures line { IfOk result (IsLineOf asked (rows_of (found_of matches.now))) }
    ensures faultless { OnOk result (fault_in asked (rows_of (found_of matches.now)) ≡ None) }
    ensures ready { IfOk result (λ line. is_ready line ≡ true) }
    ensures fault { IfErr result (IsUsageOf (fault_in asked (rows_of (found_of matches.now)))) }
{
    match asked {
        Subcommand::Edit => edit_line(alloc, matches),
        Subcommand::Merge => merge_line(alloc, matches),
        Subcommand::Infos => infos_line(alloc, matches),
        Subcommand::Print => print_line(alloc, matches),
        Subcommand::Compile => compile_line(alloc, matches),
    }
}

/// The line that the words after the program's name ask for.
///
/// An error is the first of these that holds: clap refuses the words (even if it is out of
/// memory), there are more than 512 ranges or 256 inputs, a word isn't a range, a word isn't a time
/// or no number of seconds, options exclude each other, a name is used twice; or an allocation
/// fails after clap's parse.
///
/// These exclude each other: `--later` and `--earlier` of an edit; for a print, the words of an
/// expression and `--code`, `-w` and `-e` or `-x`, and `--format` if there is no `-w`.
pub fn command_of(alloc: Global, words: Vec<String>) -> Result<Line, Usage>
    ensures line { IfOk result (SaysLine (map string_bytes words.items)) }
    ensures ready { IfOk result (λ line. is_ready line ≡ true) }
    ensures usage { IfErr result (SaysFault (map string_bytes words.items)) }
{
    let matches = match matches_of(alloc, words.as_slice()) {
        Ok(matches) => matches,
        Err(error) => return Err(Usage::Refused(error)),
    };
    // clap refuses words without a subcommand.
    let Some((name, matches)) = matches.subcommand() else {
        unreachable!()
    };
    line_of_matches(alloc, subcommand_of_name(name), matches)
}

/// The command with these bytes as its listing. Only a print takes one; other commands stay as they
/// are.
pub fn with_code(command: Command, bytes: Vec<u8>) -> Command
    ensures { result ≡ with_code command bytes }
{
    match command {
        Command::Print(print) => Command::Print(Print {
            code: Some(bytes),
            ..print
        }),
        command => command,
    }
}
