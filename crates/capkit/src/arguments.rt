//! The command line as clap parses it: clap's commands and arguments, made of the tables of the
//! subcommands.
ghost use Rattle.std.specs.Prelude.{◌≡◌, IfOk, IfErr, map, false, string_bytes};
ghost use Rattle.clap.specs.Words.{app_of, new_rule, rule_of, subcommand_rows_of};
ghost use Rattle.clap.specs.declared.builder.command.Command.TheViews.{out-Command as fields_of};
ghost use Rattle.capkit.specs.Arguments.{AreChoices, TakesWords, RefusesWords, format_names};
ghost use Rattle.capkit.specs.Arguments.{link_names, line_without_commands, line_app, with_rules};
ghost use Rattle.capkit.specs.inside.Arguments.{app_by, with_name, rule_by, shape_by};
ghost use Rattle.capkit.specs.{Arguments.with_shapes, inside.Arguments.subcommand_of_name};

use crate::examples::{LINE_HELP, VERSION};
use crate::options::{Argument, CommandRow, Name, Value, commands};
use clap::builder::ValueParser;
use clap::{Arg, ArgAction, ArgMatches, Command, Error};
use std::alloc::{AllocError, Global};

/// The program's name.
const NAME: &str = "capkit";

/// The names of the formats that can be written, as `Format::name` has them, which `whole_line`
/// states.
static FORMATS: [&str; 3] = ["pcap", "nsecpcap", "pcapng"];

/// The names of the links that an expression can be compiled for, as `Link::name` has them.
static LINKS: [&str; 3] = ["ether", "raw", "cooked"];

/// One of the program's commands.
#[derive(Clone, Copy)]
pub enum Subcommand {
    Edit,
    Merge,
    Infos,
    Print,
    Compile,
}

/// The subcommand of this name. clap accepts only the five names, so any other than the first four
/// is `compile`.
pub fn subcommand_of_name(name: &str) -> Subcommand
    ensures { result ≡ subcommand_of_name name.now }
{
    match name {
        "edit" => Subcommand::Edit,
        "merge" => Subcommand::Merge,
        "infos" => Subcommand::Infos,
        "print" => Subcommand::Print,
        _ => Subcommand::Compile,
    }
}

/// The names that the arguments for a format and for a link choose from. The lists are the
/// program's; the clauses know their texts, and not their places in memory.
#[derive(Clone, Copy)]
pub struct Choices<'a> {
    formats: &'a [&'a str],
    links: &'a [&'a str],
}

/// A clap argument with the id, the name and the help of a row, but without its value.
/// Like all arguments here it isn't global: it belongs to its own subcommand.
fn arg_with_name<'a>(alloc: Global, argument: Argument) -> Arg<'a>
    ensures rule { rule_of result ≡ with_name argument.name (new_rule argument.id.now) }
    ensures local { result.global ≡ false }
{
    let arg = Arg::new(alloc, argument.id).help(argument.help);
    match argument.name {
        Name::Place => arg,
        Name::Letter(letter) => arg.short(letter),
        Name::Long(name) => arg.long(name),
    }
}

/// The clap argument that a row of a table describes, with its name and value.
fn arg_of_row<'a>(alloc: Global, argument: Argument, choices: Choices<'a>) -> Arg<'a>
    ensures rule { rule_of result ≡ rule_by choices.entry argument }
    ensures local { result.global ≡ false }
{
    let arg = arg_with_name(alloc, argument);
    match argument.value {
        Value::Flag => arg.action(ArgAction::SetTrue),
        Value::Text(name) => arg.value_name(name),
        Value::Number(name, least, most) => arg
            .value_name(name)
            .value_parser(ValueParser::Signed(least, most)),
        Value::Wide(name, least, most) => arg
            .value_name(name)
            .value_parser(ValueParser::Unsigned(least, most)),
        Value::Format => arg.value_parser(choices.formats),
        Value::Link => arg.value_parser(choices.links),
        Value::File => arg,
        Value::NeededFile => arg.required(true),
        Value::Words => arg.num_args(0..),
    }
}

/// The clap subcommand that a row of the table describes, with its arguments. An error means
/// that memory ran out.
fn command_of_row<'a>(
    alloc: Global,
    row: &CommandRow,
    choices: Choices<'a>,
) -> Result<Command<'a>, AllocError>
    ensures shape { IfOk result (λ command. app_of command ≡ app_by choices.entry row.now) }
    ensures local { IfOk result (λ command. (fields_of command).has_globals ≡ false) }
{
    let mut command = Command::new(alloc, row.name)
        .about(row.about)
        .after_help(row.examples);
    for argument in row.arguments {
        command = command.arg(arg_of_row(alloc, *argument, choices))?;
    }
    Ok(command)
}

/// The command of clap's that is the whole line, before its subcommands are added: it needs one,
/// has `--version` and `--help`, and no subcommand `help`. An error means that memory ran out.
fn line_without_commands<'a>(alloc: Global) -> Result<Command<'a>, AllocError>
    ensures { IfOk result (λ command. app_of command ≡ line_without_commands) }
{
    Command::new(alloc, NAME)
        .about("Edit, merge, filter and print saved packet captures")
        .after_help(LINE_HELP)
        .version(VERSION)
        .no_binary_name(true)
        .subcommand_required(true)
        .disable_help_subcommand(true)
        // Without this the usage of a subcommand would lack the program's name.
        .bin_name(NAME)
}

/// The command of clap's that is the whole line, with the subcommands of these rows. An error means
/// that memory ran out.
fn line_with_commands<'a>(
    alloc: Global,
    rows: &[&CommandRow],
    choices: Choices<'a>,
) -> Result<Command<'a>, AllocError>
    ensures { IfOk result (λ command. app_of command ≡ with_shapes line_without_commands
        (map (λ row. shape_by choices.entry row.now) rows.now)) }
{
    let mut command = line_without_commands(alloc)?;
    for row in rows {
        command = command.subcommand(command_of_row(alloc, row, choices)?)?;
    }
    Ok(command)
}

/// The command of clap's that is the whole line: all subcommands, formats and links. An error means
/// that memory ran out.
fn whole_line<'a>(alloc: Global) -> Result<Command<'a>, AllocError>
    ensures { IfOk result (λ command. (formats links : _) × AreChoices format_names formats
        × AreChoices link_names links
        × (app_of command ≡ line_app formats links)) }
{
    let choices = Choices {
        formats: FORMATS.as_slice(),
        links: LINKS.as_slice(),
    };
    line_with_commands(alloc, &commands(), choices)
}

/// Parses the words after the program's name, and returns clap's matches of them. An error is
/// clap's refusal of the words; a request for help or the version is one too, and so is running out
/// of memory.
pub fn matches_of<'a>(alloc: Global, words: &'a [String]) -> Result<ArgMatches<'a>, Error>
    ensures taken { IfOk result (λ matches. TakesWords (map string_bytes words.entry.now)
        (subcommand_rows_of matches)) }
    ensures refused { IfErr result (RefusesWords (map string_bytes words.entry.now)) }
{
    match whole_line(alloc) {
        Ok(command) => command.try_get_matches_from(words),
        Err(error) => Err(Error::from(error)),
    }
}
