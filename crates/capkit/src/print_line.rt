//! The command lines of `print`, with its expression or its listing, its options and its names, or
//! the first fault of them, and of `compile`; and the tables of their options.
ghost use Rattle.std.specs.Prelude.{◌≡◌, ◌||◌, ◌∷◌, ◌≤◌, IfOk, IfErr, IfSome, OnOk, Some, None};
ghost use Rattle.std.specs.Option.{option_map_or, option_to_list};
ghost use Rattle.std.specs.Prelude.{option_map, string_bytes, true};
ghost use Rattle.cap_command.specs.Command.{is_at_least_one};
ghost use Rattle.clap.specs.Words.{found_of, rows_of};
ghost use Rattle.capkit.specs.Line.{argument_number, expression_in, flag_in, has_idle_format};
ghost use Rattle.capkit.specs.Line.{has_two_filters, has_two_outputs, is_ready};
ghost use Rattle.capkit.specs.{Arguments.most_64, Names.uses_name_twice};
ghost use Rattle.capkit.specs.declared.usage.Usage.TheVariants.{Memory};
ghost use Rattle.capkit.specs.declared.print_line.TheConstants.{BYTES, COUNT, LINK_HEADER};
ghost use Rattle.capkit.specs.Line.{print_fault, write_in, IsUsageOf, IsPrintOf, IsCompileOf};
ghost use Rattle.clap.specs.declared.builder.value_parser.ValueParser.TheVariants.{Names};
ghost use Rattle.capkit.specs.declared.arguments.Choices.{Choices};
ghost use Rattle.capkit.specs.Arguments.{compile_shape, print_shape};
ghost use Rattle.capkit.specs.inside.Arguments.{shape_by};

use crate::examples::{COMPILE_HELP, PRINT_HELP};
use crate::files::copies_of_texts;
use crate::ids;
use crate::line::Line;
use crate::names::uses_name_twice;
use crate::options::{Argument, CommandRow, FILE, Name, Value, WORD};
use crate::usage::Usage;
use crate::values::{flag, format, is_given, link, number, optional_text, text, texts};
use cap_command::{Command, Compile, Print};
use cap_octet::Format;
use clap::ArgMatches;
use std::alloc::{AllocError, Global};

/// The number of matching packets after which a print ends.
pub const COUNT: &str = "count";

/// Whether lines have the link header.
pub const LINK_HEADER: &str = "link";

/// Whether lines have the bytes after the link header.
pub const BYTES: &str = "bytes";

/// The file with the listing that selects packets.
pub const LISTING: &str = "LISTING";

/// The link that an expression is compiled for.
pub const LINK: &str = "LINK";

/// Without `-w` a print writes lines.
static PRINT: CommandRow = CommandRow {
    name: "print",
    about: "Print or write the packets that match an expression or a listing",
    examples: PRINT_HELP,
    arguments: &[
        Argument {
            id: COUNT,
            name: Name::Letter('c'),
            value: Value::Wide("N", 1, u64::MAX),
            help: "Stop after N matching packets, 1 or more",
        },
        Argument {
            id: LINK_HEADER,
            name: Name::Letter('e'),
            value: Value::Flag,
            help: "Also print the link header of each packet",
        },
        Argument {
            id: BYTES,
            name: Name::Letter('x'),
            value: Value::Flag,
            help: "Also print the bytes that follow the link header",
        },
        Argument {
            id: ids::OUT,
            name: Name::Letter('w'),
            value: Value::File,
            help: "Write the packets to OUT (- is standard output) instead",
        },
        Argument {
            id: ids::FORMAT,
            name: Name::Long("format"),
            value: Value::Format,
            help: "Format to write, with -w (default: pcapng){n}",
        },
        Argument {
            id: LISTING,
            name: Name::Long("code"),
            value: Value::File,
            help: "Match with this listing instead of an expression",
        },
        FILE,
        WORD,
    ],
};

/// The row of `print`.
// No other function names `PRINT`: each step of the proof would repeat its texts.
pub fn print_row() -> &'static CommandRow
    ensures { (choices : Choices) → shape_by choices result.now
        ≡ print_shape (Names choices.formats) }
{
    &PRINT
}

static COMPILE: CommandRow = CommandRow {
    name: "compile",
    about: "Compile an expression, and write the listing of its program",
    examples: COMPILE_HELP,
    arguments: &[
        Argument {
            id: LINK,
            name: Name::Long("link"),
            value: Value::Link,
            help: "Compile for this link type (default: ether){n}",
        },
        WORD,
    ],
};

/// The row of `compile`.
// No other function names `COMPILE`: each step of the proof would repeat its texts.
pub fn compile_row() -> &'static CommandRow
    ensures { (choices : Choices) → shape_by choices result.now
        ≡ compile_shape (Names choices.links) }
{
    &COMPILE
}

/// The text of an expression: its words, with a blank between each two; empty without words. An
/// error means that memory ran out.
fn expression_text(alloc: Global, matches: &ArgMatches<'_>) -> Result<String, AllocError>
    ensures { IfOk result (λ expr. string_bytes expr
        ≡ expression_in (rows_of (found_of matches.now))) }
{
    texts(matches, ids::WORD).join(alloc, " ")
}

/// A copy of a text, which owns its bytes, if there is one. An error means that memory ran out.
fn copy_of_text(alloc: Global, text: Option<&str>) -> Result<Option<String>, AllocError>
    ensures { IfOk result (λ owned. option_map string_bytes owned
        ≡ option_map (λ text. text.now) text.entry) }
{
    match text {
        Some(text) => Ok(Some(String::from_str(alloc, text)?)),
        None => Ok(None),
    }
}

/// Whether a print uses a name twice: its output, unless it is standard output, is its capture or
/// its listing too, or both of these are standard input.
fn print_uses_name_twice(input: &str, listing: Option<&str>, output: Option<&str>) -> bool
    ensures { result ≡ uses_name_twice
        (input.now ∷ option_to_list (option_map (λ name. name.now) listing.entry))
        (option_map (λ name. name.now) output.entry) }
{
    match listing {
        Some(listing) => uses_name_twice(input, &[listing], output),
        None => uses_name_twice(input, &[], output),
    }
}

/// Whether there are both a listing and words of an expression, of which a print takes only one.
fn has_two_filters(matches: &ArgMatches<'_>) -> bool
    ensures { result ≡ has_two_filters (rows_of (found_of matches.now)) }
{
    is_given(matches, LISTING) && !texts(matches, ids::WORD).is_empty()
}

/// Whether options are given that the output can't have: link headers or bytes, though packets are
/// written to a capture, or a format, though lines are printed.
fn has_idle_option(matches: &ArgMatches<'_>) -> bool
    ensures { result ≡ (has_two_outputs (rows_of (found_of matches.now))
        || has_idle_format (rows_of (found_of matches.now))) }
{
    if is_given(matches, ids::OUT) {
        flag(matches, LINK_HEADER) || flag(matches, BYTES)
    } else {
        is_given(matches, ids::FORMAT)
    }
}

/// Checks the words of a print. An error is the first of their faults: options that exclude each
/// other, a name used twice.
fn check_print(matches: &ArgMatches<'_>) -> Result<(), Usage>
    ensures passes { OnOk result (print_fault (rows_of (found_of matches.now)) ≡ None) }
    ensures refused { IfErr result (λ usage. print_fault (rows_of (found_of matches.now))
        ≡ Some usage) }
{
    if has_two_filters(matches) || has_idle_option(matches) {
        return Err(Usage::OptionsExclude);
    }
    let listing = optional_text(matches, LISTING);
    if print_uses_name_twice(
        text(matches, ids::FILE),
        listing,
        optional_text(matches, ids::OUT),
    ) {
        return Err(Usage::NameUsedTwice);
    }
    Ok(())
}

/// The format in which a print writes packets, where `-w` names a capture; `None` if it prints
/// lines.
fn output_format(matches: &ArgMatches<'_>) -> Option<Format>
    ensures { result ≡ write_in (rows_of (found_of matches.now)) }
{
    match optional_text(matches, ids::OUT) {
        Some(_) => Some(format(matches, ids::FORMAT)),
        None => None,
    }
}

/// The print of this expression, by its options; its listing is not yet read.
fn print_of(matches: &ArgMatches<'_>, expr: String) -> Print
    ensures expr { result.expr ≡ expr }
    ensures unread { result.code ≡ None }
    ensures count { result.count
        ≡ argument_number 1 most_64 COUNT.now (rows_of (found_of matches.now)) }
    ensures proper { option_map_or is_at_least_one result.count true ≡ true }
    ensures link { result.link ≡ flag_in LINK_HEADER.now (rows_of (found_of matches.now)) }
    ensures bytes { result.bytes ≡ flag_in BYTES.now (rows_of (found_of matches.now)) }
    ensures write { result.write ≡ write_in (rows_of (found_of matches.now)) }
{
    Print {
        expr,
        code: None,
        count: number(matches, COUNT, 1, u64::MAX),
        link: flag(matches, LINK_HEADER),
        bytes: flag(matches, BYTES),
        write: output_format(matches),
    }
}

/// The line of a print, by clap's matches: its listing is named there, and not read yet. An error
/// is the first fault of its words, or that memory ran out.
pub fn print_line(alloc: Global, matches: &ArgMatches<'_>) -> Result<Line, Usage>
    ensures line { IfOk result (IsPrintOf (rows_of (found_of matches.now))) }
    ensures faultless { OnOk result (print_fault (rows_of (found_of matches.now)) ≡ None) }
    ensures ready { IfOk result (λ line. is_ready line ≡ true) }
    ensures fault { IfErr result (IsUsageOf (print_fault (rows_of (found_of matches.now)))) }
{
    check_print(matches)?;
    let expr = expression_text(alloc, matches)?;
    let output = copy_of_text(alloc, optional_text(matches, ids::OUT))?;
    let code = copy_of_text(alloc, optional_text(matches, LISTING))?;
    let inputs = copies_of_texts(alloc, text(matches, ids::FILE), &[])?;
    Ok(Line {
        command: Command::Print(print_of(matches, expr)),
        inputs,
        output,
        code,
    })
}

/// The line of a compilation, by clap's matches: it has no inputs, and its listing goes to standard
/// output. An error means that memory ran out.
pub fn compile_line(alloc: Global, matches: &ArgMatches<'_>) -> Result<Line, Usage>
    ensures line { IfOk result (IsCompileOf (rows_of (found_of matches.now))) }
    ensures ready { IfOk result (λ line. is_ready line ≡ true) }
    ensures fault { IfErr result (λ usage. usage ≡ Memory) }
{
    let compile = Compile {
        expr: expression_text(alloc, matches)?,
        link: link(matches, LINK),
    };
    Ok(Line {
        command: Command::Compile(compile),
        inputs: Vec::new(alloc),
        output: None,
        code: None,
    })
}
