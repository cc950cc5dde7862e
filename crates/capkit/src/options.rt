//! The subcommands and their arguments, as rows of tables, and the arguments that several have.
//! `edit_line.rt`, `merge_line.rt` and `print_line.rt` have the tables.
ghost use Rattle.std.specs.Prelude.{◌≡◌, map};
ghost use Rattle.clap.specs.declared.builder.value_parser.ValueParser.TheVariants.{Names};
ghost use Rattle.capkit.specs.declared.arguments.Choices.{Choices};
ghost use Rattle.capkit.specs.{Arguments.line_shapes, inside.Arguments.shape_by};

use crate::edit_line::edit_row;
use crate::ids;
use crate::merge_line::{infos_row, merge_row};
use crate::print_line::{compile_row, print_row};

/// How an argument is named.
#[derive(Clone, Copy)]
pub enum Name {
    /// By its place.
    Place,
    /// `-LETTER`
    Letter(char),
    /// `--NAME`
    Long(&'static str),
}

/// The kind of value that an argument takes. A text in it is the value's name in help.
#[derive(Clone, Copy)]
pub enum Value {
    /// Nothing: it is a flag.
    Flag,
    /// One text.
    Text(&'static str),
    /// A number from the first to the last of these, which are below 2^63.
    Number(&'static str, i64, i64),
    /// A number from the first to the last of these, which may be 2^63 and more.
    Wide(&'static str, u64, u64),
    /// The name of a format.
    Format,
    /// The name of a link.
    Link,
    /// The name of a file.
    File,
    /// The name of a file, which the command needs.
    NeededFile,
    /// Any number of words. It is the last argument of its command.
    Words,
}

/// An argument of a subcommand.
#[derive(Clone, Copy)]
pub struct Argument {
    /// The key of its value in clap's matches.
    pub id: &'static str,
    /// How it is named on the command line.
    pub name: Name,
    /// The value that it takes.
    pub value: Value,
    /// Its text in help. `{n}` ends a line of help, which has at most 80 columns.
    pub help: &'static str,
}

/// A subcommand.
#[derive(Clone, Copy)]
pub struct CommandRow {
    /// The word that calls it.
    pub name: &'static str,
    /// Its text in help.
    pub about: &'static str,
    /// The text below the options in help.
    pub examples: &'static str,
    /// Its arguments: the options, in the order in which help lists them, and then those by place,
    /// which help lists first.
    pub arguments: &'static [Argument],
}

/// The greatest 32-bit number, the limit of counts of bytes.
pub const MOST_32: i64 = 4_294_967_295;

pub const FORMAT_HELP: &str = "Format to write (default: pcapng){n}";

pub const FILE: Argument = Argument {
    id: ids::FILE,
    name: Name::Place,
    value: Value::NeededFile,
    help: "Capture to read (- is standard input)",
};

pub const MORE: Argument = Argument {
    id: ids::MORE,
    name: Name::Place,
    value: Value::Words,
    help: "Up to 255 more captures",
};

pub const WORD: Argument = Argument {
    id: ids::WORD,
    name: Name::Place,
    value: Value::Words,
    help: "Expression, in one word or more: see capkit-filter(7)",
};

/// The rows of the subcommands, in the order in which help lists them.
pub fn commands() -> [&'static CommandRow; 5]
    ensures { (choices : Choices) → map (λ row. shape_by choices row.now) result
        ≡ line_shapes (Names choices.formats) (Names choices.links) }
{
    [
        edit_row(),
        merge_row(),
        infos_row(),
        print_row(),
        compile_row(),
    ]
}
