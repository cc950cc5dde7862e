//! Messages: no control character of a name reaches the terminal, and each is written by one call
//! if there is memory for its line, so that those of runs side by side don't mix.

use crate::hints::{add_commands, hint_for_refusal};
use std::alloc::{AllocError, Allocator, Global};
use std::{fmt, io};

/// What clap's advice to pass a word after `--` begins with. The advice fails, since that word
/// isn't the name of a file, and no range or part of an expression either.
const VALUE_TIP: &str = "  tip: to pass '";

/// What each line of clap's advice begins with.
const TIP: &str = "  tip: ";

/// What the line that names a command's words begins with.
const USAGE_LINE: &str = "Usage: ";

/// What the line begins with that names the commands and not what they do.
const COMMAND_NAMES: &str = "  [subcommands: ";

/// A text in which what a terminal would obey is shown by its number: control characters as `\x1b`,
/// and marks of Unicode that turn the direction of a line or end it as `\u{202e}`.
#[derive(Drop)]
pub struct Shown<'a> {
    pub text: &'a str,
}

/// Whether a letter is a mark that turns the direction of the text after it, so that a line reads
/// otherwise than it is, or that ends a line.
fn is_mark(letter: char) -> bool {
    matches!(
        letter,
        '\u{61c}'
            | '\u{200e}'..='\u{200f}'
            | '\u{2028}'..='\u{202e}'
            | '\u{2066}'..='\u{2069}'
    )
}

/// Writes a number in two hexadecimal digits or more, between two texts.
fn write_number<W: fmt::Write>(
    f: &mut fmt::Formatter<W>,
    prefix: &str,
    number: u32,
    suffix: &str,
) -> fmt::Result {
    write!(f, "{prefix}{number:02x}{suffix}")
}

impl fmt::Display for Shown<'_> {
    /// Writes the text; each control character as `\x` and two hexadecimal digits, each mark
    /// (`is_mark`) as `\u{` and its digits.
    fn fmt<W: fmt::Write>(&self, f: &mut fmt::Formatter<W>) -> fmt::Result {
        for letter in self.text.chars() {
            let written = if letter.is_control() {
                write_number(f, "\\x", u32::from(letter), "")
            } else if is_mark(letter) {
                write_number(f, "\\u{", u32::from(letter), "}")
            } else {
                f.write_char(letter)
            };
            written?;
        }
        Ok(())
    }
}

/// Bytes that are shown as text. Control characters, and bytes that aren't UTF-8, are shown by
/// their numbers, as `\xe9`.
#[derive(Drop)]
pub struct ShownBytes<'a> {
    pub bytes: &'a [u8],
}

impl fmt::Display for ShownBytes<'_> {
    /// Writes what is UTF-8 as `Shown` does, and each other byte as `\x` and two digits.
    fn fmt<W: fmt::Write>(&self, f: &mut fmt::Formatter<W>) -> fmt::Result {
        for chunk in self.bytes.utf8_chunks() {
            let text = chunk.valid();
            Shown { text }.fmt(f)?;
            for byte in chunk.invalid() {
                write_number(f, "\\x", u32::from(*byte), "")?;
            }
        }
        Ok(())
    }
}

/// Appends a line of clap's refusal. The hint goes before the usage line, and the list of commands
/// gets their descriptions. An error means that memory ran out.
fn add_line(text: &mut String, line: &str, hint: Option<&str>) -> Result<(), AllocError> {
    if line.starts_with(COMMAND_NAMES) {
        return add_commands(text);
    }
    if let Some(hint) = hint
        && line.starts_with(USAGE_LINE)
    {
        writeln!(text, "{TIP}{hint}\n")?;
    }
    writeln!(text, "{}", Shown { text: line })
}

/// The text of clap's refusal of some words, fixed: without advice that fails, with a hint if
/// the option is one of another tool, and with what each command is for if none is named. An
/// error means that memory ran out.
pub fn refusal_text(alloc: Global, error: &clap::Error) -> Result<String, AllocError> {
    let clap_text = format!(in alloc; "{error}")?;
    let hint = hint_for_refusal(&clap_text);
    let mut text = String::new(alloc);
    let mut is_after_blank = false;
    for line in clap_text.lines() {
        // Where advice is left out, one of the blank lines around it is too.
        let is_second_blank = is_after_blank && line.is_empty();
        // A hint stands instead of clap's guess at what was meant.
        let is_replaced = hint.is_some() && line.starts_with(TIP);
        if is_second_blank || is_replaced || line.starts_with(VALUE_TIP) {
            continue;
        }
        is_after_blank = line.is_empty();
        add_line(&mut text, line, hint)?;
    }
    Ok(text)
}

/// Standard error, which takes a text of any length by one call. A test has its own instead of it.
pub trait Errors: Eprint {
    /// Writes the text by one call; what the system doesn't take of it then, by further ones. The
    /// error is the system's.
    fn write_text(&self, text: &str) -> io::Result<()>;
}

impl Errors for HostRuntime {
    /// Writes the text by std's `write_all`, whose first write has all of it.
    fn write_text(&self, text: &str) -> io::Result<()> {
        self.stderr().write_all(text.as_bytes())
    }
}

impl<R: Errors, A: Allocator> Errors for (R, A) {
    /// As the runtime writes it. The pair is std's form of a runtime with an allocator of the caller's
    /// choice; only tests use it, for streams of their own.
    fn write_text(&self, text: &str) -> io::Result<()> {
        self.0.write_text(text)
    }
}

/// Writes `capkit: ` and a message, as one line, to standard error. One that can't be written is
/// lost.
pub fn tell(rt: &(impl AllocGlobal + Errors), message: impl fmt::Display + Drop) {
    let _ = match format!(in rt.alloc(); "capkit: {message}\n") {
        Ok(line) => rt.write_text(&line),
        // No memory for the line: it is written in parts.
        Err(_) => rt.eprintln(format_args!("capkit: {message}")),
    };
}
