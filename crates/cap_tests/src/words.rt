//! Words of command lines, and tables of rows.
ghost use Rattle.std.specs.Prelude.{◌≡◌, IfOk, true};
ghost use Rattle.capkit.specs.Line.{is_ready};

use capkit::{Line, command_of};
use std::alloc::{AllocError, Global};
use std::test::Fail;

/// The words of a line, which blanks part.
pub fn words_of(alloc: Global, line: &str) -> Result<Vec<String>, AllocError> {
    let mut words = Vec::new(alloc);
    for word in line.split_whitespace() {
        words.push(String::from_str(alloc, word)?)?;
    }
    Ok(words)
}

/// What these words ask for. An error is that they ask for nothing.
pub fn line_of(alloc: Global, words: &str) -> Result<Line, Fail>
    ensures { IfOk result (λ line. is_ready line ≡ true) }
{
    let words = words_of(alloc, words)?;
    match command_of(alloc, words) {
        Ok(line) => Ok(line),
        Err(_) => Err(Fail::from("no line")),
    }
}

/// The first field of a table's row, which ` | ` parts, and the rest; that is empty after the last.
pub fn field(row: &'static str) -> (&'static str, &'static str) {
    row.split_once(" | ").unwrap_or((row, ""))
}
