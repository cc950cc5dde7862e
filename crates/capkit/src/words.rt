//! The words of the command line as the user types them.
ghost use Rattle.std.specs.Prelude.{◌≡◌, IfOk, map, string_bytes, true};
ghost use Rattle.capkit.specs.{Line.is_ready, Line.SaysLine, Words.with_help_option};

use crate::files::push_copy;
use crate::overwrites::overwrites_input;
use crate::{Line, Usage, command_of};
use std::alloc::{AllocError, Global};

/// The word that asks for help, as many programs take it.
const HELP: &str = "help";

/// The words, where `help [COMMAND]` is read as `[COMMAND] --help`. An error means that memory ran
/// out.
pub fn with_help_option(alloc: Global, words: Vec<String>) -> Result<Vec<String>, AllocError>
    ensures { IfOk result (λ after. map string_bytes after.items
        ≡ with_help_option (map string_bytes words.items)) }
{
    let mut line_words = words;
    match line_words.first() {
        Some(word) if word.as_str() == HELP => {}
        _ => return Ok(line_words),
    }
    line_words.remove(0);
    push_copy(alloc, &mut line_words, "--help")?;
    Ok(line_words)
}

/// The line that the words ask for, where `help` may be the first one. The errors are those of
/// `command_of`, and `NameUsedTwice` even if the line's output is a plain file that it reads.
pub fn line_of_words(rt: &HostRuntime, words: Vec<String>) -> Result<Line, Usage>
    ensures ready { IfOk result (λ line. is_ready line ≡ true) }
    ensures line { IfOk result (SaysLine (with_help_option (map string_bytes words.items))) }
{
    let words = with_help_option(rt.alloc(), words)?;
    let line = command_of(rt.alloc(), words)?;
    if overwrites_input(rt, &line) {
        return Err(Usage::NameUsedTwice);
    }
    Ok(line)
}
