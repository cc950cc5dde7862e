//! Whether a line's output is one of its inputs too, under another name or through links.
ghost use Rattle.std.specs.Prelude.{◌≡◌, false, true, is_none, option_map, string_bytes, vec_len};
ghost use Rattle.capkit.specs.inside.Streams.{input_path, output_path};

use crate::identity::{Identify, Identity};
use crate::{Line, STANDARD};

/// The path of the file that is standard input, on systems that have one.
pub(crate) const STANDARD_INPUT: &str = "/dev/stdin";

/// The path of the file that is standard output, on systems that have one.
pub(crate) const STANDARD_OUTPUT: &str = "/dev/stdout";

/// The path of the input of this name; `/dev/stdin` for `-`.
pub(crate) fn input_path(name: &str) -> &str
    ensures { result.now ≡ input_path name.now }
{
    if name == STANDARD {
        STANDARD_INPUT
    } else {
        name
    }
}

/// The path of the output of this name; `/dev/stdout` for `-`, and if there is no name.
pub(crate) fn output_path(name: &Option<String>) -> &str
    ensures { result.now ≡ output_path (option_map string_bytes name.now) }
{
    match name {
        Some(name) if name.as_str() != STANDARD => name,
        _ => STANDARD_OUTPUT,
    }
}

/// Whether the input of this name is the file of that identity; false if it can't be looked up.
fn input_is_file(files: &impl Identify, name: &str, file: Identity) -> bool {
    files.identity_of(input_path(name)) == Some(file)
}

/// Whether the line's output is a plain file that it reads too: it would be emptied, or read on and
/// on as it grows. A file that can't be looked up is taken for another one.
pub fn overwrites_input(files: &impl Identify, line: &Line) -> bool
    ensures unread { vec_len (line.now).inputs ≡ 0 → is_none (line.now).code ≡ true
        → result ≡ false }
{
    let Some(file) = files.identity_of(output_path(&line.output)) else {
        return false;
    };
    for name in &line.inputs {
        if input_is_file(files, name, file) {
            return true;
        }
    }
    match &line.code {
        Some(name) => input_is_file(files, name, file),
        None => false,
    }
}
