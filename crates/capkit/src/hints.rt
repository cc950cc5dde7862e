//! What a refusal of clap doesn't show: which option here does what an option of another tool does,
//! and what each command is for. It is found by the text of the refusal, as the version of clap
//! that is built in writes it.

use crate::options::commands;
use std::alloc::AllocError;

/// What clap's refusal of an option that it doesn't know begins with.
const UNKNOWN: &str = "error: unexpected argument '";

/// The text in front of the command's name in clap's usage line.
const USAGE_OF: &str = "\nUsage: capkit ";

/// The option in `HINTS` that is a number with a dash before it; for such a word clap shows the
/// dash and the first digit.
const NEGATIVE: &str = "-N";

/// Options of other tools, one per line: the command (`<COMMAND>` if the line names none), the
/// option, and after the colon what does the same here. They are those of editcap, mergecap,
/// capinfos, tcpdump and tshark that clap refuses without advice.
const HINTS: &str = "\
edit -t: see --later, --earlier
edit -S: see --later, --earlier
edit -C: see --chop-start, --chop-end
edit --chop: see --chop-start, --chop-end
edit -I: -D compares whole packets, after --chop-start
edit --novlan: -D compares whole packets, with their VLAN tags
edit --skip-radiotap-header: -D compares whole packets, after --chop-start
edit -c: split by -r and ranges: 1-100, 101-200
edit -i: split by -A and -B
edit -d: see -D 5
edit -w: OUT is named after IN, without -w
edit --format: see -F
edit -T: the link type is kept
edit -L: original lengths are kept
edit -a: comments are kept, and none is added
edit --inject-secrets: secrets are neither read nor written
edit --discard-all-secrets: secrets are never written
edit -N: for --later -5 write --earlier 5; a range is 1-5
merge --format: see -F
merge -o: see -w
merge -s: see edit -s
merge -I: equal interfaces become one
infos -T: reports have one form; awk makes a table of them
infos -M: numbers are whole, in bytes and packets
infos -c: the report has every line; pick them with grep
infos -d: the report has every line; pick them with grep
infos -s: the report has every line; pick them with grep
infos -t: the report has every line; pick them with grep
infos -u: the report has every line; pick them with grep
infos -a: the report has every line; pick them with grep
infos -e: the report has every line; pick them with grep
print -r: the file is named without -r
print -n: names are never looked up
print -N: names are never looked up
print -X: see -x, which prints bytes without characters
print -A: see -x, which prints bytes without characters
print -F: see --format; for words in a file \"$(cat FILE)\"
print -d: see compile
print -s: see edit -s
print -i: FILE - reads what tcpdump -i eth0 -U -w - writes
print -t: each line begins with date and time, of 29 columns
print -v: lines have one form; see -e, -x
print -q: lines have one form; see -e, -x
print -l: lines need no -l; quote an expression that has a dash: ' -len = 1'
print -U: packets are written before each read that waits
print --count: count the lines: | wc -l
print -C: see edit -r, which splits by ranges
print -G: see edit -A, -B, which split by time
print -Y: an expression is written after FILE, without -Y
compile -d: a listing has the form of tcpdump -ddd
compile -y: see --link
<COMMAND> -r: write capkit print FILE, without -r
<COMMAND> -n: write capkit print FILE; names are never looked up
<COMMAND> -w: write capkit print -w OUT FILE
<COMMAND> -i: capkit print - reads what tcpdump -i eth0 -U -w - writes
<COMMAND> -d: see capkit compile";

/// The hint for an option that a command doesn't know, of `HINTS`; `None` if it has none.
fn hint_for_option(command: &str, option: &str) -> Option<&'static str> {
    for line in HINTS.lines() {
        if let Some((words, hint)) = line.split_once(": ")
            && let Some((place, name)) = words.split_once(" ")
            && place == command
            && name == option
        {
            return Some(hint);
        }
    }
    None
}

/// The hint for a refusal of clap's with this text: the text shows the option and, in its usage,
/// the command, or `<COMMAND>` if the line names none. `None` if it isn't the refusal of an unknown
/// option, or the option has no hint.
pub(crate) fn hint_for_refusal(refusal: &str) -> Option<&'static str> {
    if let Some(text) = refusal.strip_prefix(UNKNOWN)
        && let Some((option, following)) = text.split_once("'")
        && let Some((_, usage)) = following.split_once(USAGE_OF)
        && let Some((usage, _)) = usage.split_once("\n")
    {
        let (command, _) = usage.split_once(" ").unwrap_or((usage, ""));
        let name = match option.as_bytes() {
            [b'-', b'0'..=b'9'] => NEGATIVE,
            _ => option,
        };
        return hint_for_option(command, name);
    }
    None
}

/// Adds to a text the list of the commands with what they do, as the help of the program has it. An
/// error means that memory ran out.
pub(crate) fn add_commands(text: &mut String) -> Result<(), AllocError> {
    text.push_str("\nCommands:\n")?;
    for row in commands() {
        writeln!(text, "  {:<7}  {}", row.name, row.about)?;
    }
    Ok(())
}
