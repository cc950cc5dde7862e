//! What is reported to a user, and how.

use super::streams::{Streams, Written};
use crate::words::{field, words_of};
use capkit::ending::tell_end;
use capkit::message::{Shown, ShownBytes, refusal_text};
use capkit::refusal::{refuse, tell_refusal};
use capkit::stop::{Stop, report_stop};
use capkit::words::with_help_option;
use capkit::{Usage, command_of};
use std::alloc::Global;
use std::fmt::Display;
use std::io::ErrorKind;
use std::test::Fail;

const FULL: Option<ErrorKind> = Some(ErrorKind::StorageFull);

const CLOSED: Option<ErrorKind> = Some(ErrorKind::BrokenPipe);

/// What a run shows of a name with a control character.
const TOLD: &str = "capkit: a\\x1b: truncated\n";

/// The end of a run: why a write failed and why the write of what was buffered did (`None` if it
/// didn't), its status, and what is reported.
type Ending = (
    (Option<ErrorKind>, Option<ErrorKind>),
    Option<u8>,
    &'static str,
);

const ENDINGS: [Ending; 6] = [
    ((None, None), Some(0), TOLD),
    ((FULL, None), Some(1), TOLD),
    ((FULL, CLOSED), Some(1), ""),
    ((CLOSED, None), Some(1), ""),
    ((None, CLOSED), Some(1), TOLD),
    ((None, FULL), None, TOLD),
];

/// The message of a run is written by one call, unless its reader went away, with control
/// characters shown as numbers. A failed write is never a success.
#[test]
fn messages_of_runs_are_told(rt: HostRuntime) {
    for (causes, status, told) in ENDINGS {
        let mut errors = Written::new(rt.alloc());
        let message = b"capkit: a\x1b: truncated\n";
        let ended = tell_end(rt.alloc(), &mut errors, 0, causes, message, "out").ok();
        assert!(rt;
            ended == status && errors.bytes.as_slice() == told.as_bytes(),
            "{status:?}"
        );
        assert!(rt; errors.calls == usize::from(!told.is_empty()), "{status:?}");
    }
}

/// Whether a value is shown as this text.
fn is_shown_as(alloc: Global, value: impl Display + Drop, wanted: &str) -> bool {
    matches!(format!(in alloc; "{value}"), Ok(shown) if shown.as_str() == wanted)
}

/// Texts, and how they are shown.
const SHOWN: [(&str, &str); 5] = [
    ("caf\u{e9} 1.pcap", "caf\u{e9} 1.pcap"),
    ("a\nb\x1b[31m", "a\\x0ab\\x1b[31m"),
    ("\x7f\u{9b}", "\\x7f\\x9b"),
    ("a\u{202e}b\u{2066}\u{61c}", "a\\u{202e}b\\u{2066}\\u{61c}"),
    ("\u{2027}\u{202f}\u{200d}", "\u{2027}\u{202f}\u{200d}"),
];

/// What a terminal would obey is shown by its number.
#[test]
fn control_characters_are_shown(rt: HostRuntime) {
    for (text, wanted) in SHOWN {
        assert!(rt; is_shown_as(rt.alloc(), Shown { text }, wanted), "{wanted}");
    }
}

/// Bytes, and how they are shown.
const SHOWN_BYTES: [(&[u8], &str); 5] = [
    (b"caf\xe9", "caf\\xe9"),
    (b"caf\xc3\xa9 1", "caf\u{e9} 1"),
    (b"\xe2\x82a\xff", "\\xe2\\x82a\\xff"),
    (b"\x1b[31m\xe9\n", "\\x1b[31m\\xe9\\x0a"),
    (b"", ""),
];

/// Bytes that aren't UTF-8 are shown by their numbers too.
#[test]
fn bytes_of_no_text_are_shown(rt: HostRuntime) {
    for (bytes, wanted) in SHOWN_BYTES {
        assert!(rt;
            is_shown_as(rt.alloc(), ShownBytes { bytes }, wanted),
            "{wanted}"
        );
    }
}

/// Why the words aren't a line.
fn usage_of(alloc: Global, words: &str) -> Result<Usage, Fail> {
    match command_of(alloc, words_of(alloc, words)?) {
        Ok(_) => Err(Fail::from("a line")),
        Err(usage) => Ok(usage),
    }
}

/// The text of clap's refusal of the words, which is reported by one call.
fn refusal_of(alloc: Global, words: &str) -> Result<String, Fail> {
    let Usage::Refused(error) = usage_of(alloc, words)? else {
        return Err(Fail::from("not refused by clap"));
    };
    let streams = (Streams::new(alloc, None), alloc);
    tell_refusal(&streams, &error);
    let text = refusal_text(alloc, &error)?;
    if !streams.0.have("", &text) || !streams.0.have_calls(1) {
        return Err(Fail::from("not reported"));
    }
    Ok(text)
}

/// Only advice that can be followed is shown.
#[test]
fn advice_that_fails_is_left_out(rt: HostRuntime) -> Result<(), Fail> {
    for (words, has_tip) in [
        ("print -K in", false),
        ("edit --latter 5 in out", true),
        ("merge -t in", false),
    ] {
        let text = refusal_of(rt.alloc(), words)?;
        assert!(rt;
            text.starts_with("error: ") && text.contains("tip: ") == has_tip,
            "{words}"
        );
    }
    Ok(())
}

/// Words of other tools, the option of them that clap doesn't know, and what does the same here.
const HABITS: &str = "\
edit -t 3600 in out | -t | see --later, --earlier
edit in out -t3600 | -t | see --later, --earlier
edit -C 14 in out | -C | see --chop-start, --chop-end
edit --chop 3 in out | --chop | see --chop-start, --chop-end
edit -c 100 in out | -c | split by -r and ranges: 1-100, 101-200
edit -d in out | -d | see -D 5
edit --novlan -D 5 in out | --novlan | -D compares whole packets, with their VLAN tags
edit --later -5 in out | -5 | for --later -5 write --earlier 5; a range is 1-5
print -r in | -r | the file is named without -r
print -nr in | -n | names are never looked up
print in -len = 1 | -l | lines need no -l; quote an expression that has a dash: ' -len = 1'
print -X in | -X | see -x, which prints bytes without characters
print -w out -F pcap in | -F | see --format; for words in a file \"$(cat FILE)\"
edit --format pcap in out | --format | see -F
merge --format pcap -w out in | --format | see -F
print --count in | --count | count the lines: | wc -l
infos -T in | -T | reports have one form; awk makes a table of them
compile -ddd tcp | -d | a listing has the form of tcpdump -ddd";

/// The beginning of what is reported if no command is named.
const NO_COMMAND: &str = "error: 'capkit' requires a subcommand but one was not provided

Commands:
  edit     Select and change packets, and remove duplicates
  merge    Merge captures into one, by time
  infos    Report packet counts, sizes, times and order
  print    Print or write the packets that match an expression or a listing
  compile  Compile an expression, and write the listing of its program

Usage: capkit <COMMAND>
";

/// Habits of other tools get a hint at what does the same here and no other tip, and a line without
/// a command a list of them.
#[test]
fn habits_are_hinted_at(rt: HostRuntime) -> Result<(), Fail> {
    for row in HABITS.lines() {
        let (words, rest) = field(row);
        let (option, hint) = field(rest);
        let (command, _) = words.split_once(" ").unwrap_or((words, ""));
        let wanted = format!(in rt.alloc();
            "error: unexpected argument '{option}' found\n\n  tip: {hint}\n\n\
             Usage: capkit {command} "
        )?;
        let text = refusal_of(rt.alloc(), words)?;
        let rest = text.strip_prefix(wanted.as_str()).ok_or("another text")?;
        assert!(rt; !rest.contains("tip: "), "{words}");
    }
    let text = refusal_of(rt.alloc(), "--")?;
    let rest = text.strip_prefix(NO_COMMAND).ok_or("another text")?;
    assert!(rt; !rest.contains("tip: "));
    Ok(())
}

/// How standard output fails, if it does, the status of a request for the version, and what is
/// written to standard error.
const ANSWERS: [(Option<ErrorKind>, u8, &str); 3] = [
    (None, 0, ""),
    (FULL, 1, "capkit: -: write failed\n"),
    (CLOSED, 1, ""),
];

/// What a user asks for goes to standard output, and all else to standard error, each message by
/// one call. An answer that can't be written is a fault, which is reported unless its reader
/// went away.
#[test]
fn faults_and_answers_are_told(rt: HostRuntime) -> Result<(), Fail> {
    for (failure, status, errors) in ANSWERS {
        let usage = usage_of(rt.alloc(), "--version")?;
        let text = format!(in rt.alloc(); "{usage}")?;
        let streams = (Streams::new(rt.alloc(), failure), rt.alloc());
        assert!(rt; refuse(&streams, usage) == status, "{status} {errors}");
        let output = if failure.is_none() { text.as_str() } else { "" };
        assert!(rt; streams.0.have(output, errors), "{status} {errors}");
    }
    let streams = (Streams::new(rt.alloc(), None), rt.alloc());
    assert!(rt; refuse(&streams, Usage::BadRange) == 2 && refuse(&streams, Usage::Memory) == 1);
    assert!(rt; report_stop(&streams, Stop::CannotOpen("in")) == 1);
    let errors = "capkit: usage: bad range\ncapkit: no memory\ncapkit: in: cannot open\n";
    assert!(rt; streams.0.have("", errors) && streams.0.have_calls(3));
    Ok(())
}

/// Words as they are typed, and as they are read.
const HELP: [(&str, &str); 4] = [
    ("help", "--help"),
    ("help edit", "edit --help"),
    ("infos help", "infos help"),
    ("", ""),
];

/// `help` is read as `--help` of the command that follows it, and of the program if none does.
#[test]
fn help_is_an_option(rt: HostRuntime) -> Result<(), Fail> {
    for (words, wanted) in HELP {
        let read = with_help_option(rt.alloc(), words_of(rt.alloc(), words)?)?;
        assert!(rt; read == words_of(rt.alloc(), wanted)?, "{words}");
    }
    Ok(())
}
