//! The line of progress.

use super::folder::{CAPTURE, LISTING, enter, leave};
use super::streams::Streams;
use crate::words::{line_of, words_of};
use cap_tools::run_command;
use capkit::Line;
use capkit::progress::{Progress, can_write_over, is_in_foreground, progress_start, total_size};
use std::fs;
use std::io::IsTerminal;
use std::test::Fail;
use std::time::Instant;

/// The bytes of a MiB.
const MIB: usize = 1_048_576;

/// Reads of a job, in order: whether the size of all inputs is known, the bytes that are read, by
/// which second, and the line that is shown then.
type Read = (bool, usize, u64, &'static str);

const READS: [Read; 7] = [
    (true, 10 * MIB, 1, ""),
    (true, 90 * MIB, 2, "\r\x1b[K50% read, 50 MiB/s"),
    (true, 20 * MIB, 2, ""),
    (true, 0, 3, "\r\x1b[K60% read, 40 MiB/s"),
    (true, 79 * MIB, 4, "\r\x1b[K99% read, 49 MiB/s"),
    (true, 200 * MIB, 10, "\r\x1b[K100% read, 39 MiB/s"),
    (false, 7 * MIB, 3, "\r\x1b[K7 MiB read, 2 MiB/s"),
];

/// The line is shown from second 2 on, once a second, and erased in place.
#[test]
fn progress_is_shown_once_a_second(rt: HostRuntime) {
    let known = Progress::since(&rt, None, 209_715_200);
    let unknown = Progress::since(&rt, None, 0);
    for (is_known, bytes, seconds, line) in READS {
        let progress = if is_known { &known } else { &unknown };
        let streams = Streams::new(rt.alloc(), None);
        progress.count_at(&streams, bytes, seconds);
        assert!(rt; streams.have("", line), "{line}");
        let streams = Streams::new(rt.alloc(), None);
        progress.erase(&streams);
        let erasure = if line.is_empty() { "" } else { "\r\x1b[K" };
        assert!(rt; streams.have("", erasure), "{line}");
    }
}

/// Inputs, and the size of all of them.
const SIZES: [(&str, u64); 4] = [
    ("in code", CAPTURE.len() as u64 + LISTING.len() as u64),
    ("in -", 0),
    ("in /dev/null", 0),
    ("none in", 0),
];

/// Whether standard error is a terminal, its name, and whether a line can be written over on it.
const TERMINALS: [(bool, Option<&str>, bool); 4] = [
    (true, Some("xterm"), true),
    (true, None, true),
    (true, Some("dumb"), false),
    (false, Some("xterm"), false),
];

/// What the system shows of a process, and whether that is in the foreground of its terminal.
const STATUSES: [(&str, bool); 8] = [
    ("7 (capkit) R 6 7 6 34816 7 4194304 96", true),
    ("7 (capkit) R 6 7 6 34816 6 4194304 96", false),
    ("7 (capkit) R 6 7 6 0 -1 4194304 96", false),
    ("7 (a) b) R 6 7 6 34816 7 0", true),
    ("7 () R 1 2 3 4 2 (a) R 6 7 6 34816 9 0", false),
    ("7 (capkit) R 6 7 6 34816", true),
    ("7 (capkit", true),
    ("", true),
];

/// A process is in the foreground if its group has the terminal, whatever its name is.
#[test]
fn the_foreground_is_known(rt: HostRuntime) {
    for (status, wanted) in STATUSES {
        assert!(rt; is_in_foreground(status) == wanted, "{status}");
    }
}

/// Progress is shown on a terminal that can be written over, if the output is a file, be it a
/// new one. The size of all inputs is known if they are plain files.
#[test]
fn progress_is_of_plain_files(rt: HostRuntime) -> Result<(), Fail> {
    enter(&rt, "progress")?;
    for (inputs, size) in SIZES {
        let names = words_of(rt.alloc(), inputs)?;
        assert!(rt; total_size(&rt, names.as_slice()) == size, "{inputs}");
        let start = Progress::new(&rt, names.as_slice(), "new").start;
        assert!(rt; start.is_none() || rt.stderr().is_terminal(), "{inputs}");
    }
    for (output, wanted) in [
        ("-", false),
        ("/dev/null", false),
        ("/none", true),
        ("in", true),
    ] {
        let start = progress_start(&rt, output, true);
        assert!(rt; start.is_some() == wanted, "{output}");
        assert!(rt; progress_start(&rt, output, false).is_none(), "{output}");
    }
    for (is_terminal, name, wanted) in TERMINALS {
        assert!(rt; can_write_over(is_terminal, name) == wanted, "{name:?}");
    }
    Ok(leave(&rt)?)
}

/// A run counts what it reads, of more than twice the bytes that are read at once, writes out what
/// is waited for before it reads on, and erases the line that stands. What can't be written ends it
/// there.
#[test]
fn runs_count_up_to_failed_writes(rt: HostRuntime) -> Result<(), Fail> {
    enter(&rt, "counted")?;
    let mut bytes = Vec::from_slice(rt.alloc(), &CAPTURE[..24])?;
    for _ in 0..5000 {
        bytes.extend_from_slice(&CAPTURE[24..54])?;
    }
    fs::write(&rt, "long", &bytes)?;
    let words = "merge -a -F pcap -w - long /dev/null";
    let Line {
        command,
        inputs,
        output: _,
        code: _,
    } = line_of(rt.alloc(), words)?;
    let progress = Progress::since(&rt, Instant::now(&rt).ok(), 655_360);
    let streams = Streams::new(rt.alloc(), None);
    progress.count_at(&streams, 0, 2);
    assert!(rt; streams.have("", "\r\x1b[K0% read, 0 MiB/s"));
    assert!(rt; run_command(&rt, command, inputs, "/dev/full", &progress) == 1);
    let streams = Streams::new(rt.alloc(), None);
    progress.erase(&streams);
    assert!(rt; streams.have("", ""));
    progress.count_at(&streams, 0, 3);
    assert!(rt; streams.have("", "\r\x1b[K10% read, 0 MiB/s"));
    Ok(leave(&rt)?)
}
