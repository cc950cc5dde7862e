//! Runs over files: what is opened, read, created and left alone.

use super::folder::{CAPTURE, enter, leave};
use crate::captures::{HEADER, push_record};
use crate::words::{line_of, words_of};
use cap_tools::run_line;
use capkit::opening::{create_output, open_inputs, read_listing};
use capkit::progress::Progress;
use std::fs;
use std::test::Fail;

/// A run: its words, whether the capture is in `out` before, its status, and how many of the first
/// bytes of `in` are in `out` after it; None if no `out` is present.
type Run = (&'static str, bool, u8, Option<usize>);

const RUNS: [Run; 17] = [
    // The first packet is kept, by its number and by the listing. What is before a fault is
    // written.
    ("edit -F pcap in out 2", false, 0, Some(54)),
    (
        "print --code code -w out --format pcap in",
        true,
        0,
        Some(54),
    ),
    ("merge -a -F pcap -w out in code", false, 1, Some(84)),
    // What can't be opened ends the run before the output is created, and before an expression is
    // read.
    ("print -w out none port", false, 1, None),
    ("print --code none -w out in", false, 1, None),
    ("print --code / -w out in", false, 1, None),
    ("edit none out", false, 1, None),
    // An output in a folder that isn't there can't be created. One that takes nothing is a fault,
    // though the job reaches its end.
    ("edit in none/out", false, 1, None),
    ("print -w out in port", false, 2, None),
    ("edit in /dev/null", false, 0, None),
    ("edit in /dev/full", false, 1, None),
    // A refused expression or listing, or another mistake, keeps an existing output. After a run
    // that writes only what it wrote is present.
    ("print -w out in port", true, 2, Some(84)),
    ("print --code in -w out in", true, 2, Some(84)),
    ("print --code /dev/null -w out in", true, 2, Some(84)),
    ("print -w out code", true, 1, Some(84)),
    ("print -w out none", true, 1, Some(84)),
    ("print -w out --format pcap -c 1 in", true, 0, Some(54)),
];

/// Whether a run is as the row says.
fn is_run(rt: &HostRuntime, (words, is_there, status, written): Run) -> Result<bool, Fail> {
    if is_there {
        fs::write(rt, "out", &CAPTURE)?;
    } else {
        let _ = fs::remove_file(rt, "out");
    }
    let ended = run_line(rt, line_of(rt.alloc(), words)?);
    let Some(count) = written else {
        return Ok(ended == status && !fs::exists(rt, "out")?);
    };
    let (input, output) = (fs::read(rt, "in")?, fs::read(rt, "out")?);
    Ok(ended == status && input.get(..count) == Some(output.as_slice()))
}

#[test]
fn runs_leave_files_as_they_say(rt: HostRuntime) -> Result<(), Fail> {
    enter(&rt, "runs")?;
    for row in RUNS {
        assert!(rt; is_run(&rt, row)?, "{} (out: {})", row.0, row.1);
    }
    Ok(leave(&rt)?)
}

/// The size of the long capture: past 1 MiB, so that it takes many calls of the reader and the
/// writer.
const LONG: usize = 24 + 5 * (16 + 262_144);

/// More than 1 MiB goes through the readers and writers of std unchanged: five packets, each as
/// long as a record may be. For a listing one byte more than it may have is read.
#[test]
fn long_files_are_copied(rt: HostRuntime) -> Result<(), Fail> {
    enter(&rt, "long")?;
    let mut bytes = Vec::from_slice(rt.alloc(), HEADER)?;
    for packet in 0u8..5 {
        push_record(&mut bytes, packet, &vec![in rt.alloc(); packet; 262_144]?)?;
    }
    fs::write(&rt, "in", &bytes)?;
    let listing = read_listing(&rt, "in").unwrap_or(Vec::new(rt.alloc()));
    assert!(rt; bytes.len() == LONG && bytes.get(..1_048_577) == Some(listing.as_slice()));
    assert!(rt; is_run(&rt, ("edit -F pcap in out", false, 0, Some(LONG)))?);
    Ok(leave(&rt)?)
}

/// With as many inputs as may be, the output is the file that the line names: a merge of 256 files
/// ends by the second one, which isn't a capture, with the packets of the first in the output.
#[test]
fn runs_of_256_files_write_their_output(rt: HostRuntime) -> Result<(), Fail> {
    enter(&rt, "many")?;
    let mut words = String::from_str(rt.alloc(), "merge -a -F pcap -w out in")?;
    for _ in 0..255 {
        words.push_str(" code")?;
    }
    assert!(rt; run_line(&rt, line_of(rt.alloc(), &words)?) == 1);
    assert!(rt; fs::read(&rt, "out")?.as_slice() == CAPTURE.as_slice());
    Ok(leave(&rt)?)
}

/// The name that can't be opened or created is in front of why.
#[test]
fn stops_have_their_texts(rt: HostRuntime) -> Result<(), Fail> {
    let names = words_of(rt.alloc(), "/dev/null none/none")?;
    let progress = Progress::since(&rt, None, 0);
    for (stop, text) in [
        (
            read_listing(&rt, "none/none").err(),
            "none/none: cannot open",
        ),
        (
            create_output(&rt, "none/none").err(),
            "none/none: cannot create",
        ),
        (
            open_inputs(&rt, names.as_slice(), &progress).err(),
            "none/none: cannot open",
        ),
    ] {
        let stop = stop.ok_or("no stop")?;
        assert!(rt; format!(in rt.alloc(); "{stop}")?.as_str() == text);
    }
    Ok(())
}
