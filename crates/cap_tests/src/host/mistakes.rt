//! A run that ends before it writes anything doesn't change its output, and creates none.

use super::folder::{CAPTURE, enter, leave};
use crate::captures::capture_of;
use crate::words::{field, line_of};
use cap_tools::run_line;
use capkit::opening::create_output;
use std::os::unix::fs::symlink;
use std::test::Fail;
use std::{fs, io};

/// The words of a line, the parts of its input `wrong` (`capture_of`), and the line's status.
const MISTAKES: &str = "\
edit wrong out | - | 1
edit / out | - | 1
edit wrong out | pcap-2.3 1 | 1
edit wrong out | pcap cut | 1
edit -A 9 wrong out | pcap 1 2 cut | 1
edit --later 4294967295 -F pcap in out | - | 1
merge -w out wrong in | - | 1
merge -w out in / | - | 1
merge -w out in wrong | pcap cut | 1
merge -a -w out wrong in | pcap-2.3 | 1
print -w out wrong | - | 1
print -w out / | - | 1
print --code code -w out wrong | pcap cut | 1
print -w out wrong port 80 | pcap 1 cut | 1
print -w out wrong ip | pcap-276 1 | 1
print -w out in port | - | 2
print --code in -w out in | - | 2
print --code wrong -w out in | - | 2";

/// What is at the name `out` before a run.
#[derive(Clone, Copy, Debug)]
enum Before {
    Nothing,
    NoBytes,
    Capture,
    /// A link to the capture `kept`.
    Link,
    /// Links to the name `kept` in the folder above, at which there is nothing.
    LinkToNothing,
    /// A second name of the capture `kept`.
    HardLink,
}

const OUTPUTS: [Before; 6] = [
    Before::Nothing,
    Before::NoBytes,
    Before::Capture,
    Before::Link,
    Before::LinkToNothing,
    Before::HardLink,
];

/// Makes what is at the name `out` before a run.
fn make(rt: &HostRuntime, before: Before) -> io::Result<()> {
    for name in ["out", "kept", "folder/link"] {
        let _ = fs::remove_file(rt, name);
    }
    match before {
        Before::Nothing => Ok(()),
        Before::NoBytes => fs::write(rt, "out", b""),
        Before::Capture => fs::write(rt, "out", &CAPTURE),
        Before::Link => {
            fs::write(rt, "kept", &CAPTURE)?;
            symlink(rt, "kept", "out")
        }
        Before::LinkToNothing => {
            symlink(rt, "folder/link", "out")?;
            symlink(rt, "../kept", "folder/link")
        }
        Before::HardLink => {
            fs::write(rt, "kept", &CAPTURE)?;
            fs::hard_link(rt, "kept", "out")
        }
    }
}

/// Whether a path is a link, and the bytes that it leads to; None if there is nothing.
type Found = Option<(bool, Vec<u8>)>;

/// What is at a path.
fn found_at(rt: &HostRuntime, path: &str) -> Found {
    let metadata = fs::symlink_metadata(rt, path).ok()?;
    let bytes = fs::read(rt, path).unwrap_or(Vec::new(rt.alloc()));
    Some((metadata.is_symlink(), bytes))
}

/// Whether a run of these words has this status, and all names are as they were before it.
fn keeps(rt: &HostRuntime, words: &str, status: u8, before: Before) -> Result<bool, Fail> {
    make(rt, before)?;
    let (out, kept) = (found_at(rt, "out"), found_at(rt, "kept"));
    let ended = run_line(rt, line_of(rt.alloc(), words)?);
    Ok(ended == status && found_at(rt, "out") == out && found_at(rt, "kept") == kept)
}

/// After each mistake of each command, each output is as it was: what it held, that it is a link,
/// and that it isn't there. A run without a mistake writes each of them.
#[test]
fn mistakes_keep_outputs(rt: HostRuntime) -> Result<(), Fail> {
    enter(&rt, "mistakes")?;
    fs::create_dir_all(&rt, "folder")?;
    for row in MISTAKES.lines() {
        let (words, rest) = field(row);
        let (parts, status) = field(rest);
        fs::write(&rt, "wrong", &capture_of(rt.alloc(), parts)?)?;
        let status = status.parse::<u8>()?;
        for before in OUTPUTS {
            assert!(rt; keeps(&rt, words, status, before)?, "{row}, {before:?}");
        }
    }
    for before in OUTPUTS {
        make(&rt, before)?;
        assert!(rt; run_line(&rt, line_of(rt.alloc(), "edit -F pcap in out 2")?) == 0);
        let written = fs::read(&rt, "out")?;
        assert!(rt; CAPTURE.get(..54) == Some(written.as_slice()), "{before:?}");
    }
    Ok(leave(&rt)?)
}

/// What others do with a file that a run created, while it runs, and what is at its name then.
const OTHERS: [(&str, Option<&[u8]>); 5] = [
    ("nothing", None),
    ("remove it", None),
    ("write to it", Some(b"theirs")),
    ("replace it", Some(b"")),
    ("link to it", None),
];

/// Does this with the file `out`.
fn act(rt: &HostRuntime, what: &str) -> io::Result<()> {
    match what {
        "remove it" => fs::remove_file(rt, "out"),
        "write to it" => fs::write(rt, "out", b"theirs"),
        "replace it" => {
            fs::rename(rt, "out", "before")?;
            fs::write(rt, "out", b"")
        }
        "link to it" => fs::hard_link(rt, "out", "second"),
        _ => Ok(()),
    }
}

/// An output that nothing is written to is removed if it was created, and holds nothing of others
/// and has its name yet.
#[test]
fn others_files_are_kept(rt: HostRuntime) -> Result<(), Fail> {
    enter(&rt, "others")?;
    for (what, wanted) in OTHERS {
        {
            let _created = create_output(&rt, "out").ok().ok_or("not created")?;
            assert!(rt; fs::exists(&rt, "out")?);
            act(&rt, what)?;
        }
        let held = fs::read(&rt, "out").ok();
        assert!(rt; held.as_deref() == wanted, "{what}");
        let _ = fs::remove_file(&rt, "out");
    }
    assert!(rt; fs::exists(&rt, "before")? && fs::exists(&rt, "second")?);
    Ok(leave(&rt)?)
}
