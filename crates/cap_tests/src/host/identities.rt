//! Files that are known again under other names.

use super::folder::{CAPTURE, enter, leave};
use crate::words::{line_of, words_of};
use capkit::Usage;
use capkit::identity::{Identify, Identity};
use capkit::overwrites::overwrites_input;
use capkit::waiting::may_wait;
use capkit::words::line_of_words;
use std::fs;
use std::os::unix::fs::symlink;
use std::test::Fail;

/// Words, and whether their output is a file that they read too.
const FOLDER: [(&str, bool); 16] = [
    ("edit in ./in", true),
    ("edit in link", true),
    ("edit in second", true),
    ("edit in other", false),
    ("edit in new", false),
    ("merge -w ./in code in", true),
    ("merge -w link code in", true),
    ("merge -w second code in", true),
    ("merge -w other code in", false),
    ("merge -w new code in", false),
    ("print --code in -w ./in code", true),
    ("print --code in -w link code", true),
    ("print --code in -w second code", true),
    ("print --code in -w other code", false),
    ("print --code in -w new code", false),
    // Standard input isn't the file of that name.
    ("edit - ./-", false),
];

/// A file is known again through a path that goes round, a link and a second name; others and new
/// ones aren't inputs. Words that read their output are refused.
#[test]
fn one_file_under_two_names_is_known(rt: HostRuntime) -> Result<(), Fail> {
    enter(&rt, "known")?;
    symlink(&rt, "in", "link")?;
    fs::hard_link(&rt, "in", "second")?;
    fs::write(&rt, "other", &CAPTURE)?;
    fs::write(&rt, "-", &CAPTURE)?;
    for (words, wanted) in FOLDER {
        let line = line_of(rt.alloc(), words)?;
        assert!(rt; overwrites_input(&rt, &line) == wanted, "{words}");
        let line = line_of_words(&rt, words_of(rt.alloc(), words)?);
        let is_refused = matches!(line, Err(Usage::NameUsedTwice));
        assert!(rt; is_refused == wanted, "{words}");
    }
    Ok(leave(&rt)?)
}

/// A machine on which these two paths lead to one file, and no other path leads anywhere.
#[derive(Drop)]
struct OneFile(&'static str, &'static str);

impl Identify for OneFile {
    fn identity_of(&self, path: &str) -> Option<Identity> {
        if path != self.0 && path != self.1 {
            return None;
        }
        Some(Identity {
            device: 0,
            inode: 0,
        })
    }
}

/// Words, and whether their output is a file that they read too where standard output is `in`.
const REDIRECTED: [(&str, bool); 6] = [
    ("edit in -", true),
    ("edit in out", false),
    ("infos other in", true),
    ("infos other", false),
    ("print --code in other", true),
    ("compile", false),
];

/// The file that standard output is redirected to is looked for among the inputs and the listing,
/// and that of standard input among the outputs.
#[test]
fn standard_output_may_be_an_input(rt: HostRuntime) -> Result<(), Fail> {
    for (words, wanted) in REDIRECTED {
        let line = line_of(rt.alloc(), words)?;
        let files = OneFile("/dev/stdout", "in");
        assert!(rt; overwrites_input(&files, &line) == wanted, "{words}");
    }
    let line = line_of(rt.alloc(), "edit - out")?;
    assert!(rt; overwrites_input(&OneFile("/dev/stdin", "out"), &line));
    Ok(())
}

/// Inputs, and whether a read of some of them may wait.
const WAITED: [(&str, bool); 6] = [
    ("in code", false),
    ("in /dev/null", true),
    ("/dev/null in", true),
    ("none", true),
    ("in", false),
    ("", false),
];

/// Inputs that aren't plain files may be waited for: devices, and what isn't there. Standard input
/// goes by the file that it is.
#[test]
fn devices_are_waited_for(rt: HostRuntime) -> Result<(), Fail> {
    enter(&rt, "waited")?;
    assert!(rt; rt.identity_of("in").is_some() && rt.identity_of(".").is_none());
    for (inputs, wanted) in WAITED {
        let names = words_of(rt.alloc(), inputs)?;
        assert!(rt; may_wait(&rt, names.as_slice()) == wanted, "{inputs}");
    }
    for (file, wanted) in [("/dev/stdin", false), ("/dev/stdout", true), ("-", true)] {
        let names = words_of(rt.alloc(), "-")?;
        assert!(rt;
            may_wait(&OneFile(file, ""), names.as_slice()) == wanted,
            "{file}"
        );
    }
    Ok(leave(&rt)?)
}

/// Files of two file systems are two, whatever their numbers there: one of the other's device with
/// the inode of the first would be a third.
#[test]
fn file_systems_are_told_apart(rt: HostRuntime) -> Result<(), Fail> {
    enter(&rt, "systems")?;
    let file = rt.identity_of("in").ok_or("no plain file")?;
    let other = rt.identity_of("/proc/version").ok_or("no plain file")?;
    let Identity { device, .. } = other;
    let inode = file.inode;
    assert!(rt; file.device != device && file != Identity { device, inode });
    Ok(leave(&rt)?)
}
