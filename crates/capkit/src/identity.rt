//! Files as the system knows them, whatever their names.

use crate::overwrites::{STANDARD_INPUT, STANDARD_OUTPUT};
use std::fs::{self, File, Metadata};
use std::io;
use std::os::unix::fs::MetadataExt;

/// Identifies a file, whatever its name: its device, and its inode there.
#[derive(Clone, Copy, PartialEq, Eq, Drop)]
pub struct Identity {
    pub device: u64,
    pub inode: u64,
}

/// Where files are looked up: the system, or what a test has in its place.
pub trait Identify {
    /// The identity of the plain file that this path leads to, through links. `None` if no file
    /// can be looked up, of a directory, and of a terminal, a pipe or another device: these three
    /// can be read and written at once.
    fn identity_of(&self, path: &str) -> Option<Identity>;
}

/// What a path leads to.
#[derive(Clone, Copy)]
pub(crate) enum Found {
    /// A plain file, with its size in bytes.
    File(Identity, u64),
    /// A directory, a terminal, a pipe or another device.
    Other,
    /// Nothing that can be looked up.
    Nothing,
}

/// What the system showed of a path or an open file.
fn found_by(shown: io::Result<Metadata>) -> Found {
    let Ok(metadata) = shown else {
        return Found::Nothing;
    };
    if !metadata.is_file() {
        return Found::Other;
    }
    let identity = Identity {
        device: metadata.dev(),
        inode: metadata.ino(),
    };
    Found::File(identity, metadata.len())
}

/// What the system shows at this path, through links.
pub(crate) fn look_up(rt: &HostRuntime, path: &str) -> Found {
    found_by(fs::metadata(rt, path))
}

/// Whether the path leads to this open file, which is a plain one, through links.
pub(crate) fn leads_to(rt: &HostRuntime, path: &str, file: &File) -> bool {
    match (look_up(rt, path), found_by(file.metadata())) {
        (Found::File(there, _), Found::File(here, _)) => there == here,
        _ => false,
    }
}

/// Whether the path, and not what it links to, is this open file, and that is a plain one without
/// bytes.
pub(crate) fn is_empty_file(rt: &HostRuntime, path: &str, file: &File) -> bool {
    match (
        found_by(fs::symlink_metadata(rt, path)),
        found_by(file.metadata()),
    ) {
        (Found::File(there, _), Found::File(here, 0)) => there == here,
        _ => false,
    }
}

impl Identify for HostRuntime {
    /// By device and inode, as the system has them for the path; for a standard stream by `/proc`
    /// where `/dev` lacks it, as in a small container.
    fn identity_of(&self, path: &str) -> Option<Identity> {
        let found = match look_up(self, path) {
            Found::Nothing if path == STANDARD_INPUT => look_up(self, "/proc/self/fd/0"),
            Found::Nothing if path == STANDARD_OUTPUT => look_up(self, "/proc/self/fd/1"),
            found => found,
        };
        match found {
            Found::File(identity, _) => Some(identity),
            _ => None,
        }
    }
}
