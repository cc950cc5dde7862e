//! The file of an output that was missing: a run creates it, and removes it again if it writes
//! nothing to it.

use crate::identity::{is_empty_file, leads_to};
use std::fs::{self, File, OpenOptions};
use std::path::PathBuf;

/// How many links are followed at most, one after the other; as many as by the system.
const MOST_LINKS: usize = 40;

/// The path that the links from this one on lead to, whether that exists or not. `None` if there
/// are too many, or memory runs out.
fn end_of_links(rt: &HostRuntime, path: &str) -> Option<PathBuf> {
    let mut end = PathBuf::from_str(rt.alloc(), path).ok()?;
    for _ in 0..MOST_LINKS {
        let Ok(target) = fs::read_link(rt, end.as_str()) else {
            return Some(end);
        };
        end.pop();
        end.push(target.as_str()).ok()?;
    }
    None
}

/// Creates the file of this name for writing; if the name is a link to a missing file, that one.
/// `None` if the name leads to something, or it can't be created.
///
/// Only the system knows whether a file was missing, if it is asked to create no other.
pub(crate) fn create_missing(rt: &HostRuntime, name: &str) -> Option<File> {
    let mut how = OpenOptions::new();
    how.write(true).create_new(true);
    if let Ok(file) = how.open(rt, name) {
        return Some(file);
    }
    if !matches!(fs::exists(rt, name), Ok(false)) {
        return None;
    }
    let end = end_of_links(rt, name)?;
    let file = how.open(rt, end.as_str()).ok()?;
    // A link that the system doesn't follow, such as another user's in `/tmp`, isn't followed.
    if leads_to(rt, name, &file) {
        return Some(file);
    }
    remove_empty(rt, end.as_str(), &file);
    None
}

/// Removes this path if it is the open file, and that is empty. Whether it was removed.
fn remove_empty(rt: &HostRuntime, path: &str, file: &File) -> bool {
    is_empty_file(rt, path, file) && fs::remove_file(rt, path).is_ok()
}

/// Removes the open file, which was created by this name (`create_missing`), if it is empty and
/// the name still leads to it.
pub(crate) fn remove_created(rt: &HostRuntime, name: &str, file: &File) {
    // Only a link needs memory for its path.
    if !remove_empty(rt, name, file)
        && let Some(end) = end_of_links(rt, name)
    {
        remove_empty(rt, end.as_str(), file);
    }
}
