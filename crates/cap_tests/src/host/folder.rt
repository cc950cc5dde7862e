//! A folder of a test's own.

use std::{env, fs, io, process};

/// A capture of two packets, of link types IPv4 and ARP, 14 bytes each.
pub const CAPTURE: [u8; 84] = [
    0xd4, 0xc3, 0xb2, 0xa1, 2, 0, 4, 0, 0, 0, 0, 0, 0, 0, 0, 0, 0, 0, 4, 0, 1, 0, 0, 0, 1, 0, 0, 0,
    0, 0, 0, 0, 14, 0, 0, 0, 14, 0, 0, 0, 0, 0, 0, 0, 0, 0, 0, 0, 0, 0, 0, 0, 8, 0, 2, 0, 0, 0, 0,
    0, 0, 0, 14, 0, 0, 0, 14, 0, 0, 0, 0, 0, 0, 0, 0, 0, 0, 0, 0, 0, 0, 0, 8, 6,
];

/// A program that passes IPv4 on Ethernet.
pub const LISTING: &str = "4\n40 0 0 12\n21 0 1 2048\n6 0 0 262144\n6 0 0 0\n";

/// Goes into a new folder of the test of this name, with the capture `in` and the listing `code`.
/// Each test has a process of its own.
pub fn enter(rt: &HostRuntime, test: &str) -> io::Result<()> {
    let id = process::id(rt.process());
    let above = env::temp_dir(rt)?;
    let folder = format!(in rt.alloc(); "{}/capkit_{test}_{id}", above.as_str())?;
    let _ = fs::remove_dir_all(rt, &folder);
    fs::create_dir_all(rt, &folder)?;
    env::set_current_dir(rt, folder.as_str())?;
    fs::write(rt, "in", &CAPTURE)?;
    fs::write(rt, "code", LISTING.as_bytes())
}

/// Removes the folder.
pub fn leave(rt: &HostRuntime) -> io::Result<()> {
    let folder = env::current_dir(rt)?;
    fs::remove_dir_all(rt, folder.as_str())
}
