//! What the numbers of the header are called.

use super::are_all;
use crate::texts::{capkit_text, capkit_version};

/// By its number, from 0: what capkit_compile and capkit_bound return.
const STATUSES: [&str; 18] = [
    "",
    "longer than 65536 bytes",
    "unknown character",
    "unknown word",
    "number too large",
    "not an expression",
    "nested too deep",
    "qualifiers do not fit",
    "value out of range",
    "bits set past the mask",
    "division by zero",
    "more than 16 words",
    "program too long",
    "no memory",
    "not UTF-8",
    "link type not filtered",
    "no room for the program",
    "not a listing",
];

/// By its number less 100: what capkit_check returns.
const RULES: [&str; 9] = [
    "",
    "empty",
    "too long",
    "unknown code",
    "jump out",
    "no such word",
    "division by zero",
    "shift too far",
    "no return at the end",
];

/// By its number less 200: what capkit_next and the writing calls return. None returns 215
/// to 220; callers show 218 of a pcap file.
const FOUND: [&str; 29] = [
    "",
    "not a capture file",
    "truncated",
    "bad version",
    "too long",
    "bad block length",
    "bad byte-order magic",
    "unknown interface",
    "bad option",
    "bad body",
    "time out of range",
    "too many interfaces",
    "bad time resolution",
    "bad link type field",
    "obsolete packet block",
    "",
    "",
    "",
    "link types differ",
    "",
    "",
    "too many output interfaces",
    "end",
    "no packet",
    "no room for the interface",
    "no room in the buffer",
    "another link type",
    "a unit before the packet",
    "skipped",
];

/// Whether a number is named like this in a buffer of 32 bytes, filled with `~`, with a NUL after.
fn is_named(number: u32, name: &str) -> bool {
    let mut buffer = [b'~'; 32];
    let length = capkit_text(number, &mut buffer);
    let end = name.len().min(31);
    let is_kept = are_all(&buffer[end + 1..], b'~');
    length == name.len() && is_kept && buffer[end] == 0 && &buffer[..end] == &name.as_bytes()[..end]
}

#[test]
fn numbers_have_names(rt: HostRuntime) {
    for (base, names) in [(0, &STATUSES[..]), (100, &RULES[..]), (200, &FOUND[..])] {
        for number in 0..30u32 {
            let name = names.get(number as usize).copied().unwrap_or("");
            assert!(rt; is_named(base + number, name), "number {base} + {number}");
        }
    }
    let mut short = [b'~'; 4];
    assert!(rt; capkit_text(101, &mut short) == 5 && short == *b"emp\0");
    assert!(rt; capkit_text(101, &mut short[..0]) == 5 && short == *b"emp\0");
    assert!(rt; capkit_version() == 0x100);
}
