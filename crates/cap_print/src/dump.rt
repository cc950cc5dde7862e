//! The bytes of a packet in hexadecimal, 16 per row, after `tcpdump -x`.
ghost use Rattle.std.specs.Prelude.{◌≡◌, ◌+◌, ◌*◌, ◌≤◌, ◌<◌, ◌++◌, length};
ghost use Rattle.cap_print.specs.Dump.{pairs, link_payload, row, row_count};

use crate::hexadecimal::{push_hex_place, push_hex_two};
use crate::text::Text;
use cap_octet::link_header_length;

/// How many bytes of a packet a row has, but the last one, which may have fewer.
const ROW_BYTES: usize = 16;

/// The captured bytes after the link header; none if they end inside it.
pub fn link_payload(link: u16, bytes: &[u8]) -> &[u8]
    ensures { result.now ≡ link_payload link bytes.now }
{
    let start = link_header_length(link).min(bytes.len());
    &bytes[start..]
}

/// How many rows `count` bytes have: 16 bytes each, the last one maybe fewer.
pub fn row_count(count: usize) -> usize
    ensures { result ≡ row_count count }
{
    count.div_ceil(ROW_BYTES)
}

/// Appends a blank and four digits for each two bytes, and a blank and two digits for a last single
/// byte: at most three bytes of text for each.
fn push_pairs(text: &mut Text, bytes: &[u8])
    requires { length text.old + 3 * length bytes.now ≤ 256 }
    ensures value { text.new ≡ text.old ++ pairs bytes.now }
    ensures bound { length text.new ≤ length text.old + 3 * length bytes.now }
{
    let mut at = 0;
    while at + 1 < bytes.len() {
        text.push(b' ');
        push_hex_two(text, bytes[at]);
        push_hex_two(text, bytes[at + 1]);
        at += 2;
    }
    if at < bytes.len() {
        text.push(b' ');
        push_hex_two(text, bytes[at]);
    }
}

/// Replaces the bytes of the buffer by a row of these bytes, the one after `index` others: a tab,
/// the place of its first byte as `0x0010:`, its bytes, and a line feed.
#[tactic(auto, unfolding(crate::specs::Dump::row))]
pub fn write_row(text: &mut Text, bytes: &[u8], index: usize)
    requires { 16 * index < length bytes.now }
    ensures { text.new ≡ row bytes.now index }
{
    let start = ROW_BYTES * index;
    let rest = &bytes[start..];
    let end = ROW_BYTES.min(rest.len());
    text.clear();
    text.push_all(b"\t0x");
    push_hex_place(text, start as u64);
    text.push(b':');
    push_pairs(text, &rest[..end]);
    text.push(b'\n');
}
