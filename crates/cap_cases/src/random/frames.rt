//! Packets with usual headers that are made at random; one in three is cut.

use crate::random::choices::Random;
use crate::random::rules::make_text;
use std::alloc::{AllocError, Global};

/// The most bytes of a packet.
const MOST_BYTES: usize = 128;

/// The rules that make headers (`make_text`), in hexadecimal digits; `..` is any byte. Most of the
/// addresses, protocols and ports are in random expressions too. `ip_any` has other header lengths.
const RULES: &str = "\
ether: {stations} {typed}
cooked: {word} {word} {word} .. .. {typed}
raw: {ip}; {ip}; {ip}; {ip6}; {ip6}; {arp}; {arp}; {arp}
typed: 08 00 {ip}; 08 00 {ip}; 08 00 {ip}; 86 dd {ip6}; 86 dd {ip6}; 08 06 {arp}; 80 35 {arp}; \
    12 34 {arp}
stations: ff ff ff ff ff ff {word} .. ..; 02 00 00 00 00 01 02 00 00 00 00 02; \
    {word} {word} {word}; {word} {word} {word}
ip: {ip_20}; {ip_20}; {ip_20}; {ip_any}
ip_20: 45 {ip_head} {address} {address} {ports}
ip_any: 43 {ip_head} {ports}; 44 {ip_head} {address} {ports}; \
    46 {ip_head} {address} {address} {word} {ports}; \
    4f {ip_head} {address} {address} {any} {any} {word} {word} {ports}; \
    4{digit} {ip_head} {address} {address} {ports}
digit: 0; 1; 2; 3; 4; 5; 6; 7; 8; 9; a; b; c; d; e; f
ip_head: .. .. .. .. .. {fragment} 00 .. {protocol} .. ..
fragment: 00; 00; 00; 00; 00; 00; 00; {digit}{digit}
protocol: 01; 06; 06; 11; 11; 3a; 63
address: 0a 00 00 01; 0a 00 00 02; c0 a8 01 07; e0 00 00 fb; {word}
ports: {port} {port}
port: 00 35; 00 50; 01 bb; 1f 90; ff ff
ip6: 60 {word} .. {protocol} .. {source} {group} {ports}
source: 20 01 0d b8 {word} {word} {word}; {any}
group: ff 02 .. .. {word} {word} {word}; {any}; {any}
arp: {word} {word} {word} .. .. {address} {word} .. .. {address}
any: {word} {word} {word} {word}
word: .. .. .. ..
";

/// A packet with the usual headers of a link type, whole or cut anywhere.
pub fn make_frame(alloc: Global, random: &mut Random, link: u64) -> Result<Vec<u8>, AllocError> {
    let headers = match link {
        1 => "ether",
        113 => "cooked",
        _ => "raw",
    };
    let headers = make_text(alloc, random, RULES, headers)?;
    let mut frame = vec![in alloc; 0u8; MOST_BYTES]?;
    random.fill(&mut frame);
    for (byte, digits) in frame.iter_mut().zip(headers.split_ascii_whitespace()) {
        if let Ok(value) = u8::from_str_radix(digits, 16) {
            *byte = value;
        }
    }
    if random.one_in(3) {
        frame.truncate(random.place(MOST_BYTES));
    }
    Ok(frame)
}
