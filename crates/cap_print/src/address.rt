//! Addresses of the bytes of a packet, appended to a line.
ghost use Rattle.std.specs.Prelude.{◌≡◌, ◌+◌, ◌≤◌, ◌<◌, ◌++◌, length};
ghost use Rattle.cap_print.specs.Addresses.{ipv4_text, ipv6_text, mac_text, network_u16};

use crate::hexadecimal::{push_hex_group, push_hex_two};
use crate::text::Text;
use cap_octet::{Order, u16_at};

/// The number in the two bytes from place `at`, in network byte order: the high byte first.
#[inline]
pub fn network_u16(bytes: &[u8], at: usize) -> u16
    requires { at + 2 ≤ length bytes.now }
    ensures { result ≡ network_u16 bytes.now at }
{
    u16_at(Order::Big, bytes, at)
}

/// Appends the IPv4 address in the four bytes from place `at`, as `10.0.0.5`. It asks for 43 bytes
/// of room, three points and four times the ten digits that `push_decimal` asks for.
#[inline(always)]
#[tactic(auto, unfolding(crate::specs::Addresses::ipv4_text))]
pub fn push_ipv4(text: &mut Text, bytes: &[u8], at: usize)
    requires room { length text.old + 43 ≤ 256 }
    requires there { at + 4 ≤ length bytes.now }
    ensures value { text.new ≡ text.old ++ ipv4_text bytes.now at }
    ensures bound { length text.new ≤ length text.old + 43 }
{
    text.push_decimal(bytes[at] as u32);
    text.push(b'.');
    text.push_decimal(bytes[at + 1] as u32);
    text.push(b'.');
    text.push_decimal(bytes[at + 2] as u32);
    text.push(b'.');
    text.push_decimal(bytes[at + 3] as u32);
}

/// Appends the IPv6 address in the sixteen bytes from place `at`: all eight groups, never
/// shortened.
pub fn push_ipv6(text: &mut Text, bytes: &[u8], at: usize)
    requires room { length text.old + 39 ≤ 256 }
    requires there { at + 16 ≤ length bytes.now }
    ensures value { text.new ≡ text.old ++ ipv6_text bytes.now at }
    ensures bound { length text.new ≤ length text.old + 39 }
{
    push_hex_group(text, network_u16(bytes, at));
    for i in 0..7 {
        text.push(b':');
        push_hex_group(text, network_u16(bytes, at + 2 + 2 * i));
    }
}

/// Appends the Ethernet address in the six bytes from place `at`, as `02:00:5e:00:00:01`.
pub fn push_mac(text: &mut Text, bytes: &[u8], at: usize)
    requires room { length text.old + 17 ≤ 256 }
    requires there { at + 6 ≤ length bytes.now }
    ensures value { text.new ≡ text.old ++ mac_text bytes.now at }
    ensures bound { length text.new ≡ length text.old + 17 }
{
    push_hex_two(text, bytes[at]);
    for i in 0..5 {
        text.push(b':');
        push_hex_two(text, bytes[at + 1 + i]);
    }
}
