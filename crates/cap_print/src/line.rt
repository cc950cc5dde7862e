//! The line of a packet, as docs/LINES.md has it, and what it says of the link header.
//!
//! A clause that asks for room in the text, or bounds what is appended, counts the most bytes that
//! may be appended, and may have some to spare: an Ethernet address has 17, the name of a link at
//! most 8, a number at most ten digits.
ghost use Rattle.std.specs.Prelude.{◌≡◌, ◌+◌, ◌≤◌, ◌<◌, ◌++◌, IfSome, length};
ghost use Rattle.cap_octet.specs.{Link.network_offset, Packet.captured};
ghost use Rattle.cap_print.specs.Line.{link_header, line, link_part, link_text};

use crate::address::{network_u16, push_mac};
use crate::network::{push_name_and_number, push_network_part, push_type};
use crate::text::Text;
use cap_octet::{Link, Packet};

/// Appends the link part before the EtherType: for Ethernet the source's address, in
/// the header's bytes 6 to 11, and the destination's, in its bytes 0 to 5; for another link its
/// name. The header is captured.
#[tactic(auto, unfolding(crate::specs::Line::link_text))]
fn push_link_text(text: &mut Text, link: Link, bytes: &[u8])
    requires room { length text.old + 37 ≤ 256 }
    requires within { network_offset link ≤ length bytes.now }
    ensures value { text.new ≡ text.old ++ link_text link bytes.now }
    ensures bound { length text.new ≤ length text.old + 37 }
{
    match link {
        Link::Ether => {
            push_mac(text, bytes, 6);
            text.push_all(b" > ");
            push_mac(text, bytes, 0);
        }
        _ => text.push_all(link.name().as_bytes()),
    }
}

/// Appends what a line says of the header of a link that is known, with its EtherType at
/// `type_offset`: only the link's name if that is `None`, since the link has no EtherType, and
/// `[short]` after the name if the header isn't all captured.
#[tactic(auto, unfolding(crate::specs::Line::link_header))]
fn push_link_header(text: &mut Text, link: Link, type_offset: Option<usize>, bytes: &[u8])
    requires room { length text.old + 60 ≤ 256 }
    requires within { IfSome type_offset (λ at. at + 2 ≤ network_offset link) }
    ensures value { text.new ≡ text.old ++ link_header link type_offset bytes.now }
    ensures bound { length text.new ≤ length text.old + 60 }
{
    match type_offset {
        None => {
            text.push_all(link.name().as_bytes());
            text.push_all(b", ");
        }
        Some(_) if bytes.len() < link.header_length() => {
            text.push_all(link.name().as_bytes());
            text.push_all(b" [short], ");
        }
        Some(at) => {
            push_link_text(text, link, bytes);
            text.push_all(b", ");
            push_type(text, network_u16(bytes, at));
            text.push_all(b", ");
        }
    }
}

/// Appends what a line says of the link header of a packet with this link type; for one that isn't
/// known only its number, as `link 147, `.
#[tactic(auto, unfolding(crate::specs::Line::link_part))]
fn push_link_part(text: &mut Text, link: u16, bytes: &[u8])
    requires { length text.old + 60 ≤ 256 }
    ensures value { text.new ≡ text.old ++ link_part link bytes.now }
    ensures bound { length text.new ≤ length text.old + 60 }
{
    match Link::of_link_type(link) {
        Some(link) => push_link_header(text, link, link.type_offset(), bytes),
        None => {
            push_name_and_number(text, b"link ", link as u32);
            text.push_all(b", ");
        }
    }
}

/// Replaces the bytes of the buffer by the line of a packet, which ends with a line feed and has at
/// most 250 bytes. `with_link` adds what is said of the link header.
#[tactic(auto, unfolding(crate::specs::Line::line))]
pub fn write_line(text: &mut Text, with_link: bool, packet: &Packet<'_>)
    ensures value { text.new ≡ line with_link (captured packet.now) }
    ensures bound { length text.new ≤ 250 }
{
    text.clear();
    text.push_date(packet.time);
    text.push(b' ');
    if with_link {
        push_link_part(text, packet.link, packet.bytes);
    }
    push_network_part(text, packet.link, packet.bytes);
    push_name_and_number(text, b", length ", packet.orig);
    text.push(b'\n');
}
