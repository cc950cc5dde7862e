//! Instructions and packets as lines. A text is put into a buffer as far as there is room before a
//! NUL, and the length that is returned is that of the whole text (`put_text`).
ghost use Rattle.std.specs.Prelude.{◌≡◌, ◌≤◌, length};
ghost use Rattle.flt_trace.specs.Text.{insn_text};
ghost use Rattle.capkit_c.specs.{Printing.packet_line, Texts.put_text};

use crate::compiling::file_link_type;
use crate::texts::put_text;
use cap_octet::Packet;
use cap_octet::date::TIME_END;
use cap_print::{Text, write_line};
use flt_bpf::Insn;
use flt_trace::insn_text;

/// Puts an instruction, at an index of a program, into a buffer as `tcpdump -d` prints it, and
/// gives the length of its text, at most 80 bytes.
#[unsafe(no_mangle)]
pub extern "C" fn capkit_insn_text(insn: &Insn, index: u32, buffer: &mut [u8]) -> usize
    ensures count { result ≡ length (insn_text insn.now index) }
    ensures bound { result ≤ 80 }
    ensures put { buffer.new ≡ put_text (insn_text insn.now index) buffer.old }
{
    put_text(insn_text(insn, index).as_slice(), buffer)
}

/// Puts the line of a packet into a buffer, with its line feed, as `capkit print` prints it, or
/// `capkit print -e` if `with_link` isn't 0. `time` is in nanoseconds since 1970, and `original` is
/// the packet's length on the wire in bytes. It returns the length of the line, at most 250 bytes,
/// or 0 if the time is 2^63 or more.
#[unsafe(no_mangle)]
pub extern "C" fn capkit_line(
    link_type: u16,
    time: u64,
    original: u32,
    packet: &[u8],
    with_link: u32,
    buffer: &mut [u8],
) -> usize
    ensures count { result
        ≡ length (packet_line with_link link_type time original packet.now) }
    ensures bound { result ≤ 250 }
    ensures put { buffer.new
        ≡ put_text (packet_line with_link link_type time original packet.now) buffer.old }
{
    if time >= TIME_END {
        return put_text(&[], buffer);
    }
    // A line shows nothing of snap length, name and comment.
    let packet = Packet {
        link: file_link_type(link_type),
        snap: 0,
        name: &[],
        time,
        orig: original,
        bytes: packet,
        comment: &[],
    };
    let mut text = Text::new();
    write_line(&mut text, with_link != 0, &packet);
    put_text(text.as_slice(), buffer)
}
