//! What is printed of a packet: its line, and the rows of its bytes.
ghost use Rattle.std.specs.Prelude.{◌≡◌, ◌+◌, IsTrue};
ghost use Rattle.cap_octet.specs.{Device.AppendsOrStops, Device.failures_of, Packet.captured};
ghost use Rattle.cap_print.specs.{Dump.rows, Rendering.printed_text};

use crate::dump::{link_payload, row_count, write_row};
use crate::line::write_line;
use crate::text::Text;
use cap_octet::{DeviceFault, Output, Packet, write_all};

/// What is printed in addition to the network part (tcpdump(1)).
#[derive(Clone, Copy)]
pub struct Options {
    /// The link header (`-e`).
    pub link: bool,
    /// The captured bytes after the link header, in hexadecimal (`-x`).
    pub bytes: bool,
}

/// Writes the line of a packet, and the rows of its bytes if they are asked for, by one
/// `write_all` each. `text` is the buffer in which line and rows are made. An error is a failure of
/// the device in this call, after a prefix of what is printed that isn't the whole.
pub fn print_packet<O: Output>(
    text: &mut Text,
    options: Options,
    packet: &Packet<'_>,
    output: &mut O,
) -> Result<(), DeviceFault>
    ensures exact { IsTrue O.tells
        → AppendsOrStops result (O.written output.old) (printed_text options (captured packet.now))
        (O.written output.new) }
    ensures failed { O.failures output.new ≡ O.failures output.old + failures_of result }
    ensures room { O.room output.new ≡ O.room output.old }
{
    write_line(text, options.link, packet);
    let Ok(()) = write_all(output, text.as_slice()) else {
        return Err(DeviceFault);
    };
    if options.bytes {
        return write_rows(text, link_payload(packet.link, packet.bytes), output);
    }
    Ok(())
}

/// Writes the rows of these bytes, one `write_all` each. An error is a failure of the device in
/// this call, after a prefix of the rows that isn't the whole.
fn write_rows<O: Output>(text: &mut Text, bytes: &[u8], output: &mut O) -> Result<(), DeviceFault>
    ensures exact { IsTrue O.tells
        → AppendsOrStops result (O.written output.old) (rows bytes.now) (O.written output.new) }
    ensures failed { O.failures output.new ≡ O.failures output.old + failures_of result }
    ensures room { O.room output.new ≡ O.room output.old }
{
    let count = row_count(bytes.len());
    for index in 0..count {
        write_row(text, bytes, index);
        let Ok(()) = write_all(output, text.as_slice()) else {
            return Err(DeviceFault);
        };
    }
    Ok(())
}
