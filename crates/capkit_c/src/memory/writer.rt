//! The units of a pcapng file that is written, one for each call: its section header, the
//! descriptions of its interfaces, and the blocks of its packets. What is written so far is the
//! caller's, in C's layout.
ghost use Rattle.std.specs.Prelude.{◌≡◌, ◌≤◌, ◌<◌, ◌==◌, ◌&&◌, not, nat_lt, None, map, length};
ghost use Rattle.cap_octet.specs.{Packet.captured, Checks.first_failing};
ghost use Rattle.cap_io.specs.Text.{interface_of, number_among};
ghost use Rattle.capkit_c.specs.Writer.{output_interface, put_checks, interfaces_in, most_written};
ghost use Rattle.capkit_c.specs.{Buffers.WriteLeaves, inside.Writer.HasAdded};
ghost use Rattle.capkit_c.specs.Writer.{room_for, Puts, IsWhole};
ghost use Rattle.cap_pcapng.specs.Encoding.{interface_text, section_text};

use crate::memory::layout::{Interface, Writer};
use crate::memory::writing::{Written, put_interface, put_packet, write_section};
use cap_io::MOST_OUTPUT_INTERFACES;
use cap_octet::{Fault, Packet};

/// The result of a put: what became of a unit, and whether it is the block of the packet. Otherwise
/// it comes before that.
#[derive(Clone, Copy)]
pub struct Put {
    pub written: Written,
    pub is_packet: bool,
}

/// The index in a table of the interface of a packet; the length of the table if it isn't there.
fn number_of(table: &[Interface], packet: &Packet<'_>) -> usize
    ensures { result ≡ number_among (map output_interface table.now)
        (interface_of (captured packet.now)) }
{
    let mut at = 0;
    // The label names the loop in its proof.
    'table: while at < table.len() {
        if table[at].is_of(packet) {
            return at;
        }
        at += 1;
    }
    at
}

/// Why a packet isn't put, by the first check that it fails; `None` if it fails none. `has_room` is
/// whether its interface is among those that the file may have.
fn refusal_of(packet: &Packet<'_>, has_room: bool) -> Option<Fault>
    ensures { result ≡ first_failing (put_checks has_room (captured packet.now)) }
{
    match cap_pcapng::check_block_fits(packet) {
        Err(fault) => Some(fault),
        Ok(()) => {
            if has_room {
                None
            } else {
                Some(Fault::TooManyOutputInterfaces)
            }
        }
    }
}

/// Writes the section header. `known` is the number of interfaces that are written.
fn put_section(writer: &mut Writer, known: usize, buffer: &mut [u8]) -> Written
    requires { known ≤ 4096 }
    ensures leaves { WriteLeaves None section_text buffer.old buffer.new result }
    ensures begun { IsWhole result → writer.new ≡ record { interfaces = known; has_section = 1 } }
    ensures kept { (IsWhole result → ⊥) → writer.new ≡ writer.old }
{
    let written = write_section(buffer);
    if let Written::Whole(_) = written {
        *writer = Writer {
            interfaces: known as u32,
            has_section: 1,
        };
    }
    written
}

/// Writes the description of a packet's interface, which becomes the one at `known` in the table.
fn put_new_interface(
    writer: &mut Writer,
    table: &mut [Interface],
    known: usize,
    packet: &Packet<'_>,
    buffer: &mut [u8],
) -> Written
    requires bounds { (known < length table.old) × (known < 4096) }
    requires name { length packet.now.name.now ≤ 255 }
    ensures leaves { WriteLeaves None
        (interface_text packet.now.link packet.now.snap packet.now.name.now) buffer.old buffer.new
        result }
    ensures added { IsWhole result
        → HasAdded known (captured packet.now) writer.old table.old writer.new table.new }
    ensures kept { (IsWhole result → ⊥) → (writer.new ≡ writer.old) × (table.new ≡ table.old) }
{
    let written = put_interface(packet, buffer);
    if let Written::Whole(_) = written {
        table[known] = Interface::of_packet(packet);
        writer.interfaces = known as u32 + 1;
    }
    written
}

/// The place of the interface of a packet among those that are written.
#[derive(Clone, Copy)]
struct Place {
    /// How many are written.
    known: usize,
    /// The index of that of the packet; `known` if it isn't among them.
    number: usize,
    /// How many the file may have.
    room: usize,
}

/// The place of the interface of a packet among those that are written.
fn place_of(writer: &Writer, table: &[Interface], packet: &Packet<'_>) -> Place
    ensures known { result.known ≡ length (interfaces_in writer.now table.now) }
    ensures written { result.known ≡ most_written writer.now (length table.now) }
    ensures number { result.number
        ≡ number_among (interfaces_in writer.now table.now) (interface_of (captured packet.now)) }
    ensures room { result.room ≡ room_for (length table.now) }
    ensures bounds { (result.known ≤ result.room) × (result.room ≤ length table.now) }
    ensures most { result.room ≤ 4096 }
{
    let room = table.len().min(MOST_OUTPUT_INTERFACES);
    let known = (writer.interfaces as usize).min(room);
    let number = number_of(&table[..known], packet);
    Place {
        known,
        number,
        room,
    }
}

/// Whether only the block of the packet is left to write.
fn is_block_next(writer: &Writer, place: &Place) -> bool
    ensures { result
        ≡ (not (writer.now.has_section == 0) && nat_lt place.now.number place.now.known) }
{
    writer.has_section != 0 && place.number < place.known
}

/// Writes the next unit of a file to which a packet is put: the section header, or the description
/// of the packet's interface, or the packet's block. Nothing is written, and `writer` and `table`
/// stay the same, if the packet is refused or the buffer has no room for the unit.
pub fn put_next(
    writer: &mut Writer,
    table: &mut [Interface],
    packet: &Packet<'_>,
    buffer: &mut [u8],
) -> Put
    ensures { Puts writer.old table.old (captured packet.now) buffer.old buffer.new result
        writer.new table.new }
{
    let place = place_of(writer, table, packet);
    let is_packet = is_block_next(writer, &place);
    if let Some(fault) = refusal_of(packet, place.number < place.room) {
        let written = Written::Refused(fault);
        return Put { written, is_packet };
    }
    let written = if writer.has_section == 0 {
        put_section(writer, place.known, buffer)
    } else if place.number < place.known {
        put_packet(place.number as u32, packet, buffer)
    } else {
        put_new_interface(writer, table, place.known, packet, buffer)
    };
    Put { written, is_packet }
}
