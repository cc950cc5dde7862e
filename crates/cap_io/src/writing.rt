//! Writes packets, file headers and section headers to a device, in each format.
ghost use Rattle.std.specs.Prelude.{◌≡◌, ◌++◌, None};
ghost use Rattle.cap_octet.specs.{Checks.checked, Checks.first_failing, Packet.captured};
ghost use Rattle.cap_pcap.specs.Encoding.{IsPcap, record_fit_checks, resolution_of};
ghost use Rattle.cap_pcapng.specs.Encoding.{block_fit_checks};
ghost use Rattle.cap_io.specs.Text.{record_text, checks_in, file_start_in};
ghost use Rattle.cap_io.specs.inside.Sink.{Appends, packet_block_text};
ghost use Rattle.cap_io.specs.declared.sink.SinkState.TheVariants as state;

use crate::numbering::{InterfaceNumber, OutputInterfaces};
use crate::sink::SinkState;
use cap_octet::{DeviceFault, Fault, Format, Output, Packet, write_parts};
use cap_pcap::{head_bytes, record_bytes};
use cap_pcapng::{section_bytes, write_interface, write_packet};
use std::alloc::Allocator;

/// Checks that a packet may be put to a sink in this state with these interfaces, or returns the
/// first check that it fails, in the order that `Sink::put` lists. Nothing is written.
pub(crate) fn check_packet<A: Allocator>(
    format: Format,
    state: SinkState,
    interfaces: &OutputInterfaces<A>,
    packet: &Packet<'_>,
) -> Result<(), Fault>
    ensures { result ≡ checked (first_failing (checks_in format state interfaces.now
        (captured packet.now))) tt }
{
    match format {
        Format::Pcap | Format::NsecPcap => {
            if let SinkState::Started(link) = state {
                if link != packet.link {
                    return Err(Fault::LinkTypesDiffer);
                }
            }
            cap_pcap::fits(format, packet)
        }
        Format::Pcapng => {
            cap_pcapng::check_block_fits(packet)?;
            if !interfaces.has_room(packet) {
                return Err(Fault::TooManyOutputInterfaces);
            }
            Ok(())
        }
    }
}

/// Writes the start of a file: a file header with this link type, or in pcapng a section header.
/// Out of line, since it runs once per file.
#[cold]
#[inline(never)]
fn begin_file<O: Output>(output: &mut O, format: Format, link: u16) -> Result<(), DeviceFault>
    ensures { Appends O.Output output.old (file_start_in format state.Empty link) result
        output.new }
{
    match format {
        Format::Pcap | Format::NsecPcap => write_parts(output, &[&head_bytes(format, link)]),
        Format::Pcapng => write_parts(output, &[&section_bytes()]),
    }
}

/// Writes what a file begins with (`begin_file`) if nothing was put yet; else nothing.
#[inline(always)]
pub(crate) fn write_file_start<O: Output>(
    output: &mut O,
    format: Format,
    state: SinkState,
    link: u16,
) -> Result<(), DeviceFault>
    ensures { Appends O.Output output.old (file_start_in format state link) result output.new }
{
    match state {
        // A broken sink writes nothing more, and doesn't call this.
        SinkState::Started(_) | SinkState::Broken(_) => Ok(()),
        SinkState::Empty => begin_file(output, format, link),
    }
}

/// Writes a packet as a record of a pcap format; if it is the first one, after the file header.
pub(crate) fn write_record<O: Output>(
    output: &mut O,
    format: Format,
    state: SinkState,
    packet: &Packet<'_>,
) -> Result<(), DeviceFault>
    requires form { IsPcap format }
    requires fits { first_failing (record_fit_checks (captured packet.now)) ≡ None }
    ensures { Appends O.Output output.old (file_start_in format state packet.now.link
        ++ record_text (resolution_of format) (captured packet.now)) result output.new }
{
    write_file_start(output, format, state, packet.link)?;
    write_parts(output, &[&record_bytes(format, packet), packet.bytes])
}

/// Writes a packet as a block of a pcapng file: if it is the first one, after the section
/// header, and if its interface is new, after the description of that.
pub(crate) fn write_block<O: Output>(
    output: &mut O,
    state: SinkState,
    interface: InterfaceNumber,
    packet: &Packet<'_>,
) -> Result<(), DeviceFault>
    requires { first_failing (block_fit_checks (captured packet.now)) ≡ None }
    ensures { Appends O.Output output.old (file_start_in Format.Pcapng state packet.now.link
        ++ packet_block_text interface (captured packet.now)) result output.new }
{
    write_file_start(output, Format::Pcapng, state, packet.link)?;
    if interface.is_new {
        write_interface(packet, output).map_err(|_| DeviceFault)?;
    }
    write_packet(interface.number, packet, output).map_err(|_| DeviceFault)
}
