//! The report of a file, as `infos` prints it.
//!
//! An error of these functions means that the device failed in the call, after a prefix of the text
//! that isn't the whole.
ghost use Rattle.std.specs.Prelude.{◌≡◌, ◌+◌, ◌==◌, [], ◌∷◌, IsTrue, codes, if◌then◌else◌};
ghost use Rattle.cap_octet.specs.Device.{AppendsOrStops, failures_of};
ghost use Rattle.cap_process.specs.Reports.{file_report, kind_name, lines, size_lines, time_lines};
ghost use Rattle.cap_process.specs.Reports.{yes_or_no};

use crate::tally::Tally;
use cap_io::Kind;
use cap_octet::date::{NANOS_PER_SECOND, nine_digits};
use cap_octet::{DeviceFault, Format, Output, date_bytes, write_parts};
use itoa::Buffer;

/// What is reported of a file.
#[derive(Clone, Copy)]
pub struct Report {
    /// Its format, by its first bytes; `None` if no unit was read, but then nothing is reported.
    pub kind: Option<Kind>,
    /// Its size in bytes.
    pub size: u64,
    pub tally: Tally,
}

/// Writes the report of the file of this name: a line for each property, then an empty line.
pub fn write_report<O: Output>(
    output: &mut O,
    name: &str,
    report: &Report,
) -> Result<(), DeviceFault>
    ensures exact { IsTrue O.tells → AppendsOrStops result (O.written output.old)
        (file_report name.now report.now.kind report.now.size report.now.tally)
        (O.written output.new) }
    ensures failed { O.failures output.new ≡ O.failures output.old + failures_of result }
    ensures room { O.room output.new ≡ O.room output.old }
{
    write_name(output, name)?;
    write_sizes(output, report)?;
    write_times(output, report.tally)
}

/// The format's name; empty if there is none, but an input without a format isn't reported.
fn kind_name(kind: Option<Kind>) -> &'static [u8]
    ensures { result.now ≡ kind_name kind }
{
    match kind {
        None => b"",
        Some(Kind::Pcap) => Format::Pcap.name().as_bytes(),
        Some(Kind::NsecPcap) => Format::NsecPcap.name().as_bytes(),
        Some(Kind::Pcapng) => Format::Pcapng.name().as_bytes(),
    }
}

/// Writes the line on a file's name, which begins its report.
fn write_name<O: Output>(output: &mut O, name: &str) -> Result<(), DeviceFault>
    ensures exact { IsTrue O.tells → AppendsOrStops result (O.written output.old)
        (lines ((codes "File", name.now) ∷ []) []) (O.written output.new) }
    ensures failed { O.failures output.new ≡ O.failures output.old + failures_of result }
    ensures room { O.room output.new ≡ O.room output.old }
{
    let parts: [&[u8]; 3] = [b"File: ", name.as_bytes(), b"\n"];
    write_parts(output, &parts)
}

/// Writes the lines on a file's format, its size and the sizes of its packets.
fn write_sizes<O: Output>(output: &mut O, report: &Report) -> Result<(), DeviceFault>
    ensures exact { IsTrue O.tells → AppendsOrStops result (O.written output.old)
        (lines (size_lines report.now.kind report.now.size report.now.tally) [])
        (O.written output.new) }
    ensures failed { O.failures output.new ≡ O.failures output.old + failures_of result }
    ensures room { O.room output.new ≡ O.room output.old }
{
    let tally = report.tally;
    let (mut count, mut size) = (Buffer::new(), Buffer::new());
    let (mut data, mut captured) = (Buffer::new(), Buffer::new());
    let parts: [&[u8]; 11] = [
        b"Type: ",
        kind_name(report.kind),
        b"\nPackets: ",
        count.format(tally.count).as_bytes(),
        b"\nFile size: ",
        size.format(report.size).as_bytes(),
        b"\nData size: ",
        data.format(tally.data_size).as_bytes(),
        b"\nCaptured size: ",
        captured.format(tally.captured_size).as_bytes(),
        b"\n",
    ];
    write_parts(output, &parts)
}

/// The date, or the word `none` if no packet was counted.
fn date_or_none(count: u128, date: &[u8]) -> &[u8]
    ensures { result.now ≡ (if count == 0 then codes "none" else date.now) }
{
    if count == 0 { b"none" } else { date }
}

/// The word `yes` or `no`, as a report prints it.
fn yes_or_no(yes: bool) -> &'static [u8]
    ensures { result.now ≡ yes_or_no yes }
{
    if yes { b"yes" } else { b"no" }
}

/// Writes the lines on the times of packets, with the duration in seconds and nine digits of a
/// fraction, and the empty line that ends the report.
fn write_times<O: Output>(output: &mut O, tally: Tally) -> Result<(), DeviceFault>
    ensures exact { IsTrue O.tells → AppendsOrStops result (O.written output.old)
        (lines (time_lines tally) (10 ∷ [])) (O.written output.new) }
    ensures failed { O.failures output.new ≡ O.failures output.old + failures_of result }
    ensures room { O.room output.new ≡ O.room output.old }
{
    let earliest = date_bytes(tally.least);
    let latest = date_bytes(tally.greatest);
    let duration = tally.greatest - tally.least;
    let nanos = nine_digits((duration % NANOS_PER_SECOND) as u32);
    let mut seconds = Buffer::new();
    let parts: [&[u8]; 11] = [
        b"Earliest: ",
        date_or_none(tally.count, &earliest),
        b"\nLatest: ",
        date_or_none(tally.count, &latest),
        b"\nDuration: ",
        seconds.format(duration / NANOS_PER_SECOND).as_bytes(),
        b".",
        &nanos,
        b"\nStrict order: ",
        yes_or_no(tally.ascends),
        b"\n\n",
    ];
    write_parts(output, &parts)
}
