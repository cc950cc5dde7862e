//! The next unit of a file of either format.
ghost use Rattle.std.specs.Prelude.{◌≡◌, ◌++◌, IsTrue, IfOk, IfErr, [], false, length, true};
ghost use Rattle.cap_io.specs.{Capture.Nothing, Reading.declared_by};
ghost use Rattle.cap_io.specs.inside.Reading.{IsConsistent, Moves, ReadsUnit, NoUnitCame};
ghost use Rattle.cap_io.specs.declared.file_state.FileState.TheVariants as state;

use crate::file_state::{FileState, NextUnit};
use crate::pcap::read_header;
use crate::pcapng::BLOCK_FRONT;
use crate::unit::read_rest;
use cap_octet::{Fault, Input, read_full};
use cap_pcapng::{PacketSpans, Table, begins_section};
use std::alloc::Allocator;

/// How many bytes the file header of pcap has.
pub(crate) const FILE_HEADER_LENGTH: usize = 24;

/// Reads the first four bytes of a file, which show its format; `NotACaptureFile` if it has
/// fewer, `ReadFailed` if the device failed.
fn read_first_bytes<I: Input>(input: &mut I) -> Result<[u8; 4], Fault>
    ensures moves { Moves I.Input input.old input.new 0 (λ _. 4) 4 result }
    ensures ok { IfOk result (λ first. IsTrue I.tells → I.unread input.old
        ≡ first ++ I.unread input.new) }
    ensures err { IfErr result (λ fault. IsTrue I.tells → NoUnitCame Nothing (I.unread input.old)
        (I.unread input.new) fault) }
    ensures memory { IfErr result (λ fault. fault ≡ Fault.NoMemory → ⊥) }
{
    let mut first = [0; 4];
    let Ok(count) = read_full(input, &mut first) else {
        return Err(Fault::ReadFailed);
    };
    if count < 4 {
        return Err(Fault::NotACaptureFile);
    }
    Ok(first)
}

/// Reads the units of a file, one at a time, through one buffer.
#[derive(Drop)]
pub(crate) struct UnitReader<I: Input, A: Allocator> {
    pub(crate) input: I,
    /// What the units read so far determine for the next ones, besides the interfaces of a section.
    pub(crate) file: FileState,
    /// Begins with the current unit (the file header of pcap isn't held); the bytes after the unit
    /// have no meaning.
    pub(crate) buffer: Vec<u8, A>,
    /// The interfaces of the current section.
    pub(crate) table: Table<A>,
    /// The place where the packet of the current unit lies, if it has one.
    pub(crate) spans: PacketSpans,
}

impl<I: Input, A: Allocator> UnitReader<I, A> {
    /// Reads the first unit of a file: a section header, or the file header of pcap. A fault is
    /// that of the first check that it fails, as `NotACaptureFile` if the file begins with
    /// neither; `Truncated`, `ReadFailed` or `NoMemory`.
    fn read_first_unit(&mut self) -> Result<NextUnit, Fault>
        requires unknown { self.old.file ≡ state.Unknown }
        requires empty { self.old.table ≡ [] }
        ensures { ReadsUnit I.Input self.old [] result self.new }
    {
        let first = read_first_bytes(&mut self.input)?;
        if !begins_section(&first) {
            self.file = FileState::Pcap(read_header(&mut self.input, &first)?);
            return Ok(NextUnit::Other(FILE_HEADER_LENGTH));
        }
        let mut front = [0; BLOCK_FRONT];
        read_rest(&mut self.input, &first, &mut front, BLOCK_FRONT)?;
        self.read_block(&front)
    }

    /// Reads the next unit, or finds the clean end. A unit with a packet is then at the start of
    /// the buffer. A fault doesn't change the table or the state of the file.
    pub(crate) fn next_unit(&mut self) -> Result<NextUnit, Fault>
        requires { IsConsistent self.old.file self.old.table }
        ensures { ReadsUnit I.Input self.old [] result self.new }
    {
        match self.file {
            FileState::Unknown => self.read_first_unit(),
            FileState::Pcap(head) => self.next_record(&head),
            FileState::Pcapng(_, _) => self.next_block(),
        }
    }
}
