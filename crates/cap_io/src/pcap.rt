//! The units of a pcap file, read from a device.
ghost use Rattle.std.specs.Prelude.{◌≡◌, ◌+◌, ◌<◌, ◌≤◌, ◌++◌, false, true, IsTrue, IfOk, IfErr, []};
ghost use Rattle.std.specs.Prelude.{length};
ghost use Rattle.cap_pcapng.specs.Frame.{is_section};
ghost use Rattle.cap_io.specs.inside.Reading.{HeaderCame, Moves, ReadsUnit, NoUnitCame};
ghost use Rattle.cap_io.specs.Capture.{Nothing, PcapFile};
ghost use Rattle.cap_io.specs.declared.file_state.FileState.TheVariants as state;

use crate::file_state::NextUnit;
use crate::first_unit::{RECORD_HEADER_LENGTH, record_spans};
use crate::next_unit::UnitReader;
use crate::unit::{make_room, read_front, read_rest};
use cap_octet::{Fault, Input, u32_at};
use cap_pcap::{Head, read_head, read_magic, read_record};
use std::alloc::Allocator;

/// Reads the file header of pcap, whose first four bytes came already. If these aren't a magic
/// number, the error is `NotACaptureFile`, and no more is read. Otherwise it is `Truncated` or
/// `ReadFailed` if the header doesn't all come, or the first check that the header fails.
pub(crate) fn read_header<I: Input>(input: &mut I, first: &[u8; 4]) -> Result<Head, Fault>
    requires { is_section first.now ≡ false }
    ensures moves { Moves I.Input input.old input.new 4 (λ _. 24) 24 result }
    ensures ok { IfOk result (λ head. IsTrue I.tells → HeaderCame (first.now ++ I.unread input.old)
        head (I.unread input.new)) }
    ensures err { IfErr result (λ fault. IsTrue I.tells → NoUnitCame Nothing
        (first.now ++ I.unread input.old) (I.unread input.new) fault) }
    ensures memory { IfErr result (λ fault. fault ≡ Fault.NoMemory → ⊥) }
{
    if read_magic(first).is_none() {
        return Err(Fault::NotACaptureFile);
    }
    let mut bytes = [0; 24];
    read_rest(input, first, &mut bytes, 24)?;
    read_head(&bytes)
}

/// Whether the next record is wholly among these bytes, by its captured length.
// No more of its answer is stated: see `Source::has_next_at_hand`.
pub(crate) fn holds_record(head: &Head, bytes: &[u8]) -> bool
    ensures { result ≡ true → 12 ≤ length bytes.now }
{
    if bytes.len() < RECORD_HEADER_LENGTH {
        return false;
    }
    u32_at(head.order, bytes, 8) as usize <= bytes.len() - RECORD_HEADER_LENGTH
}

impl<I: Input, A: Allocator> UnitReader<I, A> {
    /// Reads the next record of a pcap file to the start of the buffer, or finds the clean end. The
    /// checks of its header are made before the buffer grows. A fault is that of the first check
    /// that it fails, `Truncated`, `ReadFailed` or `NoMemory`.
    pub(crate) fn next_record(&mut self, head: &Head) -> Result<NextUnit, Fault>
        requires { self.old.file ≡ state.Pcap head.now }
        ensures { ReadsUnit I.Input self.old [] result self.new }
    {
        let mut front = [0; RECORD_HEADER_LENGTH];
        if !read_front(&mut self.input, &mut front)? {
            return Ok(NextUnit::End);
        }
        let found = read_record(head, &front)?;
        let size = RECORD_HEADER_LENGTH + found.captured as usize;
        make_room(&mut self.buffer, size)?;
        read_rest(&mut self.input, &front, self.buffer.as_mut_slice(), size)?;
        self.spans = record_spans(&found);
        Ok(NextUnit::Packet)
    }
}
