//! Packets of a capture, one at a time.
ghost use Rattle.std.specs.Prelude.{◌≡◌, false, true};
ghost use Rattle.cap_io.specs.Reading.{declared_by};
ghost use Rattle.cap_io.specs.inside.Reading.{IsConsistent, UnitLent};

use crate::file_state::{FileState, NextUnit};
use crate::first_unit::{block_in, record_in};
use crate::lending::Lending;
use crate::next_unit::UnitReader;
use crate::pcap::holds_record;
use crate::pcapng::holds_packet;
use cap_octet::{Fault, Input, Packet};
use cap_pcap::Resolution;
use cap_pcapng::{BlockEffect, PacketSpans, Table};
use std::alloc::Allocator;
use std::marker::Model;

/// What a capture is, by its first bytes.
#[derive(Clone, Copy)]
pub enum Kind {
    /// A pcap savefile with microseconds.
    Pcap,
    /// A pcap savefile with nanoseconds.
    NsecPcap,
    /// A pcapng file.
    Pcapng,
}

/// How far a source is.
#[derive(Clone, Copy)]
pub(crate) enum Stage {
    /// No unit is current, and the next one was not read yet.
    Between,
    /// A packet is current, and its unit is at the start of the buffer.
    Current,
    /// A packet is current, and its unit is lent: the first of the bytes that the device has at
    /// hand.
    Lent,
    /// The clean end was met.
    Ended,
    /// An `advance` returned this fault.
    Failed(Fault),
}

/// Reads the packets of a capture from a device. A unit with a packet stays in the device's buffer,
/// if that has all of it; other units are read into one buffer. For pcapng there is also the table
/// of a section's interfaces.
#[derive(Drop)]
pub struct Source<I: Input, A: Allocator> {
    reader: UnitReader<Lending<I>, A>,
    stage: Stage,
    /// The beginning of the current unit, else of the next one, in bytes from the file's start.
    offset: u64,
}

impl<I: Input, A: Allocator> Model for Source<I, A> {
    ghost use Rattle.cap_io.specs.{Source.SourceView, Source.view_of, inside.Source.IsSound};

    ghost Value = { SourceView };

    ghost view = { λ s. view_of I.Input s.stage s.reader s.offset };

    ghost invariant = { λ s. IsSound I.Input s.stage s.reader s.offset };
}

impl<I: Input, A: Allocator> Source<I, A> {
    ghost use Rattle.std.specs.Prelude.{◌≡◌, ◌+◌, ◌≤◌, IsTrue, OnOk, OnErr, IfErr, [], false};
    ghost use Rattle.std.specs.{Prelude.length, Prelude.true, Option.IfSome, Option.option_map};
    ghost use Rattle.cap_octet.specs.Packet.{captured};
    ghost use Rattle.cap_io.specs.Source.{Reading, Advances, KeepsBounds, SectionFits, Steps};
    ghost use Rattle.cap_io.specs.inside.Source.{Continues, FindsNext, IsBetween, NextBounds};
    ghost use Rattle.cap_io.specs.{Reading.most_in_unit, Capture.kind_of, Capture.first_link_of};
    ghost use Rattle.cap_io.specs.inside.Source.{past_unit, TakesNext};
    ghost use Rattle.cap_io.specs.Source.{TakesIfAtHand, phase_after, source_at};

    /// A source of which nothing is read yet. It takes no memory.
    pub fn new(alloc: A, input: I) -> Self
    where
        A: Copy,
        ensures { result ≡ source_at (I.unread input) (I.given input) (I.failures input)
            (I.sure input) }
    {
        Source {
            reader: UnitReader {
                input: Lending::new(input),
                file: FileState::Unknown,
                buffer: Vec::new(alloc),
                table: Table::new(alloc),
                spans: PacketSpans::of_no_packet(),
            },
            stage: Stage::Between,
            offset: 0,
        }
    }

    /// Reads on to the next packet, which `head` lends; `false` at the clean end, then and ever
    /// after. A fault is that of the first check which the unit at `offset` fails; `ReadFailed`
    /// if the device failed in this call; `NoMemory` if the buffer or the table of interfaces
    /// could not grow. After a fault it returns that again, and reads nothing.
    pub fn advance(&mut self) -> Result<bool, Fault>
        ensures packets { IsTrue I.tells → Advances self.old.phase self.old result self.new }
        ensures bounds { Steps self.old.phase self.old result self.new }
        ensures phase { self.new.phase ≡ phase_after result }
        ensures interfaces { SectionFits self.new.declared }
    {
        match self.stage {
            Stage::Ended => Ok(false),
            Stage::Failed(fault) => Err(fault),
            Stage::Between | Stage::Current | Stage::Lent => {
                let answer = self.advance_to_packet();
                if let Err(fault) = answer {
                    self.stage = Stage::Failed(fault);
                }
                answer
            }
        }
    }

    /// Goes on to the next packet, as `advance` does, if it follows a current packet that is lent,
    /// and the device has it at hand too. `false` if not: then nothing changes.
    #[inline(always)]
    pub fn take_at_hand(&mut self) -> bool
        ensures takes { TakesIfAtHand I.tells self.old result self.new }
        ensures interfaces { SectionFits self.new.declared }
    {
        match self.stage {
            Stage::Lent => self.take_next(),
            Stage::Between | Stage::Current | Stage::Ended | Stage::Failed(_) => false,
        }
    }

    /// Whether the device has all bytes up to the end of the next packet at hand, so that `advance`
    /// makes it read nothing. `false` if they don't show that, as before the first unit.
    // The clause states no more than that something comes: a job only asks whether to release its
    // output before a read that may wait.
    pub fn has_next_at_hand(&self) -> bool
        ensures comes { IsTrue I.tells → result ≡ true → 12 ≤ length self.now.unread }
    {
        let hand = self.reader.input.next_bytes();
        match &self.reader.file {
            FileState::Unknown => false,
            FileState::Pcap(head) => holds_record(head, hand),
            FileState::Pcapng(order, _) => holds_packet(*order, hand),
        }
    }

    /// The current packet, lent from the buffer or from the device's bytes at hand, with its
    /// comment; `None` before the first `advance`, at the clean end and after a fault.
    pub fn head(&self) -> Option<Packet<'_>>
        ensures packet { option_map captured result ≡ self.now.packet }
        ensures short { IfSome result (λ packet. length packet.bytes.now ≤ most_in_unit) }
    {
        let reader = &self.reader;
        let unit = if let Stage::Lent = self.stage {
            reader.input.lent_bytes()
        } else if let Stage::Current = self.stage {
            reader.buffer.as_slice()
        } else {
            return None;
        };
        reader.file.packet(&reader.spans, unit, &reader.table)
    }

    /// The time of the current packet, in nanoseconds since 1970-01-01 00:00:00 UTC; `None` if
    /// there is none. It costs less than `head`, whose packet isn't made.
    pub fn time(&self) -> Option<u64>
        ensures { result ≡ option_map (λ p. p.time) self.now.packet }
    {
        match self.stage {
            Stage::Current | Stage::Lent => Some(self.reader.spans.time),
            Stage::Between | Stage::Ended | Stage::Failed(_) => None,
        }
    }

    /// The beginning of the current unit, in bytes from the start of the file, and 0 before the
    /// first `advance`; after a fault, the beginning of its unit; at a clean end, the number of
    /// bytes.
    pub fn offset(&self) -> u64
        ensures { result ≡ self.now.offset }
    {
        self.offset
    }

    /// What the capture is; `None` until its first unit was read.
    pub fn kind(&self) -> Option<Kind>
        ensures { result ≡ kind_of self.now.declared }
    {
        match self.reader.file {
            FileState::Unknown => None,
            FileState::Pcap(head) => Some(match head.resolution {
                Resolution::Microseconds => Kind::Pcap,
                Resolution::Nanoseconds => Kind::NsecPcap,
            }),
            FileState::Pcapng(_, _) => Some(Kind::Pcapng),
        }
    }

    /// The first link type that the units read so far declare; `None` if none does.
    pub fn first_link(&self) -> Option<u16>
        ensures { result ≡ first_link_of self.now.declared }
    {
        self.reader.file.first_link()
    }

    /// The device, as it is after what was read. It takes no memory.
    pub fn into_input(self) -> I
    where
        A: Drop,
        ensures failures { I.failures result ≡ self.failures }
        ensures sure { I.sure result ≡ self.sure }
        ensures given { I.given result ≡ self.given }
        ensures unread { I.unread result ≡ self.unread }
    {
        let Source { reader, .. } = self;
        let UnitReader { input, .. } = reader;
        input.into_inner()
    }

    /// Ends the current unit, if there is one, and reads on to the next packet; `false` at the
    /// clean end, and faults as in `advance`.
    fn advance_to_packet(&mut self) -> Result<bool, Fault>
        requires { self.old.phase ≡ Reading }
        ensures packets { IsTrue I.tells → Continues self.old result self.new }
        ensures bounds { KeepsBounds self.old result self.new }
        ensures phase { OnOk result (self.new.phase ≡ phase_after result) }
        ensures err { IfErr result (λ _. self.new.block ≡ []) }
    {
        if self.take_next() {
            return Ok(true);
        }
        self.leave_unit();
        self.skip_to_packet()
    }

    /// Ends the current unit, if there is one, and lends the next one, if it has a packet, the
    /// device has it at hand, the buffer has room for it and it fails no check: its packet is the
    /// current one then. `false` if not: then nothing changes.
    // A unit for which the buffer has no room makes it grow: so memory runs out only at a unit that
    // is longer than all before it.
    #[inline(always)]
    fn take_next(&mut self) -> bool
        requires { self.old.phase ≡ Reading }
        ensures found { IsTrue result → TakesNext I.tells self.old self.new }
        ensures nothing { result ≡ false → self.new ≡ self.old }
        ensures declared { self.new.declared ≡ self.old.declared }
    {
        let size = self.current_size();
        let reader = &mut self.reader;
        let room = reader.buffer.len();
        let (input, spans) = (&mut reader.input, &mut reader.spans);
        if !lend_unit(input, &reader.file, &reader.table, room, spans) {
            return false;
        }
        self.offset += u64::from(size);
        self.stage = Stage::Lent;
        true
    }

    /// How many bytes the current unit has; 0 if there is none.
    #[inline(always)]
    fn current_size(&self) -> u32
        ensures { result ≡ length self.now.block }
    {
        match self.stage {
            Stage::Current | Stage::Lent => self.reader.spans.size,
            Stage::Between | Stage::Ended | Stage::Failed(_) => 0,
        }
    }

    /// Reads units up to the next one with a packet, which becomes the current one; `false` at the
    /// clean end. A fault is that of the first unit that can't be read.
    #[inline(never)]
    fn skip_to_packet(&mut self) -> Result<bool, Fault>
        requires between { IsBetween self.old }
        ensures packets { IsTrue I.tells → Continues self.old result self.new }
        ensures bounds { KeepsBounds self.old result self.new }
        ensures phase { OnOk result (self.new.phase ≡ phase_after result) }
        ensures err { IfErr result (λ _. self.new.block ≡ []) }
    {
        loop {
            match self.read_unit()? {
                NextUnit::Packet => return Ok(true),
                NextUnit::End => return Ok(false),
                NextUnit::Other(_) => {}
            }
        }
    }

    /// Ends the current unit, if there is one: `offset` is then the beginning of the next one.
    fn leave_unit(&mut self)
        requires { self.old.phase ≡ Reading }
        ensures { self.new ≡ past_unit self.old }
    {
        self.offset += u64::from(self.current_size());
        self.stage = Stage::Between;
    }

    /// Reads one unit, and shows which it was: one with a packet becomes the current one, another
    /// is skipped, and at the clean end the source ends. After a fault no unit is current;
    /// `advance` notes the fault.
    fn read_unit(&mut self) -> Result<NextUnit, Fault>
        requires between { IsBetween self.old }
        ensures packets { IsTrue I.tells → FindsNext self.old result self.new }
        ensures bounds { NextBounds self.old result self.new }
        ensures err { OnErr result (IsBetween self.new) }
    {
        let unit = self.reader.next_unit()?;
        match unit {
            NextUnit::Packet => self.stage = Stage::Current,
            NextUnit::Other(size) => self.offset += size as u64,
            NextUnit::End => self.stage = Stage::Ended,
        }
        Ok(unit)
    }
}

/// Lends the next unit and puts the place of its packet into `spans`. Does so only if the unit has
/// a packet, the device has all of it at hand, it has at most `room` bytes, and it fails no check.
/// `false` if not: then nothing changes.
#[inline(always)]
fn lend_unit<I: Input, A: Allocator>(
    input: &mut Lending<I>,
    file: &FileState,
    table: &Table<A>,
    room: usize,
    spans: &mut PacketSpans,
) -> bool
    requires { IsConsistent file.now table.now }
    ensures lent { result ≡ true → UnitLent I.Input (declared_by file.now table.now) room input.old
        spans.new input.new }
    ensures nothing { result ≡ false → (input.new.input ≡ input.old.input)
        × (input.new.lent ≡ input.old.lent) × (spans.new ≡ spans.old) }
{
    // For pcap one test of the file.
    let FileState::Pcap(head) = file else {
        return lend_block(input, file, table, room, spans);
    };
    let hand = input.next_bytes();
    if hand.is_empty() {
        return false;
    }
    let Ok(packet) = record_in(head, hand) else {
        return false;
    };
    input.lend_unit(packet, room, spans)
}

/// The same for a block of a pcapng file; `false` before the first unit.
#[inline(never)]
fn lend_block<I: Input, A: Allocator>(
    input: &mut Lending<I>,
    file: &FileState,
    table: &Table<A>,
    room: usize,
    spans: &mut PacketSpans,
) -> bool
    requires { IsConsistent file.now table.now }
    ensures lent { result ≡ true → UnitLent I.Input (declared_by file.now table.now) room input.old
        spans.new input.new }
    ensures nothing { result ≡ false → (input.new.input ≡ input.old.input)
        × (input.new.lent ≡ input.old.lent) × (spans.new ≡ spans.old) }
{
    let FileState::Pcapng(_, _) = *file else {
        return false;
    };
    let Ok(found) = block_in(file, table, input.next_bytes()) else {
        return false;
    };
    match found.effect {
        BlockEffect::Packet(packet) => input.lend_unit(packet, room, spans),
        _ => false,
    }
}
