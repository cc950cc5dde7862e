//! Writes packets to a capture, one at a time.
ghost use Rattle.std.specs.Prelude.{◌≡◌, IsTrue, true};

use crate::numbering::OutputInterfaces;
use crate::writing::{check_packet, write_block, write_file_start, write_record};
use cap_octet::assigned::LINKTYPE_ETHERNET;
use cap_octet::{Fault, Format, Output, Packet};
use std::alloc::Allocator;
use std::marker::Model;

/// How far a sink is.
#[derive(Clone, Copy)]
pub enum SinkState {
    /// Nothing was put.
    Empty,
    /// Packets were put, the first with this link type; or none, and `finish` wrote the header for
    /// this link type.
    Started(u16),
    /// A `put` or `finish` returned this fault, as each later one does.
    Broken(Fault),
}

/// Writes packets to a device as a capture of one format.
#[derive(Drop)]
pub struct Sink<O: Output, A: Allocator> {
    output: O,
    format: Format,
    state: SinkState,
    /// The interfaces of a pcapng file so far; pcap has none.
    interfaces: OutputInterfaces<A>,
}

impl<O: Output, A: Allocator> Model for Sink<O, A> {
    ghost use Rattle.cap_io.specs.{Sink.SinkView, Text.FitFile};

    ghost Value = { SinkView };

    ghost view = { λ s. record {
      format = s.format;
      state = s.state;
      interfaces = s.interfaces;
      written = O.written s.output;
      failures = O.failures s.output;
      room = O.room s.output;
    } };

    ghost invariant = { λ s. FitFile s.interfaces };
}

impl<O: Output, A: Allocator + Copy> Sink<O, A> {
    ghost use Rattle.cap_io.specs.Sink.{sink_at};

    /// A sink to which nothing was put. Allocates nothing.
    pub fn new(alloc: A, output: O, format: Format) -> Self
        ensures { result ≡ sink_at format (O.written output) (O.failures output) (O.room output) }
    {
        Sink {
            output,
            format,
            state: SinkState::Empty,
            interfaces: OutputInterfaces::new(alloc),
        }
    }
}

impl<O: Output, A: Allocator> Sink<O, A> {
    ghost use Rattle.cap_octet.specs.Packet.{captured};
    ghost use Rattle.cap_io.specs.Sink.{AddsPacket, PutsPacket, PutWrites, WritesPacket, Finishes};
    ghost use Rattle.cap_io.specs.{Text.FitFile, Sink.FinishWrites, Sink.added_in, Sink.refusal_in};

    /// Appends a packet, after the file header or section header if it is the first, and in
    /// pcapng after the description of its interface if that is new.
    ///
    /// On an error it returns the first of these that applies, and nothing of the packet is
    /// written, except a part of it on `WriteFailed`. Every later `put` and `finish` returns the
    /// same error.
    /// - `LinkTypesDiffer` (pcap forms), `TooLong`, `TimeOutOfRange` (pcap forms),
    ///   `TooManyOutputInterfaces` (pcapng): the format doesn't hold it;
    /// - `NoMemory`: the allocation for a new interface failed (pcapng);
    /// - `WriteFailed`: the device failed in this call.
    pub fn put(&mut self, packet: &Packet<'_>) -> Result<(), Fault>
        ensures bytes { IsTrue O.tells → PutWrites self.old.state self.old (captured packet.now)
            result self.new }
        ensures answer { PutsPacket self.old.state self.old (captured packet.now) result self.new }
        ensures interfaces { FitFile self.new.interfaces }
    {
        if let SinkState::Broken(fault) = self.state {
            return Err(fault);
        }
        let result = self.add_packet(packet);
        if let Err(fault) = result {
            self.state = SinkState::Broken(fault);
        }
        result
    }

    /// Writes the file header or section header if nothing was put, with the link type `first`,
    /// or that of Ethernet if there is none. Allocates nothing. Call only `release` and
    /// `into_output` after it.
    ///
    /// `WriteFailed`: the device failed in this call, after a prefix of the header. After an error
    /// of an earlier call it returns that again.
    pub fn finish(&mut self, first: Option<u16>) -> Result<(), Fault>
        ensures bytes { IsTrue O.tells
            → FinishWrites self.old.state self.old first result self.new }
        ensures answer { Finishes self.old.state self.old first result self.new }
    {
        match self.state {
            SinkState::Broken(fault) => Err(fault),
            SinkState::Started(_) => Ok(()),
            SinkState::Empty => {
                let link = first.unwrap_or(LINKTYPE_ETHERNET);
                let Ok(()) = write_file_start(&mut self.output, self.format, self.state, link)
                else {
                    self.state = SinkState::Broken(Fault::WriteFailed);
                    return Err(Fault::WriteFailed);
                };
                self.state = SinkState::Started(link);
                Ok(())
            }
        }
    }

    /// Passes on what the device holds back, and returns whether that succeeded. The sink's state
    /// is unchanged in either case.
    pub fn release(&mut self) -> bool
        ensures kept { self.new ≡ self.old }
        ensures sure { IsTrue O.tells → result ≡ true }
    {
        self.output.release()
    }

    /// The output, with what was written so far. It takes no memory.
    pub fn into_output(self) -> O
        ensures written { O.written result ≡ self.written }
        ensures failures { O.failures result ≡ self.failures }
        ensures room { O.room result ≡ self.room }
    {
        let Sink { output, .. } = self;
        output
    }

    /// Checks a packet and writes it as `put` does, to a sink that isn't broken. After an error the
    /// caller makes the sink broken.
    fn add_packet(&mut self, packet: &Packet<'_>) -> Result<(), Fault>
        ensures bytes { IsTrue O.tells → WritesPacket (refusal_in self.old (captured packet.now))
            (added_in self.old (captured packet.now)) self.old.written result self.new.written }
        ensures answer { AddsPacket self.old (captured packet.now) result self.new }
    {
        check_packet(self.format, self.state, &self.interfaces, packet)?;
        let written = match self.format {
            Format::Pcap | Format::NsecPcap => {
                write_record(&mut self.output, self.format, self.state, packet)
            }
            Format::Pcapng => {
                let interface = self.interfaces.give_number(packet)?;
                write_block(&mut self.output, self.state, interface, packet)
            }
        };
        let Ok(()) = written else {
            return Err(Fault::WriteFailed);
        };
        if let SinkState::Empty = self.state {
            self.state = SinkState::Started(packet.link);
        }
        Ok(())
    }
}
