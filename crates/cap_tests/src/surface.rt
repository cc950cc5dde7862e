//! Public calls that no other test makes. `tools/check_surface.py` compares the paths and types of
//! all.

use crate::filters::compilation::code_of;
use cap_octet::{
    DeviceFault, Format, Input, MemInput, MemOutput, Order, Output, Packet, Stopped, TrialInput,
    TrialOutput, read_full, u16_at, u32_at, write_all,
};
use std::alloc::Global;
use std::test::Fail;

/// A packet of one byte.
const PACKET: Packet<'static> = Packet {
    link: 1,
    snap: 262_144,
    name: &[],
    time: 1_000,
    orig: 1,
    bytes: &[7],
    comment: &[],
};

/// Whether an input gives two bytes, and then its end.
fn fills<I: Input>(input: &mut I) -> bool {
    let mut buf = [0; 3];
    read_full(input, &mut buf) == Ok(2) && input.read(&mut buf) == Ok(0)
}

/// Whether an output takes two bytes at once, and a third one.
fn takes<O: Output>(output: &mut O) -> bool {
    write_all(output, b"ab") == Ok(()) && output.write(b"c") == Ok(1)
}

#[test]
fn devices_over_memory(rt: HostRuntime) {
    assert!(rt; fills(&mut MemInput::new(b"ab")));
    let mut input = TrialInput::new(b"ab", 1, Some(5));
    assert!(rt; fills(&mut input) && input.reads() == 4 && input.given() == 2);
    assert!(rt; input.read(&mut [0]) == Err(DeviceFault));
    let mut room = [0; 3];
    let mut output = MemOutput::new(&mut room);
    assert!(rt; takes(&mut output) && output.written() == b"abc".as_slice());
    let mut output = TrialOutput::new(&mut room, 1);
    assert!(rt; takes(&mut output) && output.written() == b"abc".as_slice());
    assert!(rt; write_all(&mut output, b"d") == Err(Stopped { written: 0 }));
    assert!(rt; u16_at(Order::Little, &[1, 2, 3, 4], 2) == 0x0403);
    assert!(rt; u32_at(Order::Big, &[1, 2, 3, 4], 0) == 0x0102_0304);
}

#[test]
fn heads_of_pcap(rt: HostRuntime) -> Result<(), Fail> {
    cap_pcap::fits(Format::Pcap, &PACKET)?;
    let head = cap_pcap::read_head(&cap_pcap::head_bytes(Format::Pcap, 1))?;
    let record = cap_pcap::read_record(&head, &cap_pcap::record_bytes(Format::Pcap, &PACKET))?;
    assert!(rt; record.time == PACKET.time && record.captured == 1);
    Ok(())
}

/// The block that the bytes begin with, after a little-endian section.
fn block_in(bytes: &[u8]) -> Option<cap_pcapng::Block<'_>> {
    let frame = cap_pcapng::frame(Some(Order::Little), bytes.first_chunk::<12>()?).ok()?;
    cap_pcapng::block(&frame, bytes).ok()
}

/// Whether the bytes begin with an interface of one option, which a table takes as number 0.
fn is_interface(alloc: Global, bytes: &[u8]) -> bool {
    let Some(cap_pcapng::Block::Interface(block)) = block_in(bytes) else {
        return false;
    };
    let mut options = 0usize;
    for option in block.options {
        options = options.saturating_add(usize::from(option.is_ok()));
    }
    let mut table = cap_pcapng::Table::new(alloc);
    let is_taken = table.push(&block.interface).is_ok();
    let is_found = table.get(0).is_some_and(|found| found.link == PACKET.link);
    table.clear();
    options == 1 && is_taken && is_found && table.get(0).is_none()
}

#[test]
fn blocks_of_pcapng(rt: HostRuntime) -> Result<(), Fail> {
    assert!(rt;
        matches!(
            block_in(&cap_pcapng::section_bytes()),
            Some(cap_pcapng::Block::Section)
        )
    );
    let mut room = [0; 100];
    let mut output = MemOutput::new(&mut room);
    assert!(rt; cap_pcapng::write_interface(&PACKET, &mut output) == Ok(()));
    let begins = output.written().len();
    assert!(rt; cap_pcapng::check_block_fits(&PACKET) == Ok(()));
    assert!(rt; cap_pcapng::write_packet(0, &PACKET, &mut output) == Ok(()));
    let (interface, packet) = output.written().split_at_checked(begins).ok_or("short")?;
    assert!(rt; is_interface(rt.alloc(), interface));
    assert!(rt; matches!(block_in(packet), Some(cap_pcapng::Block::Enhanced(_))));
    Ok(())
}

/// Whether the bytes are a pcap file of only the packet.
fn is_read(alloc: Global, bytes: &[u8]) -> bool {
    let mut source = cap_io::Source::new(alloc, MemInput::new(bytes));
    let is_advanced = source.advance() == Ok(true) && source.offset() == 24;
    let is_head = source
        .head()
        .is_some_and(|packet| packet.bytes == PACKET.bytes);
    let is_pcap = matches!(source.kind(), Some(cap_io::Kind::Pcap));
    is_advanced && is_head && is_pcap && source.first_link() == Some(1)
}

#[test]
fn sources_and_sinks(rt: HostRuntime) {
    cap_io::laws::items_back();
    let mut room = [0; 50];
    let mut sink = cap_io::Sink::new(rt.alloc(), MemOutput::new(&mut room), Format::Pcap);
    assert!(rt; sink.put(&PACKET) == Ok(()) && sink.finish(Some(1)) == Ok(()));
    assert!(rt; is_read(rt.alloc(), sink.into_output().written()));
}

#[test]
fn programs(rt: HostRuntime) {
    flt_bpf::laws::listing_back();
    let mut program = flt_bpf::check(code_of(&rt, "6 0 0 1")).expect(&rt, "a program");
    assert!(rt; flt_bpf::run(&mut program, &[], 0) == (1, 1) && program.spent() == 1);
    let refused = flt_bpf::check(Vec::new(rt.alloc())).err();
    assert!(rt; refused == Some((flt_bpf::CheckFault::Empty, 0)));
    let wrong = flt_bpf::read_listing(rt.alloc(), b"?").err();
    assert!(rt; wrong == Some(flt_bpf::ListingFault::NotListing(1)));
}
