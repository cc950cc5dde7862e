//! How often a source and a sink take memory.
use crate::captures::HEADER;
use crate::streams::captures::{capture, packet, read_on};
use cap_io::{Sink, Source};
use cap_octet::{Fault, Format, MemInput, MemOutput};
use cap_trial::Trial;
use std::alloc::Global;
use std::test::Fail;

/// Memory is taken for the first packet, and for a packet that is longer than all before it.
#[test]
fn growths(rt: HostRuntime) -> Result<(), Fail> {
    let bytes = capture(rt.alloc(), &[60, 60, 4, 60, 1_000, 60, 100_000])?;
    let trial = Trial::new(rt.alloc());
    let mut source = Source::new(&trial, MemInput::new(&bytes));
    assert!(rt; trial.growths() == 0);
    assert!(rt; source.advance() == Ok(true));
    assert!(rt; trial.growths() == 1, "the first packet");
    assert!(rt; read_on(&mut source) == (6, Ok(false), 101_380));
    assert!(rt; trial.growths() == 3);
    Ok(())
}

/// Whether a capture is refused at this offset as too long, and asks for no memory.
fn is_refused_for_free(alloc: Global, bytes: &[u8], offset: u64) -> bool {
    let trial = Trial::new(alloc);
    let mut source = Source::new(&trial, MemInput::new(bytes));
    read_on(&mut source) == (0, Err(Fault::TooLong), offset) && trial.growths() == 0
}

/// A captured length over the limit, or a total length, asks for no memory.
#[test]
fn no_growth_for_what_is_too_long(rt: HostRuntime) -> Result<(), Fail> {
    let mut bytes = Vec::from_slice(rt.alloc(), HEADER)?;
    bytes.extend_from_slice(b"\0\0\0\0\0\0\0\0\xff\xff\xff\xff\0\0\0\0")?;
    assert!(rt; is_refused_for_free(rt.alloc(), &bytes, 24));
    let block = b"\n\r\r\n\xfc\xff\xff\xffM<+\x1a";
    assert!(rt; is_refused_for_free(rt.alloc(), block, 0));
    Ok(())
}

/// How often a sink of the format takes memory for a packet, and with another one after it.
fn growths_in(alloc: Global, format: Format) -> Option<(u64, u64)> {
    let trial = Trial::new(alloc);
    let mut out = [0; 200];
    let mut sink = Sink::new(&trial, MemOutput::new(&mut out), format);
    let first = sink.put(&packet(1, 0, 0, &[1, 2]));
    let growths = trial.growths();
    let second = sink.put(&packet(1, 0, 0, &[3]));
    if first.is_err() || second.is_err() {
        return None;
    }
    Some((growths, trial.growths()))
}

/// A known interface takes no memory, and a pcap form none at all.
#[test]
fn growths_of_sinks(rt: HostRuntime) {
    let growths = growths_in(rt.alloc(), Format::Pcapng);
    assert!(rt; matches!(growths, Some((first, second)) if first == second));
    assert!(rt; growths_in(rt.alloc(), Format::NsecPcap) == Some((0, 0)));
}
