//! What a sink refuses, in which order, and that it stays refused.
use crate::streams::captures::packet;
use cap_io::Sink;
use cap_octet::{Fault, Format, MemOutput, Output, Packet};
use std::alloc::Global;
use std::test::Fail;

/// The first time that pcap has no room for.
const LATE: u64 = 0x1_0000_0000 * 1_000_000_000;

/// Puts a packet, and then one that is refused. Whether it is, and nothing is taken from then on.
fn is_refused(alloc: Global, second: &Packet<'_>, fault: Fault) -> bool {
    let mut out = [0; 50];
    let mut sink = Sink::new(alloc, MemOutput::new(&mut out), Format::Pcap);
    let first = sink.put(&packet(1, 0, LATE - 1, &[7]));
    let refused = sink.put(second);
    let third = sink.put(&packet(1, 0, 0, &[7]));
    let finished = sink.finish(Some(1));
    let written = sink.into_output().written().len();
    let is_stopped = refused == Err(fault) && third == refused && finished == refused;
    first == Ok(()) && is_stopped && written == 41
}

#[test]
fn what_is_refused(rt: HostRuntime) -> Result<(), Fail> {
    let long = vec![in rt.alloc(); 0u8; 262_145]?;
    let whole = long.get(..262_144).ok_or("too short")?;
    let other = packet(101, 0, LATE, &long);
    assert!(rt; is_refused(rt.alloc(), &other, Fault::LinkTypesDiffer));
    let longer = packet(1, 0, LATE, &long);
    assert!(rt; is_refused(rt.alloc(), &longer, Fault::TooLong));
    let late = packet(1, 0, LATE, whole);
    assert!(rt; is_refused(rt.alloc(), &late, Fault::TimeOutOfRange));
    Ok(())
}

/// Puts a packet of each of 4,096 interfaces, of one of them, and of two others. Whether only the
/// others are refused.
fn takes_most<O: Output>(sink: &mut Sink<O, Global>) -> bool {
    for snap in 0..4_096 {
        if sink.put(&packet(1, snap, 0, &[])) != Ok(()) {
            return false;
        }
    }
    let known = sink.put(&packet(1, 4_095, 0, &[]));
    let other = sink.put(&packet(1, 4_096, 0, &[]));
    let unlimited = sink.put(&packet(1, 0, 0, &[]));
    known == Ok(()) && other == Err(Fault::TooManyOutputInterfaces) && unlimited == other
}

/// Each interface takes 32 bytes, and its packet 32.
#[test]
fn most_interfaces(rt: HostRuntime) -> Result<(), Fail> {
    let mut out = vec![in rt.alloc(); 0u8; 262_300]?;
    let mut sink = Sink::new(rt.alloc(), MemOutput::new(&mut out), Format::Pcapng);
    assert!(rt; takes_most(&mut sink));
    assert!(rt; sink.into_output().written().len() == 28 + 4_096 * 64 + 32);
    Ok(())
}
