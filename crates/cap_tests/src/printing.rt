//! Tests of cap_print: the rows of a packet of over 65,536 bytes.
use cap_octet::{Packet, TrialOutput};
use cap_print::{Options, Text, print_packet};
use std::alloc::{AllocError, Global};
use std::test::Fail;

const BYTES: Options = Options {
    link: false,
    bytes: true,
};

/// Whether what is printed of a packet over these bytes ends with a row of one zero at 65,552;
/// none if the device fails.
fn is_printed_in(
    alloc: Global,
    packet: &Packet<'_>,
    size: usize,
) -> Result<Option<bool>, AllocError> {
    let mut place = vec![in alloc; 0u8; size]?;
    let mut output = TrialOutput::new(&mut place, 7);
    let printed = print_packet(&mut Text::new(), BYTES, packet, &mut output);
    if printed.is_err() {
        return Ok(None);
    }
    Ok(Some(output.written().ends_with(b"\n\t0x10010: 00\n")))
}

/// What is written of a packet of 65,553 zeros in full, and if the device fails.
#[test]
fn long_packets(rt: HostRuntime) -> Result<(), Fail> {
    let zeros = vec![in rt.alloc(); 0u8; 65_553]?;
    let packet = Packet {
        link: 147,
        snap: 0,
        name: &[],
        time: 0,
        orig: 0,
        bytes: &zeros,
        comment: &[],
    };
    // The line has 49 bytes, each of 4,096 rows 49, the next one 50 and the last one 13.
    assert!(rt; is_printed_in(rt.alloc(), &packet, 200_816)? == Some(true));
    assert!(rt; is_printed_in(rt.alloc(), &packet, 200_815)? == None);
    Ok(())
}
