//! Runs whose memory is a heap of a fixed size: that nothing is kept beyond what a job states that
//! it holds, which no contract can count.
//!
//! A heap gives memory in pieces of 16 bytes. A job takes, from the heap, its names (32 bytes and
//! the name each), its inputs (24 bytes each), about 200 bytes of state for each input, in a list
//! that begins with room for 4 and doubles, and the longest unit of each input, or 256 bytes. The
//! sums below were also found by looking for the least heap; the heaps of the tests have room for
//! a few fields.

use crate::captures::{HEADER, capture_of, push_record};
use crate::words::line_of;
use cap_octet::{MemInput, MemOutput};
use cap_tools::run;
use cap_trial::{command_over, names_over};
use linked_list_allocator::LocalHeap;
use std::alloc::{AllocError, Global};
use std::process::Abort;
use std::test::Fail;

/// How many bytes a block has at most.
const LONGEST: u32 = 1_048_576;

/// How many bytes of a block are not the packet's.
const AROUND: u32 = 32;

/// Ethernet, IPv4 and TCP, from 10.0.0.1 and port 1024 to 10.0.0.2 and port 80, and two bytes more.
const SYN: [u8; 56] = [
    2, 0, 0, 0, 0, 2, 2, 0, 0, 0, 0, 1, 8, 0, 0x45, 0, 0, 46, 0, 0, 0, 0, 64, 6, 0, 0, 10, 0, 0, 1,
    10, 0, 0, 2, 4, 0, 0, 80, 0, 0, 0, 0, 0, 0, 0, 0, 0x50, 2, 0, 0, 0, 0, 0, 0, 0, 0,
];

/// A pcap file of `packets` records of 60 bytes at time 0. Two in a row are equal, others differ.
fn capture(alloc: Global, packets: u32) -> Result<Vec<u8>, AllocError> {
    let mut bytes = Vec::from_slice(alloc, HEADER)?;
    for number in 0..packets {
        let mut data = [0; 60];
        data[..56].copy_from_slice(&SYN);
        data[56..].copy_from_slice(&(number / 2).to_le_bytes());
        push_record(&mut bytes, 0, &data)?;
    }
    Ok(bytes)
}

/// A pcapng file of `packets` packets, each in a block of the greatest length.
fn longest_blocks(alloc: Global, packets: u32) -> Result<Vec<u8>, Fail> {
    let mut bytes = capture_of(alloc, "section ether")?;
    for _ in 0..packets {
        bytes.extend_from_slice(&[6, 0, 0, 0])?;
        bytes.extend_from_slice(&LONGEST.to_le_bytes())?;
        bytes.extend_from_slice(&[0; 12])?;
        bytes.extend_from_slice(&(LONGEST - AROUND).to_le_bytes())?;
        bytes.extend_from_slice(&(LONGEST - AROUND).to_le_bytes())?;
        let end = bytes.len().saturating_add((LONGEST - AROUND) as usize);
        bytes.resize(end, 0xab)?;
        bytes.extend_from_slice(&LONGEST.to_le_bytes())?;
    }
    Ok(bytes)
}

/// Runs the words, with `count` inputs `a` after them, in a heap of this size. The inputs have
/// these bytes; the devices are outside of the heap. The result is the status, how many bytes were
/// written, and the messages. What fails outside of the heap ends the test.
fn run_in(
    (rt, alloc): (&impl Abort, Global),
    (size, words, count): (usize, &str, usize),
    bytes: &[u8],
    out: &mut [u8],
) -> Result<(u8, usize, Vec<u8>), Fail> {
    let mut words = String::from_str(alloc, words).expect(rt, "memory");
    for _ in 0..count {
        words.push_str(" a").expect(rt, "memory");
    }
    let line = line_of(alloc, &words)?;
    let heap = LocalHeap::new(alloc, size).expect(rt, "memory");
    let command = command_over(&heap, &line, &[]).expect(rt, "a command");
    let names = names_over(&heap, &line).expect(rt, "names");
    let mut inputs = Vec::with_capacity(&heap, line.inputs.len()).expect(rt, "room");
    for _ in line.inputs.iter() {
        inputs.push(MemInput::new(bytes)).expect(rt, "room");
    }
    assert!(rt; command.is_proper(inputs.len()));
    let mut room = [0; 100];
    let err = MemOutput::new(&mut room);
    let out = MemOutput::new(out);
    let (status, out, err) = run(&heap, command, names, inputs, out, err);
    let told = err.written().to_vec(alloc).expect(rt, "memory");
    Ok((status, out.written().len(), told))
}

/// The bytes that a merge of twice 16 of the longest blocks writes: a section, an interface with
/// its resolution, and the blocks.
const MERGED: usize = 28 + 32 + 32 * 1_048_576;

/// Two current blocks are 2 MiB, and a list that doubles has its earlier half next to it.
#[test]
fn a_merge_holds_one_block_of_each_input(rt: HostRuntime) -> Result<(), Fail> {
    let bytes = longest_blocks(rt.alloc(), 16)?;
    let mut out = vec![in rt.alloc(); 0u8; MERGED]?;
    for (size, status, written, told) in [
        (8 << 20, 0, MERGED, ""),
        (64 << 10, 1, 0, "capkit: a: offset 48: no memory\n"),
    ] {
        let done = run_in(
            (&rt, rt.alloc()),
            (size, "merge -w out", 2),
            &bytes,
            &mut out,
        )?;
        assert!(rt; done.0 == status && done.1 == written && done.2.as_slice() == told.as_bytes());
    }
    Ok(())
}

/// What a run holds doesn't grow with its packets: see the sums.
#[test]
fn small_heaps_are_enough(rt: HostRuntime) -> Result<(), Fail> {
    let mut out = vec![in rt.alloc(); 0u8; 4_000_000]?;
    for (size, words, packets, inputs, written) in [
        // 1,152: names 96, an input 32, states 768, a block of 256.
        (1_536usize, "infos", 10_000u32, 1usize, 211usize),
        // 2,832: 1,152, and the tokens, the tree and the code of the expression, also shortened.
        (3_072, "print a tcp", 10_000, 0, 10_000 * 77),
        // 33,220: 1,152, and 999 marks of 20 bytes with links of 8 each, and 1,024 heads of 4.
        (
            36_864,
            "edit -D 1000 -F pcap a out",
            100_000,
            0,
            24 + 50_000 * 76,
        ),
        // 131,120: names 12,336, states 49,152, blocks 65,536, the order of the merge 4,096. The
        // inputs and the states' earlier lists are gone by then.
        (147_456, "merge -w out", 10, 256, 28 + 32 + 2_560 * 92),
    ] {
        let bytes = capture(rt.alloc(), packets)?;
        let (status, count, told) = run_in(
            (&rt, rt.alloc()),
            (size, words, inputs),
            &bytes,
            &mut out,
        )?;
        assert!(rt; status == 0 && told.is_empty(), "{words}");
        assert!(rt; count == written, "{words}: {count}");
    }
    Ok(())
}
