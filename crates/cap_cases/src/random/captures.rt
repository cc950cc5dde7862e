//! Captures that are made at random, and damaged.

use crate::random::choices::Random;
use crate::random::frames::make_frame;
use crate::variants::MASKS;
use std::alloc::{AllocError, Global};

/// How many packets a capture, or a section, has at most.
const MOST_PACKETS: u64 = 12;

/// How many interfaces a section describes at first at most.
const MOST_INTERFACES: u64 = 3;

/// Link types: Ethernet, raw IP, Linux cooked captures, and one that expressions don't know.
const LINKS: [u64; 16] = [
    1, 1, 1, 1, 1, 1, 1, 101, 101, 101, 101, 113, 113, 113, 113, 276,
];

/// Types of blocks that are skipped: names, statistics, journals, secrets, custom ones.
const SKIPPED: [u64; 6] = [4, 5, 9, 10, 0xbad, 77];

/// The code of a comment.
const COMMENT: u64 = 1;

/// In how many blocks there is one with this option, its code, and its values.
type Choice = (u64, u64, &'static [&'static [u8]]);

/// Resolutions of times: powers of ten, and above them powers of two.
const RESOLUTIONS: [&[u8]; 8] = [&[0], &[3], &[6], &[7], &[9], &[12], &[0x8a], &[0xa0]];

const SECTION_OPTIONS: [Choice; 1] = [(3, 4, &[b"random"])];

const INTERFACE_OPTIONS: [Choice; 4] = [
    (3, COMMENT, &[b"comment of an interface"]),
    (2, 2, &[b"eth0", b"wlan0", b"", b"a name with blanks"]),
    (2, 9, &RESOLUTIONS),
    (2, 0, &[b""]),
];

const PACKET_OPTIONS: [Choice; 4] = [
    (3, 2, &[&[0, 0, 0, 1]]),
    (3, COMMENT, &[b"a", b"two words", b"", b"\xc3\xbcn\xc3\xaf"]),
    (9, COMMENT, &[b"a second comment"]),
    (9, 0, &[b""]),
];

/// Bytes that are put one after another, and the order of the numbers among them.
#[derive(Drop)]
pub struct Writer {
    pub bytes: Vec<u8>,
    is_big_endian: bool,
}

impl Writer {
    /// No bytes yet.
    fn new(alloc: Global, is_big_endian: bool) -> Self {
        Writer {
            bytes: Vec::new(alloc),
            is_big_endian,
        }
    }

    /// Puts bytes at the end, as they are.
    fn put(&mut self, bytes: &[u8]) -> Result<(), AllocError> {
        self.bytes.extend_from_slice(bytes)
    }

    /// Puts numbers of `size` bytes, at most 8.
    fn put_numbers(&mut self, size: usize, numbers: &[u64]) -> Result<(), AllocError> {
        for number in numbers {
            let (little, big) = (number.to_le_bytes(), number.to_be_bytes());
            let digits = if self.is_big_endian {
                big.get(8usize.saturating_sub(size)..)
            } else {
                little.get(..size)
            };
            self.put(digits.unwrap_or_default())?;
        }
        Ok(())
    }

    /// Puts bytes, and zeros up to a multiple of 4.
    fn put_padded(&mut self, bytes: &[u8]) -> Result<(), AllocError> {
        self.put(bytes)?;
        for _ in bytes.len()..bytes.len().div_ceil(4).saturating_mul(4) {
            self.put(&[0])?;
        }
        Ok(())
    }

    /// Puts a block of pcapng around its body.
    fn put_block(&mut self, kind: u64, body: &Writer) -> Result<(), AllocError> {
        let size = (body.bytes.len() as u64).saturating_add(12);
        self.put_numbers(4, &[kind, size])?;
        self.put(&body.bytes)?;
        self.put_numbers(4, &[size])
    }

    /// Puts options of a block. The result is the first comment among them, or nothing.
    fn put_options(
        &mut self,
        random: &mut Random,
        choices: &[Choice],
    ) -> Result<&'static [u8], AllocError> {
        let mut comment = None;
        for (times, code, values) in choices {
            if random.one_in(*times) {
                let value = random.pick(*values);
                self.put_numbers(2, &[*code, value.len() as u64])?;
                self.put_padded(value)?;
                comment = comment.or((*code == COMMENT).then_some(value));
            }
        }
        Ok(comment.unwrap_or_default())
    }
}

/// A capture, and what is in it.
#[derive(Drop)]
pub struct Capture {
    pub file: Writer,
    /// The captured bytes of each packet, and its comment.
    pub packets: Vec<(Vec<u8>, &'static [u8])>,
    /// The link type of each interface of the last section.
    links: Vec<u64>,
    /// How many bytes its first interface captures at most, if there is a limit.
    snap: Option<usize>,
}

/// The lengths of a packet: the captured one, and as the original one the same, more, or any.
fn lengths(random: &mut Random, frame: &[u8]) -> [u64; 2] {
    let size = frame.len() as u64;
    let (any, more) = (random.half(), size.saturating_add(random.below(1500)));
    [size, random.pick(&[any, more, size, size, size, size])]
}

impl Capture {
    /// Puts a pcap file.
    fn put_pcap(&mut self, alloc: Global, random: &mut Random) -> Result<(), AllocError> {
        let link = random.pick(&LINKS);
        let kinds = [(0xA1B2_3C4D, 1_000_000_000), (0xA1B2_C3D4, 1_000_000)];
        let (magic, parts) = random.pick(&kinds);
        self.file.put_numbers(4, &[magic])?;
        self.file.put_numbers(2, &[2, 4])?;
        let (zone, accuracy, snap) = (random.half(), random.half(), random.below(70_000));
        self.file.put_numbers(4, &[zone, accuracy, snap, link])?;
        for _ in 0..random.below(MOST_PACKETS) {
            let frame = make_frame(alloc, random, link)?;
            let (second, part) = (random.half(), random.below(parts));
            let [size, original] = lengths(random, &frame);
            self.file.put_numbers(4, &[second, part, size, original])?;
            self.file.put(&frame)?;
            self.packets.push((frame, b""))?;
        }
        Ok(())
    }

    /// Puts a section of a pcapng file.
    fn put_section(&mut self, alloc: Global, random: &mut Random) -> Result<(), AllocError> {
        self.file.is_big_endian = random.one_in(2);
        self.links.clear();
        let mut body = Writer::new(alloc, self.file.is_big_endian);
        body.put_numbers(4, &[0x1A2B_3C4D])?;
        body.put_numbers(2, &[1, random.pick(&[0, 2])])?;
        body.put(&[0xff; 8])?;
        body.put_options(random, &SECTION_OPTIONS)?;
        self.file.put_block(0x0A0D_0D0A, &body)?;
        let described = random.below(MOST_INTERFACES);
        for place in 0..described.saturating_add(random.below(MOST_PACKETS)) {
            if place < described {
                self.put_interface(alloc, random)?;
            } else {
                self.put_item(alloc, random)?;
            }
        }
        Ok(())
    }

    /// Puts an interface, maybe with an offset of its times in seconds.
    fn put_interface(&mut self, alloc: Global, random: &mut Random) -> Result<(), AllocError> {
        let link = random.pick(&LINKS);
        let snaps = [0, random.below(120), 262_144, 262_144];
        let snap = random.pick(&snaps);
        if self.links.is_empty() {
            self.snap = (snap != 0).then_some(snap as usize);
        }
        self.links.push(link)?;
        let mut body = Writer::new(alloc, self.file.is_big_endian);
        body.put_numbers(2, &[link, 0])?;
        body.put_numbers(4, &[snap])?;
        if random.one_in(6) {
            body.put_numbers(2, &[14, 8])?;
            body.put_numbers(8, &[random.below(1000)])?;
        }
        body.put_options(random, &INTERFACE_OPTIONS)?;
        self.file.put_block(1, &body)
    }

    /// Puts a packet, an interface or a block that is skipped.
    fn put_item(&mut self, alloc: Global, random: &mut Random) -> Result<(), AllocError> {
        let kind = random.below(10);
        if self.links.is_empty() || kind == 0 {
            return self.put_interface(alloc, random);
        }
        match kind {
            1 => self.put_skipped(alloc, random),
            2 | 3 => self.put_simple(alloc, random),
            _ => self.put_packet(alloc, random),
        }
    }

    /// Puts a block that is skipped.
    fn put_skipped(&mut self, alloc: Global, random: &mut Random) -> Result<(), AllocError> {
        let mut body = Writer::new(alloc, self.file.is_big_endian);
        for _ in 0..random.below(8) {
            body.put_numbers(4, &[random.half()])?;
        }
        self.file.put_block(random.pick(&SKIPPED), &body)
    }

    /// Puts a simple packet, which has no more bytes than the first interface captures.
    fn put_simple(&mut self, alloc: Global, random: &mut Random) -> Result<(), AllocError> {
        let link = self.links.first().copied().unwrap_or_default();
        let most = self.snap.unwrap_or(usize::MAX);
        let mut frame = make_frame(alloc, random, link)?;
        frame.truncate(most);
        let missing = random.below(if frame.len() == most { 1500 } else { 1 });
        let mut body = Writer::new(alloc, self.file.is_big_endian);
        body.put_numbers(4, &[missing.saturating_add(frame.len() as u64)])?;
        body.put_padded(&frame)?;
        self.packets.push((frame, b""))?;
        self.file.put_block(3, &body)
    }

    /// Puts an enhanced packet.
    fn put_packet(&mut self, alloc: Global, random: &mut Random) -> Result<(), AllocError> {
        let place = random.place(self.links.len());
        let link = self.links.get(place).copied().unwrap_or_default();
        let frame = make_frame(alloc, random, link)?;
        let mut body = Writer::new(alloc, self.file.is_big_endian);
        let (high, low) = (random.below(2), random.half());
        let [size, original] = lengths(random, &frame);
        body.put_numbers(4, &[place as u64, high, low, size, original])?;
        body.put_padded(&frame)?;
        let comment = body.put_options(random, &PACKET_OPTIONS)?;
        self.packets.push((frame, comment))?;
        self.file.put_block(6, &body)
    }
}

/// A capture.
pub fn make_capture(alloc: Global, random: &mut Random) -> Result<Capture, AllocError> {
    let mut capture = Capture {
        file: Writer::new(alloc, random.one_in(2)),
        packets: Vec::new(alloc),
        links: Vec::new(alloc),
        snap: None,
    };
    if random.one_in(2) {
        capture.put_pcap(alloc, random)?;
        return Ok(capture);
    }
    for _ in 0..random.below(3).saturating_add(1) {
        capture.put_section(alloc, random)?;
    }
    Ok(capture)
}

/// The bytes, cut at a random place or with up to three of them changed.
pub fn damaged(alloc: Global, random: &mut Random, bytes: &[u8]) -> Result<Vec<u8>, AllocError> {
    let mut damaged = Vec::from_slice(alloc, bytes)?;
    if random.one_in(4) {
        damaged.truncate(random.place(bytes.len()));
    }
    for _ in 0..random.below(4) {
        let place = random.place(damaged.len());
        let changes = [(random.half() & 0xff) as u8, random.pick(&MASKS), 0x80];
        let change = random.pick(&changes);
        if let Some(byte) = damaged.get_mut(place) {
            *byte ^= change;
        }
    }
    Ok(damaged)
}
