//! The marks of the last packets, with an index that finds an equal one at once.
ghost use Rattle.std.specs.Prelude.{◌≡◌, ℕ, ◌+◌, ◌-◌, ◌^◌, ◌<◌, ◌≤◌, EachIndex, slice_index};
ghost use Rattle.cap_process.specs.inside.Index.{hash_of};

use crate::links::{Links, mark_bit, place_newest};
use crate::mark::{Mark, is_same_mark, mark_of};
use circular_buffer::HeapCircularBuffer;
use std::alloc::{AllocError, Allocator};
use std::marker::Model;

/// The most trees, 2^20: at 4 bytes each their heads take 4 MiB.
const MOST_HEADS: u32 = 0x0010_0000;

/// The marks of the last packets, as many as fit.
///
/// The marks of one hash, the low bits of the digest, are a binary tree with the newest at the
/// root. Those below a mark go by one bit each, of the digest and then of the length, so that no
/// mark is deeper than it has bits, whoever chooses the packets. Marks are numbered from 1, and a
/// link is a difference of two numbers: since a mark is newer than those below it, a tree ends by
/// itself at the end of the window, and no mark is deleted from it for that.
#[derive(Drop)]
pub struct Window<A: Allocator> {
    /// From the oldest to the newest.
    marks: HeapCircularBuffer<Mark, A>,
    /// The links of each mark, at the same place.
    links: HeapCircularBuffer<Links, A>,
    /// For each hash the number of the newest mark that has it; 0 is that of none.
    heads: Vec<u32, A>,
    /// One less than the number of heads: the bits of a hash.
    mask: u32,
    /// The number of the newest mark; 0 before the first.
    newest: u32,
}

impl<A: Allocator> Model for Window<A> {
    ghost use Rattle.cap_process.specs.{Window.WindowView, Window.window, inside.Index.IsSoundIndex};

    ghost Value = { WindowView };

    ghost view = { λ w. window w.marks.items w.marks.capacity };

    ghost invariant = { λ w. IsSoundIndex w.mask w.marks.items w.marks.capacity w.links.items
        w.links.capacity w.heads.items w.newest };
}

impl<A: Allocator> Window<A> {
    ghost use Rattle.std.specs.Prelude.{◌≡◌, ◌+◌, ◌^◌, ◌<◌, ◌↔◌, [], ◌∷◌, ◌++◌, length, IsTrue};
    ghost use Rattle.std.specs.{Prelude.IfOk, List.Contains};
    ghost use Rattle.cap_process.specs.{Window.window, Marks.last, Marks.mark_of};

    /// A window for `capacity` packets' marks. It takes all its memory here: 28 bytes for each,
    /// and 4 for each of its heads, which are as many, rounded up to a power of two, and 2^20 at
    /// most.
    pub fn new(alloc: A, capacity: u32) -> Result<Self, AllocError>
    where
        A: Copy,
        requires { capacity + 1 < 2 ^ 32 }
        ensures { IfOk result (λ w. w ≡ window [] capacity) }
    {
        let marks = HeapCircularBuffer::with_capacity(alloc, capacity as usize)?;
        let links = HeapCircularBuffer::with_capacity(alloc, capacity as usize)?;
        let mask = head_mask(capacity);
        let heads = Vec::from_elem(alloc, 0u32, mask as usize + 1)?;
        Ok(Window {
            marks,
            links,
            heads,
            mask,
            newest: 0,
        })
    }

    /// Puts the mark of a packet's captured bytes into the window, and returns whether an equal one
    /// was in it: as many bytes with the same digest. The mark is put there in either case, and
    /// the oldest one is dropped if the window is full. Takes no memory.
    pub fn seen_before(&mut self, bytes: &[u8]) -> bool
        requires { length bytes.now < 2 ^ 32 }
        ensures answer { IsTrue result ↔ Contains self.old.marks (mark_of bytes.now) }
        ensures window { self.new
            ≡ window (last self.old.capacity (self.old.marks ++ mark_of bytes.now ∷ []))
            self.old.capacity }
    {
        let mark = mark_of(bytes);
        let found = self.contains(&mark);
        self.push(mark);
        found
    }

    /// Whether an equal mark is in the window. If so, it is in the tree of this mark's hash, at the
    /// place where the way down by this mark's bits meets it.
    #[tactic(auto, using(std::proofs::lemmas::Option::gets))]
    fn contains(&self, mark: &Mark) -> bool
        ensures { IsTrue result ↔ Contains self.now.marks mark.now }
    {
        let hash = hash_of(mark, self.mask);
        let (mut limit, mut depth) = (self.marks.len(), 0);
        // From the place after the newest mark to the top of the tree of this hash.
        let mut step = self.newest + 1 - self.heads[hash];
        // `limit` is the place of the mark above, at first the place after the newest, and the top
        // of the tree that is left is `step` places before it. If that leads out of the window,
        // no mark is left.
        while step as usize <= limit {
            limit -= step as usize;
            if is_same_mark(self.marks.get(limit).unwrap(), mark) {
                return true;
            }
            step = self.links.get(limit).unwrap().link(mark_bit(mark, depth));
            depth += 1;
        }
        false
    }

    /// Puts a mark into the window as the newest; the oldest is dropped if it is full.
    fn push(&mut self, mark: Mark)
        ensures { self.new ≡ window (last self.old.capacity (self.old.marks ++ mark ∷ []))
            self.old.capacity }
    {
        let hash = hash_of(&mark, self.mask);
        let number = self.newest + 1;
        let step = number - self.heads[hash];
        self.marks.push_back(mark);
        // Its links are set by `place_newest`.
        self.links.push_back(Links {
            zeros: step,
            ones: step,
        });
        place_newest(&self.marks, &mut self.links, step);
        self.heads[hash] = number;
        self.newest = renumber(&mut self.heads, number, self.marks.len() as u32);
    }
}

/// The hash of a mark, which is its index in `heads`: the low bits of its digest's first four
/// bytes, little-endian, as many as the mask has.
fn hash_of(mark: &Mark, mask: u32) -> usize
    ensures value { result ≡ hash_of mask mark.now }
    ensures bound { result ≤ mask }
{
    let [a, b, c, d, ..] = mark.digest;
    (u32::from_le_bytes([a, b, c, d]) & mask) as usize
}

/// The mask of a hash, one less than the number of heads. That is a power of two: the capacity,
/// rounded up, and `MOST_HEADS` at most.
fn head_mask(capacity: u32) -> u32
    ensures { result < 2 ^ 31 }
{
    capacity.min(MOST_HEADS).next_power_of_two() - 1
}

/// Subtracts `less` from each number; one that is smaller becomes 0.
fn subtract_from_all(numbers: &mut [u32], less: u32)
    ensures { EachIndex numbers.old
        (λ i. slice_index numbers.new i ≡ slice_index numbers.old i - less) }
{
    for number in numbers.iter_mut() {
        *number = number.saturating_sub(less);
    }
}

/// Numbers the marks from 1 again if the numbers run out, at 2^32 - 1, and returns the number of
/// the newest mark; before that it stays `newest`, and nothing changes. The same difference is
/// subtracted from all heads, so that the `kept` marks of the window have the numbers 1 to `kept`,
/// and those that left the window have 0.
fn renumber(heads: &mut [u32], newest: u32, kept: u32) -> u32
    requires { (kept ≤ newest) × (kept + 1 < 2 ^ 32) }
    ensures heads { EachIndex heads.old
        (λ h. slice_index heads.new h ≡ slice_index heads.old h - (newest - result)) }
    ensures bounds { (kept ≤ result) × (result ≤ newest) }
    ensures room { result + 1 < 2 ^ 32 }
{
    if newest < u32::MAX {
        return newest;
    }
    subtract_from_all(heads, newest - kept);
    kept
}
