//! The trees of the index: one binary tree for each hash, with its newest mark at the root.
ghost use Rattle.std.specs.Prelude.{◌≡◌, ℕ, ◌-◌, ◌<◌, ◌^◌, length};
ghost use Rattle.cap_process.specs.inside.Index.{IsHung, IsPutOnTop, mark_bit};

use crate::mark::{Mark, is_same_mark};
use circular_buffer::HeapCircularBuffer;
use std::alloc::Allocator;

/// How many places before a mark the tops of the two trees below it are: for the marks with a 0 and
/// of those with a 1 as the bit at its depth. If a link leads out of the window, there is no
/// such tree.
#[derive(Clone, Copy)]
pub struct Links {
    pub zeros: u32,
    pub ones: u32,
}

impl Links {
    ghost use Rattle.std.specs.Prelude.{◌≡◌, ◌+◌, ◌^◌, ◌-◌, min, not};
    ghost use Rattle.cap_process.specs.inside.Index.{link_by_bit};

    /// The link to the tree of the marks with this bit.
    #[inline]
    pub fn link(&self, bit: bool) -> u32
        ensures { result ≡ link_by_bit self.now bit }
    {
        if bit { self.ones } else { self.zeros }
    }

    /// These links with `step` added to both: they lead to the same marks from a mark that is
    /// `step` places after. At 2^32 - 1 they stay, which leads out of every window.
    #[inline]
    fn plus_step(&self, step: u32) -> Links
        ensures zeros { result.zeros ≡ min (self.now.zeros + step) (2 ^ 32 - 1) }
        ensures ones { result.ones ≡ min (self.now.ones + step) (2 ^ 32 - 1) }
    {
        Links {
            zeros: self.zeros.saturating_add(step),
            ones: self.ones.saturating_add(step),
        }
    }

    /// These links, but with `step` as the link to the marks with this bit.
    #[inline]
    fn with_link(self, bit: bool, step: u32) -> Links
        ensures bit { link_by_bit result bit ≡ step }
        ensures other { link_by_bit result (not bit) ≡ link_by_bit self (not bit) }
    {
        if bit {
            Links { ones: step, ..self }
        } else {
            Links {
                zeros: step,
                ..self
            }
        }
    }
}

/// The bit of a mark at a depth: in its digest, from the last byte on and the lowest bit of each
/// first, and from depth 128 on of its length.
#[inline]
#[tactic(auto, unfolding(crate::specs::inside::Index::mark_bit))]
pub fn mark_bit(mark: &Mark, depth: u32) -> bool
    ensures { result ≡ mark_bit mark.now depth }
{
    // The 128 bits of the digest, whose last byte has index 15; then the 32 of the length.
    if depth < 128 {
        let byte = mark.digest[15 - depth as usize / 8];
        (byte >> (depth % 8)) % 2 == 1
    } else {
        (mark.length >> (depth % 32)) % 2 == 1
    }
}

/// Puts the newest mark, the last of `marks`, on top of the tree of its hash, whose top is `step`
/// places before it, by new links. The mark whose place it takes goes down by its own bits and
/// takes another's place, and so on, until there is no tree below. A mark that is equal to the one
/// that takes its place drops out of the tree, and ends this too.
#[tactic(auto, using(std::proofs::lemmas::Grind::common_steps, std::proofs::lemmas::Option::gets))]
pub fn place_newest<A: Allocator>(
    marks: &HeapCircularBuffer<Mark, A>,
    links: &mut HeapCircularBuffer<Links, A>,
    step: u32,
)
    requires upper_bound { length marks.now.items < 2 ^ 32 }
    requires long { length links.old.items ≡ length marks.now.items }
    requires hung { 0 < length marks.now.items → (mask : ℕ)
        × IsHung mask marks.now.items links.old.items 0 (length marks.now.items - 1) step }
    ensures long { length links.new.items ≡ length marks.now.items }
    ensures capacity { links.new.capacity ≡ links.old.capacity }
    ensures placed { 0 < length marks.now.items → (mask : ℕ)
        → IsHung mask marks.now.items links.old.items 0 (length marks.now.items - 1) step
        → IsPutOnTop mask marks.now.items links.old.items links.new.items
        (length marks.now.items - 1) }
{
    if marks.is_empty() {
        return;
    }
    // At each depth the mark at `place` comes on top, and the one at `lower` goes down below it.
    let (mut place, mut step, mut depth) = (marks.len() - 1, step, 0);
    while step as usize <= place {
        let lower = place - step as usize;
        let (above, below) = (marks.get(place).unwrap(), marks.get(lower).unwrap());
        let under = *links.get(lower).unwrap();
        if is_same_mark(above, below) {
            *links.get_mut(place).unwrap() = under.plus_step(step);
            return;
        }
        let bit = mark_bit(below, depth);
        *links.get_mut(place).unwrap() = under.plus_step(step).with_link(bit, step);
        (place, step, depth) = (lower, under.link(bit), depth + 1);
    }
    // The step leads out of the window, so that there is no tree below.
    *links.get_mut(place).unwrap() = Links {
        zeros: step,
        ones: step,
    };
}
