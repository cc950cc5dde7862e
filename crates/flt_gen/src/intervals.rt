//! The numbers that several members look for, as intervals that ascend, and the bits of them that
//! are looked at.

ghost use Rattle.std.specs.List.{list_all};
ghost use Rattle.std.specs.Prelude.{◌≡◌, ◌≤◌, [], map, count_by, OnOk, IfOk};
ghost use Rattle.flt_gen.specs.inside.Intervals.{joined_all, sought, is_aligned, idle_bits};
ghost use Rattle.flt_gen.specs.inside.Intervals.{is_block, left_out, high_mask, cut, without};
ghost use Rattle.flt_gen.specs.inside.Intervals.{no_interval};

use crate::code::Result;
use crate::elementary::Interval;
use std::alloc::Allocator;
use std::marker::Model;

/// The numbers that are looked for, under a mask if not all bits decide: the ones that come first
/// in the expression, all of them, and all but the first.
#[derive(Drop)]
pub struct Numbers<'a> {
    pub mask: Option<u32>,
    pub first: Interval,
    pub all: &'a [Interval],
    pub others: &'a [Interval],
}

impl<'a> Model for Numbers<'a> {
    ghost use Rattle.flt_gen.specs.inside.Search.{Numbers};

    ghost Value = { Numbers };

    ghost view = { λ n. record {
      mask = n.mask;
      first = n.first;
      all = n.all.now;
      others = n.others.now;
    } };
}

impl<'a> Numbers<'a> {
    /// No number is looked for.
    pub fn none() -> Self
        ensures { result ≡ record { mask = None; first = no_interval; all = []; others = [] } }
    {
        Numbers {
            mask: None,
            first: Interval { low: 0, high: 0 },
            all: &[],
            others: &[],
        }
    }
}

/// Puts intervals, which ascend by their beginnings, into a list, in which none touches the next
/// one. What was in the list goes.
#[tactic(auto, using(std::proofs::lemmas::Grind::common_steps))]
fn join_touching<A: Allocator>(numbers: &[Interval], joined: &mut Vec<Interval, A>) -> Result<()>
    ensures { OnOk result (joined.new.items ≡ joined_all numbers.now) }
{
    joined.clear();
    let [first, others @ ..] = numbers else {
        return Ok(());
    };
    let mut last = *first;
    for next in others {
        // There is a number between them.
        if next.low.saturating_sub(last.high) > 1 {
            joined.push(last)?;
            last = *next;
        } else {
            last.high = last.high.max(next.high);
        }
    }
    Ok(joined.push(last)?)
}

/// Whether an interval is a row of blocks, if each number is in a block with those that differ from
/// it only in the bits of `last`, which is 0 or the last bits.
fn is_aligned(last: u32, item: Interval) -> bool
    ensures { result ≡ is_aligned last item }
{
    item.low & last == 0 && item.high & last == last
}

/// Whether all of some intervals are rows of blocks.
fn are_aligned(last: u32, items: &[Interval]) -> bool
    ensures { result ≡ list_all (is_aligned last) items.now }
{
    for item in items {
        if !is_aligned(last, *item) {
            return false;
        }
    }
    true
}

/// The longest last bits, at most this many, that don't decide which numbers are in intervals.
#[tactic(auto, using(crate::proofs::Prefixes::none_left, crate::proofs::Prefixes::one_less))]
fn idle_bits(bits: u32, first: Interval, items: &[Interval]) -> u32
    requires { bits ≤ 31 }
    ensures { result ≡ idle_bits bits first items.now }
{
    if bits == 0 {
        return 0;
    }
    let last = (1 << bits) - 1;
    if is_aligned(last, first) && are_aligned(last, items) {
        return last;
    }
    idle_bits(bits - 1, first, items)
}

/// How many of some intervals have as many numbers as a block.
fn count_blocks(last: u32, items: &[Interval]) -> usize
    ensures { result ≡ count_by (is_block last) items.now }
{
    let mut blocks = 0;
    for item in items {
        if item.high.saturating_sub(item.low) == last {
            blocks += 1;
        }
    }
    blocks
}

/// The last bits that aren't looked at, if any may be left out: none, if that doesn't make single
/// numbers of two intervals, which are one test each then.
fn left_out(is_masked: bool, first: Interval, items: &[Interval]) -> u32
    ensures { result ≡ left_out is_masked first items.now }
{
    if !is_masked {
        return 0;
    }
    let last = idle_bits(31, first, items);
    if count_blocks(last, items) > 1 {
        return last;
    }
    0
}

/// The mask without the last bits, or `None` if there are none of these.
fn high_mask(last: u32) -> Option<u32>
    ensures { result ≡ high_mask last }
{
    if last == 0 {
        None
    } else {
        Some(u32::MAX - last)
    }
}

/// The numbers of blocks, which have 0 for the last bits: the first one's to the last one's.
fn cut(last: u32, item: Interval) -> Interval
    ensures { result ≡ cut last item }
{
    Interval {
        low: item.low,
        high: item.high.saturating_sub(last),
    }
}

/// Puts intervals, each cut to the numbers of its blocks, into a list, and those of them that
/// aren't the first member's into another one. What was in the lists goes.
#[tactic(auto, using(std::proofs::lemmas::Grind::common_steps))]
fn put_cut<A: Allocator>(
    last: u32,
    first: Interval,
    items: &[Interval],
    all: &mut Vec<Interval, A>,
    others: &mut Vec<Interval, A>,
) -> Result<()>
    ensures all { OnOk result (all.new.items ≡ map (cut last) items.now) }
    ensures others { OnOk result (others.new.items ≡ without first (map (cut last) items.now)) }
{
    all.clear();
    others.clear();
    for item in items {
        let item = cut(last, *item);
        all.push(item)?;
        if !(first.low == item.low && first.high == item.high) {
            others.push(item)?;
        }
    }
    Ok(())
}

/// Room in which the numbers of a group are put.
#[derive(Drop)]
pub struct Room<A: Allocator> {
    joined: Vec<Interval, A>,
    all: Vec<Interval, A>,
    others: Vec<Interval, A>,
}

impl<A: Allocator> Room<A> {
    /// The numbers that are looked for, of which those of the first member are `first`. They ascend
    /// by their beginnings; those that touch are joined. If `is_masked`, last bits that decide
    /// nothing may be left out.
    pub fn numbers(
        &mut self,
        is_masked: bool,
        first: Interval,
        all: &[Interval],
    ) -> Result<Numbers<'_>>
        ensures { IfOk result (λ numbers. numbers ≡ sought is_masked first all.now) }
    {
        join_touching(all, &mut self.joined)?;
        let last = left_out(is_masked, first, &self.joined);
        let first = cut(last, first);
        put_cut(last, first, &self.joined, &mut self.all, &mut self.others)?;
        Ok(Numbers {
            mask: high_mask(last),
            first,
            all: &self.all,
            others: &self.others,
        })
    }
}

impl<A: Allocator + Clone> Room<A> {
    /// Room for the numbers of one group after the other. An error is an allocator that cannot be
    /// cloned.
    pub fn new(alloc: A) -> Result<Self> {
        Ok(Room {
            joined: Vec::new(alloc.clone()?),
            all: Vec::new(alloc.clone()?),
            others: Vec::new(alloc),
        })
    }
}
