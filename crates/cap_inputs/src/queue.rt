//! Which of several inputs comes next in a merge.
use std::alloc::Allocator;
use std::cmp::Reverse;
use std::collections::BinaryHeap;
use std::marker::Model;

/// The entry of an input whose packet waits. Entries are ordered by time, then by input, as the
/// fields are.
#[derive(Clone, Copy, PartialEq, Eq, PartialOrd, Ord)]
pub struct Waiting {
    /// The greatest time of the input's packets up to and with the one that waits, in nanoseconds.
    pub time: u64,
    /// The input's index.
    pub input: usize,
}

/// The inputs that wait, each at most once. The first is the one with the least time, and of equal
/// times the lowest input.
#[derive(Drop)]
pub struct Queue<A: Allocator> {
    /// The least entry on top: std's heap has the greatest there, so that entries are reversed.
    heap: BinaryHeap<Reverse<Waiting>, A>,
}

impl<A: Allocator> Model for Queue<A> {
    ghost use Rattle.std.specs.BinaryHeap.{heap_items, heap_len, heap_capacity, IsHeap};
    ghost use Rattle.std.specs.Prelude.{◌≤◌, map, length};
    ghost use Rattle.cap_inputs.specs.{Queue.Queue as View, Queue.queue, inside.Queue.IsOnceEach};

    ghost Value = { View };

    ghost view = { λ q. queue (map (λ r. r.0) (heap_items q.heap)) (heap_capacity q.heap) };

    ghost invariant = { λ q. IsHeap ⟦<Reverse<Waiting> as Ord>⟧.cmp (heap_items q.heap)
        × IsOnceEach (map (λ r. r.0) (heap_items q.heap)) };
}

impl<A: Allocator> Queue<A> {
    ghost use Rattle.std.specs.List.{All, Sorted.IsPermutation};
    ghost use Rattle.std.specs.Prelude.{◌≡◌, ◌≢◌, ◌<◌, ◌≤◌, [], ◌∷◌, length, IfSome, MatchOption};
    ghost use Rattle.std.specs.Prelude.{if◌then◌else◌};
    ghost use Rattle.cap_inputs.specs.Queue.{queue};
    ghost use Rattle.cap_inputs.specs.inside.Queue.{IsFirstWaiting, Precedes};

    /// An empty queue with room for `count` inputs, if they are merged; else with room for none,
    /// since inputs in turn need no queue. All of its memory is allocated here; `None` if that fails.
    pub fn new(alloc: A, merges: bool, count: usize) -> Option<Self>
        ensures { IfSome result (λ q. q ≡ queue [] (if merges then count else 0)) }
    {
        let room = if merges { count } else { 0 };
        match BinaryHeap::with_capacity(alloc, room) {
            Ok(heap) => Some(Queue { heap }),
            Err(_) => None,
        }
    }

    /// Puts the entry of an input into the queue, which has none of it yet. There is room, so it
    /// allocates nothing.
    pub fn add(&mut self, entry: Waiting)
        requires room { length self.old.waiting < self.old.room }
        requires alone { All (λ w. w.input ≢ entry.input) self.old.waiting }
        ensures waiting { IsPermutation (entry ∷ self.old.waiting) self.new.waiting }
        ensures room { self.old.room ≤ self.new.room }
    {
        self.heap.push(Reverse(entry)).unwrap();
    }

    /// The entry that comes first, which stays in the queue; `None` if none waits.
    pub fn peek(&self) -> Option<Waiting>
        ensures { MatchOption result (self.now.waiting
            ≡ []) (λ w. IsFirstWaiting w self.now.waiting) }
    {
        let Some(Reverse(first)) = self.heap.peek() else {
            return None;
        };
        Some(*first)
    }

    /// Takes out the entry that comes first, and returns it; `None` if none waits.
    pub fn take(&mut self) -> Option<Waiting>
        ensures waiting { MatchOption result (self.old.waiting ≡ [])
            (λ w. IsPermutation self.old.waiting (w ∷ self.new.waiting)) }
        ensures first { MatchOption result (self.new.waiting ≡ [])
            (λ w. All (Precedes w) self.new.waiting) }
        ensures room { self.old.room ≤ self.new.room }
    {
        let Some(Reverse(first)) = self.heap.pop() else {
            return None;
        };
        Some(first)
    }
}
