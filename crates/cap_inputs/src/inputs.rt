//! The inputs of a job, and which of them is next.
ghost use Rattle.std.specs.Prelude.{◌≡◌, ◌&&◌, [], true, ◌<◌, ◌≤◌, ◌-◌, ◌^◌, IsTrue, Ok, false};
ghost use Rattle.std.specs.{Option.IfSome, Prelude.length, Prelude.map};
ghost use Rattle.cap_inputs.specs.inside.Cursor.{EntersQueue, HasPlaceFor, IsAtCursor};
ghost use Rattle.cap_inputs.specs.inside.Cursor.{IsNextOfMerge, IsQueued, Leaves, first_schedule};
ghost use Rattle.cap_inputs.specs.{Fresh.fresh_view, inside.Inputs.first_declared_link};
ghost use Rattle.cap_inputs.specs.Inputs.{is_packet_found, key_of, packet_time};
ghost use Rattle.cap_inputs.specs.inside.Cursor.{is_merge, schedule_after, schedule_after_decided};
ghost use Rattle.cap_io.specs.Sequence.{order_of};
ghost use Rattle.cap_octet.specs.Views.{fresh_input};

use crate::queue::{Queue, Waiting};
use cap_io::{Kind, Source};
use cap_octet::{Fault, Input, Packet};
use std::alloc::Allocator;
use std::marker::Model;

/// An input of a job, with its current packet.
#[derive(Drop)]
pub struct InputCursor<I: Input, A: Allocator> {
    source: Source<I, A>,
    /// Whether there is a current packet that isn't decided yet.
    waiting: bool,
    /// The greatest time of the packets that are decided, in nanoseconds; 0 of none.
    greatest: u64,
    /// The time of the current packet, in nanoseconds; 0 if there is none.
    time: u64,
}

impl<I: Input, A: Allocator> Model for InputCursor<I, A> {
    ghost use Rattle.std.specs.Prelude.{◌≡◌, is_some, true};
    ghost use Rattle.cap_io.specs.Source.{Reading};
    ghost use Rattle.cap_inputs.specs.Inputs.{InputView, packet_time};

    ghost Value = { InputView };

    ghost view = { λ h. record { source = h.source; waiting = h.waiting; greatest = h.greatest } };

    ghost invariant = { λ h. (h.time ≡ packet_time h.source.packet)
        × (h.waiting ≡ true → is_some h.source.packet ≡ true)
        × (h.waiting ≡ true → h.source.phase ≡ Reading) };
}

/// Which input is next, by the order of the packets.
#[derive(Clone, Copy)]
pub enum Schedule {
    /// The inputs come one after another, and it is the turn of the one with this index.
    Turn(usize),
    /// The packets come by time, of each input the greatest up to and with its current packet.
    /// Before one is decided, the inputs with indexes from the first number on and below the second
    /// must be read on.
    Merge(usize, usize),
}

/// What a job does next.
#[derive(Clone, Copy)]
pub enum Next {
    /// Reads an input on.
    Read(usize),
    /// Decides the current packet of an input.
    Decide(usize),
    /// Finishes: all inputs are at their clean ends.
    Finish,
}

/// The time of a source's current packet, in nanoseconds; 0 if there is none.
fn current_time<I: Input, A: Allocator>(source: &Source<I, A>) -> u64
    ensures { result ≡ packet_time source.now.packet }
{
    source.time().unwrap_or(0)
}

impl<I: Input, A: Allocator> InputCursor<I, A> {
    ghost use Rattle.cap_inputs.specs.Inputs.{InputView, input_after, is_packet_found};
    ghost use Rattle.cap_inputs.specs.Inputs.{input_after_decided};
    ghost use Rattle.std.specs.Option.{option_map, IfSome};
    ghost use Rattle.std.specs.Prelude.{IsTrue, false, true, ◌≤◌, IsSome, length};
    ghost use Rattle.cap_io.specs.Source.{Advances, SectionFits, Reading, Steps, TakesIfAtHand};
    ghost use Rattle.cap_io.specs.{Source.phase_after, Reading.most_in_unit};
    ghost use Rattle.cap_io.specs.Capture.{kind_of};
    ghost use Rattle.cap_octet.specs.Packet.{captured};

    /// An input over a source of which nothing was read: no packet of it waits or is decided.
    fn new(source: Source<I, A>) -> Self
        ensures { result ≡ record { source = source; waiting = false; greatest = 0 } }
    {
        let time = current_time(&source);
        InputCursor {
            source,
            waiting: false,
            greatest: 0,
            time,
        }
    }

    /// Reads on to the next packet, as `Source::advance`, and returns whether there is one: it then
    /// waits to be decided. `false` at the clean end; a fault as of `Source::advance`.
    fn advance(&mut self) -> Result<bool, Fault>
        ensures exact { IsTrue I.tells → Advances self.old.source.phase self.old.source result
            self.new.source }
        ensures steps { Steps self.old.source.phase self.old.source result self.new.source }
        ensures phase { self.new.source.phase ≡ phase_after result }
        ensures upper_bound { SectionFits self.new.source.declared }
        ensures is { self.new ≡ input_after self.old result self.new.source }
    {
        let result = self.source.advance();
        self.waiting = matches!(result, Ok(true));
        self.time = current_time(&self.source);
        result
    }

    /// Goes on to the next packet, as `advance` does, if the device has it at hand, and returns
    /// whether it does: the packet then waits to be decided. `false`: nothing changes.
    #[inline(always)]
    fn take_at_hand(&mut self) -> bool
        ensures takes { TakesIfAtHand I.tells self.old.source result self.new.source }
        ensures upper_bound { SectionFits self.new.source.declared }
        ensures is { result ≡ true → self.new ≡ input_after self.old (Ok true) self.new.source }
        ensures nothing { result ≡ false → self.new ≡ self.old }
    {
        if !self.source.take_at_hand() {
            return false;
        }
        self.waiting = true;
        self.time = current_time(&self.source);
        true
    }

    /// The current packet, decided or not; `None` if there is none.
    pub fn packet(&self) -> Option<Packet<'_>>
        ensures packet { option_map captured result ≡ self.now.source.packet }
        ensures short { IfSome result (λ packet. length packet.bytes.now ≤ most_in_unit) }
        ensures waits { self.now.waiting ≡ true → IsSome result }
    {
        self.source.head()
    }

    /// Notes that the current packet is decided: it waits no longer, and `greatest` is its time
    /// if that is greater.
    fn mark_decided(&mut self)
        ensures following { self.new ≡ input_after_decided self.old }
        ensures reading { self.old.waiting ≡ true → self.old.source.phase ≡ Reading }
    {
        self.greatest = self.greatest.max(self.time);
        self.waiting = false;
    }

    /// The greatest time of the packets up to and with the current one, by which a merge orders
    /// inputs.
    fn key(&self) -> u64
        ensures { result ≡ key_of self.now }
    {
        self.greatest.max(self.time)
    }

    /// What the capture is; `None` until its first unit was read.
    pub fn kind(&self) -> Option<Kind>
        ensures { result ≡ kind_of self.now.source.declared }
    {
        self.source.kind()
    }

    /// The beginning of the current unit, in bytes from the start of the file, and 0 before
    /// anything is read; after a fault, the beginning of its unit; at the clean end, the number of
    /// bytes.
    pub fn offset(&self) -> u64
        ensures { result ≡ self.now.source.offset }
    {
        self.source.offset()
    }

    /// The device, as it is after what was read. It takes no memory.
    pub fn into_input(self) -> I
    where
        A: Drop,
        ensures failures { I.failures result ≡ self.source.failures }
        ensures sure { I.sure result ≡ self.source.sure }
        ensures given { I.given result ≡ self.source.given }
        ensures unread { I.unread result ≡ self.source.unread }
    {
        self.source.into_input()
    }
}

/// The inputs of a job.
#[derive(Drop)]
pub struct Inputs<I: Input, A: Allocator> {
    /// The inputs, by their indexes.
    cursors: Vec<InputCursor<I, A>, A>,
    schedule: Schedule,
    /// For a merge the inputs whose packets wait, with their keys; else empty.
    queue: Queue<A>,
}

impl<I: Input, A: Allocator> Model for Inputs<I, A> {
    ghost use Rattle.cap_inputs.specs.{Cursor.ordering_of, Inputs.InputsView};
    ghost use Rattle.cap_inputs.specs.inside.Cursor.{HoldsQueue, IsScheduled};

    ghost Value = { InputsView };

    ghost view = { λ f. record { order = ordering_of f.schedule; cursors = f.cursors.items } };

    ghost invariant = { λ f. HoldsQueue (ordering_of f.schedule) f.cursors.items f.queue
        × IsScheduled f.schedule f.cursors.items };
}

impl<I: Input, A: Allocator> Inputs<I, A> {
    ghost use Rattle.cap_inputs.specs.Inputs.{offset_at, InputsView, IsInput, MarksDecided};
    ghost use Rattle.cap_inputs.specs.{Fresh.fresh_inputs, Inputs.ReadSteps, Inputs.ReadsInput};
    ghost use Rattle.cap_inputs.specs.inside.Inputs.{IsNext, first_declared_link, is_in_turn};
    ghost use Rattle.std.specs.List.{slice_get};

    /// The inputs of a job, of which nothing is read: merged by time, or one after another. `None`
    /// if there is no memory.
    pub fn new(alloc: A, inputs: Vec<I, A>, merges: bool) -> Option<Self>
    where
        I: Drop,
        A: Copy + Drop,
        ensures { IfSome result (λ made. made ≡ fresh_inputs (order_of merges)
            (map (fresh_input I.Input) inputs.items)) }
    {
        let cursors = cursors_of(alloc, inputs)?;
        let queue = Queue::new(alloc, merges, cursors.len())?;
        let schedule = first_schedule(&cursors, merges);
        Some(Inputs {
            cursors,
            schedule,
            queue,
        })
    }

    /// The inputs, as far as they were read, by their indexes. It takes no memory.
    pub fn into_cursors(self) -> Vec<InputCursor<I, A>, A>
    where
        A: Drop,
        ensures { result.items ≡ self.cursors }
    {
        let Inputs { cursors, .. } = self;
        cursors
    }

    /// Whether the inputs come one after another.
    pub fn is_in_turn(&self) -> bool
        ensures { result ≡ is_in_turn self.now.order }
    {
        matches!(self.schedule, Schedule::Turn(_))
    }

    /// How many inputs there are.
    pub fn count(&self) -> usize
        ensures { result ≡ length self.now.cursors }
    {
        self.cursors.len()
    }

    /// The offset of the input with this index, as `InputCursor::offset` has it; 0 if there is
    /// no such input.
    pub fn offset(&self, input: usize) -> u64
        ensures { result ≡ offset_at self.now.cursors input }
    {
        if input < self.cursors.len() {
            self.cursors[input].offset()
        } else {
            0
        }
    }

    /// What a job does next: reads an input on, decides its current packet, or finishes.
    pub fn next(&self) -> Next
        ensures { IsNext self.now result }
    {
        match self.schedule {
            Schedule::Turn(turn) => next_in_turn(&self.cursors, turn),
            Schedule::Merge(next, last) => next_by_time(&self.cursors, &self.queue, next, last),
        }
    }

    /// The input with this index, with its current packet.
    pub fn cursor(&self, input: usize) -> &InputCursor<I, A>
        requires { input < length self.now.cursors }
        ensures { IsInput self.now.cursors input result.now }
    {
        &self.cursors[input]
    }

    /// Notes that the current packet of the input with this index is decided, which `next` told to
    /// decide.
    pub fn mark_decided(&mut self, input: usize)
        requires within { input < length self.old.cursors }
        requires next { IsNext self.old (Next.Decide input) }
        ensures { MarksDecided self.old input self.new }
    {
        self.cursors[input].mark_decided();
        update_after_decision(&mut self.queue, &mut self.schedule, input);
    }

    /// Whether the next packet of an input is at hand, so that no read is made for it; `false`
    /// if that isn't known, or there is no such input.
    // No more of its answer is stated: see `Source::has_next_at_hand`.
    pub fn has_next_at_hand(&self, input: usize) -> bool
        ensures comes { IsTrue I.tells → result ≡ true → IfSome
            (slice_get self.now.cursors input) (λ cursor. 12 ≤ length cursor.source.unread) }
    {
        if input < self.cursors.len() {
            let cursor = &self.cursors[input];
            cursor.source.has_next_at_hand()
        } else {
            false
        }
    }

    /// The first link type that the inputs declare so far, in their order; `None` if none does.
    pub fn first_link(&self) -> Option<u16>
        ensures { result ≡ first_declared_link self.now.cursors }
    {
        // From the last to the first, as `first_declared_link` is: an earlier one replaces it.
        let cursors = self.cursors.as_slice();
        let mut first = None;
        let mut i = cursors.len();
        while i > 0 {
            i -= 1;
            let cursor = &cursors[i];
            first = cursor.source.first_link().or(first);
        }
        first
    }

    /// Reads on the input with this index, which `next` told to read, as `read_input` does, if the
    /// device has its next packet at hand, and returns whether it has; else nothing changes.
    #[inline(always)]
    pub fn take_at_hand(&mut self, input: usize) -> bool
        requires within { input < length self.old.cursors }
        requires next { IsNext self.old (Next.Read input) }
        ensures exact { result ≡ true → IsTrue I.tells
            → ReadsInput self.old input (Ok true) self.new }
        ensures steps { result ≡ true → ReadSteps self.old input (Ok true) self.new }
        ensures nothing { result ≡ false → self.new ≡ self.old }
    {
        let cursor = &mut self.cursors[input];
        if !cursor.take_at_hand() {
            return false;
        }
        let time = cursor.key();
        update_after_packet(&mut self.queue, &mut self.schedule, Waiting { time, input });
        true
    }

    /// Reads on the input with this index, which `next` told to read, and returns whether there is
    /// a packet, which waits then; `false` at its clean end. A fault is as of `Source::advance`.
    pub fn read_input(&mut self, input: usize) -> Result<bool, Fault>
        requires within { input < length self.old.cursors }
        requires next { IsNext self.old (Next.Read input) }
        ensures exact { IsTrue I.tells → ReadsInput self.old input result self.new }
        ensures steps { ReadSteps self.old input result self.new }
        ensures count { length self.new.cursors ≡ length self.old.cursors }
    {
        let cursor = &mut self.cursors[input];
        let result = cursor.advance();
        let time = cursor.key();
        update_after_read(
            &mut self.queue,
            &mut self.schedule,
            Waiting { time, input },
            result,
        );
        result
    }
}

/// What is next of inputs in turn: the input whose turn it is is read on, or its packet that waits
/// is decided; if all had their turn, the job finishes.
fn next_in_turn<I: Input, A: Allocator>(cursors: &[InputCursor<I, A>], turn: usize) -> Next
    ensures { IsAtCursor cursors.now turn result }
{
    if turn < cursors.len() {
        let cursor = &cursors[turn];
        if cursor.waiting {
            Next::Decide(turn)
        } else {
            Next::Read(turn)
        }
    } else {
        Next::Finish
    }
}

/// Updates queue and schedule after the input of an entry was read on. For a merge the entry is
/// queued if the read found a packet, and with a packet or without the schedule goes on to the
/// next input; in turn it is the next input's turn if this one is at its clean end. If the
/// read failed, nothing changes: the same read is next.
fn update_after_read<A: Allocator>(
    queue: &mut Queue<A>,
    schedule: &mut Schedule,
    entry: Waiting,
    read: Result<bool, Fault>,
)
    requires room { (is_packet_found read && is_merge schedule.old) ≡ true
        → HasPlaceFor queue.old entry.input }
    requires upper_bound { entry.input < 2 ^ 64 - 1 }
    ensures queue { EntersQueue (is_packet_found read && is_merge schedule.old) entry queue.old
        queue.new }
    ensures schedule { schedule.new ≡ schedule_after schedule.old entry.input read }
{
    match read {
        Ok(true) => update_after_packet(queue, schedule, entry),
        Ok(false) => match schedule {
            Schedule::Turn(turn) => *turn = entry.input + 1,
            Schedule::Merge(next, _) => *next = entry.input + 1,
        },
        Err(_) => {}
    }
}

/// Updates queue and schedule after the input of an entry was read on to a packet: for a merge, the
/// entry is queued, and the schedule goes on to the next input.
#[inline(always)]
fn update_after_packet<A: Allocator>(queue: &mut Queue<A>, schedule: &mut Schedule, entry: Waiting)
    requires room { is_merge schedule.old ≡ true → HasPlaceFor queue.old entry.input }
    requires upper_bound { entry.input < 2 ^ 64 - 1 }
    ensures queue { EntersQueue (is_merge schedule.old) entry queue.old queue.new }
    ensures schedule { schedule.new ≡ schedule_after schedule.old entry.input (Ok true) }
{
    if let Schedule::Merge(next, _) = schedule {
        *next = entry.input + 1;
        queue.add(entry);
    }
}

/// Updates queue and schedule after the packet of an input was decided. For a merge that input is
/// the first one of the queue: it is taken out, and only it must be read on. In turn nothing
/// changes.
fn update_after_decision<A: Allocator>(queue: &mut Queue<A>, schedule: &mut Schedule, input: usize)
    requires { input < 2 ^ 64 - 1 }
    ensures queue { Leaves (is_merge schedule.old) queue.old queue.new }
    ensures schedule { schedule.new ≡ schedule_after_decided schedule.old input }
{
    if let Schedule::Merge(next, last) = schedule {
        *next = input;
        *last = input + 1;
        // Takes out this input, whose packet came first.
        queue.take();
    }
}

/// What is next of a merge: the inputs from `next` on and below `last` are read on; then the packet
/// of the first input in the queue is decided; if none waits, the job finishes.
fn next_by_time<I: Input, A: Allocator>(
    cursors: &[InputCursor<I, A>],
    queue: &Queue<A>,
    next: usize,
    last: usize,
) -> Next
    requires { IsQueued cursors.now queue.now }
    ensures { IsNextOfMerge cursors.now next last result }
{
    if next < last && next < cursors.len() {
        return Next::Read(next);
    }
    match queue.peek() {
        Some(first) => Next::Decide(first.input),
        None => Next::Finish,
    }
}

/// The inputs over these devices, of which nothing is read; `None` if there is no memory.
fn cursors_of<I, A>(alloc: A, inputs: Vec<I, A>) -> Option<Vec<InputCursor<I, A>, A>>
where
    I: Input + Drop,
    A: Allocator + Copy + Drop,
    ensures { IfSome result (λ cursors. cursors.items ≡ map (λ input. fresh_view
        (fresh_input I.Input input)) inputs.items) }
{
    let mut cursors = Vec::new(alloc);
    for input in inputs {
        let Ok(()) = cursors.push(InputCursor::new(Source::new(alloc, input))) else {
            return None;
        };
    }
    Some(cursors)
}

/// The schedule before anything is read: in turn from the first input on; in a merge all inputs are
/// read on first.
fn first_schedule<I: Input, A: Allocator>(cursors: &[InputCursor<I, A>], merges: bool) -> Schedule
    ensures { result ≡ first_schedule (order_of merges) (length cursors.now) }
{
    if merges {
        Schedule::Merge(0, cursors.len())
    } else {
        Schedule::Turn(0)
    }
}
