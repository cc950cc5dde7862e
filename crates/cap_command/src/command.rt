//! Commands: what is asked for, as values, and which of them may be run.
ghost use Rattle.std.specs.{List.list_all, Option.option_map_or};
ghost use Rattle.std.specs.Prelude.{◌≡◌, string_bytes, true};
ghost use Rattle.cap_command.specs.Command.{is_proper, is_input_count, is_range, is_time};
ghost use Rattle.cap_command.specs.Command.{is_at_least_one, is_window, is_proper_shift};
ghost use Rattle.cap_command.specs.Command.{is_proper_edit, is_proper_print};
ghost use Rattle.cap_command.specs.Command.{has_at_most_one_filter, has_at_most_one_output};
ghost use Rattle.cap_command.specs.Command.{has_proper_ranges, is_in_some_range, is_kept};
ghost use Rattle.cap_command.specs.Command.{HasSameOptions};

use cap_octet::date::TIME_END;
use cap_octet::{Format, Link};
use std::alloc::{Allocator, Global};

/// How many ranges an edit has at most.
pub const MOST_RANGES: usize = 512;

/// Packets' numbers are below this.
pub const PACKET_NUMBER_END: u64 = 1 << 63;

/// How many inputs a merge or a report has at most.
pub const MOST_INPUTS: usize = 256;

/// How many packets a window for duplicates has at least, the one that is looked up among them.
pub const LEAST_WINDOW: u32 = 2;

/// How many packets a window for duplicates has at most.
pub const MOST_WINDOW: u32 = 1_000_000;

/// A command, over the allocator of its lists.
#[derive(Drop)]
pub enum Command<A: Allocator = Global> {
    Edit(Edit<A>),
    Merge(Merge),
    /// Reports on captures (capinfos(1)).
    Infos,
    Print(Print<A>),
    Compile(Compile<A>),
}

/// Selects packets by number and time, changes them, and leaves out duplicates (editcap(1)).
///
/// The steps are made in the order of the fields. Times and spans are nanoseconds below 2^63.
#[derive(Drop)]
pub struct Edit<A: Allocator = Global> {
    /// The first and the last number of each range; packets are counted from 1.
    pub ranges: Vec<(u64, u64), A>,
    /// Whether only the named packets are kept; else they are deleted.
    pub keep: bool,
    /// The first time that is kept, if any, since 1970-01-01 00:00:00 UTC.
    pub start: Option<u64>,
    /// The first time that is no longer kept, if any, since 1970-01-01 00:00:00 UTC.
    pub stop: Option<u64>,
    /// How many captured bytes are removed at the start of a packet.
    pub chop_start: u32,
    /// How many captured bytes are then removed at its end.
    pub chop_end: u32,
    /// The most captured bytes that a packet then keeps, 1 or more; all if there is none.
    pub snap: Option<u32>,
    /// What is done to times.
    pub shift: Shift,
    /// If there is one, a packet is left out that is a duplicate within this number of selected
    /// packets in a row, itself among them: `LEAST_WINDOW` to `MOST_WINDOW`.
    pub window: Option<u32>,
    /// The format that is written.
    pub format: Format,
}

/// What an edit does to times.
#[derive(Clone, Copy)]
pub enum Shift {
    None,
    /// How many nanoseconds later they are.
    Later(u64),
    /// How many nanoseconds earlier they are.
    Earlier(u64),
}

/// Writes the packets of captures as one (mergecap(1)).
#[derive(Clone, Copy)]
pub struct Merge {
    /// Whether the captures follow one another, and their packets aren't merged by time.
    pub append: bool,
    /// The format that is written.
    pub format: Format,
}

/// Prints a line for each packet that matches, or writes these packets (tcpdump(1) with `-r`).
#[derive(Drop)]
pub struct Print<A: Allocator = Global> {
    /// The filter expression (pcap-filter(7)); empty with a listing. Else all packets match an
    /// empty one.
    pub expr: String<A>,
    /// The bytes of a listing, if there is one: then the packets match that its program accepts
    /// (returns non-zero for).
    pub code: Option<Vec<u8, A>>,
    /// If there is one, the job ends after this many packets that match, 1 or more.
    pub count: Option<u64>,
    /// Whether a line has the link header too.
    pub link: bool,
    /// Whether the captured bytes after the link header follow each line.
    pub bytes: bool,
    /// The format in which the packets are written, whole, instead of lines.
    pub write: Option<Format>,
}

/// Writes a listing of a program for an expression (tcpdump(1) with `-ddd`).
#[derive(Drop)]
pub struct Compile<A: Allocator = Global> {
    /// The filter expression.
    pub expr: String<A>,
    /// The link on which the program runs.
    pub link: Link,
}

impl<A: Allocator> Command<A> {
    /// Whether the command may be run on `inputs` inputs.
    ///
    /// - An edit has one input, at most `MOST_RANGES` ranges, each from 1 on, in order and below
    ///   2^63, and if it has them, times and a span below 2^63 nanoseconds, a `snap` of at least
    ///   1 byte, and a window of `LEAST_WINDOW` to `MOST_WINDOW` packets.
    /// - A merge and a report have 1 to `MOST_INPUTS` inputs.
    /// - A print has one input, no listing with words, a count, if any, of at least 1, and a
    ///   format only where neither link headers nor bytes are asked for.
    /// - A compilation has no input.
    pub fn is_proper(&self, inputs: usize) -> bool
        ensures { result ≡ is_proper self.now inputs }
    {
        match self {
            Command::Edit(edit) => inputs == 1 && edit.is_proper(),
            Command::Merge(_) | Command::Infos => is_input_count(inputs),
            Command::Print(print) => inputs == 1 && print.is_proper(),
            Command::Compile(_) => inputs == 0,
        }
    }
}

/// Whether a merge or a report may have this number of inputs: 1 to `MOST_INPUTS`.
fn is_input_count(inputs: usize) -> bool
    ensures { result ≡ is_input_count inputs }
{
    1 <= inputs && inputs <= MOST_INPUTS
}

/// Whether the numbers are those of a range: from 1 on, in order and below 2^63.
pub fn is_range(first: u64, last: u64) -> bool
    ensures { result ≡ is_range first last }
{
    1 <= first && first <= last && last < PACKET_NUMBER_END
}

/// Whether each of these is a range; `true` of none.
fn are_ranges(ranges: &[(u64, u64)]) -> bool
    ensures { result ≡ list_all (λ range. is_range range.0 range.1) ranges.now }
{
    ranges.iter().all(|range| is_range(range.0, range.1))
}

/// Whether times and spans may be `nanos` nanoseconds: below 2^63.
fn is_time(nanos: u64) -> bool
    ensures { result ≡ is_time nanos }
{
    nanos < TIME_END
}

/// Whether an edit may have this time, if it has one: below 2^63 nanoseconds.
fn allows_time(time: Option<u64>) -> bool
    ensures { result ≡ option_map_or is_time time true }
{
    match time {
        Some(nanos) => is_time(nanos),
        None => true,
    }
}

impl Shift {
    /// Whether its span, if it has one, is below 2^63 nanoseconds.
    fn is_proper(self) -> bool
        ensures { result ≡ is_proper_shift self }
    {
        match self {
            Shift::None => true,
            Shift::Later(span) | Shift::Earlier(span) => is_time(span),
        }
    }
}

/// Whether an edit may cut packets to `snap` bytes: 1 or more, if it cuts them.
fn allows_snap(snap: Option<u32>) -> bool
    ensures { result ≡ option_map_or is_at_least_one snap true }
{
    match snap {
        Some(size) => 1 <= size,
        None => true,
    }
}

/// Whether duplicates may be searched for within `window` packets, if they are searched for:
/// `LEAST_WINDOW` to `MOST_WINDOW`.
fn allows_window(window: Option<u32>) -> bool
    ensures { result ≡ option_map_or is_window window true }
{
    match window {
        Some(count) => LEAST_WINDOW <= count && count <= MOST_WINDOW,
        None => true,
    }
}

impl<A: Allocator> Edit<A> {
    /// The same edit with these ranges, which another allocator may have made.
    pub fn with_ranges<B: Allocator>(&self, ranges: Vec<(u64, u64), B>) -> Edit<B>
        ensures ranges { result.ranges ≡ ranges }
        ensures others { HasSameOptions self.now result }
    {
        Edit {
            ranges,
            keep: self.keep,
            start: self.start,
            stop: self.stop,
            chop_start: self.chop_start,
            chop_end: self.chop_end,
            snap: self.snap,
            shift: self.shift,
            window: self.window,
            format: self.format,
        }
    }

    /// Whether ranges, times, `snap`, shift and window keep their bounds, as `Command::is_proper`
    /// has them.
    fn is_proper(&self) -> bool
        ensures { result ≡ is_proper_edit self.now }
    {
        self.has_proper_ranges()
            && allows_time(self.start)
            && allows_time(self.stop)
            && allows_snap(self.snap)
            && self.shift.is_proper()
            && allows_window(self.window)
    }

    /// Whether it has at most `MOST_RANGES` ranges, and each passes `is_range`.
    fn has_proper_ranges(&self) -> bool
        ensures { result ≡ has_proper_ranges self.now.ranges.items }
    {
        self.ranges.len() <= MOST_RANGES && are_ranges(&self.ranges)
    }

    /// Whether a range has this number.
    fn is_in_some_range(&self, number: u64) -> bool
        ensures { result ≡ is_in_some_range self.now.ranges.items number }
    {
        self.ranges
            .iter()
            .any(|range| range.0 <= number && number <= range.1)
    }

    /// Whether the packet with this number is kept by the ranges: with `keep` those in some range
    /// are, else those in none.
    pub fn keeps(&self, number: u64) -> bool
        ensures { result ≡ is_kept self.now.ranges.items self.now.keep number }
    {
        self.is_in_some_range(number) == self.keep
    }
}

/// Whether a print may end after `count` packets: 1 or more, if it has a count.
fn allows_count(count: Option<u64>) -> bool
    ensures { result ≡ option_map_or is_at_least_one count true }
{
    match count {
        Some(packets) => 1 <= packets,
        None => true,
    }
}

impl<A: Allocator> Print<A> {
    /// Whether its options go together, and its count, if it has one, is at least 1.
    fn is_proper(&self) -> bool
        ensures { result ≡ is_proper_print self.now }
    {
        self.has_at_most_one_filter() && self.has_at_most_one_output() && allows_count(self.count)
    }

    /// Whether it doesn't both write packets and add link headers or bytes to lines.
    fn has_at_most_one_output(&self) -> bool
        ensures { result ≡ has_at_most_one_output self.now.link self.now.bytes self.now.write }
    {
        self.write.is_none() || !(self.link || self.bytes)
    }

    /// Whether it doesn't have both words of an expression and a listing.
    fn has_at_most_one_filter(&self) -> bool
        ensures { result ≡ has_at_most_one_filter (string_bytes self.now.expr) self.now.code }
    {
        self.expr.is_empty() || self.code.is_none()
    }
}
