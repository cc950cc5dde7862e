//! What an edit makes of packets: which it keeps, how it changes them, and which are duplicates.
ghost use Rattle.std.specs.Prelude.{ℕ, ◌≡◌, ◌^◌, ◌<◌, ◌≤◌, IfSome, None, Ok, Option, drop, length};
ghost use Rattle.cap_octet.specs.Packet.{captured};
ghost use Rattle.cap_io.specs.Reading.{most_in_unit};
ghost use Rattle.cap_process.specs.Verdict.{edit_rule_of, edited_packet_with, is_before_stop};
ghost use Rattle.cap_process.specs.Verdict.{is_from_start, is_selected, shifted_time, selects};
ghost use Rattle.cap_process.specs.Verdict.{bytes_within_snap, unique, without_last};
ghost use Rattle.cap_process.specs.Reports.{Tally};
ghost use Rattle.cap_process.specs.Selector.{marks_in, state_of};
ghost use Rattle.cap_process.specs.inside.Selector.{IsWindowFor, ReturnsVerdict};

use crate::window::Window;
use cap_command::{Edit, Shift};
use cap_octet::date::TIME_END;
use cap_octet::{Fault, Packet};
use std::alloc::Allocator;

/// Whether a time is `start` or later; without a `start` each is. Both are in nanoseconds.
fn is_from_start(start: Option<u64>, time: u64) -> bool
    ensures { result ≡ is_from_start start time }
{
    match start {
        Some(start) => start <= time,
        None => true,
    }
}

/// Whether a time is earlier than `stop`, which is itself left out; without a `stop` each is.
fn is_before_stop(stop: Option<u64>, time: u64) -> bool
    ensures { result ≡ is_before_stop stop time }
{
    match stop {
        Some(stop) => time < stop,
        None => true,
    }
}

/// Whether an edit keeps a packet, by its number, from 1 on in the input, and by its time as it was
/// read, before any shift.
fn is_selected<A: Allocator>(edit: &Edit<A>, number: u64, packet: &Packet<'_>) -> bool
    ensures { result ≡ is_selected (edit_rule_of edit.now) number (captured packet.now) }
{
    let in_time = is_from_start(edit.start, packet.time) && is_before_stop(edit.stop, packet.time);
    edit.keeps(number) && in_time
}

/// The bytes without the first `count`; none if there are no more than these.
fn without_first(count: u32, bytes: &[u8]) -> &[u8]
    ensures { result.now ≡ drop count bytes.now }
{
    let count = bytes.len().min(count as usize);
    &bytes[count..]
}

/// The bytes without the last `count`; none if there are no more than these.
fn without_last(count: u32, bytes: &[u8]) -> &[u8]
    ensures { result.now ≡ without_last count bytes.now }
{
    let count = bytes.len().saturating_sub(count as usize);
    &bytes[..count]
}

/// The first `snap` bytes, as a snap length keeps them; all if there are fewer or no `snap` is
/// given.
fn bytes_within_snap(snap: Option<u32>, bytes: &[u8]) -> &[u8]
    ensures { result.now ≡ bytes_within_snap snap bytes.now }
{
    match snap {
        Some(snap) => &bytes[..bytes.len().min(snap as usize)],
        None => bytes,
    }
}

/// A time moved by a shift, both in nanoseconds; `None` if it would be before 1970, or 2^63 or
/// more.
fn shifted_time(shift: Shift, time: u64) -> Option<u64>
    requires { time < 2 ^ 63 }
    ensures value { result ≡ shifted_time shift time }
    ensures range { IfSome result (λ time. time < 2 ^ 63) }
{
    match shift {
        Shift::None => Some(time),
        Shift::Later(by) => {
            if by < TIME_END - time {
                Some(time + by)
            } else {
                None
            }
        }
        Shift::Earlier(by) => time.checked_sub(by),
    }
}

/// The packet as an edit writes it, at its moved time: its start is cut, then its end, then what is
/// past the snap length. Its original length and its comment are kept.
fn edited_packet<'a, A: Allocator>(edit: &Edit<A>, packet: &Packet<'a>, time: u64) -> Packet<'a>
    requires { time < 2 ^ 63 }
    ensures value { captured result
        ≡ edited_packet_with (edit_rule_of edit.now) (captured packet.now) time }
    ensures short { length result.bytes.now ≤ length packet.now.bytes.now }
{
    let rest = without_first(edit.chop_start, packet.bytes);
    let chopped = without_last(edit.chop_end, rest);
    Packet {
        link: packet.link,
        snap: packet.snap,
        name: packet.name,
        time,
        orig: packet.orig,
        bytes: bytes_within_snap(edit.snap, chopped),
        comment: packet.comment,
    }
}

/// Changes a packet into what an edit writes of it, at its moved time.
// Most edits change no bytes: then only the packet's time is written.
fn change_packet<A: Allocator>(edit: &Edit<A>, packet: &mut Packet<'_>, time: u64)
    requires { time < 2 ^ 63 }
    ensures value { captured packet.new
        ≡ edited_packet_with (edit_rule_of edit.now) (captured packet.old) time }
    ensures short { length packet.new.bytes.now ≤ length packet.old.bytes.now }
{
    if edit.chop_start == 0 && edit.chop_end == 0 && edit.snap.is_none() {
        packet.time = time;
    } else {
        *packet = edited_packet(edit, packet, time);
    }
}

/// Puts the mark of a packet (its length and digest) into the window, which keeps the last ones,
/// and returns whether the packet isn't a duplicate: whether no equal mark was there. Without a
/// window no packet is a duplicate.
fn mark_and_check_unique<A: Allocator>(window: &mut Option<Window<A>>, packet: &Packet<'_>) -> bool
    requires { length packet.now.bytes.now ≤ most_in_unit }
    ensures exact { (n : Option ℕ) (passed : ℕ) (tally : Tally) → IsWindowFor n window.old
        → ReturnsVerdict None (unique n (state_of passed (marks_in window.old) tally) (captured
        packet.now))
        (Ok result) (captured packet.now) (state_of passed (marks_in window.new) tally) }
    ensures window { (n : Option ℕ) → IsWindowFor n window.old → IsWindowFor n window.new }
{
    match window {
        Some(window) => !window.seen_before(packet.bytes),
        None => true,
    }
}

/// Edits a packet, and returns whether it passes: it is selected by its number and its time, and no
/// duplicate once its bytes are cut. One that passes is changed into what it passes as; so is a
/// duplicate, which no clause states. The one error is `TimeOutOfRange`: the time of a selected
/// packet, moved, is before 1970, or 2^63 nanoseconds or more.
pub(crate) fn edit_packet<A: Allocator>(
    edit: &Edit<A>,
    window: &mut Option<Window<A>>,
    number: u64,
    packet: &mut Packet<'_>,
) -> Result<bool, Fault>
    requires short { length packet.old.bytes.now ≤ most_in_unit }
    requires window { IsWindowFor edit.now.window window.old }
    ensures exact { (passed : ℕ) (tally : Tally)
        → ReturnsVerdict None (selects (edit_rule_of edit.now) (state_of passed (marks_in
        window.old) tally)
        number (captured packet.old))
        result (captured packet.new) (state_of passed (marks_in window.new) tally) }
    ensures window { IsWindowFor edit.now.window window.new }
{
    if !is_selected(edit, number, packet) {
        return Ok(false);
    }
    let Some(time) = shifted_time(edit.shift, packet.time) else {
        return Err(Fault::TimeOutOfRange);
    };
    change_packet(edit, packet, time);
    Ok(mark_and_check_unique(window, packet))
}
