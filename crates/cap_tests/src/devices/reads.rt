//! Reads of the device over std's readers, each next to what the reader did in that call.
use crate::devices::courses::{CAPACITIES, Course, LARGEST, long_courses, small_courses};
use crate::devices::marked::{Counts, MarkedReader, are_marks};
use cap_octet::{DeviceFault, Input, StdInput, read_full};
use std::alloc::Global;
use std::cell::Cell;
use std::io::{BufReader, ErrorKind, Result as IoResult};

/// An input over a marked reader.
type MarkedInput<'a> = StdInput<MarkedReader<'a>>;

/// An input over a marked reader of this course.
fn input_of<'a>(
    alloc: Global,
    course: &Course,
    counts: &'a Cell<Counts>,
) -> IoResult<MarkedInput<'a>> {
    let reader = MarkedReader {
        len: course.len,
        manner: course.manner,
        counts,
    };
    let buffered = BufReader::with_capacity(alloc, course.capacity, reader)?;
    Ok(StdInput::new(buffered))
}

/// How an input is read.
#[derive(Clone, Copy, PartialEq, Eq)]
enum Way {
    /// By single reads.
    Single,
    /// By reads that fill a buffer.
    Full,
    /// By taking what is at hand between reads.
    AtHand,
}

/// Whether a buffer of zeros has `count` bytes of the stream at its start, and no others.
fn is_filled(buf: &[u8], given: usize, count: usize) -> bool {
    let Some((front, back)) = buf.split_at_checked(count) else {
        return false;
    };
    for byte in back {
        if *byte != 0 {
            return false;
        }
    }
    are_marks(given, front)
}

/// A read, after `given` bytes of `len`: how many bytes came, and whether the end was met; if it
/// failed as often as the reader. A single read calls the reader once all of its bytes were given,
/// and then once. A buffer is full but at the end, or if the reader failed: then it has all that
/// the reader gave.
fn read_by(
    (input, counts): (&mut MarkedInput<'_>, &Cell<Counts>),
    way: Way,
    buf: &mut [u8],
    (given, len): (usize, usize),
) -> Option<(usize, bool)> {
    let old = counts.get();
    let returned = if way == Way::Full {
        buf.fill(0);
        read_full(input, buf)
    } else {
        input.read(buf)
    };
    let new = counts.get();
    let failed = usize::from(returned.is_err());
    let (room, came) = (buf.len(), new.bytes.wrapping_sub(given));
    let count = match returned {
        Ok(count) => count,
        Err(DeviceFault) if way == Way::Full => came,
        Err(DeviceFault) => 0,
    };
    let fits = match way {
        Way::Single => {
            let calls = usize::from(old.bytes == given);
            new.calls == old.calls.wrapping_add(calls) && count == room.min(came)
        }
        Way::Full if failed == 0 => count == room.min(len.wrapping_sub(given)),
        Way::Full => count < room,
        Way::AtHand => true,
    };
    let is_marked = if way == Way::Full {
        is_filled(buf, given, count)
    } else {
        count <= room && are_marks(given, &buf[..count])
    };
    let is_counted = new.failures == old.failures.wrapping_add(failed);
    (fits && is_marked && is_counted).then_some((count, returned == Ok(0)))
}

/// Takes half of what is at hand, and now and then more than that, which can't be taken; if these
/// are the bytes from here on, and no reader is called for them.
fn take_at_hand(
    (input, counts): (&mut MarkedInput<'_>, &Cell<Counts>),
    turn: usize,
    given: usize,
) -> Option<usize> {
    let hand = input.at_hand();
    if !are_marks(given, hand) {
        return None;
    }
    let there = hand.len();
    let count = if turn % 5 == 4 { there + 1 } else { there / 2 };
    let old = counts.get();
    let passed = input.pass(count);
    if passed != (count <= there) || counts.get().calls != old.calls {
        return None;
    }
    Some(if passed { count } else { 0 })
}

/// Reads to the end. Whether each call returned what the reader did, and all bytes came.
fn reads_hold(alloc: Global, course: &Course, way: Way, room: &mut [u8]) -> IoResult<bool> {
    let counts = Cell::new(Counts::new());
    let mut input = input_of(alloc, course, &counts)?;
    let mut given = 0usize;
    for turn in 0..usize::MAX {
        if way == Way::AtHand {
            let Some(taken) = take_at_hand((&mut input, &counts), turn, given) else {
                return Ok(false);
            };
            given = given.wrapping_add(taken);
        }
        let size = course.size(turn, room.len());
        let place = (given, course.len);
        let took = read_by((&mut input, &counts), way, &mut room[..size], place);
        let Some((count, is_end)) = took else {
            return Ok(false);
        };
        given = given.wrapping_add(count);
        if is_end {
            break;
        }
    }
    Ok(given == course.len)
}

#[test]
fn reads_past_4_mib_are_the_readers(rt: HostRuntime) {
    let mut room = vec![in rt.alloc(); 0; LARGEST].expect(&rt, "memory");
    for course in long_courses(&rt).expect(&rt, "a clock") {
        course.expect(&rt, reads_hold(rt.alloc(), &course, Way::Single, &mut room));
    }
}

#[test]
fn reads_over_small_buffers_are_the_readers(rt: HostRuntime) {
    let mut room = [0; 20];
    for course in &small_courses(rt.alloc()).expect(&rt, "memory") {
        for way in [Way::Single, Way::Full, Way::AtHand] {
            course.expect(&rt, reads_hold(rt.alloc(), course, way, &mut room));
        }
    }
}

/// A read that a signal interrupts is a failure as any other. The next one goes on.
#[test]
fn an_interrupted_read_fails(rt: HostRuntime) {
    let mut room = [0; 20];
    for capacity in [0, 1, 7] {
        let course = Course::small(capacity, (2, 2, ErrorKind::Interrupted));
        for way in [Way::Single, Way::Full] {
            course.expect(&rt, reads_hold(rt.alloc(), &course, way, &mut room));
        }
    }
}

/// Each read over a reader that always fails calls it once.
#[test]
fn reads_of_a_broken_reader_fail(rt: HostRuntime) {
    for capacity in CAPACITIES {
        let counts = Cell::new(Counts::new());
        let course = Course::small(capacity, (1, 1, ErrorKind::TimedOut));
        let mut input = input_of(rt.alloc(), &course, &counts).expect(&rt, "memory");
        for calls in 1..9 {
            let fails = input.read(&mut [0; 3]) == Err(DeviceFault);
            assert!(rt; fails && counts.get().are_failures(calls));
        }
    }
}
