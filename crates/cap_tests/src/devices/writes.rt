//! Writes of the device over std's writers, each next to what the writer did in that call.
use crate::devices::courses::{CAPACITIES, Course, LARGEST, long_courses, small_courses};
use crate::devices::marked::{Counts, MarkedWriter, write_marks};
use cap_octet::{DeviceFault, Output, StdOutput, write_all};
use std::alloc::Global;
use std::cell::Cell;
use std::io::{BufWriter, ErrorKind, Result as IoResult, Write};

/// An output over a marked writer of this course.
fn output_of<'a>(
    alloc: Global,
    course: &Course,
    counts: &'a Cell<Counts>,
) -> IoResult<StdOutput<MarkedWriter<'a>>> {
    let manner = course.manner;
    let writer = MarkedWriter { manner, counts };
    let buffered = BufWriter::with_capacity(alloc, course.capacity, writer)?;
    Ok(StdOutput::new(buffered))
}

/// Whether this is what the writer did in a call that fails or not, after which that many bytes are
/// written in all: it failed as often, and took the bytes in order, all but those in the buffer.
fn is_the_writers(fails: bool, taken: usize, capacity: usize, old: Counts, new: Counts) -> bool {
    new.failures == old.failures.wrapping_add(usize::from(fails))
        && new.in_order
        && new.bytes <= taken
        && taken - new.bytes <= capacity
}

/// Flushes until the writer took the remainder. Whether it took every byte once, and the device
/// reports why it failed.
fn ends_well(course: &Course, output: StdOutput<MarkedWriter<'_>>, counts: &Cell<Counts>) -> bool {
    let failed = counts.get().failures > 0;
    let (mut writer, cause) = output.into_inner();
    for _ in 0..course.len {
        if writer.flush().is_ok() {
            break;
        }
    }
    let end = counts.get();
    let is_cause = cause == failed.then_some(course.manner.kind);
    is_cause && end.in_order && end.bytes == course.len
}

/// Writes once, or until all is written or a write fails. Returns how many bytes were written, and
/// whether it failed.
fn write_by(output: &mut impl Output, whole: bool, buf: &[u8]) -> (usize, bool) {
    if whole {
        return match write_all(output, buf) {
            Ok(()) => (buf.len(), false),
            Err(stopped) => (stopped.written, true),
        };
    }
    match output.write(buf) {
        Ok(count) => (count, false),
        Err(DeviceFault) => (0, true),
    }
}

/// Writes marked bytes, in single writes or whole ones. Whether each returned what the writer did,
/// and all bytes came.
fn writes_hold(alloc: Global, course: &Course, whole: bool, room: &mut [u8]) -> IoResult<bool> {
    let counts = Cell::new(Counts::new());
    let mut output = output_of(alloc, course, &counts)?;
    let mut taken = 0usize;
    for turn in 0..usize::MAX {
        let left = course.len.saturating_sub(taken);
        if left == 0 {
            break;
        }
        let size = course.size(turn, room.len().min(left));
        let buf = &mut room[..size];
        write_marks(taken, buf);
        let old = counts.get();
        let (written, fails) = write_by(&mut output, whole, buf);
        taken = taken.wrapping_add(written);
        if !is_the_writers(fails, taken, course.capacity, old, counts.get()) {
            return Ok(false);
        }
    }
    Ok(ends_well(course, output, &counts))
}

#[test]
fn writes_past_4_mib_come_to_the_writer(rt: HostRuntime) {
    let mut room = vec![in rt.alloc(); 0; LARGEST].expect(&rt, "memory");
    for course in long_courses(&rt).expect(&rt, "a clock") {
        course.expect(&rt, writes_hold(rt.alloc(), &course, false, &mut room));
    }
}

#[test]
fn writes_over_small_buffers_come_to_the_writer(rt: HostRuntime) {
    let mut room = [0; 20];
    for course in &small_courses(rt.alloc()).expect(&rt, "memory") {
        for whole in [false, true] {
            course.expect(&rt, writes_hold(rt.alloc(), course, whole, &mut room));
        }
    }
}

/// Every second call is interrupted. std's buffer makes its own writes again; a write past the
/// buffer fails, as at any other failure. In turn: how many bytes are written, what is returned,
/// and how many calls were made by then.
#[test]
fn an_interrupted_write_fails_past_the_buffer(rt: HostRuntime) {
    let course = Course::small(4, (usize::MAX, 2, ErrorKind::Interrupted));
    let counts = Cell::new(Counts::new());
    let mut output = output_of(rt.alloc(), &course, &counts).expect(&rt, "memory");
    for (bytes, answer, calls) in [
        ([0; 3].as_slice(), Ok(3), 0),
        (&[0; 3], Ok(3), 1),
        (&[0; 3], Ok(3), 3),
        (&[0; 5], Err(DeviceFault), 6),
        (&[0; 5], Ok(5), 7),
    ] {
        assert!(rt;
            output.write(bytes) == answer && counts.get().calls == calls,
            "{calls}"
        );
    }
    let (_, cause) = output.into_inner();
    assert!(rt; cause == Some(ErrorKind::Interrupted) && counts.get().bytes == 14);
}

/// Each write past the buffer of a writer that always fails calls it once.
#[test]
fn writes_to_a_broken_writer_fail(rt: HostRuntime) {
    for capacity in CAPACITIES {
        let counts = Cell::new(Counts::new());
        let course = Course::small(capacity, (1, 1, ErrorKind::TimedOut));
        let mut output = output_of(rt.alloc(), &course, &counts).expect(&rt, "memory");
        for calls in 1..9 {
            let fails = output.write(&[0; 17]) == Err(DeviceFault);
            assert!(rt; fails && counts.get().are_failures(calls));
        }
    }
}
