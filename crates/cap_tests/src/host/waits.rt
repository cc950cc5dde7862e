//! What is decided goes out before each read that may wait, and not packet by packet; after the end
//! nothing does.

use crate::captures::capture_of;
use crate::words::{field, line_of};
use cap_octet::{StdInput, StdOutput};
use cap_tools::{Job, Turn, run};
use cap_trial::names_over;
use std::alloc::Global;
use std::cell::Cell;
use std::io::{BufReader, BufWriter, Error, ErrorKind, Read, Result as IoResult, Write};
use std::test::Fail;

/// The words of a line over one capture or two (`capture_of`); how long the output is once the
/// first packet or report is decided, and how much longer with each that follows; and for each of
/// these how much must have been given of the first input and of the second, an end counting as one
/// byte more.
const ROWS: &str = "\
edit -F pcap in out | section ether on-0 unknown on-0 | - | 44 | 20 | 84/0 132/0
edit -F pcap in out | pcap 1 3 5 7 9 | - | 44 | 20 | 44/0 64/0 84/0 104/0 124/0
print in | pcap 1 3 5 7 9 | - | 48 | 48 | 44/0 64/0 84/0 104/0 124/0
infos a b | pcap 1 3 5 7 9 | pcap 2 4 6 8 10 | 196 | 196 | 125/0 125/125
merge -F pcap -w out a b | pcap 1 3 5 7 9 | pcap 2 4 6 8 10 | 44 | 20 | \
    44/44 64/44 64/64 84/64 84/84 104/84 104/104 124/104 124/124 125/124
merge -a -F pcap -w out a b | pcap 1 3 5 7 9 | pcap 2 4 6 8 10 | 44 | 20 | \
    44/0 64/0 84/0 104/0 124/0 125/44 125/64 125/84 125/104 125/124";

/// A row of the table.
#[derive(Drop)]
struct Row {
    words: &'static str,
    captures: [Vec<u8>; 2],
    written: (usize, usize),
    needed: Vec<(usize, usize)>,
}

/// The row of a text.
fn row_of(alloc: Global, text: &'static str) -> Result<Row, Fail> {
    let (words, rest) = field(text);
    let (first, rest) = field(rest);
    let (second, rest) = field(rest);
    let (start, rest) = field(rest);
    let (each, needed) = field(rest);
    let mut row = Row {
        words,
        captures: [capture_of(alloc, first)?, capture_of(alloc, second)?],
        written: (start.parse::<usize>()?, each.parse::<usize>()?),
        needed: Vec::new(alloc),
    };
    for pair in needed.split_whitespace() {
        let (first, second) = pair.split_once("/").ok_or("no pair")?;
        row.needed
            .push((first.parse::<usize>()?, second.parse::<usize>()?))?;
    }
    Ok(row)
}

/// How many bytes are given at a time.
const PIECES: [usize; 8] = [1, 7, 20, 30, 44, 54, 100, 1000];

/// What a run read and wrote so far.
#[derive(Clone, Copy)]
struct Course {
    given: (usize, usize),
    taken: usize,
    reads: usize,
    writes: usize,
    flushes: usize,
    /// Whether each read came after the writes of all that had been decided.
    is_in_time: bool,
}

/// Nothing is given or taken yet.
const FIRST_COURSE: Course = Course {
    given: (0, 0),
    taken: 0,
    reads: 0,
    writes: 0,
    flushes: 0,
    is_in_time: true,
};

/// How a row is run: in pieces of this number of bytes, on an output that is awaited or not, and is
/// full or not.
#[derive(Clone, Copy)]
struct Way {
    piece: usize,
    is_awaited: bool,
    is_full: bool,
}

/// How many bytes must be written of what was given.
fn owed(row: &Row, given: (usize, usize)) -> usize {
    let mut next = row.written.0;
    let mut length = 0;
    for needed in row.needed.iter() {
        if needed.0 <= given.0 && needed.1 <= given.1 {
            length = next;
        }
        next = next.saturating_add(row.written.1);
    }
    length
}

/// Gives a capture in pieces.
#[derive(Drop)]
struct Given<'a> {
    row: &'a Row,
    is_second: bool,
    rest: &'a [u8],
    piece: usize,
    course: &'a Cell<Course>,
}

impl Read for Given<'_> {
    fn read(&mut self, buf: &mut [u8]) -> IoResult<usize> {
        let mut course = self.course.get();
        course.reads = course.reads.wrapping_add(1);
        course.is_in_time = course.is_in_time && course.taken == owed(self.row, course.given);
        let room = buf.len().min(self.piece);
        let count = self.rest.read(&mut buf[..room])?;
        if self.is_second {
            course.given.1 = course.given.1.wrapping_add(count.max(1));
        } else {
            course.given.0 = course.given.0.wrapping_add(count.max(1));
        }
        self.course.set(course);
        Ok(count)
    }
}

/// Takes all, or nothing.
#[derive(Drop)]
struct Taken<'a> {
    is_full: bool,
    course: &'a Cell<Course>,
}

impl Write for Taken<'_> {
    fn write(&mut self, buf: &[u8]) -> IoResult<usize> {
        let mut course = self.course.get();
        course.writes = course.writes.wrapping_add(1);
        self.course.set(course);
        if self.is_full {
            return Err(Error::from(ErrorKind::StorageFull));
        }
        course.taken = course.taken.wrapping_add(buf.len());
        self.course.set(course);
        Ok(buf.len())
    }

    fn flush(&mut self) -> IoResult<()> {
        let mut course = self.course.get();
        course.flushes = course.flushes.wrapping_add(1);
        self.course.set(course);
        Ok(())
    }
}

/// An input that gives these bytes.
fn input_of<'a>(
    alloc: Global,
    (row, is_second): (&'a Row, bool),
    (bytes, piece): (&'a [u8], usize),
    course: &'a Cell<Course>,
) -> IoResult<StdInput<Given<'a>>> {
    let given = Given {
        row,
        is_second,
        rest: bytes,
        piece,
        course,
    };
    let reader = BufReader::with_capacity(alloc, 256, given)?;
    Ok(StdInput::new(reader))
}

/// The output of a run.
fn output_of<'a>(
    alloc: Global,
    way: Way,
    course: &'a Cell<Course>,
) -> IoResult<StdOutput<Taken<'a>>> {
    let is_full = way.is_full;
    let writer = BufWriter::with_capacity(alloc, 2048, Taken { is_full, course })?;
    Ok(if way.is_awaited {
        StdOutput::new_awaited(writer)
    } else {
        StdOutput::new(writer)
    })
}

/// A job over a row's devices.
type RowJob<'a> = Job<StdInput<Given<'a>>, StdOutput<Taken<'a>>, StdOutput<Vec<u8>>, Global>;

/// Makes all steps of a job, and some more after the last one. Whether it ended with status 0 and
/// these did nothing but return that again.
fn steps_past_the_end(mut job: RowJob<'_>, course: &Cell<Course>) -> bool {
    let mut is_done = false;
    let mut flushes = 0;
    for _ in 0..1_000 {
        let is_last = matches!(job.step(), Turn::Done(0));
        if is_done && !(is_last && course.get().flushes == flushes) {
            return false;
        }
        is_done = is_last;
        flushes = course.get().flushes;
    }
    is_done
}

/// The status of a row's run, and why a write failed, if one did. The steps of a job have status 0
/// if they reached its end and did nothing after that.
type Ended = (u8, Option<ErrorKind>);

/// Runs a row, or makes the steps of its job.
fn run_row(
    alloc: Global,
    row: &Row,
    (way, by_steps): (Way, bool),
    course: &Cell<Course>,
) -> Result<Ended, Fail> {
    let [first, second] = &row.captures;
    let line = line_of(alloc, row.words)?;
    let names = names_over(alloc, &line)?;
    let mut inputs = Vec::new(alloc);
    inputs.push(input_of(alloc, (row, false), (first, way.piece), course)?)?;
    if !second.is_empty() {
        inputs.push(input_of(alloc, (row, true), (second, way.piece), course)?)?;
    }
    let out = output_of(alloc, way, course)?;
    let err = StdOutput::new(BufWriter::new(alloc, Vec::new(alloc))?);
    if !line.command.is_proper(inputs.len()) {
        return Err(Fail::from("the command may not be run"));
    }
    if by_steps {
        let Ok(job) = Job::new(alloc, line.command, names, inputs, out, err) else {
            return Err(Fail::from("no job"));
        };
        return Ok((u8::from(!steps_past_the_end(job, course)), None));
    }
    let (status, out, _) = run(alloc, line.command, names, inputs, out, err);
    Ok((status, out.into_inner().1))
}

/// What is decided is written before each read, by one write at most; where nobody waits for it, it
/// is written at the end.
#[test]
fn packets_are_written_before_reads(rt: HostRuntime) -> Result<(), Fail> {
    for text in ROWS.lines() {
        let row = &row_of(rt.alloc(), text)?;
        for piece in PIECES {
            for is_awaited in [true, false] {
                let way = Way {
                    piece,
                    is_awaited,
                    is_full: false,
                };
                let course = Cell::new(FIRST_COURSE);
                let ended = run_row(rt.alloc(), row, (way, false), &course)?;
                let seen = course.get();
                let is_whole = seen.taken == owed(row, (1_000, 1_000));
                let are_few = seen.writes <= seen.reads && seen.writes <= row.needed.len();
                assert!(rt;
                    ended == (0, None) && seen.is_in_time == is_awaited && is_whole && are_few,
                    "{text}, {piece}, {is_awaited}"
                );
            }
        }
    }
    Ok(())
}

/// Where what is decided can't be written before a read, the run ends there.
#[test]
fn full_outputs_end_runs_before_reads(rt: HostRuntime) -> Result<(), Fail> {
    for text in ROWS.lines() {
        let row = &row_of(rt.alloc(), text)?;
        for piece in PIECES {
            let way = Way {
                piece,
                is_awaited: true,
                is_full: true,
            };
            let course = Cell::new(FIRST_COURSE);
            let ended = run_row(rt.alloc(), row, (way, false), &course)?;
            let Course { given, writes, .. } = course.get();
            let is_first = owed(row, (given.0.saturating_sub(piece), given.1)) == 0
                || owed(row, (given.0, given.1.saturating_sub(piece))) == 0;
            assert!(rt;
                ended == (1, Some(ErrorKind::StorageFull)) && writes >= 1 && is_first,
                "{text}, {piece}"
            );
        }
    }
    Ok(())
}

/// A job that ended passes on nothing more.
#[test]
fn steps_after_the_last_do_nothing(rt: HostRuntime) -> Result<(), Fail> {
    for text in ROWS.lines() {
        let row = &row_of(rt.alloc(), text)?;
        let way = Way {
            piece: 7,
            is_awaited: true,
            is_full: false,
        };
        let course = Cell::new(FIRST_COURSE);
        let ended = run_row(rt.alloc(), row, (way, true), &course)?;
        assert!(rt; ended.0 == 0, "{text}");
    }
    Ok(())
}
