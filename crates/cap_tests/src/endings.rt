//! What lets its inputs go reads nothing more of them: a run, a job that is closed, and a job that
//! can't be begun. No contract states it, since it would speak of inputs that are gone.

use crate::captures::capture_of;
use crate::watched::{Asked, Watched};
use crate::words::{field, line_of};
use cap_command::Command;
use cap_octet::{MemInput, MemOutput};
use cap_tools::{Job, Turn, run};
use cap_trial::{Trial, command_over, names_over};
use capkit::Line;
use std::alloc::{AllocError, Global};
use std::cell::Cell;
use std::test::Fail;

/// An allocator that refuses what a test asks it to.
type Memory = Trial<Global>;

/// The names of inputs and of an output.
type Names<'m> = Vec<String<&'m Memory>, &'m Memory>;

/// Watched inputs.
type Inputs<'d, 'm> = Vec<Watched<'d>, &'m Memory>;

/// A job over watched inputs.
type WatchedJob<'d, 'm> = Job<Watched<'d>, MemOutput<'d>, MemOutput<'d>, &'m Memory>;

/// What is asked of two inputs.
type Counts = [Cell<Asked>; 2];

/// The words of a line, its files, with which status it ends, how many bytes it reads of each, and
/// how many of these are still lent at its end, if its files are lent: those of the last packet,
/// unless it is the first one or was read past. Most end before all is read.
const WORKS: &str = "\
print -c 1 a len = 4 | pcap 1 2 | - | 0 | 44 | 0 | 0 | 0
print -c 2 a len = 4 | pcap 1 2 3 | - | 0 | 64 | 0 | 20 | 0
print -c 1 a len = 4 | section ether raw on-0 on-1 | - | 0 | 104 | 0 | 0 | 0
merge -F pcap -w out a b | pcap 1 cut | pcap 2 3 | 1 | 53 | 44 | 0 | 0
merge -F pcap -w out a b | pcap 2 cut | pcap 1 3 | 1 | 53 | 64 | 0 | 20
merge -a -F pcap -w out a b | pcap 1 cut | pcap 2 3 | 1 | 53 | 0 | 0 | 0
infos a b | pcap 1 cut | pcap 2 3 | 1 | 53 | 0 | 0 | 0
edit -D 3 -F pcap a out | section ether raw on-0 on-1 on-0 | - | 1 | 140 | 0 | 36 | 0
infos a b | pcap 1 | pcap-2.3 2 3 | 1 | 44 | 24 | 0 | 0
merge -F pcap -w out a b | pcap 1 3 | pcap 2 | 0 | 64 | 44 | 0 | 0";

/// A row of the table.
#[derive(Drop)]
struct Work {
    line: Line,
    files: [Vec<u8>; 2],
    status: u8,
    bytes: [usize; 2],
    lent: [usize; 2],
}

/// The work of a row.
fn work_of(alloc: Global, row: &'static str) -> Result<Work, Fail> {
    let (words, rest) = field(row);
    let (first, rest) = field(rest);
    let (second, rest) = field(rest);
    let (status, rest) = field(rest);
    let (of_first, rest) = field(rest);
    let (of_second, rest) = field(rest);
    let (lent_of_first, lent_of_second) = field(rest);
    Ok(Work {
        line: line_of(alloc, words)?,
        files: [capture_of(alloc, first)?, capture_of(alloc, second)?],
        status: status.parse::<u8>()?,
        bytes: [of_first.parse::<usize>()?, of_second.parse::<usize>()?],
        lent: [
            lent_of_first.parse::<usize>()?,
            lent_of_second.parse::<usize>()?,
        ],
    })
}

/// How a work is done: whether its files are lent, by how many steps of a job before that is
/// closed, else by a run, and which allocation fails, none at 0.
#[derive(Clone, Copy)]
struct Way {
    lends: bool,
    steps: Option<usize>,
    growth: u64,
}

/// What became of a job or a run: whether it was begun, the status, if it reached its end, and what
/// was asked of its inputs up to its last step.
#[derive(Clone, Copy)]
struct Ended {
    is_begun: bool,
    status: Option<u8>,
    stepped: [Asked; 2],
}

/// The same, with what was asked once the inputs were gone, how many bytes were written, and
/// whether the only message was that there is no memory; None if there was another one.
#[derive(Clone, Copy)]
struct Seen {
    ended: Ended,
    asked: [Asked; 2],
    written: usize,
    told: Option<bool>,
}

/// What was asked of each input so far.
fn asked_of(asked: &Counts) -> [Asked; 2] {
    [asked[0].get(), asked[1].get()]
}

/// Inputs over the files, the second one if it isn't empty.
fn inputs_of<'d, 'm>(
    memory: &'m Memory,
    work: &'d Work,
    lends: bool,
    asked: &'d Counts,
) -> Result<Inputs<'d, 'm>, AllocError> {
    let mut inputs = Vec::new(memory);
    for (bytes, asked) in work.files.iter().zip(asked.iter()) {
        if !bytes.is_empty() {
            let inner = MemInput::new(bytes);
            inputs.push(Watched {
                inner,
                asked,
                lends,
            })?;
        }
    }
    Ok(inputs)
}

/// Makes steps, and closes the job.
fn step_and_close<'d>(
    mut job: WatchedJob<'d, '_>,
    steps: usize,
    asked: &Counts,
) -> (Ended, MemOutput<'d>, MemOutput<'d>) {
    let mut status = None;
    for _ in 0..steps {
        status = match job.step() {
            Turn::More => None,
            Turn::Done(status) => Some(status),
        };
    }
    let stepped = asked_of(asked);
    let (out, err) = job.close();
    let ended = Ended {
        is_begun: true,
        status,
        stepped,
    };
    (ended, out, err)
}

/// Runs a command, or makes steps of its job. None if it may not be run.
fn end_of<'d, 'm>(
    memory: &'m Memory,
    (command, names, inputs): (Command<&'m Memory>, Names<'m>, Inputs<'d, 'm>),
    (out, err): (MemOutput<'d>, MemOutput<'d>),
    way: Way,
    asked: &Counts,
) -> Option<(Ended, MemOutput<'d>, MemOutput<'d>)> {
    if !command.is_proper(inputs.len()) {
        return None;
    }
    memory.refuse(way.growth);
    let mut ended = Ended {
        is_begun: way.steps.is_none(),
        status: None,
        stepped: asked_of(asked),
    };
    let Some(steps) = way.steps else {
        let (status, out, err) = run(memory, command, names, inputs, out, err);
        ended.status = Some(status);
        ended.stepped = asked_of(asked);
        return Some((ended, out, err));
    };
    match Job::new(memory, command, names, inputs, out, err) {
        Ok(job) => Some(step_and_close(job, steps, asked)),
        Err(left) => {
            let (out, err) = left;
            Some((ended, out, err))
        }
    }
}

/// Does a work.
fn do_work(alloc: Global, work: &Work, way: Way) -> Result<Seen, Fail> {
    let memory = Trial::new(alloc);
    let asked = [Cell::new(Asked::nothing()), Cell::new(Asked::nothing())];
    let command = command_over(&memory, &work.line, &[])?;
    let names = names_over(&memory, &work.line)?;
    let inputs = inputs_of(&memory, work, way.lends, &asked)?;
    let mut room = [0; 1_000];
    let mut told = [0; 1_000];
    let outputs = (MemOutput::new(&mut room), MemOutput::new(&mut told));
    let (ended, out, err) = end_of(&memory, (command, names, inputs), outputs, way, &asked).ok_or(
        "the command may not be run",
    )?;
    let told = match err.written() {
        b"" => Some(false),
        b"capkit: no memory\n" => Some(true),
        _ => None,
    };
    Ok(Seen {
        ended,
        asked: asked_of(&asked),
        written: out.written().len(),
        told,
    })
}

/// Whether a work was done with its status, after as many bytes as it says: given, or lent.
fn is_done(work: &Work, lends: bool, seen: &Seen) -> bool {
    let mut given = work.bytes;
    if lends {
        given[0] = given[0].saturating_sub(work.lent[0]);
        given[1] = given[1].saturating_sub(work.lent[1]);
    }
    let [first, second] = seen.asked;
    seen.ended.status == Some(work.status) && [first.bytes, second.bytes] == given
}

/// Whether the job, closed after each number of steps, reads as much of its inputs as its steps
/// did, and after its last step as much as the work says.
fn closes_quietly(alloc: Global, work: &Work, lends: bool) -> Result<bool, Fail> {
    for steps in 0..1_000 {
        let way = Way {
            lends,
            steps: Some(steps),
            growth: 0,
        };
        let seen = do_work(alloc, work, way)?;
        if seen.ended.stepped != seen.asked {
            return Ok(false);
        }
        if seen.ended.status.is_some() {
            return Ok(is_done(work, lends, &seen));
        }
    }
    Ok(false)
}

/// Whether nothing was asked of an input and nothing written, and this is reported.
fn is_quiet(seen: &Seen, told: bool) -> bool {
    seen.asked == [Asked::nothing(), Asked::nothing()]
        && seen.written == 0
        && seen.told == Some(told)
}

/// Refuses each growth that a job begins with. Whether each is refused quietly, by a run with its
/// message. How many there are; None if one isn't.
fn refusals(alloc: Global, work: &Work, lends: bool) -> Result<Option<u64>, Fail> {
    for growth in 1..1_000u64 {
        let mut way = Way {
            lends,
            steps: Some(0),
            growth,
        };
        let seen = do_work(alloc, work, way)?;
        if !is_quiet(&seen, false) {
            return Ok(None);
        }
        if seen.ended.is_begun {
            return Ok(Some(growth - 1));
        }
        way.steps = None;
        let seen = do_work(alloc, work, way)?;
        if !is_quiet(&seen, true) || seen.ended.status != Some(1) {
            return Ok(None);
        }
    }
    Ok(None)
}

#[test]
fn a_job_that_is_closed_reads_no_more(rt: HostRuntime) -> Result<(), Fail> {
    for row in WORKS.lines() {
        let work = work_of(rt.alloc(), row)?;
        for lends in [false, true] {
            assert!(rt; closes_quietly(rt.alloc(), &work, lends)?, "{row}");
        }
    }
    Ok(())
}

#[test]
fn a_run_reads_no_more_than_its_steps(rt: HostRuntime) -> Result<(), Fail> {
    for row in WORKS.lines() {
        let work = work_of(rt.alloc(), row)?;
        for lends in [false, true] {
            let way = Way {
                lends,
                steps: None,
                growth: 0,
            };
            let seen = do_work(rt.alloc(), &work, way)?;
            assert!(rt; is_done(&work, lends, &seen), "{row}");
        }
    }
    Ok(())
}

/// If there is no memory for a job, its inputs aren't read. Some allocation fails.
#[test]
fn a_job_that_cannot_be_begun_reads_nothing(rt: HostRuntime) -> Result<(), Fail> {
    let mut all = 0u64;
    for row in WORKS.lines() {
        let work = work_of(rt.alloc(), row)?;
        for lends in [false, true] {
            let refused = refusals(rt.alloc(), &work, lends)?;
            assert!(rt; refused.is_some(), "{row}");
            all = all.saturating_add(refused.unwrap_or(0));
        }
    }
    assert!(rt; all > 0);
    Ok(())
}
