//! Shows the progress of long work on a terminal, if the output is a file: from two seconds on, and
//! erased at the end.

use crate::STANDARD;
use crate::identity::{Found, look_up};
use std::cell::Cell;
use std::io::{self, IsTerminal, Read};
use std::time::Instant;
use std::{env, fs};

/// The second since the start of a job at which progress is shown first.
const FIRST_SHOWN: u64 = 2;

/// The bytes of a MiB.
const MIB: u64 = 1_048_576;

/// The size of all files of these names, in bytes. 0 if one is standard input or no plain file,
/// so that its size isn't known.
pub fn total_size(rt: &HostRuntime, names: &[String]) -> u64 {
    let mut total: u64 = 0;
    for name in names {
        match look_up(rt, name) {
            Found::File(_, size) if name.as_str() != STANDARD => total = total.saturating_add(size),
            _ => return 0,
        }
    }
    total
}

/// Whether a line can be written over on standard error: it is a terminal, and its name, as `TERM`
/// has it, isn't `dumb`.
pub fn can_write_over(is_terminal: bool, name: Option<&str>) -> bool {
    is_terminal && name != Some("dumb")
}

/// Whether standard error is a terminal on which a line can be written over.
fn is_drawable(rt: &HostRuntime) -> bool {
    let is_terminal = rt.stderr().is_terminal();
    match env::var(rt, "TERM") {
        Ok(name) => can_write_over(is_terminal, Some(name.as_str())),
        Err(_) => can_write_over(is_terminal, None),
    }
}

/// Whether a process is in the foreground of its terminal, by what the system shows of it: fields,
/// of which the second is a name in parentheses, the fifth the group of the process, and the eighth
/// the group that has the terminal. True if there are no such fields.
///
/// The name may hold blanks and parentheses.
pub fn is_in_foreground(status: &str) -> bool {
    let Some((_, fields)) = status.rsplit_once(')') else {
        return true;
    };
    let mut fields = fields.split_whitespace();
    // After the name, the third is the fifth of all, and the third after that the eighth.
    match (fields.nth(2), fields.nth(2)) {
        (Some(group), Some(foreground)) => group == foreground,
        _ => true,
    }
}

/// Whether this process is in the foreground of its terminal; true even if that can't be known.
fn is_in_its_foreground(rt: &HostRuntime) -> bool {
    match fs::read_to_string(rt, "/proc/self/stat") {
        Ok(status) => is_in_foreground(&status),
        Err(_) => true,
    }
}

/// Counts the bytes that the inputs of a job read.
#[derive(Drop)]
pub struct Progress<'a> {
    rt: &'a HostRuntime,
    /// When the job began. None if nothing must be shown, so that no bytes are counted.
    pub start: Option<Instant>,
    /// The size of all inputs, in bytes; 0 if it isn't known.
    total: u64,
    /// How many bytes of the inputs were read.
    read: Cell<u64>,
    /// The second since the start at which progress is shown next.
    next: Cell<u64>,
    /// Whether the line of progress is on the terminal.
    is_shown: Cell<bool>,
}

/// The time now, at which a job begins that shows its progress. `None` if it must show none:
/// if the line can't be drawn, if the output isn't a file, nor will be a new one, so that its
/// lines could meet the line of progress on the terminal, or if the clock can't be read.
pub fn progress_start(rt: &HostRuntime, output: &str, is_drawable: bool) -> Option<Instant> {
    // What goes to standard output may reach the terminal, by a pipe too.
    if !is_drawable || output == STANDARD || matches!(look_up(rt, output), Found::Other) {
        return None;
    }
    Instant::now(rt).ok()
}

impl<'a> Progress<'a> {
    /// Progress of a job that begins now with the inputs of these names, of which nothing is read
    /// yet.
    pub fn new(rt: &'a HostRuntime, names: &[String], output: &str) -> Progress<'a> {
        let start = progress_start(rt, output, is_drawable(rt));
        Progress::since(rt, start, total_size(rt, names))
    }

    /// Progress of a job that began at `start`, or that shows none, with inputs of `total` bytes,
    /// of which nothing is read yet.
    pub fn since(rt: &'a HostRuntime, start: Option<Instant>, total: u64) -> Progress<'a> {
        Progress {
            rt,
            start,
            total,
            read: Cell::new(0),
            next: Cell::new(FIRST_SHOWN),
            is_shown: Cell::new(false),
        }
    }

    /// Where progress may be shown, counts bytes that were read just now, and shows it on standard
    /// error if it is due; but not from the background: the line could meet what is typed.
    fn count(&self, bytes: usize) {
        if let Some(start) = self.start {
            // If the clock can't be read, nothing is shown.
            let seconds = match start.elapsed(self.rt) {
                Ok(elapsed) => elapsed.as_secs(),
                Err(_) => 0,
            };
            if self.count_and_check_due(bytes, seconds) && is_in_its_foreground(self.rt) {
                self.show(self.rt, seconds);
            }
        }
    }

    /// Counts bytes that were read by the second `seconds` since the start, and shows progress on
    /// this terminal, once a second at most. Tests call it, with a time and a terminal of their
    /// own.
    pub fn count_at(&self, terminal: &impl Eprint, bytes: usize, seconds: u64) {
        if self.count_and_check_due(bytes, seconds) {
            self.show(terminal, seconds);
        }
    }

    /// Counts bytes that were read by the second `seconds` since the start, and returns whether
    /// progress must be shown: once a second at most.
    fn count_and_check_due(&self, bytes: usize, seconds: u64) -> bool {
        self.read.set(self.read.get().saturating_add(bytes as u64));
        let is_due = seconds >= self.next.get();
        if is_due {
            self.next.set(seconds.saturating_add(1));
        }
        is_due
    }

    /// Writes the line of progress, with the share of the inputs that was read, or the MiB, and the
    /// MiB per second since the start. It is written over the existing line: `\r` goes back to
    /// its start, and `\x1b[K` erases it. What can't be written is lost.
    fn show(&self, terminal: &impl Eprint, seconds: u64) {
        self.is_shown.set(true);
        let read = self.read.get();
        let mib = read / MIB;
        let rate = mib / seconds.max(1);
        let (amount, unit) = if self.total == 0 {
            (u128::from(mib), " MiB")
        } else {
            let share = u128::from(read) * 100 / u128::from(self.total);
            (share.min(100), "%")
        };
        let _ = terminal.eprint(format_args!("\r\x1b[K{amount}{unit} read, {rate} MiB/s"));
    }

    /// Ends progress: erases its line, if there is one; but not from the background: that
    /// would erase what is typed.
    pub fn end(&self) {
        if self.is_shown.get() && !is_in_its_foreground(self.rt) {
            self.is_shown.set(false);
        }
        self.erase(self.rt);
    }

    /// Erases the line of progress from this terminal, if there is one.
    pub fn erase(&self, terminal: &impl Eprint) {
        if self.is_shown.replace(false) {
            let _ = terminal.eprint(format_args!("\r\x1b[K"));
        }
    }
}

/// A reader whose bytes are counted.
#[derive(Drop)]
pub struct Counted<'a, R> {
    pub reader: R,
    /// What counts them.
    pub progress: &'a Progress<'a>,
}

impl<R: Read> Read for Counted<'_, R> {
    /// One read of the reader, whose bytes are counted.
    fn read(&mut self, buf: &mut [u8]) -> io::Result<usize> {
        let read = self.reader.read(buf);
        if let Ok(count) = &read {
            self.progress.count(*count);
        }
        read
    }
}
