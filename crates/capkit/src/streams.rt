//! What names mean: files and the standard streams.
ghost use Rattle.std.specs.{Fd.file_raw_fd, Io.WritesAtMost};
ghost use Rattle.std.specs.Io.KnownBytes.{Keeps, WriteAppends};
ghost use Rattle.std.specs.Prelude.{◌≡◌, ◌≢◌, IfOk, IfSome, OnOk, None, false, true, not, is_err};
ghost use Rattle.capkit.specs.Streams.{holds_old_bytes, is_beside_streams, is_standard_output};
ghost use Rattle.capkit.specs.inside.Streams.{is_input_beside_streams, is_new_and_unwritten};
ghost use Rattle.capkit.specs.inside.Streams.{is_standard_input};
ghost use Rattle.capkit.specs.{Names.is_standard, Streams.is_output_beside_streams};

use crate::STANDARD;
use crate::creation::{create_missing, remove_created};
use crate::stop::Stop;
use std::fs::{File, OpenOptions};
use std::io::{self, IsTerminal, Read, Stdin, Stdout, Write};
use std::os::fd::AsRawFd;

/// The number of the last standard stream; a file of the program has a greater one.
const LAST_STREAM: i32 = 2;

/// Gives an open file another number if it has that of a standard stream. False if it has it still.
///
/// The system gives the number of a stream that was closed to the next file that is opened; what is
/// written to that stream would go into the file then.
fn move_beside_streams(file: &mut File) -> bool
    ensures { result ≡ true → is_beside_streams (file_raw_fd file.new) ≡ true }
{
    if file.as_raw_fd() > LAST_STREAM {
        return true;
    }
    // std numbers a clone from 3 on. With the first file the number of the stream is closed again.
    match file.try_clone() {
        Ok(clone) if clone.as_raw_fd() > LAST_STREAM => {
            *file = clone;
            true
        }
        _ => false,
    }
}

/// An input that was opened: a file, or standard input.
#[derive(Drop)]
pub enum Opened {
    File(File),
    Stream(Stdin),
}

impl Opened {
    /// Opens the file of that name, or standard input. `None` if it can't be opened.
    pub(crate) fn open(rt: &HostRuntime, name: &str) -> Option<Opened>
        ensures standard { IfSome result (λ opened. is_standard_input opened
            ≡ is_standard name.now) }
        ensures beside { IfSome result (λ opened. is_input_beside_streams opened ≡ true) }
    {
        if name == STANDARD {
            return Some(Opened::Stream(rt.stdin()));
        }
        let mut file = File::open(rt, name).ok()?;
        if !move_beside_streams(&mut file) {
            return None;
        }
        Some(Opened::File(file))
    }
}

impl Read for Opened {
    /// One read of the file or of standard input.
    fn read(&mut self, buf: &mut [u8]) -> io::Result<usize> {
        match self {
            Opened::File(file) => file.read(buf),
            Opened::Stream(stream) => stream.read(buf),
        }
    }
}

/// A file that is written.
pub struct OutputFile<'a> {
    file: File,
    /// Whether the file was emptied since it was opened.
    is_emptied: bool,
    /// The name by which the file was created; `None` if it was present.
    created_as: Option<(&'a HostRuntime, &'a str)>,
}

impl<'a> OutputFile<'a> {
    /// Opens the file of this name. Its bytes are kept. `None` if it can't be opened or created.
    fn open(rt: &'a HostRuntime, name: &'a str) -> Option<OutputFile<'a>>
        ensures kept { IfSome result (λ output. output.is_emptied ≡ false) }
        ensures beside { IfSome result (λ output.
            is_beside_streams (file_raw_fd output.file) ≡ true) }
    {
        let (file, created_as) = match create_missing(rt, name) {
            Some(file) => (file, Some((rt, name))),
            None => {
                let mut how = OpenOptions::new();
                how.write(true).create(true);
                (how.open(rt, name).ok()?, None)
            }
        };
        let mut output = OutputFile {
            file,
            is_emptied: false,
            created_as,
        };
        move_beside_streams(&mut output.file).then_some(output)
    }

    /// Whether the run created the file and wrote nothing to it.
    fn is_new_and_unwritten(&self) -> bool
        ensures { result ≡ is_new_and_unwritten self.now }
    {
        self.created_as.is_some() && !self.is_emptied
    }
}

impl Drop for OutputFile<'_> {
    /// Closes the file, and removes it if the run created it and wrote nothing to it.
    fn drop(self) {
        if self.is_new_and_unwritten()
            && let Some((rt, name)) = self.created_as
        {
            remove_created(rt, name, &self.file);
        }
        let OutputFile {
            file: _,
            is_emptied: _,
            created_as: _,
        } = self;
    }
}

/// An output that was created: a file, or standard output, instead of which a test has a stream of
/// its own.
#[derive(Drop)]
pub enum Created<'a, S = Stdout> {
    File(OutputFile<'a>),
    Stream(S),
}

/// Creates the output of this name: a file, or standard output. A file that is present is opened,
/// and keeps its bytes until the first write or the end of the run, or for good if the run fails
/// and writes nothing; one that is created is removed then. The one error is `CannotCreate`.
pub fn create_output<'a>(rt: &'a HostRuntime, name: &'a str) -> Result<Created<'a>, Stop<'a>>
    ensures standard { IfOk result (λ created. is_standard_output created
        ≡ is_standard name.entry.now) }
    ensures kept { IfOk result (λ created. holds_old_bytes created
        ≡ not (is_standard name.entry.now)) }
    ensures beside { IfOk result (λ created. is_output_beside_streams created ≡ true) }
{
    if name == STANDARD {
        return Ok(Created::Stream(rt.stdout()));
    }
    match OutputFile::open(rt, name) {
        Some(output) => Ok(Created::File(output)),
        None => Err(Stop::CannotCreate(name)),
    }
}

impl<S> Created<'_, S> {
    /// Removes what a plain file held before it was opened, once: after a call without an error
    /// later ones do nothing. The error is the system's.
    ///
    /// A device and a pipe hold nothing that could be removed.
    pub(crate) fn empty(&mut self) -> io::Result<()>
        ensures emptied { OnOk result (holds_old_bytes self.new ≡ false) }
        ensures again { holds_old_bytes self.old ≡ false → self.new ≡ self.old }
        ensures failed { is_err result ≡ true → self.new ≡ self.old }
    {
        match self {
            Created::File(output) if !output.is_emptied => {
                // ext4 writes a file out when it is closed that was cut to nothing, even a new one.
                let metadata = output.file.metadata()?;
                if metadata.is_file() && metadata.len() > 0 {
                    output.file.set_len(0)?;
                }
                output.is_emptied = true;
                Ok(())
            }
            _ => Ok(()),
        }
    }

    /// Removes what a plain file held before it was opened if the run's status is 0. A run that
    /// failed keeps it, unless it writes or wrote something.
    pub(crate) fn empty_if_done(&mut self, status: u8) -> io::Result<()>
        ensures failed { status ≢ 0 → self.new ≡ self.old }
        ensures done { status ≡ 0 → OnOk result (holds_old_bytes self.new ≡ false) }
    {
        if status != 0 {
            return Ok(());
        }
        self.empty()
    }
}

impl<S: Write> Write for Created<'_, S> {
    /// One write. Before the first one, what a plain file held before it was opened is removed;
    /// if it can't be, that is the error, and nothing is written.
    fn write(&mut self, buf: &[u8]) -> io::Result<usize>
        ensures bound { WritesAtMost result buf.now }
        ensures bytes { WriteAppends None None result buf.now }
        ensures emptied { IfOk result (λ _. holds_old_bytes self.new ≡ false) }
    {
        self.empty()?;
        match self {
            Created::File(output) => output.file.write(buf),
            Created::Stream(stream) => stream.write(buf),
        }
    }

    /// Writes out what the stream holds back; a file holds nothing back.
    fn flush(&mut self) -> io::Result<()>
        ensures bytes { Keeps None None }
        ensures same { holds_old_bytes self.new ≡ holds_old_bytes self.old }
    {
        match self {
            Created::File(output) => output.file.flush(),
            Created::Stream(stream) => stream.flush(),
        }
    }
}

impl<S: IsTerminal> Created<'_, S> {
    /// Whether the output is a terminal, so that somebody looks at what is written as it comes.
    pub fn is_terminal(&self) -> bool {
        match self {
            Created::File(output) => output.file.is_terminal(),
            Created::Stream(stream) => stream.is_terminal(),
        }
    }
}
