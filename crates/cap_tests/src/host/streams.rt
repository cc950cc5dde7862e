//! Standard streams that keep what is written to them.

use capkit::message::Errors;
use std::alloc::Global;
use std::cell::RefCell;
use std::fmt::Display;
use std::io::{self, Error, ErrorKind, Write};

/// What is written, and by how many calls.
#[derive(Drop)]
pub struct Written {
    pub bytes: Vec<u8>,
    pub calls: usize,
}

impl Written {
    /// Nothing yet.
    pub fn new(alloc: Global) -> Written {
        Written {
            bytes: Vec::new(alloc),
            calls: 0,
        }
    }
}

impl Write for Written {
    fn write(&mut self, buf: &[u8]) -> io::Result<usize> {
        self.calls = self.calls.saturating_add(1);
        self.bytes.write(buf)
    }

    fn flush(&mut self) -> io::Result<()> {
        Ok(())
    }
}

/// Standard streams that keep what is written to them. Standard output fails so, if at all.
#[derive(Drop)]
pub struct Streams {
    failure: Option<ErrorKind>,
    output: RefCell<Written>,
    errors: RefCell<Written>,
}

impl Streams {
    /// Streams to which nothing is written yet. With a failure the output takes nothing.
    pub fn new(alloc: Global, failure: Option<ErrorKind>) -> Streams {
        Streams {
            failure,
            output: RefCell::new(Written::new(alloc)),
            errors: RefCell::new(Written::new(alloc)),
        }
    }

    /// Whether all that was written is these texts.
    pub fn have(&self, output: &str, errors: &str) -> bool {
        holds(&self.output, output) && holds(&self.errors, errors)
    }

    /// Whether `calls` calls wrote to standard error.
    pub fn have_calls(&self, calls: usize) -> bool {
        matches!(self.errors.try_borrow(), Ok(errors) if errors.calls == calls)
    }
}

/// Whether this is all that was written to the stream.
fn holds(stream: &RefCell<Written>, text: &str) -> bool {
    match stream.try_borrow() {
        Ok(written) => written.bytes.as_slice() == text.as_bytes(),
        Err(_) => false,
    }
}

/// Writes the value to the stream, and then `end`.
fn append(stream: &RefCell<Written>, value: impl Display + Drop, end: &str) -> io::Result<()> {
    match stream.try_borrow_mut() {
        Ok(mut written) => write!(*written, "{value}{end}"),
        Err(_) => Err(Error::from(ErrorKind::Other)),
    }
}

impl Print for Streams {
    fn print<D: Display + Drop>(&self, value: D) -> io::Result<()> {
        match self.failure {
            Some(kind) => Err(Error::from(kind)),
            None => append(&self.output, value, ""),
        }
    }

    /// Nothing is written like this.
    fn println<D: Display + Drop>(&self, _value: D) -> io::Result<()> {
        Err(Error::from(ErrorKind::Unsupported))
    }

    /// Nor so.
    fn write_all(&self, _bytes: &[u8]) -> io::Result<()> {
        Err(Error::from(ErrorKind::Unsupported))
    }
}

impl Eprint for Streams {
    fn eprint<D: Display + Drop>(&self, value: D) -> io::Result<()> {
        append(&self.errors, value, "")
    }

    fn eprintln<D: Display + Drop>(&self, value: D) -> io::Result<()> {
        append(&self.errors, value, "\n")
    }
}

impl Errors for Streams {
    fn write_text(&self, text: &str) -> io::Result<()> {
        match self.errors.try_borrow_mut() {
            Ok(mut written) => written.write_all(text.as_bytes()),
            Err(_) => Err(Error::from(ErrorKind::Other)),
        }
    }
}
