//! When outputs are written, flushed and found to fail.

use super::folder::{enter, leave};
use cap_octet::{Output, StdOutput};
use capkit::ending::{finish, flush_output};
use capkit::opening::{Target, buffer_output, create_output};
use capkit::stop::Stop;
use capkit::streams::Created;
use std::fs;
use std::io::{self, BufWriter, Error, ErrorKind, IsTerminal, Write};
use std::test::Fail;

/// The buffer before the output of that name.
fn target_of<'a>(rt: &'a HostRuntime, name: &'a str, may_wait: bool) -> Result<Target<'a>, Fail> {
    match create_output(rt, name) {
        Ok(created) => match buffer_output(rt, created, may_wait) {
            Ok(target) => Ok(target),
            Err(_) => Err(Fail::from("no buffer")),
        },
        Err(_) => Err(Fail::from("not created")),
    }
}

/// Whether this is the failure of a device that takes nothing.
fn is_full(written: io::Result<()>) -> bool {
    matches!(written, Err(error) if error.kind() == ErrorKind::StorageFull)
}

/// What is buffered at the end of a run is written, whatever its status; and if it can't be, the
/// run says so.
#[test]
fn last_writes_are_made(rt: HostRuntime) -> Result<(), Fail> {
    for status in 0..3 {
        let mut target = target_of(&rt, "/dev/full", false)?;
        assert!(rt; matches!(target.write(b"a"), Ok(1)));
        let (mut writer, _) = target.into_inner();
        assert!(rt; is_full(flush_output(status, &mut writer)), "{status}");
        let messages = BufWriter::new(rt.alloc(), Vec::new(rt.alloc()))?;
        let (out, err) = (StdOutput::new(writer), StdOutput::new(messages));
        let ended = finish(rt.alloc(), status, out, err, "out");
        assert!(rt; matches!(ended, Err(Stop::WriteFailed("out"))), "{status}");
    }
    Ok(())
}

/// If a read may wait, an output is one that is written before each. What can't be written then
/// is reported, and stays.
#[test]
fn failures_before_reads_are_told(rt: HostRuntime) -> Result<(), Fail> {
    for may_wait in [true, false] {
        let mut target = target_of(&rt, "/dev/full", may_wait)?;
        assert!(rt; matches!(target.write(b"a"), Ok(1)) && target.is_awaited() == may_wait);
        assert!(rt; !target.release());
        let (mut writer, cause) = target.into_inner();
        assert!(rt; cause == Some(ErrorKind::StorageFull) && is_full(writer.flush()));
    }
    Ok(())
}

/// A stream that takes all, whose flush fails, and that is a terminal.
#[derive(Drop)]
struct Unflushed;

impl Write for Unflushed {
    fn write(&mut self, buf: &[u8]) -> io::Result<usize> {
        Ok(buf.len())
    }

    fn flush(&mut self) -> io::Result<()> {
        Err(Error::from(ErrorKind::StorageFull))
    }
}

impl IsTerminal for Unflushed {
    fn is_terminal(&self) -> bool {
        true
    }
}

/// An output, whether a read may wait, the room of its buffer, and whether it is awaited.
type Buffer = (&'static str, bool, usize, bool);

const BUFFERS: [Buffer; 4] = [
    ("out", false, 262_144, false),
    ("out", true, 1_048_576, true),
    ("/dev/ptmx", false, 0, false),
    ("/dev/ptmx", true, 0, false),
];

/// A terminal gets each write at once, under a name too. `/dev/ptmx` is one if the machine has
/// it. An output passes everything on to its stream.
#[test]
fn terminals_are_known(rt: HostRuntime) -> Result<(), Fail> {
    let mut stream = Created::Stream(Unflushed);
    assert!(rt; matches!(stream.write(b"a"), Ok(1)) && is_full(stream.flush()));
    assert!(rt; stream.is_terminal());
    enter(&rt, "terminals")?;
    let has_terminal = fs::exists(&rt, "/dev/ptmx")?;
    for (name, may_wait, room, is_awaited) in BUFFERS {
        if has_terminal || name == "out" {
            let target = target_of(&rt, name, may_wait)?;
            assert!(rt; target.is_awaited() == is_awaited, "{name} {may_wait}");
            assert!(rt;
                target.into_inner().0.capacity() == room,
                "{name} {may_wait}"
            );
        }
    }
    Ok(leave(&rt)?)
}
