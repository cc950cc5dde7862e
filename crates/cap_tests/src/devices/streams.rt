//! What std's readers and writers give and take through capkit's devices, a few bytes per call and
//! the places of failures.
use cap_octet::{DeviceFault, Input, Output, StdInput, StdOutput, read_full, write_all};
use std::io::{BufReader, BufWriter, Cursor, Error, ErrorKind, Read, Result, Write};

/// Whether the next read, of at most two bytes, gives these.
fn gives<I: Input>(input: &mut I, bytes: &[u8]) -> bool {
    let mut buf = [0; 2];
    input.read(&mut buf) == Ok(bytes.len()) && buf.get(..bytes.len()) == Some(bytes)
}

#[test]
fn a_reader_is_read_to_its_end(rt: HostRuntime) {
    let reader = BufReader::with_capacity(rt.alloc(), 8, b"abcde".as_slice());
    let mut input = StdInput::new(reader.expect(&rt, "memory"));
    for bytes in [b"ab".as_slice(), b"cd", b"e", b"", b""] {
        assert!(rt; gives(&mut input, bytes));
    }
}

#[test]
fn readers_in_pieces_fill_a_buffer(rt: HostRuntime) {
    let pieces = b"abc".as_slice().chain(b"de".as_slice());
    let reader = BufReader::with_capacity(rt.alloc(), 4, pieces);
    let mut input = StdInput::new(reader.expect(&rt, "memory"));
    let mut buf = [0; 4];
    assert!(rt; read_full(&mut input, &mut buf) == Ok(4) && buf == *b"abcd");
    assert!(rt; read_full(&mut input, &mut buf) == Ok(1) && buf == *b"ebcd");
}

#[test]
fn a_writer_takes_all(rt: HostRuntime) {
    let writer = BufWriter::with_capacity(rt.alloc(), 4, Vec::new(rt.alloc()));
    let mut output = StdOutput::new(writer.expect(&rt, "memory"));
    assert!(rt; output.write(b"abc") == Ok(3) && output.write(b"") == Ok(0));
    assert!(rt; write_all(&mut output, b"de").is_ok());
    let (mut writer, cause) = output.into_inner();
    assert!(rt; cause.is_none() && writer.flush().is_ok());
    assert!(rt; writer.get_ref().as_slice() == b"abcde".as_slice());
}

#[test]
fn a_writer_with_less_room_takes_a_prefix(rt: HostRuntime) {
    let writer = BufWriter::with_capacity(rt.alloc(), 0, Cursor::new([0; 5]));
    let mut output = StdOutput::new(writer.expect(&rt, "memory"));
    for answer in [Ok(3), Ok(2), Err(DeviceFault)] {
        assert!(rt; output.write(b"abc") == answer);
    }
    assert!(rt; output.write(b"") == Ok(0));
    let (writer, cause) = output.into_inner();
    assert!(rt; cause == Some(ErrorKind::WriteZero));
    assert!(rt; *writer.get_ref().get_ref() == *b"abcab");
}

/// Fails for lack of room, and at every later call since its reader went away.
#[derive(Drop)]
struct Failing {
    called: bool,
}

impl Write for Failing {
    fn write(&mut self, _buf: &[u8]) -> Result<usize> {
        let kind = if self.called {
            ErrorKind::BrokenPipe
        } else {
            ErrorKind::StorageFull
        };
        self.called = true;
        Err(Error::from(kind))
    }

    fn flush(&mut self) -> Result<()> {
        Ok(())
    }
}

/// For several causes the last one is known.
#[test]
fn the_last_cause_is_kept(rt: HostRuntime) {
    for (writes, wanted) in [(1, ErrorKind::StorageFull), (2, ErrorKind::BrokenPipe)] {
        let writer = Failing { called: false };
        let writer = BufWriter::with_capacity(rt.alloc(), 0, writer).expect(&rt, "memory");
        let mut output = StdOutput::new(writer);
        for _ in 0..writes {
            assert!(rt; output.write(b"a") == Err(DeviceFault));
        }
        let (_, cause) = output.into_inner();
        assert!(rt; cause == Some(wanted));
    }
}
