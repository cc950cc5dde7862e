//! What a source returns and reads after its end or its error.

use crate::captures::capture_of;
use crate::streams::captures::{capture, read_on};
use crate::watched::{Asked, Watched};
use cap_io::Source;
use cap_octet::{Fault, MemInput};
use std::alloc::Global;
use std::cell::Cell;
use std::test::Fail;

/// Reads to the end or error and then on. Whether the result stays, and nothing more is read.
fn stays(alloc: Global, bytes: &[u8], want: Result<bool, Fault>, count: u64) -> bool {
    let asked = Cell::new(Asked::nothing());
    let input = Watched {
        inner: MemInput::new(bytes),
        asked: &asked,
        lends: false,
    };
    let mut source = Source::new(alloc, input);
    let mut holds = true;
    for _ in 0..3 {
        let (_, last, _) = read_on(&mut source);
        holds = holds && last == want && asked.get().calls == count;
    }
    holds
}

/// The length of a prefix of a capture with one record of 3 bytes, its last result, and how many
/// reads give that.
fn last_results() -> [(usize, Result<bool, Fault>, u64); 5] {
    [
        (3, Err(Fault::NotACaptureFile), 2),
        (24, Ok(false), 3),
        (30, Err(Fault::Truncated), 4),
        (42, Err(Fault::Truncated), 5),
        (43, Ok(false), 5),
    ]
}

#[test]
fn no_read_after_an_end(rt: HostRuntime) -> Result<(), Fail> {
    let bytes = capture(rt.alloc(), &[3])?;
    for (length, want, count) in last_results() {
        let prefix = bytes.get(..length).ok_or("too short")?;
        assert!(rt; stays(rt.alloc(), prefix, want, count), "{length} bytes");
    }
    Ok(())
}

/// A packet without its interface is an error that stays: the section, and the block's header and
/// body, take four reads.
#[test]
fn no_read_after_an_error_of_a_block(rt: HostRuntime) -> Result<(), Fail> {
    let bytes = capture_of(rt.alloc(), "section on-0 on-0")?;
    assert!(rt; stays(rt.alloc(), &bytes, Err(Fault::UnknownInterface), 5));
    Ok(())
}
