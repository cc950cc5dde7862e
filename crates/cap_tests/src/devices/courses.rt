//! How many bytes go through a device in a test, and how.
ghost use Rattle.std.specs.Prelude.{◌≤◌};

use crate::devices::marked::Manner;
use std::alloc::{AllocError, Global};
use std::io::{ErrorKind, Result};
use std::process::Abort;
use std::time::{SystemTime, UNIX_EPOCH};

/// A given number of bytes go through a buffer of this capacity, in calls of these sizes by turns.
#[derive(Clone, Copy)]
pub struct Course {
    pub len: usize,
    pub capacity: usize,
    pub sizes: [usize; 6],
    pub manner: Manner,
}

impl Course {
    /// A few calls over a small buffer, of which those that fail do so like this.
    pub fn small(capacity: usize, (piece, failing, kind): (usize, usize, ErrorKind)) -> Self {
        Course {
            len: 100,
            capacity,
            sizes: [3, 1, 17, 2, 7, 20],
            manner: Manner {
                piece,
                failing,
                kind,
            },
        }
    }

    /// The same for `len` bytes, in small calls and one that is large.
    fn lengthened(mut self, len: usize, large: usize) -> Self {
        self.len = len;
        self.sizes = [16, 1, 1500, 24, large, 8];
        self
    }

    /// Names the course on which something doesn't hold, or memory runs out.
    pub fn expect(&self, rt: &impl Abort, holds: Result<bool>) {
        let Manner { piece, failing, .. } = self.manner;
        assert!(rt;
            matches!(holds, Ok(true)),
            "{} bytes, capacity {}, {piece} a call, failing {failing}",
            self.len,
            self.capacity
        );
    }

    /// How many bytes the call of this turn is for, if there is room for that many.
    pub fn size(&self, turn: usize, room: usize) -> usize
        ensures { result ≤ room }
    {
        self.sizes[turn % self.sizes.len()].min(room)
    }
}

/// The most bytes of one call.
pub const LARGEST: usize = 70_000;

/// How many bytes go through a device on long courses: more than 4 MiB, and as many as the clock
/// says, so that no number of bytes is the last one in each run.
fn drawn_length(rt: &HostRuntime) -> Result<usize> {
    let now = SystemTime::now(rt)?;
    let nanos = match now.duration_since(UNIX_EPOCH) {
        Ok(since) => since.subsec_nanos(),
        Err(_) => 0,
    };
    Ok(5_000_000 + nanos as usize % 3_000_000)
}

/// Long courses, in small calls and one that is large. In turn: every call goes through; large
/// calls go past the buffer; only small calls fill the program's buffer.
pub fn long_courses(rt: &HostRuntime) -> Result<[Course; 3]> {
    let len = drawn_length(rt)?;
    Ok([
        Course::small(0, (4096, 5, ErrorKind::TimedOut)).lengthened(len, LARGEST),
        Course::small(8192, (1000, 7, ErrorKind::TimedOut)).lengthened(len, LARGEST),
        Course::small(65_536, (usize::MAX, 3, ErrorKind::TimedOut)).lengthened(len, 1000),
    ])
}

/// The capacities of small buffers.
pub const CAPACITIES: [usize; 5] = [1, 2, 7, 16, 17];

/// Small courses: each capacity, with each number of bytes that a call moves, and failing calls.
pub fn small_courses(alloc: Global) -> std::result::Result<Vec<Course>, AllocError> {
    let mut courses = Vec::new(alloc);
    for capacity in CAPACITIES {
        for piece in [1, 2, 3, 5, usize::MAX] {
            for failing in [0, 2, 3, 7] {
                courses.push(Course::small(capacity, (piece, failing, ErrorKind::TimedOut)))?;
            }
        }
    }
    Ok(courses)
}
