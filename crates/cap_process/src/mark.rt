//! Marks: what a window keeps of a packet and compares.
ghost use Rattle.std.specs.Prelude.{◌≡◌, ◌^◌, ◌<◌, ◌↔◌, length, IsTrue};
ghost use Rattle.cap_process.specs.Marks.{mark_of};

use md5::{Digest, Md5};

/// What packets are compared by: the number of captured bytes, and their MD5 (RFC 1321).
#[derive(Clone, Copy)]
pub struct Mark {
    /// The number of captured bytes.
    pub length: u32,
    /// Their MD5.
    pub digest: [u8; 16],
}

/// The mark of captured bytes: how many there are, and their MD5.
pub(crate) fn mark_of(bytes: &[u8]) -> Mark
    requires { length bytes.now < 2 ^ 32 }
    ensures { result ≡ mark_of bytes.now }
{
    Mark {
        length: bytes.len() as u32,
        digest: Md5::digest(bytes),
    }
}

/// Whether two marks are equal, in length and digest.
#[inline]
pub(crate) fn is_same_mark(a: &Mark, b: &Mark) -> bool
    ensures { IsTrue result ↔ (a.now ≡ b.now) }
{
    a.length == b.length && a.digest == b.digest
}
