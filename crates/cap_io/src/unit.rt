//! The bytes of a unit, read from a device to the start of the buffer for units. What is called
//! `front` is the first bytes of a unit, which are read before its length is known.
ghost use Rattle.std.specs.Prelude.{◌≡◌, ◌+◌, ◌<◌, ◌≤◌, ◌++◌, true, false, IsTrue, IfOk, IfErr};
ghost use Rattle.std.specs.Prelude.{OnOk, if◌then◌else◌, length, take, drop, vec_len};
ghost use Rattle.cap_io.specs.Reading.{most_in_unit};
ghost use Rattle.cap_io.specs.inside.Reading.{FrontCame, FrontMissing, Moves, RestMissing};

use cap_octet::{Fault, Input, read_full};
use std::alloc::Allocator;

/// A buffer that grows gets room for at least this many bytes: most units are shorter.
const SHORT_UNIT: usize = 256;

/// Fills `front` with the first bytes of a unit that follows others; `false` if the file ends
/// before them. `Truncated` if it ends among them, `ReadFailed` if the device failed.
#[inline(always)]
pub(crate) fn read_front<I: Input>(input: &mut I, front: &mut [u8]) -> Result<bool, Fault>
    requires { 0 < length front.old }
    ensures moves { Moves I.Input input.old input.new 0
        (λ found. if found then length front.old else 0) (length front.old) result }
    ensures ok { IfOk result (λ found. IsTrue I.tells → FrontCame (I.unread input.old) front.new
        found (I.unread input.new)) }
    ensures err { IfErr result (λ fault. IsTrue I.tells → FrontMissing (length front.old)
        (I.unread input.old) (I.unread input.new) fault) }
    ensures memory { IfErr result (λ fault. fault ≡ Fault.NoMemory → ⊥) }
{
    let room = front.len();
    let Ok(count) = read_full(input, front) else {
        return Err(Fault::ReadFailed);
    };
    if count == 0 {
        return Ok(false);
    }
    if count < room {
        return Err(Fault::Truncated);
    }
    Ok(true)
}

/// Grows the buffer to at least `size` bytes, the length of a unit, or returns `NoMemory`. It
/// never shrinks. Its earlier contents are no longer needed.
pub(crate) fn make_room<A: Allocator>(buffer: &mut Vec<u8, A>, size: usize) -> Result<(), Fault>
    ensures room { OnOk result (size ≤ vec_len buffer.new) }
    ensures grown { length buffer.old.items ≤ length buffer.new.items }
    ensures bounded { size ≤ most_in_unit → length buffer.old.items ≤ most_in_unit
        → length buffer.new.items ≤ most_in_unit }
    ensures memory { IfErr result (λ fault. (fault ≡ Fault.NoMemory)
        × (length buffer.new.items < size)) }
{
    if buffer.len() < size && buffer.resize(size.max(SHORT_UNIT), 0).is_err() {
        return Err(Fault::NoMemory);
    }
    Ok(())
}

/// Puts a unit of `size` bytes at the start of the buffer: its first bytes, which were read before
/// (`front`), and then those that are left of it, which are read. `Truncated` if the file ends
/// inside the unit, `ReadFailed` if the device failed.
#[inline(always)]
pub(crate) fn read_rest<I: Input>(
    input: &mut I,
    front: &[u8],
    buffer: &mut [u8],
    size: usize,
) -> Result<(), Fault>
    requires whole { length front.now ≤ size }
    requires room { size ≤ length buffer.old }
    ensures moves { Moves I.Input input.old input.new (length front.now) (λ _. size) size result }
    ensures same { OnOk result (take (length front.now) (take size buffer.new) ≡ front.now) }
    ensures ok { OnOk result (IsTrue I.tells → I.unread input.old
        ≡ drop (length front.now) (take size buffer.new) ++ I.unread input.new) }
    ensures err { IfErr result (λ fault. IsTrue I.tells → RestMissing (length front.now) size
        (I.unread input.old) (I.unread input.new) fault) }
    ensures memory { IfErr result (λ fault. fault ≡ Fault.NoMemory → ⊥) }
{
    let from = front.len();
    let unit = &mut buffer[..size];
    unit[..from].copy_from_slice(front);
    let rest = &mut unit[from..];
    let room = rest.len();
    let Ok(count) = read_full(input, rest) else {
        return Err(Fault::ReadFailed);
    };
    if count < room {
        return Err(Fault::Truncated);
    }
    Ok(())
}
