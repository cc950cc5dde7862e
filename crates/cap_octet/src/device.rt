//! Byte inputs and outputs, as contracts see them; calls that read or write everything they are
//! given.
ghost use Rattle.std.specs.Prelude.{◌≡◌, ℕ, ◌+◌, ◌^◌, ◌<◌, ◌≤◌, Bool, IsTrue, List, length, IfOk};
ghost use Rattle.std.specs.{Io.StartsWith, List.flat_map};
ghost use Rattle.std.specs.Prelude.{IfErr, Option, Some, [], drop, if◌then◌else◌, true};
ghost use Rattle.cap_octet.specs.Device.{AppendsOrStops, HasGiven, Passes, Reads, Fills, Writes};
ghost use Rattle.cap_octet.specs.Device.{WritesAll, count_of, failures_of};

/// The device failed in this call.
#[derive(Clone, Copy, PartialEq, Eq)]
pub struct DeviceFault;

/// A writer stopped after the first `written` bytes of what it was given.
#[derive(Clone, Copy, PartialEq, Eq)]
pub struct Stopped {
    pub written: usize,
}

/// A device that gives bytes, fewer than 2^63 in all.
pub trait Input {
    /// Whether contracts know the bytes that come.
    ghost tells: { Bool };

    /// The bytes that reads will give from here on. It means something only if the device
    /// `tells`.
    ghost unread: { Self → List ℕ };

    /// How many bytes it has given.
    ghost given: { Self → ℕ };

    /// How often it failed. Only contracts see this, and it has no greatest value.
    ghost failures: { Self → ℕ };

    /// How many bytes in all it gives at least before it fails; `None` if it never fails. No
    /// call changes that. Default: it may fail at once.
    ghost sure: { Self → Option ℕ } = { λ _. Some 0 };

    /// The bytes that `at_hand` shows. Default: no bytes.
    ghost held: { Self → List ℕ } = { λ _. [] };

    /// Reads into the start of the buffer and returns how many bytes came. 0 for a buffer that
    /// isn't empty means the end. An error is a failure of the device in this call: it gave
    /// nothing, and if it `tells`, the buffer is unchanged.
    fn read(&mut self, buf: &mut [u8]) -> Result<usize, DeviceFault>
        ensures within { IfOk result (λ n. n ≤ length buf.old) }
        ensures counted { given self.new ≡ given self.old + count_of result }
        ensures bounded { given self.new < 2 ^ 63 }
        ensures failed { failures self.new ≡ failures self.old + failures_of result }
        ensures sure { sure self.new ≡ sure self.old }
        ensures exact { IsTrue tells
            → Reads (unread self.old) buf.old result (unread self.new) buf.new };

    /// Bytes that it has already, which the next reads give, and which `pass` passes. They stay the
    /// same until it is read or passes some. A device without such bytes shows none.
    fn at_hand(&self) -> &[u8]
        ensures exact { IsTrue tells → StartsWith (unread self.now) result.now }
        ensures held { result.now ≡ held self.now }
        ensures bounded { given self.now + length result.now < 2 ^ 63 };

    /// Moves past the next `count` bytes, of those that `at_hand` shows, as a read of them would,
    /// and returns `true`; or takes none, and returns `false`. What was at hand after them still
    /// is.
    fn pass(&mut self, count: usize) -> bool
        ensures counted { given self.new ≡ given self.old + (if result then count else 0) }
        ensures bounded { IsTrue result → given self.new < 2 ^ 63 }
        ensures failed { failures self.new ≡ failures self.old }
        ensures sure { sure self.new ≡ sure self.old }
        ensures rest { unread self.new ≡ drop (if result then count else 0) (unread self.old) }
        ensures exact { IsTrue tells
            → Passes (unread self.old) count result (unread self.new) }
        ensures passes { count ≤ length (held self.old) → result ≡ true }
        ensures stays { StartsWith (held self.new)
            (drop (if result then count else 0) (held self.old)) };

    /// A device that failed had given as many bytes as it was sure to. `Prim.search rules` proves
    /// it of one that may fail at once, and of one that never fails.
    ghost unfailed: { (s : Self) → 0 < failures s → HasGiven (sure s) (given s) };
}

/// A device that takes bytes.
pub trait Output {
    /// Whether contracts know the bytes that were taken.
    ghost tells: { Bool };

    /// The bytes that were written, in order. It means something only if the device `tells`.
    ghost written: { Self → List ℕ };

    /// How often it failed. Only contracts see this, and it has no greatest value.
    ghost failures: { Self → ℕ };

    /// How many bytes in all it takes at least before it fails. No call changes that. If a
    /// device doesn't give this it is none.
    ghost room: { Self → ℕ } = { λ _. 0 };

    /// Writes a prefix of the bytes, at least one if there is one, and returns how many. An error
    /// is a failure of the device in this call: it took nothing.
    fn write(&mut self, buf: &[u8]) -> Result<usize, DeviceFault>
        ensures within { IfOk result (λ n. n ≤ length buf.now) }
        ensures some { IfOk result (λ n. 0 < length buf.now → 0 < n) }
        ensures failed { failures self.new ≡ failures self.old + failures_of result }
        ensures room { room self.new ≡ room self.old }
        ensures exact { IsTrue tells → Writes (written self.old) buf.now
            result (written self.new) };

    /// Whether somebody may be waiting for what it takes, as at the other end of a pipe, so that it
    /// must be released before a read that may wait. Default: false. No clause: it only shows when
    /// to call `release`.
    fn is_awaited(&self) -> bool {
        false
    }

    /// Passes on what it holds back, and returns whether it could; it can't fail on a device that
    /// `tells`. Default: it holds nothing back.
    fn release(&mut self) -> bool
        ensures written { written self.new ≡ written self.old }
        ensures failures { failures self.new ≡ failures self.old }
        ensures room { room self.new ≡ room self.old }
        ensures sure { IsTrue tells → result ≡ true }
    {
        true
    }

    /// A device that failed had taken as many bytes as it has room for. `Prim.search rules` proves
    /// it if the room is none.
    ghost filled: { (s : Self) → 0 < failures s → room s ≤ length (written s) };
}

/// Fills the buffer from its start and returns how many bytes came: fewer than it has room for only
/// at the end. An error is a failure of the device in this call, after fewer bytes than the buffer
/// has room for; these are at its start.
pub fn read_full<I: Input>(input: &mut I, buf: &mut [u8]) -> Result<usize, DeviceFault>
    ensures within { IfOk result (λ n. n ≤ length buf.old) }
    ensures counted { IfOk result (λ n. I.given input.new ≡ I.given input.old + n) }
    ensures grown { I.given input.old ≤ I.given input.new }
    ensures bounded { IfOk result (λ n. 0 < n → I.given input.new < 2 ^ 63) }
    ensures stopped { IfErr result (λ _. I.given input.new < 2 ^ 63) }
    ensures upper_bound { IfErr result (λ _. I.given input.new < I.given input.old
        + length buf.old) }
    ensures failed { I.failures input.new ≡ I.failures input.old + failures_of result }
    ensures sure { I.sure input.new ≡ I.sure input.old }
    ensures told { IsTrue I.tells → I.given input.new + length (I.unread input.new)
        ≡ I.given input.old + length (I.unread input.old) }
    ensures exact { IsTrue I.tells
        → Fills (I.unread input.old) buf.old (I.given input.old) result (I.unread input.new) buf.new
        (I.given input.new) }
{
    let mut count = 0;
    while count < buf.len() {
        let n = input.read(&mut buf[count..])?;
        if n == 0 {
            break;
        }
        count += n;
    }
    Ok(count)
}

/// Writes all of the bytes. An error is a failure of the device in this call, and reports how many
/// bytes, fewer than all, were written before the failure.
// The first write mostly takes all. If this is inlined, no loop is left then.
#[inline(always)]
pub fn write_all<O: Output>(output: &mut O, buf: &[u8]) -> Result<(), Stopped>
    ensures front { IfErr result (λ stopped. stopped.written < length buf.now) }
    ensures failed { O.failures output.new ≡ O.failures output.old + failures_of result }
    ensures room { O.room output.new ≡ O.room output.old }
    ensures exact { IsTrue O.tells
        → WritesAll (O.written output.old) buf.now result (O.written output.new) }
{
    if buf.is_empty() {
        return Ok(());
    }
    let Ok(count) = output.write(buf) else {
        return Err(Stopped { written: 0 });
    };
    if count == buf.len() {
        return Ok(());
    }
    match write_repeatedly(output, &buf[count..]) {
        Ok(()) => Ok(()),
        Err(stopped) => Err(Stopped {
            written: count + stopped.written,
        }),
    }
}

/// Writes all of the bytes as `write_all` does, write by write. It is out of line since mostly one
/// write takes all.
#[cold]
#[inline(never)]
fn write_repeatedly<O: Output>(output: &mut O, buf: &[u8]) -> Result<(), Stopped>
    ensures front { IfErr result (λ stopped. stopped.written < length buf.now) }
    ensures failed { O.failures output.new ≡ O.failures output.old + failures_of result }
    ensures room { O.room output.new ≡ O.room output.old }
    ensures exact { IsTrue O.tells
        → WritesAll (O.written output.old) buf.now result (O.written output.new) }
{
    let mut written = 0;
    while written < buf.len() {
        let Ok(n) = output.write(&buf[written..]) else {
            return Err(Stopped { written });
        };
        written += n;
    }
    Ok(())
}

/// Writes parts one after another, fewer than 2^64 bytes in all. An error is a failure of the
/// device in this call, and reports how many bytes, fewer than all, were written before the
/// failure.
#[inline(always)]
pub fn write_all_parts<O: Output>(output: &mut O, parts: &[&[u8]]) -> Result<(), Stopped>
    requires { length (flat_map (λ part. part.now) parts.now) < 2 ^ 64 }
    ensures front { IfErr result (λ stopped.
        stopped.written < length (flat_map (λ part. part.now) parts.now)) }
    ensures failed { O.failures output.new ≡ O.failures output.old + failures_of result }
    ensures room { O.room output.new ≡ O.room output.old }
    ensures exact { IsTrue O.tells
        → WritesAll (O.written output.old) (flat_map (λ part. part.now) parts.now) result
        (O.written output.new) }
{
    let mut before = 0;
    for part in parts {
        if let Err(stopped) = write_all(output, part) {
            return Err(Stopped {
                written: before + stopped.written,
            });
        }
        before += part.len();
    }
    Ok(())
}

/// Writes parts one after another, of any length. An error is a failure of the device in this call,
/// after a prefix of the bytes that isn't the whole; unlike `write_all_parts` it doesn't report how
/// many.
pub fn write_parts<O: Output>(output: &mut O, parts: &[&[u8]]) -> Result<(), DeviceFault>
    ensures exact { IsTrue O.tells
        → AppendsOrStops result (O.written output.old) (flat_map (λ part. part.now) parts.now)
        (O.written output.new) }
    ensures failed { O.failures output.new ≡ O.failures output.old + failures_of result }
    ensures room { O.room output.new ≡ O.room output.old }
{
    for part in parts {
        if let Err(_) = write_all(output, part) {
            return Err(DeviceFault);
        }
    }
    Ok(())
}
