//! Writes the buffered output of a run before a read that may wait, so that it is seen at once, and
//! isn't lost if the run is stopped while it waits.
ghost use Rattle.std.specs.Prelude.{◌≡◌, false, true};

use crate::identity::Identify;
use crate::overwrites::input_path;

/// Whether a read of some input of these names may wait: one isn't a plain file.
pub fn may_wait(files: &impl Identify, names: &[String]) -> bool {
    for name in names {
        if files.identity_of(input_path(name)).is_none() {
            return true;
        }
    }
    false
}

/// When the output of a run is written out of its buffer.
#[derive(Drop)]
pub(crate) enum Buffering {
    /// At once: a terminal shows each line, report or listing as it is written.
    AtOnce,
    /// Before each read that may wait.
    BeforeReads,
    /// When it is full.
    WhenFull,
}

/// When the buffer of an output is written out: at once on a terminal; else before reads if one
/// may wait; else when it is full.
pub(crate) fn buffering_of(is_terminal: bool, may_wait: bool) -> Buffering
    ensures terminal { is_terminal ≡ true → result ≡ Buffering.AtOnce }
    ensures read { is_terminal ≡ false → may_wait ≡ true → result ≡ Buffering.BeforeReads }
    ensures full { is_terminal ≡ false → may_wait ≡ false → result ≡ Buffering.WhenFull }
{
    match (is_terminal, may_wait) {
        (true, _) => Buffering::AtOnce,
        (false, true) => Buffering::BeforeReads,
        (false, false) => Buffering::WhenFull,
    }
}
