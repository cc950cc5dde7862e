//! Whether a program gives the same answers on libpcap's machine and on Linux's.
ghost use Rattle.std.specs.{List.list_all, Prelude.◌≡◌, Prelude.◌≤◌, Prelude.length};
ghost use Rattle.capkit_c.specs.Portable.{is_portable, keeps_x_small, runs_alike, live_places};
ghost use Rattle.capkit_c.specs.Portable.{is_live_at, is_live_before, none_read_unwritten};
ghost use Rattle.capkit_c.specs.Portable.{portability, runs_alike_on_libpcap};

use flt_bpf::Insn;
use flt_bpf::operation::{AluOperation, Operand, Operation, Register, Source, decode};

/// The most instructions that Linux attaches to a socket.
const MOST_ATTACHED: usize = 4096;

/// How many words of memory a program has.
const WORDS: u32 = flt_bpf::WORDS as u32;

/// 2^31, the greatest bit of 32. From here on Linux takes the place of a load as negative, which
/// means something else there.
const SIGN_BIT: u32 = 0x8000_0000;

/// 2^30. If X, the index register, and an offset are both below it, their sum is below 2^31; and if
/// only X is, and the offset is below 2^31, it doesn't wrap.
const HALF_SIGN_BIT: u32 = 0x4000_0000;

/// Whether X, the index register, is sure to hold less than 2^30 after an instruction if it does
/// before it: X isn't loaded from memory, from the packet's length or from A, nor with a constant
/// from 2^30 on.
fn keeps_x_small(insn: &Insn) -> bool
    ensures { result ≡ keeps_x_small insn.now }
{
    match decode(insn.code) {
        Some(Operation::Load(Register::Index, Source::Immediate)) => insn.k < HALF_SIGN_BIT,
        Some(Operation::Load(Register::Index, _) | Operation::CopyToIndex) => false,
        _ => true,
    }
}

/// Whether an instruction is sure to do the same on Linux's and libpcap's machines as on the one
/// here, where `small` says that X is below 2^30, and memory isn't looked at. `docs/LIBRARY.md`
/// (Programs elsewhere) has what is different.
fn runs_alike(insn: &Insn, small: bool) -> bool
    ensures { result ≡ runs_alike small insn.now }
{
    match decode(insn.code) {
        Some(Operation::LoadAbsolute(_) | Operation::LoadHeaderLength) => insn.k < SIGN_BIT,
        Some(Operation::LoadIndirect(_)) => small && insn.k < HALF_SIGN_BIT,
        // The length is the captured one on Linux.
        Some(Operation::Load(_, Source::Length)) => false,
        // A shift by 32 or more gives 0 here, and is taken modulo 32 on Linux.
        Some(Operation::Compute(AluOperation::ShiftLeft, Operand::IndexRegister)) => false,
        Some(Operation::Compute(AluOperation::ShiftRight, Operand::IndexRegister)) => false,
        _ => true,
    }
}

/// Whether X is sure to hold less than 2^30 throughout each run: it is 0 first, and every
/// instruction keeps it so.
fn all_keep_x_small(insns: &[Insn]) -> bool
    ensures { result ≡ list_all keeps_x_small insns.now }
{
    insns.iter().all(|insn| keeps_x_small(insn))
}

/// Whether every instruction is sure to do the same on libpcap's and Linux's machines, where
/// `small` says that X is below 2^30 throughout, and memory isn't looked at.
fn all_run_alike(insns: &[Insn], small: bool) -> bool
    ensures { result ≡ list_all (runs_alike small) insns.now }
{
    insns.iter().all(|insn| runs_alike(insn, small))
}

/// Whether an instruction is sure to do the same on libpcap's machine as on the one here, where
/// `small` says that X is below 2^30, and memory isn't looked at: libpcap doesn't add X and an
/// offset modulo 2^32.
fn runs_alike_on_libpcap(insn: &Insn, small: bool) -> bool
    ensures { result ≡ runs_alike_on_libpcap small insn.now }
{
    match decode(insn.code) {
        Some(Operation::LoadIndirect(_)) => small && insn.k < SIGN_BIT,
        _ => true,
    }
}

/// Whether every instruction is sure to do the same on libpcap's machine, where `small` says that X
/// is below 2^30 throughout, and memory isn't looked at.
fn all_run_alike_on_libpcap(insns: &[Insn], small: bool) -> bool
    ensures { result ≡ list_all (runs_alike_on_libpcap small) insns.now }
{
    insns.iter().all(|insn| runs_alike_on_libpcap(insn, small))
}

/// Whether a word of memory is live at one of the instructions after the current one: whether a run
/// from there on may read the word before it writes it, if it also goes on past returns.
/// `following` says so of each of them, the next one first, and `place` is the index there; past
/// the last one no word is live.
fn is_live_at(following: &[bool], place: usize) -> bool
    ensures { result ≡ is_live_at following.now place }
{
    match following.get(place) {
        Some(is_live) => *is_live,
        None => false,
    }
}

/// Whether a word of memory is live before an instruction: whether a run from there on may read it
/// before it writes it, if it also goes on past returns. Linux's check of programs goes on past
/// them. `following` says the same of each instruction after this one.
fn is_live_before(insn: &Insn, word: u32, following: &[bool]) -> bool
    ensures { result ≡ is_live_before word insn.now following.now }
{
    match decode(insn.code) {
        Some(Operation::Load(_, Source::Memory)) => insn.k == word || is_live_at(following, 0),
        Some(Operation::Store(_)) => insn.k != word && is_live_at(following, 0),
        Some(Operation::Jump) => is_live_at(following, insn.k as usize),
        Some(Operation::JumpIf(_, _)) => {
            is_live_at(following, insn.jt as usize) || is_live_at(following, insn.jf as usize)
        }
        _ => is_live_at(following, 0),
    }
}

/// Marks of each instruction whether a word of memory is live before it. It goes from the last
/// instruction to the first, since jumps go forward.
fn mark_live(insns: &[Insn], word: u32, marks: &mut [bool])
    requires { length marks.old ≡ length insns.now }
    ensures { marks.new ≡ live_places word insns.now }
{
    let mut place = insns.len();
    while place > 0 {
        place -= 1;
        let is_live = is_live_before(&insns[place], word, &marks[place + 1..]);
        marks[place] = is_live;
    }
}

/// Whether a run of the program, which also goes on past returns, may read a word of memory before
/// it writes it. The machine here finds 0 then, libpcap's what was in its memory before, and Linux
/// refuses the program.
fn may_read_unwritten(insns: &[Insn], word: u32) -> bool
    requires { length insns.now ≤ MOST_ATTACHED }
    ensures { result ≡ is_live_at (live_places word insns.now) 0 }
{
    let mut marks = [false; MOST_ATTACHED];
    let marks = &mut marks[..insns.len()];
    mark_live(insns, word, marks);
    is_live_at(marks, 0)
}

/// Whether it is sure, only by the jumps, that no run reads a word of memory before it writes it,
/// and that Linux's check doesn't find one that does.
fn no_word_read_unwritten(insns: &[Insn]) -> bool
    requires { length insns.now ≤ MOST_ATTACHED }
    ensures { result ≡ none_read_unwritten WORDS insns.now }
{
    let mut all = true;
    for word in 0..WORDS {
        all = all && !may_read_unwritten(insns, word);
    }
    all
}

/// 1 if a valid program returns the same as here on libpcap's machine and, of packets that are
/// captured whole, on Linux's, as far as its instructions show; 0 if it may not, or has over
/// 4,096 instructions.
#[unsafe(no_mangle)]
pub extern "C" fn capkit_is_portable(insns: &[Insn]) -> u32
    ensures { result ≡ is_portable insns.now }
{
    if insns.len() <= MOST_ATTACHED
        && all_run_alike(insns, all_keep_x_small(insns))
        && no_word_read_unwritten(insns)
    {
        1
    } else {
        0
    }
}

/// Where else a valid program returns the same as here, as far as its instructions show, as a sum
/// of bits: 1 for libpcap's machine, 2 for Linux's with packets that are captured whole. It is 0 of
/// over 4,096 instructions.
#[unsafe(no_mangle)]
pub extern "C" fn capkit_portability(insns: &[Insn]) -> u32
    ensures { result ≡ portability insns.now }
{
    if capkit_is_portable(insns) == 1 {
        3
    } else if insns.len() <= MOST_ATTACHED
        && all_run_alike_on_libpcap(insns, all_keep_x_small(insns))
        && no_word_read_unwritten(insns)
    {
        1
    } else {
        0
    }
}
