//! The texts of numbers, and how a text is put into a buffer.
ghost use Rattle.std.specs.Prelude.{◌≡◌, ◌+◌, ◌<◌, ◌∷◌, ◌++◌, drop, length};
ghost use Rattle.capkit_c.specs.Texts.{found_text, number_text, put_text, rule_text, status_text};
ghost use Rattle.capkit_c.specs.Texts.{version};

use cap_octet::Fault;
use flt_bpf::CheckFault;
use flt_words::ExprFault;

/// The numbers of rules begin after this one.
pub(crate) const RULES: u32 = 100;

/// The numbers of readings and writes begin after this one.
pub(crate) const FOUND: u32 = 200;

/// The version of the library.
const VERSION: [u8; 3] = [0, 1, 0];

/// The text of a status of a compilation, as a message has it; empty for 0, the status of a
/// compiled program, and for a number that isn't a status.
fn status_text(status: u32) -> &'static str
    ensures { result.now ≡ status_text status }
{
    match status {
        1 => ExprFault::TooLong.text(),
        2 => ExprFault::UnknownCharacter(0).text(),
        3 => ExprFault::UnknownWord(0).text(),
        4 => ExprFault::NumberTooLarge(0).text(),
        5 => ExprFault::NotAnExpression.text(),
        6 => ExprFault::NestedTooDeep.text(),
        7 => ExprFault::QualifiersDoNotFit.text(),
        8 => ExprFault::ValueOutOfRange.text(),
        9 => ExprFault::BitsPastMask.text(),
        10 => ExprFault::DivisionByZero.text(),
        11 => ExprFault::TooManyWords.text(),
        12 => ExprFault::ProgramTooLong.text(),
        13 => ExprFault::Memory.text(),
        14 => "not UTF-8",
        15 => "link type not filtered",
        16 => "no room for the program",
        17 => "not a listing",
        _ => "",
    }
}

/// The text of the rule of valid programs with this number after `RULES`; empty if there is none.
fn rule_text(rule: u32) -> &'static str
    ensures { result.now ≡ rule_text rule }
{
    match rule {
        1 => CheckFault::Empty.text(),
        2 => CheckFault::TooLong.text(),
        3 => CheckFault::UnknownCode.text(),
        4 => CheckFault::JumpOut.text(),
        5 => CheckFault::NoSuchWord.text(),
        6 => CheckFault::DivisionByZero.text(),
        7 => CheckFault::ShiftTooFar.text(),
        8 => CheckFault::NoReturn.text(),
        _ => "",
    }
}

/// Puts as many bytes into a buffer as there is room for before a NUL, and the NUL; a buffer of no
/// bytes is unchanged. It returns the number of all bytes, whether they had room or not.
pub(crate) fn put_text(bytes: &[u8], buffer: &mut [u8]) -> usize
    ensures count { result ≡ length bytes.now }
    ensures put { buffer.new ≡ put_text bytes.now buffer.old }
{
    if !buffer.is_empty() {
        let count = bytes.len().min(buffer.len() - 1);
        put_with_nul(&bytes[..count], buffer);
    }
    bytes.len()
}

/// Puts bytes at the start of a buffer that has room for them, and a NUL after them; what follows
/// is unchanged.
fn put_with_nul(bytes: &[u8], buffer: &mut [u8])
    requires { length bytes.now < length buffer.old }
    ensures { buffer.new ≡ bytes.now ++ 0 ∷ drop (length bytes.now + 1) buffer.old }
{
    let count = bytes.len();
    buffer[..count].copy_from_slice(bytes);
    buffer[count] = 0;
}

/// The text of a number after `FOUND`, of a reading or a write; empty if it has none.
fn found_text(number: u32) -> &'static str
    ensures { result.now ≡ found_text number }
{
    match number {
        // Faults of devices, memory and jobs, which no call for C returns.
        15..=17 | 19..=20 => "",
        22 => "end",
        23 => "no packet",
        24 => "no room for the interface",
        25 => "no room in the buffer",
        26 => "another link type",
        27 => "a unit before the packet",
        28 => "skipped",
        _ => match Fault::from_number(number) {
            Some(fault) => fault.text(),
            None => "",
        },
    }
}

/// The text of any number that a call may return; empty for 0 and for a number without a text.
fn number_text(number: u32) -> &'static str
    ensures { result.now ≡ number_text number }
{
    match number {
        0..RULES => status_text(number),
        RULES..FOUND => rule_text(number - RULES),
        _ => found_text(number - FOUND),
    }
}

/// Puts the text of a number that any call returned into a buffer, as far as there is room, and
/// returns the length of the whole text.
#[unsafe(no_mangle)]
pub extern "C" fn capkit_text(number: u32, buffer: &mut [u8]) -> usize
    ensures count { result ≡ length (number_text number) }
    ensures put { buffer.new ≡ put_text (number_text number) buffer.old }
{
    put_text(number_text(number).as_bytes(), buffer)
}

/// The version of the library: a byte each for its three numbers, the first one in front, so that
/// 0.1.0 is 0x000100.
#[unsafe(no_mangle)]
pub extern "C" fn capkit_version() -> u32
    ensures { result ≡ version }
{
    let [major, minor, patch] = VERSION;
    u32::from(major) * 0x1_0000 + u32::from(minor) * 0x100 + u32::from(patch)
}
