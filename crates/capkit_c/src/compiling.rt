//! Compilations into the caller's memory.
ghost use Rattle.std.specs.Prelude.{◌≡◌, IfOk, IfErr, IfSome, IfNone, OnErr, length};
ghost use Rattle.flt_words.specs.Characters.{is_blank};
ghost use Rattle.cap_filter.specs.Expressions.{IsExpression};
ghost use Rattle.capkit_c.specs.Compiling.{CompilesText, IsFailure, IsTextFailure, WritesProgram};
ghost use Rattle.capkit_c.specs.Compiling.{HasNoLink, IsLinkFor, IsNotUtf8, are_blanks};
ghost use Rattle.capkit_c.specs.Compiling.{failure_number, failure_status, file_link_type};

use crate::running::rule_number;
use cap_filter::expression::{compile_text, read_expression};
use cap_octet::Link;
use cap_octet::assigned::LINKTYPE_RAW;
use flt_bpf::{CheckFault, Insn};
use flt_lang::Checked;
use flt_words::ExprFault;
use std::alloc::Allocator;

/// The number that libpcap's pcap_datalink() has for raw IP (DLT_RAW), where files have 101.
const DLT_RAW: u16 = 12;

/// Why a call isn't done.
#[derive(Clone, Copy)]
pub enum Failure {
    /// The text is refused, or there was no memory.
    Text(ExprFault),
    /// The text isn't UTF-8 from this byte on, counted from 1.
    NotUtf8(usize),
    /// Expressions aren't read on packets of this link type, except the empty one.
    LinkType,
    /// The number of the instructions: more than there is room for.
    NoRoom(usize),
    /// The text isn't a listing: its first wrong line, from 1.
    NotListing(usize),
    /// The instructions aren't a valid program: the first rule that they break.
    Invalid(CheckFault),
}

/// Converts libpcap's number for raw IP (12, from pcap_datalink()) to that of files (101), and keeps
/// all others.
pub(crate) fn file_link_type(number: u16) -> u16
    ensures { result ≡ file_link_type number }
{
    if number == DLT_RAW {
        LINKTYPE_RAW
    } else {
        number
    }
}

/// Whether a byte only separates tokens.
fn is_blank(byte: u8) -> bool
    ensures { result ≡ is_blank byte }
{
    byte == b' ' || byte == b'\t' || byte == b'\n' || byte == b'\r'
}

/// Whether a text is the empty expression, which has no token.
fn are_blanks(text: &[u8]) -> bool
    ensures { result ≡ are_blanks text.now }
{
    text.iter().all(|byte| is_blank(*byte))
}

/// The link that a text is compiled for. The empty expression reads no header, so it is compiled
/// for every link type. `None` if another text is given with an unknown link type.
fn link_for(text: &[u8], link_type: u16) -> Option<Link>
    ensures found { IfSome result (IsLinkFor text.now link_type) }
    ensures unknown { IfNone result (HasNoLink text.now link_type) }
{
    match Link::of_link_type(file_link_type(link_type)) {
        Some(link) => Some(link),
        None if are_blanks(text) => Some(Link::Ether),
        None => None,
    }
}

/// The bytes as text. An error is the place of the byte, counted from 1, from which on they aren't
/// UTF-8.
fn utf8_text(bytes: &[u8]) -> Result<&str, usize>
    ensures text { IfOk result (λ text. text.now ≡ bytes.now) }
    ensures failed { IfErr result (IsNotUtf8 bytes.now) }
{
    match std::str::from_utf8(bytes) {
        Ok(text) => Ok(text),
        Err(fault) => Err(fault.valid_up_to() + 1),
    }
}

/// The expression that bytes are, with the qualifiers that are left out filled in. An error is why
/// they aren't one, or that memory ran out.
pub(crate) fn read_text<A: Allocator + Copy + Drop>(
    alloc: A,
    text: &[u8],
) -> Result<Checked<A>, Failure>
    ensures expression { IfOk result (λ checked. IsExpression text.now checked.expr) }
    ensures failed { IfErr result (IsTextFailure text.now) }
{
    let text = match utf8_text(text) {
        Ok(text) => text,
        Err(at) => return Err(Failure::NotUtf8(at)),
    };
    match read_expression(alloc, text) {
        Ok(checked) => Ok(checked),
        Err(fault) => Err(Failure::Text(fault)),
    }
}

/// Compiles a text for a link type, writes the program at the start of `insns` and returns the
/// number of its instructions; or returns why not, and then `insns` is unchanged.
fn compile_into<A: Allocator + Copy + Drop>(
    alloc: A,
    text: &[u8],
    link_type: u16,
    insns: &mut [Insn],
) -> Result<usize, Failure>
    ensures written { IfOk result (λ count. WritesProgram text.now link_type insns.old insns.new
        count) }
    ensures failed { IfErr result (IsFailure text.now link_type (length insns.old)) }
    ensures kept { OnErr result (insns.new ≡ insns.old) }
{
    let Some(link) = link_for(text, link_type) else {
        return Err(Failure::LinkType);
    };
    let text = match utf8_text(text) {
        Ok(text) => text,
        Err(at) => return Err(Failure::NotUtf8(at)),
    };
    let program = match compile_text(alloc, text, link) {
        Ok(program) => program,
        Err(fault) => return Err(Failure::Text(fault)),
    };
    let compiled = program.insns();
    let count = compiled.len();
    if count > insns.len() {
        return Err(Failure::NoRoom(count));
    }
    insns[..count].copy_from_slice(compiled);
    Ok(count)
}

impl Failure {
    /// The status that C sees, 1 to 17 or that of a rule, as `library/include/capkit.h` has it.
    pub(crate) fn status(self) -> u32
        ensures { result ≡ failure_status self }
    {
        match self {
            Failure::Text(ExprFault::TooLong) => 1,
            Failure::Text(ExprFault::UnknownCharacter(_)) => 2,
            Failure::Text(ExprFault::UnknownWord(_)) => 3,
            Failure::Text(ExprFault::NumberTooLarge(_)) => 4,
            Failure::Text(ExprFault::NotAnExpression) => 5,
            Failure::Text(ExprFault::NestedTooDeep) => 6,
            Failure::Text(ExprFault::QualifiersDoNotFit) => 7,
            Failure::Text(ExprFault::ValueOutOfRange) => 8,
            Failure::Text(ExprFault::BitsPastMask) => 9,
            Failure::Text(ExprFault::DivisionByZero) => 10,
            Failure::Text(ExprFault::TooManyWords) => 11,
            Failure::Text(ExprFault::ProgramTooLong) => 12,
            Failure::Text(ExprFault::Memory) => 13,
            Failure::NotUtf8(_) => 14,
            Failure::LinkType => 15,
            Failure::NoRoom(_) => 16,
            Failure::NotListing(_) => 17,
            Failure::Invalid(rule) => rule_number(rule),
        }
    }

    /// The number that C sees next to the status: if the text is wrong, in bytes or lines from 1,
    /// or how many instructions there are; else 0.
    pub(crate) fn number(self) -> usize
        ensures { result ≡ failure_number self }
    {
        match self {
            Failure::Text(fault) => match fault.place() {
                Some(place) => place as usize,
                None => 0,
            },
            Failure::NotUtf8(at) => at,
            Failure::NoRoom(count) => count,
            Failure::NotListing(line) => line,
            Failure::LinkType | Failure::Invalid(_) => 0,
        }
    }
}

/// Reports to C how a call ended: returns 0 if it is done, else the status of the failure. `number`
/// becomes the number that goes with it.
pub(crate) fn tell(ended: Result<usize, Failure>, number: &mut usize) -> u32
    ensures ok { IfOk ended (λ value. (number.new ≡ value) × (result ≡ 0)) }
    ensures err { IfErr ended (λ failure. (number.new ≡ failure_number failure)
        × (result ≡ failure_status failure)) }
{
    match ended {
        Ok(value) => {
            *number = value;
            0
        }
        Err(failure) => {
            *number = failure.number();
            failure.status()
        }
    }
}

/// Compiles the expression in a text into the caller's instructions, and reports it to C.
pub(crate) fn tell_compiled<A: Allocator + Copy + Drop>(
    alloc: A,
    text: &[u8],
    link_type: u16,
    insns: &mut [Insn],
    number: &mut usize,
) -> u32
    ensures { CompilesText text.now link_type insns.old insns.new number.new result }
{
    tell(compile_into(alloc, text, link_type, insns), number)
}
