//! Why instructions aren't a valid program, and why a text isn't a listing.

ghost use Rattle.std.specs.Prelude.{◌≡◌, Some};
ghost use Rattle.flt_bpf.specs.Message.{check_text, has_index, listing_text, wrong_line};
ghost use Rattle.flt_bpf.specs.Message.{listing_message};

use std::error::Error;
use std::fmt;

/// The rule that keeps instructions from being a valid program: C1 to C8 in this order.
#[derive(Clone, Copy, PartialEq, Eq, Debug)]
pub enum CheckFault {
    /// C1: there is no instruction.
    Empty,
    /// C2: there are more than 32,768 instructions.
    TooLong,
    /// C3: an instruction's code isn't in the table.
    UnknownCode,
    /// C4: a target of an instruction is not inside the program.
    JumpOut,
    /// C5: an instruction names a word of memory above 15.
    NoSuchWord,
    /// C6: an instruction divides, or takes a remainder, by the constant 0.
    DivisionByZero,
    /// C7: an instruction shifts by a constant above 31.
    ShiftTooFar,
    /// C8: the last instruction is not a return.
    NoReturn,
}

impl CheckFault {
    /// What messages call the fault. Where `has_index`, the word `at` and the index of the
    /// instruction, from 0, follow.
    pub fn text(self) -> &'static str
        ensures { result.now ≡ check_text self }
    {
        match self {
            CheckFault::Empty => "empty",
            CheckFault::TooLong => "too long",
            CheckFault::UnknownCode => "unknown code",
            CheckFault::JumpOut => "jump out",
            CheckFault::NoSuchWord => "no such word",
            CheckFault::DivisionByZero => "division by zero",
            CheckFault::ShiftTooFar => "shift too far",
            CheckFault::NoReturn => "no return at the end",
        }
    }

    /// Whether one instruction breaks the rule, so that messages report its index.
    pub fn has_index(self) -> bool
        ensures { result ≡ has_index self }
    {
        !matches!(
            self,
            CheckFault::Empty | CheckFault::TooLong | CheckFault::NoReturn
        )
    }
}

/// The text without an index, which the fault doesn't have.
impl fmt::Display for CheckFault {
    ghost use Rattle.std.specs.Prelude.{Some};
    ghost use Rattle.flt_bpf.specs.Message.{check_text};

    ghost output = { λ fault. Some (check_text fault) };

    fn fmt<W: fmt::Write>(&self, f: &mut fmt::Formatter<W>) -> fmt::Result {
        f.write_str(self.text())
    }
}

impl Error for CheckFault {}

/// Why a text was not read as a listing.
#[derive(Clone, Copy, PartialEq, Eq, Debug)]
pub enum ListingFault {
    /// L1: the text isn't a listing; the line with this number, from 1, is the first wrong one, or
    /// the text is too long: then it is 1.
    NotListing(usize),
    /// An allocation for the instructions failed.
    Memory,
}

impl ListingFault {
    /// What messages call the fault. If there is a `line`, the words `at line` and its number
    /// follow.
    pub fn text(self) -> &'static str
        ensures { result.now ≡ listing_text self }
    {
        match self {
            ListingFault::NotListing(_) => "not a listing",
            ListingFault::Memory => "no memory",
        }
    }

    /// The number of the line in `NotListing`, from 1; `None` for `Memory`.
    pub fn line(self) -> Option<usize>
        ensures { result ≡ wrong_line self }
    {
        match self {
            ListingFault::NotListing(line) => Some(line),
            ListingFault::Memory => None,
        }
    }
}

/// The text, and ` at line ` with the number of the line if there is one.
impl fmt::Display for ListingFault {
    ghost use Rattle.std.specs.Prelude.{Some};
    ghost use Rattle.flt_bpf.specs.Message.{listing_message};

    ghost output = { λ fault. Some (listing_message fault) };

    fn fmt<W: fmt::Write>(&self, f: &mut fmt::Formatter<W>) -> fmt::Result {
        let text = self.text();
        match self.line() {
            Some(line) => write!(f, "{text} at line {line}"),
            None => f.write_str(text),
        }
    }
}

impl Error for ListingFault {}
