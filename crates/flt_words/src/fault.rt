//! Why a text is not an expression.

use std::alloc::AllocError;
use std::error::Error;
use std::fmt;

/// Why a text is not an expression that can be compiled: E1 to E12 in this order, or out of memory.
/// A place counts bytes of the text from 1.
#[derive(Clone, Copy, Debug, PartialEq, Eq)]
pub enum ExprFault {
    /// E1: the text has more than 65,536 bytes.
    TooLong,
    /// E2: a character, at this place, begins no token.
    UnknownCharacter(u32),
    /// E3: the word that begins at this place is of no kind.
    UnknownWord(u32),
    /// E4: the word that begins at this place has a number above 2^32 - 1.
    NumberTooLarge(u32),
    /// E5: the tokens have no tree.
    NotAnExpression,
    /// E6: over 100 open parentheses and brackets, or over 100 `not` and `-` in a row.
    NestedTooDeep,
    /// E7: what stands before a value, or before `broadcast`, does not go with it.
    QualifiersDoNotFit,
    /// E8: a number of a value is out of its type's range, or an accessor's size isn't 1, 2 or 4.
    ValueOutOfRange,
    /// E9: a network's address has bits that its mask leaves out.
    BitsPastMask,
    /// E10: a division or a remainder by the number 0, as it is written.
    DivisionByZero,
    /// E11: the arithmetic needs more than 16 words of memory.
    TooManyWords,
    /// E12: the bound of its program is over 32,768 instructions, though the program may have
    /// fewer.
    ProgramTooLong,
    /// An allocation failed.
    Memory,
}

/// For `?`: an allocation, or a clone of an allocator, that fails is `Memory`.
impl From<AllocError> for ExprFault {
    ghost use Rattle.std.specs.Prelude.{◌≡◌};
    ghost use Rattle.flt_words.specs.declared.fault.ExprFault.TheVariants.{Memory};

    ghost from_gives = { λ _ e. e ≡ Memory };

    fn from(_error: AllocError) -> Self {
        ExprFault::Memory
    }
}

impl ExprFault {
    ghost use Rattle.std.specs.Prelude.{◌≡◌};
    ghost use Rattle.flt_words.specs.Messages.{place_of, text_of};

    /// What is wrong, without the place.
    pub fn text(&self) -> &'static str
        ensures { result.now ≡ text_of self.now }
    {
        match self {
            ExprFault::TooLong => "longer than 65536 bytes",
            ExprFault::UnknownCharacter(_) => "unknown character",
            ExprFault::UnknownWord(_) => "unknown word",
            ExprFault::NumberTooLarge(_) => "number too large",
            ExprFault::NotAnExpression => "not an expression",
            ExprFault::NestedTooDeep => "nested too deep",
            ExprFault::QualifiersDoNotFit => "qualifiers do not fit",
            ExprFault::ValueOutOfRange => "value out of range",
            ExprFault::BitsPastMask => "bits set past the mask",
            ExprFault::DivisionByZero => "division by zero",
            ExprFault::TooManyWords => "more than 16 words",
            ExprFault::ProgramTooLong => "program too long",
            ExprFault::Memory => "no memory",
        }
    }

    /// The place of the fault, in bytes of the text from 1. `None` if the refusal is of the whole,
    /// or out of memory.
    pub fn place(&self) -> Option<u32>
        ensures { result ≡ place_of self.now }
    {
        match self {
            ExprFault::UnknownCharacter(place)
            | ExprFault::UnknownWord(place)
            | ExprFault::NumberTooLarge(place) => Some(*place),
            _ => None,
        }
    }
}

/// The text, and ` at ` with the place where there is one.
impl fmt::Display for ExprFault {
    ghost use Rattle.std.specs.Prelude.{Some};
    ghost use Rattle.flt_words.specs.Messages.{message_of};

    ghost output = { λ fault. Some (message_of fault) };

    fn fmt<W: fmt::Write>(&self, f: &mut fmt::Formatter<W>) -> fmt::Result {
        let text = self.text();
        match self.place() {
            Some(place) => write!(f, "{text} at {place}"),
            None => f.write_str(text),
        }
    }
}

impl Error for ExprFault {}
