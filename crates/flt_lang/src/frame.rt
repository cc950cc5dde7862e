//! Parts of the state of the parser: frames that wait for an operand, and the operand that was just
//! read. Three precedences decide its next step: that of a frame, that of the next token, and that
//! of the loosest operand which the latest frame takes. A greater one binds more loosely.
//!
//!                   frame    next token    loosest operand that the frame takes
//!     a sign `-`      0                      0
//!     `*` `/` `%`     1          1           0
//!     `+` `-`         2          2           1
//!     `<<` `>>`       3          3           2
//!     `&` `|` `^`     4          4           3
//!     `=` and so on   5          5           4
//!     `not`           6                      6
//!     `and` `or`      7          7           6
//!     `)` `]` `:`                8
//!     `tcp[`          9                      4
//!     `(`             9                      7, as the whole expression

ghost use Rattle.std.specs.Prelude.{◌≡◌, reverse};
ghost use Rattle.flt_lang.specs.Grammar.{level};
ghost use Rattle.flt_lang.specs.inside.Parser.{precedence, operand_precedence, token_precedence};
ghost use Rattle.flt_lang.specs.inside.Parser.{enclosed_operand, sort_of, node_of};

use flt_ast::Node;
use flt_words::{Comparison, Join, Operator, Protocol, TokenKind};

/// What waits for an operand on its right, or for its closing token.
#[derive(Clone, Copy)]
pub enum Frame {
    /// A sign `-`.
    Negate,
    /// An operator between two numbers.
    Apply(Operator),
    Compare(Comparison),
    Not,
    /// `and` or `or`.
    Join(Join),
    /// A parenthesis.
    Open,
    /// An accessor, as `tcp[`, up to its bracket.
    Load(Protocol),
}

/// An operand that was just read. The nodes of a truth and of a number are written. The other two
/// may still become either.
#[derive(Clone, Copy)]
pub enum Operand {
    Truth,
    Number,
    /// A number, which may also begin a longer value.
    Plain(u32),
    /// A number in parentheses, or with the length of a prefix after it, which is the second one.
    Either(u32, Option<u32>),
}

/// The two sorts of operands: what is true or not of a packet, and what has a value.
#[derive(Clone, Copy)]
pub enum Sort {
    Truth,
    Number,
}

impl Operand {
    /// The operand with parentheses around it: a plain number can't begin a longer value then, so
    /// that `(10)/8` is a division and no network.
    pub fn in_parentheses(self) -> Operand
        ensures { result ≡ enclosed_operand self }
    {
        match self {
            Operand::Plain(number) => Operand::Either(number, None),
            _ => self,
        }
    }
}

impl Frame {
    /// How loosely the frame binds its operand, by the table above: 0 is the tightest.
    pub fn precedence(self) -> u8
        ensures { result ≡ precedence self }
    {
        match self {
            Frame::Negate => 0,
            Frame::Apply(operator) => level(operator) + 1,
            Frame::Compare(_) => 5,
            Frame::Not => 6,
            Frame::Join(_) => 7,
            Frame::Open | Frame::Load(_) => 9,
        }
    }

    /// The sort of the frame's operands. It isn't asked of `(`, whose operand may be of either.
    pub fn sort(self) -> Sort
        ensures { result ≡ sort_of self }
    {
        match self {
            Frame::Negate | Frame::Apply(_) | Frame::Compare(_) | Frame::Load(_) => Sort::Number,
            Frame::Not | Frame::Join(_) | Frame::Open => Sort::Truth,
        }
    }

    /// The frame's node, and what that makes of its operands. `None` for a parenthesis and an
    /// accessor: a token closes them.
    pub fn node(self) -> Option<(Node, Operand)>
        ensures { result ≡ node_of self }
    {
        match self {
            Frame::Negate => Some((Node::Negate, Operand::Number)),
            Frame::Apply(operator) => Some((Node::Apply(operator), Operand::Number)),
            Frame::Compare(comparison) => Some((Node::Compare(comparison), Operand::Truth)),
            Frame::Not => Some((Node::Not, Operand::Truth)),
            Frame::Join(join) => Some((Node::Join(join), Operand::Truth)),
            Frame::Open | Frame::Load(_) => None,
        }
    }
}

/// The level of an operator, 0 the tightest: operators of one level form a chain, from the left.
pub fn level(operator: Operator) -> u8
    ensures { result ≡ level operator }
{
    match operator {
        Operator::Multiply | Operator::Divide | Operator::Remainder => 0,
        Operator::Add | Operator::Subtract => 1,
        Operator::ShiftLeft | Operator::ShiftRight => 2,
        Operator::Or | Operator::And | Operator::ExclusiveOr => 3,
    }
}

/// How loosely a token binds the operand before it, by the table above. Tokens that aren't in it
/// follow no operand, and are refused whatever this is.
pub fn token_precedence(token: TokenKind) -> u8
    ensures { result ≡ token_precedence token }
{
    match token {
        TokenKind::Operator(operator) => level(operator) + 1,
        TokenKind::Comparison(_) => 5,
        TokenKind::Join(_) => 7,
        TokenKind::Close | TokenKind::CloseBracket | TokenKind::Colon => 8,
        _ => 1,
    }
}

/// The precedence of the loosest operand that the latest frame takes, by the table above; that of a
/// whole expression if no frame waits.
pub fn operand_precedence(frames: &[Frame]) -> u8
    ensures { result ≡ operand_precedence (reverse frames.now) }
{
    match frames.last() {
        None | Some(Frame::Open) => 7,
        Some(Frame::Negate) => 0,
        Some(Frame::Apply(operator)) => level(*operator),
        Some(Frame::Compare(_)) | Some(Frame::Load(_)) => 4,
        Some(Frame::Not) | Some(Frame::Join(_)) => 6,
    }
}
