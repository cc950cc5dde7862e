//! The tokens of an expression, written from its last node to its first: what takes operands waits
//! until they are written, so nothing recurses and each token is written once.
//!
//! Everywhere `is_operand` is whether a node is an operand of another one: then it has parentheses
//! around it, unless it is one token or an accessor; a value that isn't resolved has them always,
//! even if it is one token. Each `write_..` writes before what is written already, so the end of a
//! text comes first. An error is always a failed allocation, except `Writer::new`.

ghost use Rattle.std.specs.Prelude.{◌≡◌, [], ◌∷◌, IfNone, IfOk, IfSome, OnOk, true};
ghost use Rattle.flt_ast.specs.declared.node.Node.TheVariants as node;
ghost use Rattle.flt_explain.specs.Explained.{close_operand, open_operand, mask_tokens};
ghost use Rattle.flt_explain.specs.Explained.{value_tokens, protocol_tokens, direction_tokens};
ghost use Rattle.flt_explain.specs.Explained.{qualifier_tokens, written_qualifiers};
ghost use Rattle.flt_explain.specs.inside.Backward.{write_pending, around, write_node};

use flt_ast::{CompleteQualifiers, Direction, NetMask, Node, Qualifiers, Value};
use flt_words::{Operator, Protocol, Side, TokenKind, ValueType};
use std::alloc::{AllocError, Allocator};
use std::marker::Model;

/// What waits until an operand is written.
#[derive(Clone, Copy)]
pub enum Pending {
    /// Stands in front of the operand.
    Front(TokenKind),
    /// Stands between the operand and another on its left, which is written next.
    Between(TokenKind),
}

/// The qualifiers of a value with nothing before it.
const UNQUALIFIED: Qualifiers = Qualifiers {
    protocol: None,
    direction: None,
    value_type: None,
};

/// The qualifiers that are written before a value of a resolved tree: all of them, but before
/// `proto` no direction may be.
fn written_qualifiers(qualifiers: CompleteQualifiers) -> Qualifiers
    ensures { result ≡ written_qualifiers qualifiers }
{
    Qualifiers {
        protocol: qualifiers.protocol,
        direction: match qualifiers.value_type {
            ValueType::Proto => None,
            _ => Some(qualifiers.direction),
        },
        value_type: Some(qualifiers.value_type),
    }
}

/// What waits, and the tokens that are written, the last one first.
#[derive(Drop)]
pub(crate) struct Writer<A: Allocator> {
    pending: Vec<Pending, A>,
    tokens: Vec<TokenKind, A>,
}

/// What waits is seen latest first, the tokens in the order of the text.
impl<A: Allocator> Model for Writer<A> {
    ghost use Rattle.std.specs.Prelude.{reverse};
    ghost use Rattle.flt_explain.specs.inside.Backward.{WriterState};

    ghost Value = { WriterState };

    ghost view = { λ w. record {
      pending = reverse w.pending.items;
      tokens = reverse w.tokens.items;
    } };
}

impl<A: Allocator> Writer<A> {
    /// A writer that has written nothing. An error is an allocator that cannot be cloned.
    pub(crate) fn new(alloc: A) -> Result<Self, AllocError>
    where
        A: Clone,
        ensures pending { IfOk result (λ writer. writer.pending ≡ []) }
        ensures tokens { IfOk result (λ writer. writer.tokens ≡ []) }
    {
        Ok(Writer {
            pending: Vec::new(alloc.clone()?),
            tokens: Vec::new(alloc),
        })
    }

    /// Writes a token before those that are written.
    fn push_token(&mut self, token: TokenKind) -> Result<(), AllocError>
        ensures tokens { OnOk result (self.new.tokens ≡ token ∷ self.old.tokens) }
        ensures pending { OnOk result (self.new.pending ≡ self.old.pending) }
    {
        self.tokens.push(token)?;
        Ok(())
    }

    /// Lets this wait until the operand that is written next is complete.
    fn push_pending(&mut self, pending: Pending) -> Result<(), AllocError>
        ensures pending { OnOk result (self.new.pending ≡ pending ∷ self.old.pending) }
        ensures tokens { OnOk result (self.new.tokens ≡ self.old.tokens) }
    {
        self.pending.push(pending)?;
        Ok(())
    }

    /// Takes off what waits since the shortest time, or `None` if nothing waits.
    fn pop_pending(&mut self) -> Option<Pending>
        ensures some { IfSome result (λ p. self.old.pending ≡ p ∷ self.new.pending) }
        ensures none { IfNone result (self.old.pending ≡ []) }
        ensures none_left { IfNone result (self.new.pending ≡ []) }
        ensures tokens { self.new.tokens ≡ self.old.tokens }
    {
        self.pending.pop()
    }

    /// Writes what waits for an operand that is complete now: what stands in front of it, up to and
    /// with what stands between it and an operand on its left, which is written next. Without such
    /// an operand nothing waits any more.
    fn write_pending(&mut self) -> Result<(), AllocError>
        ensures { OnOk result (self.new ≡ write_pending self.old.pending self.old.tokens) }
    {
        while let Some(pending) = self.pop_pending() {
            match pending {
                Pending::Front(token) => self.push_token(token)?,
                Pending::Between(token) => {
                    self.push_token(token)?;
                    return Ok(());
                }
            }
        }
        Ok(())
    }

    /// Writes the `)` after a node that is an operand, before its own tokens, since the end is
    /// written first. Writes nothing after another node.
    fn close_parentheses(&mut self, is_operand: bool) -> Result<(), AllocError>
        ensures tokens { OnOk result (self.new.tokens ≡ close_operand is_operand self.old.tokens) }
        ensures pending { OnOk result (self.new.pending ≡ self.old.pending) }
    {
        if is_operand {
            self.push_token(TokenKind::Close)?;
        }
        Ok(())
    }

    /// Writes the `(` before a node that is an operand, after its own tokens. Writes nothing before
    /// another node.
    fn open_parentheses(&mut self, is_operand: bool) -> Result<(), AllocError>
        ensures tokens { OnOk result (self.new.tokens ≡ open_operand is_operand self.old.tokens) }
        ensures pending { OnOk result (self.new.pending ≡ self.old.pending) }
    {
        if is_operand {
            self.push_token(TokenKind::Open)?;
        }
        Ok(())
    }

    /// Begins a node with operands, which are written next: `pending`, what stands before or
    /// between them, waits. If a node is an operand itself, the `)` is written, and the `(`
    /// waits too.
    fn begin_operator(&mut self, is_operand: bool, pending: Pending) -> Result<(), AllocError>
        ensures { OnOk result (self.new ≡ around is_operand pending self.old) }
    {
        if is_operand {
            self.push_token(TokenKind::Close)?;
            self.push_pending(Pending::Front(TokenKind::Open))?;
        }
        self.push_pending(pending)
    }

    /// Writes what follows an address or number of a network: `/ N`, `mask D` or nothing.
    fn write_mask(&mut self, mask: NetMask) -> Result<(), AllocError>
        ensures tokens { OnOk result (self.new.tokens ≡ mask_tokens mask self.old.tokens) }
        ensures pending { OnOk result (self.new.pending ≡ self.old.pending) }
    {
        match mask {
            NetMask::Unwritten => Ok(()),
            NetMask::Prefix(len) => {
                self.push_token(TokenKind::Number(len))?;
                self.push_token(TokenKind::Operator(Operator::Divide))
            }
            NetMask::Mask(dotted) => {
                self.push_token(TokenKind::Dotted {
                    address: dotted.address,
                    parts: dotted.parts,
                })?;
                self.push_token(TokenKind::Mask)
            }
        }
    }

    /// Writes a value without its qualifiers.
    fn write_value(&mut self, value: Value) -> Result<(), AllocError>
        ensures tokens { OnOk result (self.new.tokens ≡ value_tokens value self.old.tokens) }
        ensures pending { OnOk result (self.new.pending ≡ self.old.pending) }
    {
        match value {
            Value::Number(number, mask) => {
                self.write_mask(mask)?;
                self.push_token(TokenKind::Number(number))
            }
            Value::Dotted(dotted, mask) => {
                self.write_mask(mask)?;
                self.push_token(TokenKind::Dotted {
                    address: dotted.address,
                    parts: dotted.parts,
                })
            }
            Value::Ip6(address, None) => self.push_token(TokenKind::Ip6(address)),
            Value::Ip6(address, Some(len)) => {
                self.write_mask(NetMask::Prefix(len))?;
                self.push_token(TokenKind::Ip6(address))
            }
            Value::Mac(address) => self.push_token(TokenKind::Mac(address)),
            Value::Range { first, last } => self.push_token(TokenKind::Range { first, last }),
        }
    }

    /// Writes the protocol before a value, if there is one.
    fn write_protocol(&mut self, protocol: Option<Protocol>) -> Result<(), AllocError>
        ensures tokens { OnOk result (self.new.tokens ≡ protocol_tokens protocol self.old.tokens) }
        ensures pending { OnOk result (self.new.pending ≡ self.old.pending) }
    {
        match protocol {
            None => Ok(()),
            Some(protocol) => self.push_token(TokenKind::Protocol(protocol)),
        }
    }

    /// Writes the direction before a value; one of both sides as `src or dst`, source first.
    fn write_direction(&mut self, direction: Direction) -> Result<(), AllocError>
        ensures tokens { OnOk result (self.new.tokens
            ≡ direction_tokens direction self.old.tokens) }
        ensures pending { OnOk result (self.new.pending ≡ self.old.pending) }
    {
        match direction {
            Direction::One(side) => self.push_token(TokenKind::Side(side)),
            Direction::Both(join) => {
                self.push_token(TokenKind::Side(Side::Destination))?;
                self.push_token(TokenKind::Join(join))?;
                self.push_token(TokenKind::Side(Side::Source))
            }
        }
    }

    /// Writes these qualifiers before a value.
    fn write_qualifiers(&mut self, qualifiers: Qualifiers) -> Result<(), AllocError>
        ensures tokens { OnOk result (self.new.tokens
            ≡ qualifier_tokens qualifiers self.old.tokens) }
        ensures pending { OnOk result (self.new.pending ≡ self.old.pending) }
    {
        if let Some(value_type) = qualifiers.value_type {
            self.push_token(TokenKind::ValueType(value_type))?;
        }
        if let Some(direction) = qualifiers.direction {
            self.write_direction(direction)?;
        }
        self.write_protocol(qualifiers.protocol)
    }
}

impl<A: Allocator> Writer<A> {
    /// Writes a node of one token, which needs no parentheses, and then what waited for it.
    fn write_word(&mut self, token: TokenKind) -> Result<(), AllocError>
        ensures { OnOk result
            (self.new ≡ write_pending self.old.pending (token ∷ self.old.tokens)) }
    {
        self.push_token(token)?;
        self.write_pending()
    }

    /// Writes a node of two tokens, and then what waited for it.
    fn write_pair(
        &mut self,
        is_operand: bool,
        first: TokenKind,
        last: TokenKind,
    ) -> Result<(), AllocError>
        ensures { OnOk result (self.new ≡ write_pending self.old.pending
            (open_operand is_operand (first ∷ last ∷ close_operand is_operand self.old.tokens))) }
    {
        self.close_parentheses(is_operand)?;
        self.push_token(last)?;
        self.push_token(first)?;
        self.open_parentheses(is_operand)?;
        self.write_pending()
    }

    /// Writes a value with these qualifiers, and then what waited for it.
    fn write_qualified(
        &mut self,
        is_operand: bool,
        qualifiers: Qualifiers,
        value: Value,
    ) -> Result<(), AllocError>
        ensures { OnOk result (self.new
            ≡ write_node is_operand (node.Valued qualifiers value) self.old) }
    {
        self.close_parentheses(is_operand)?;
        self.write_value(value)?;
        self.write_qualifiers(qualifiers)?;
        self.open_parentheses(is_operand)?;
        self.write_pending()
    }

    /// Writes `:size]` of an accessor `protocol[index:size]`; the index is next, and `protocol[`
    /// waits for it. An accessor is always an operand, and has no parentheses.
    fn write_load(&mut self, protocol: Protocol, size: u32) -> Result<(), AllocError>
        ensures { OnOk result (self.new ≡ write_node true (node.Load protocol size) self.old) }
    {
        self.push_token(TokenKind::CloseBracket)?;
        self.push_token(TokenKind::Number(size))?;
        self.push_token(TokenKind::Colon)?;
        self.push_pending(Pending::Front(TokenKind::Protocol(protocol)))?;
        self.push_pending(Pending::Front(TokenKind::OpenBracket))
    }

    /// Writes a node before those that are written. If it has operands, these are the nodes that
    /// are written next: only what stands after them is written now, and the rest waits.
    pub(crate) fn write_node(&mut self, is_operand: bool, node: Node) -> Result<(), AllocError>
        ensures { OnOk result (self.new ≡ write_node is_operand node self.old) }
    {
        match node {
            Node::Check(protocol) => self.write_word(TokenKind::Protocol(protocol)),
            Node::Cast(None, cast) => self.write_word(TokenKind::Cast(cast)),
            Node::Cast(Some(protocol), cast) => {
                self.write_pair(
                    is_operand,
                    TokenKind::Protocol(protocol),
                    TokenKind::Cast(cast),
                )
            }
            Node::Sized(size, number) => {
                self.write_pair(is_operand, TokenKind::Size(size), TokenKind::Number(number))
            }
            Node::Bare(value) => self.write_qualified(is_operand, UNQUALIFIED, value),
            Node::Valued(qualifiers, value) => self.write_qualified(is_operand, qualifiers, value),
            Node::Qualified(qualifiers, value) => {
                self.write_qualified(is_operand, written_qualifiers(qualifiers), value)
            }
            Node::Compare(comparison) => {
                self.begin_operator(
                    is_operand,
                    Pending::Between(TokenKind::Comparison(comparison)),
                )
            }
            Node::Not => self.begin_operator(is_operand, Pending::Front(TokenKind::Not)),
            Node::Join(join) => {
                self.begin_operator(is_operand, Pending::Between(TokenKind::Join(join)))
            }
            Node::Literal(number) => self.write_word(TokenKind::Number(number)),
            Node::Len => self.write_word(TokenKind::Len),
            Node::Named(number) => self.write_word(TokenKind::Name(number)),
            Node::Load(protocol, size) => self.write_load(protocol, size),
            // A number is always an operand.
            Node::Negate => {
                self.begin_operator(
                    true,
                    Pending::Front(TokenKind::Operator(Operator::Subtract)),
                )
            }
            Node::Apply(operator) => {
                self.begin_operator(true, Pending::Between(TokenKind::Operator(operator)))
            }
        }
    }

    /// The tokens that are written, in the order of the text.
    pub(crate) fn into_tokens(self) -> Vec<TokenKind, A>
        ensures { result.items ≡ self.tokens }
    {
        let Writer { mut tokens, .. } = self;
        tokens.reverse();
        tokens
    }
}
