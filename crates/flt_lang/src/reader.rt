//! The state of the parser, and its steps. The parser reads the tokens once, by operator precedence
//! with one stack of frames, and decides late which sort an operand is of.

ghost use Rattle.std.specs.Prelude.{◌≡◌, ◌≤◌, ◌<◌, ◌∷◌, [], IfErr, IfNone, IfOk, IfSome};
ghost use Rattle.std.specs.Prelude.{MatchOption, OnOk, length, reverse, List, Some, None, Err};
ghost use Rattle.std.specs.Prelude.{drop};
ghost use Rattle.flt_lang.specs.Grammar.{kinds_of};
ghost use Rattle.flt_lang.specs.inside.Parser.{IsLoose, precedence, operand_precedence, begin_at};
ghost use Rattle.flt_lang.specs.inside.Parser.{protocol_begins, protocol_role, number_primitive};
ghost use Rattle.flt_lang.specs.inside.Parser.{sized_of, primitive, bare_of, one_node, with_frames};
ghost use Rattle.flt_lang.specs.inside.Parser.{IsReadFault, Reads, ReadsStep, as_number, as_truth};
ghost use Rattle.flt_lang.specs.inside.Parser.{as_sort, prefix_mask, fill_frame, reduce};
ghost use Rattle.flt_lang.specs.inside.Parser.{after_operator, after_load, accessor_size};
ghost use Rattle.flt_lang.specs.inside.Parser.{after_close, after_token_at, number_with_prefix};
ghost use Rattle.flt_lang.specs.inside.Parser.{after_operand, run, finish, nodes_of_tokens};
ghost use Rattle.flt_ast.specs.{Nodes.tree_of, declared.node.Node.Node, inside.Nodes.IsTree};
ghost use Rattle.flt_words.specs.declared.token.TokenKind.{TokenKind};

use crate::frame::{Frame, Operand, Sort, operand_precedence, token_precedence};
use crate::primitive::{
    ProtocolRole, has_casts, is_accessor, kind_at, protocol_role, read_value,
    read_value_with_qualifiers, stands_alone,
};
use flt_ast::{Expr, NetMask, Node, Value};
use flt_words::{ExprFault, Operator, Protocol, Token, TokenKind};
use std::alloc::{AllocError, Allocator};
use std::marker::Model;

/// What waits, and the nodes of what is read so far.
#[derive(Drop)]
pub struct Reader<A: Allocator> {
    /// What waits for an operand or for its closing token.
    frames: Vec<Frame, A>,
    /// The nodes, operands first.
    nodes: Vec<Node, A>,
}

/// Both lists are seen latest first.
impl<A: Allocator> Model for Reader<A> {
    ghost use Rattle.std.specs.Prelude.{reverse};
    ghost use Rattle.flt_lang.specs.inside.Parser.{ReaderState};

    ghost Value = { ReaderState };

    ghost view = { λ r. record {
      frames = reverse r.frames.items;
      nodes = reverse r.nodes.items;
    } };
}

// What is read in a step is a pair: how many tokens after the first one (`step` itself counts that
// too), and the operand if it is complete. If it isn't, a frame waits for the rest of it.
//
// Of `not tcp[13] = 2` these are the frames, latest last, and the operand that was just read, when
// the token to the right comes next:
//
//     frames                        operand    next
//     not                                      tcp
//     not  tcp[                                13
//     not  tcp[                     13         ]
//     not                           number     =
//     not  =                                   2
//     not  =                        2          the end
impl<A: Allocator> Reader<A> {
    /// A reader that has read nothing. An error is an allocator that cannot be cloned.
    pub fn new(alloc: A) -> Result<Self, AllocError>
    where
        A: Clone,
        ensures frames { IfOk result (λ reader. reader.frames ≡ []) }
        ensures nodes { IfOk result (λ reader. reader.nodes ≡ []) }
    {
        Ok(Reader {
            frames: Vec::new(alloc.clone()?),
            nodes: Vec::new(alloc),
        })
    }

    /// Writes a node after the others.
    fn push_node(&mut self, node: Node) -> Result<(), ExprFault>
        ensures nodes { OnOk result (self.new.nodes ≡ node ∷ self.old.nodes) }
        ensures frames { OnOk result (self.new.frames ≡ self.old.frames) }
        ensures err { IfErr result (λ fault. fault ≡ ExprFault.Memory) }
    {
        match self.nodes.push(node) {
            Ok(()) => Ok(()),
            Err(_) => Err(ExprFault::Memory),
        }
    }

    /// Adds a frame, which waits from now on for an operand or its closing token.
    fn push_frame(&mut self, frame: Frame) -> Result<(), ExprFault>
        ensures frames { OnOk result (self.new.frames ≡ frame ∷ self.old.frames) }
        ensures nodes { OnOk result (self.new.nodes ≡ self.old.nodes) }
        ensures err { IfErr result (λ fault. fault ≡ ExprFault.Memory) }
    {
        let Ok(()) = self.frames.push(frame) else {
            return Err(ExprFault::Memory);
        };
        Ok(())
    }

    /// The precedence of the loosest operand that the latest frame takes, by the table in `frame`;
    /// that of a whole expression if no frame waits.
    fn operand_precedence(&self) -> u8
        ensures { result ≡ operand_precedence self.now.frames }
    {
        operand_precedence(&self.frames)
    }

    /// Takes the latest frame off, if one waits.
    fn pop_frame(&mut self) -> Option<Frame>
        ensures frames { MatchOption result (self.old.frames ≡ [])
            (λ f. self.old.frames ≡ f ∷ self.new.frames) }
        ensures nodes { self.new.nodes ≡ self.old.nodes }
    {
        self.frames.pop()
    }

    /// Takes the latest frame off if it binds at least as tightly as `limit`. `None` if it binds
    /// more loosely, or none waits.
    fn pop_tight_frame(&mut self, limit: u8) -> Option<Frame>
        ensures some { IfSome result (λ f. self.old.frames ≡ f ∷ self.new.frames) }
        ensures tight { IfSome result (λ f. precedence f ≤ limit) }
        ensures kept { IfNone result (self.new.frames ≡ self.old.frames) }
        ensures stays { IfNone result (IsLoose limit self.old.frames) }
        ensures nodes { self.new.nodes ≡ self.old.nodes }
    {
        match self.frames.last() {
            Some(frame) if frame.precedence() <= limit => self.frames.pop(),
            _ => None,
        }
    }

    /// The expression of the nodes that were read, which must be those of a tree, as they are
    /// after `read`.
    pub fn into_expr(self) -> Expr<A>
        requires { IsTree (reverse self.nodes) }
        ensures { result ≡ tree_of (reverse self.nodes) }
    {
        let Reader { nodes, .. } = self;
        Expr { nodes }
    }

    // ---- the beginning of an operand

    /// Reads the tokens at the beginning of an operand, of which `first` is the first: how many
    /// more than one are used up, and the operand, if that is all of it. `NotAnExpression` if none
    /// begins.
    fn begin_operand(
        &mut self,
        first: TokenKind,
        tokens: &[Token],
    ) -> Result<(usize, Option<Operand>), ExprFault>
        requires { 0 < length tokens.now }
        ensures reads { ReadsStep
            (begin_at first (kinds_of tokens.now) self.old.frames self.old.nodes) self.new result }
        ensures within { IfOk result (λ r. r.0 < length tokens.now) }
    {
        match first {
            TokenKind::Protocol(protocol) => self.begin_with_protocol(protocol, tokens),
            TokenKind::Side(_) | TokenKind::ValueType(_) => {
                self.write_primitive(read_primitive(tokens))
            }
            TokenKind::Cast(cast) => self.write_primitive(Some((Node::Cast(None, cast), 0))),
            TokenKind::Size(_) => self.write_primitive(read_length_test(tokens)),
            TokenKind::Number(_) => self.begin_number(tokens),
            TokenKind::Dotted { .. }
            | TokenKind::Ip6(_)
            | TokenKind::Mac(_)
            | TokenKind::Range { .. } => self.write_primitive(read_bare_value(tokens)),
            TokenKind::Len => self.write_number_word(Node::Len),
            TokenKind::Name(number) => self.write_number_word(Node::Named(number)),
            // 6 is its precedence. It is refused if the latest frame takes numbers: in
            // arithmetic, a comparison or brackets.
            TokenKind::Not if self.operand_precedence() >= 6 => self.shift_prefix(Frame::Not),
            TokenKind::Operator(Operator::Subtract) => self.shift_prefix(Frame::Negate),
            TokenKind::Open => self.shift_prefix(Frame::Open),
            _ => Err(ExprFault::NotAnExpression),
        }
    }

    /// Lets a frame wait for the operand after it: `not`, a sign or `(`. No operand is complete.
    fn shift_prefix(&mut self, frame: Frame) -> Result<(usize, Option<Operand>), ExprFault>
        ensures reads { ReadsStep (Some (0, (frame ∷ self.old.frames, None, self.old.nodes)))
            self.new result }
        ensures used { IfOk result (λ r. r.0 ≡ 0) }
    {
        self.push_frame(frame)?;
        Ok((0, None))
    }

    /// Writes a number that is one token and one node, `len` or a name.
    fn write_number_word(&mut self, node: Node) -> Result<(usize, Option<Operand>), ExprFault>
        ensures reads { ReadsStep
            (Some (0, (self.old.frames, Some Operand.Number, node ∷ self.old.nodes)))
            self.new result }
        ensures used { IfOk result (λ r. r.0 ≡ 0) }
    {
        self.push_node(node)?;
        Ok((0, Some(Operand::Number)))
    }

    /// Writes the one node of a primitive, if one was read; the number with it is that of its
    /// tokens after the first one. `NotAnExpression` for `None`.
    fn write_primitive(
        &mut self,
        read: Option<(Node, usize)>,
    ) -> Result<(usize, Option<Operand>), ExprFault>
        ensures reads { ReadsStep (with_frames self.old.frames (one_node self.old.nodes read))
            self.new result }
        ensures used { IfOk result (λ r. IfSome read (λ node. r.0 ≡ node.1)) }
    {
        let Some((node, more)) = read else {
            return Err(ExprFault::NotAnExpression);
        };
        self.push_node(node)?;
        Ok((more, Some(Operand::Truth)))
    }

    /// Reads an operand that begins with a protocol: an accessor as `tcp[` up to its bracket, a
    /// cast as `ether broadcast`, or another primitive. `tokens` has the protocol first.
    /// `NotAnExpression` if this protocol may not stand before the bracket or the cast that
    /// follows it, or if neither follows and no primitive begins with it, as with a single `ether`.
    fn begin_with_protocol(
        &mut self,
        protocol: Protocol,
        tokens: &[Token],
    ) -> Result<(usize, Option<Operand>), ExprFault>
        ensures reads { ReadsStep (protocol_begins protocol (protocol_role (kinds_of tokens.now))
            (kinds_of tokens.now) self.old.frames self.old.nodes) self.new result }
        ensures within { IfOk result (λ r. r.0 < length tokens.now) }
    {
        match protocol_role(tokens) {
            ProtocolRole::Bracket if is_accessor(protocol) => {
                self.push_frame(Frame::Load(protocol))?;
                Ok((1, None))
            }
            ProtocolRole::Cast(cast) if has_casts(protocol) => {
                self.write_primitive(Some((Node::Cast(Some(protocol), cast), 1)))
            }
            ProtocolRole::Other => self.write_primitive(read_primitive(tokens)),
            _ => Err(ExprFault::NotAnExpression),
        }
    }

    /// Reads a number, which may become either sort, or a network's number with `mask D`, which is
    /// a truth. `NotAnExpression` where tokens don't begin with a number.
    fn begin_number(&mut self, tokens: &[Token]) -> Result<(usize, Option<Operand>), ExprFault>
        ensures reads { ReadsStep
            (with_frames self.old.frames (number_primitive (kinds_of tokens.now) self.old.nodes))
            self.new result }
        ensures within { IfOk result (λ r. r.0 < length tokens.now) }
    {
        match (kind_at(tokens, 0), kind_at(tokens, 1), kind_at(tokens, 2)) {
            (Some(TokenKind::Number(_)), Some(TokenKind::Mask), Some(TokenKind::Dotted { .. })) =>
                self.write_primitive(read_bare_value(tokens)),
            (Some(TokenKind::Number(number)), _, _) => Ok((0, Some(Operand::Plain(number)))),
            _ => Err(ExprFault::NotAnExpression),
        }
    }

    // ---- after an operand

    /// Makes an operand a number: adds its nodes after the others, unless it has them already.
    /// `NotAnExpression` for a truth.
    fn write_number(&mut self, operand: Operand) -> Result<(), ExprFault>
        ensures reads { Reads (as_number operand self.old.nodes) (λ _. self.new.nodes) result }
        ensures frames { OnOk result (self.new.frames ≡ self.old.frames) }
    {
        match operand {
            Operand::Number => Ok(()),
            Operand::Plain(number) | Operand::Either(number, None) => {
                self.push_node(Node::Literal(number))
            }
            Operand::Either(number, Some(len)) => {
                self.push_node(Node::Literal(number))?;
                self.push_node(Node::Literal(len))?;
                self.push_node(Node::Apply(Operator::Divide))
            }
            Operand::Truth => Err(ExprFault::NotAnExpression),
        }
    }

    /// Makes an operand a truth: adds its node after the others, unless it has it already.
    /// `NotAnExpression` for what can only be a number.
    fn write_truth(&mut self, operand: Operand) -> Result<(), ExprFault>
        ensures reads { Reads (as_truth operand self.old.nodes) (λ _. self.new.nodes) result }
        ensures frames { OnOk result (self.new.frames ≡ self.old.frames) }
    {
        match operand {
            Operand::Truth => Ok(()),
            Operand::Plain(number) => {
                self.push_node(Node::Bare(Value::Number(number, NetMask::Unwritten)))
            }
            Operand::Either(number, len) => {
                self.push_node(Node::Bare(Value::Number(number, prefix_mask(len))))
            }
            Operand::Number => Err(ExprFault::NotAnExpression),
        }
    }

    /// Makes an operand one of this sort, by `write_truth` or `write_number`, with errors as of
    /// these.
    fn write_operand(&mut self, sort: Sort, operand: Operand) -> Result<(), ExprFault>
        ensures reads { Reads (as_sort sort operand self.old.nodes) (λ _. self.new.nodes) result }
        ensures frames { OnOk result (self.new.frames ≡ self.old.frames) }
    {
        match sort {
            Sort::Truth => self.write_truth(operand),
            Sort::Number => self.write_number(operand),
        }
    }

    /// Completes a frame with its last operand, of the sort that it takes: writes the frame's node
    /// after it. Returns the operand that the two are together. `NotAnExpression` for `(` and
    /// accessors, which only their closing token completes, and for an operand of the other sort.
    fn fill_frame(&mut self, frame: Frame, operand: Operand) -> Result<Operand, ExprFault>
        ensures reads { Reads (fill_frame frame operand self.old.nodes)
            (λ x. (x, self.new.nodes)) result }
        ensures frames { IfOk result (λ _. self.new.frames ≡ self.old.frames) }
    {
        let Some((node, whole)) = frame.node() else {
            return Err(ExprFault::NotAnExpression);
        };
        self.write_operand(frame.sort(), operand)?;
        self.push_node(node)?;
        Ok(whole)
    }

    /// Completes frames and takes them off, the latest first, up to the first one that binds more
    /// loosely than `limit`. Returns what they make of the operand. `NotAnExpression` if one of
    /// them can't be completed, as in `fill_frame`.
    #[tactic(auto, using(crate::proofs::Reducing::reducing))]
    fn reduce(&mut self, operand: Operand, limit: u8) -> Result<Operand, ExprFault>
        ensures reads { Reads (reduce limit self.old.frames operand self.old.nodes)
            (λ x. (self.new.frames, x, self.new.nodes)) result }
    {
        let mut operand = operand;
        while let Some(frame) = self.pop_tight_frame(limit) {
            operand = self.fill_frame(frame, operand)?;
        }
        Ok(operand)
    }

    /// Lets a frame whose left operand was read wait for its right one. `NotAnExpression` if the
    /// left one is of the other sort, or the latest frame takes nothing that binds as loosely:
    /// `tcp[len = 1]`.
    fn shift_operator(
        &mut self,
        frame: Frame,
        operand: Operand,
    ) -> Result<(usize, Option<Operand>), ExprFault>
        ensures reads { ReadsStep (after_operator frame self.old.frames operand self.old.nodes)
            self.new result }
        ensures used { IfOk result (λ r. r.0 ≡ 0) }
    {
        if self.operand_precedence() < frame.precedence() {
            return Err(ExprFault::NotAnExpression);
        }
        self.write_operand(frame.sort(), operand)?;
        self.push_frame(frame)?;
        Ok((0, None))
    }

    /// Closes a parenthesis: `NotAnExpression` if the latest frame isn't one, or no frame waits.
    /// A plain number in it, even one with `/ N`, may still become either sort.
    fn close_parenthesis(&mut self, operand: Operand) -> Result<(usize, Option<Operand>), ExprFault>
        ensures reads { ReadsStep (after_close self.old.frames operand self.old.nodes) self.new
            result }
        ensures used { IfOk result (λ r. r.0 ≡ 0) }
    {
        match self.pop_frame() {
            Some(Frame::Open) => Ok((0, Some(operand.in_parentheses()))),
            _ => Err(ExprFault::NotAnExpression),
        }
    }

    /// Closes a bracket: the accessor that waits takes its index, and reads `size` bytes there.
    /// `more` tokens more than one are used up. `NotAnExpression` if no accessor waits, or the
    /// index is a truth.
    fn close_bracket(
        &mut self,
        operand: Operand,
        more: usize,
        size: u32,
    ) -> Result<(usize, Option<Operand>), ExprFault>
        ensures reads { ReadsStep (after_load more size self.old.frames operand self.old.nodes)
            self.new result }
        ensures used { IfOk result (λ r. r.0 ≡ more) }
    {
        match self.pop_frame() {
            Some(Frame::Load(protocol)) => {
                self.write_number(operand)?;
                self.push_node(Node::Load(protocol, size))?;
                Ok((more, Some(Operand::Number)))
            }
            _ => Err(ExprFault::NotAnExpression),
        }
    }

    /// Reads the token `first` after an operand that no tighter frame takes: an operator, whose
    /// frame waits for its right operand, or what closes a parenthesis or a bracket, with the size
    /// of an accessor if it is its colon. Returns how many tokens more than this one are used
    /// up, and the operand, if one is complete. `NotAnExpression` for other tokens, and where
    /// `shift_operator`, `close_parenthesis` or `close_bracket` refuses this one, or if no size
    /// and bracket follow the colon.
    fn shift_or_close(
        &mut self,
        operand: Operand,
        first: TokenKind,
        rest: &[Token],
    ) -> Result<(usize, Option<Operand>), ExprFault>
        ensures reads { ReadsStep (after_token_at first (kinds_of rest.now) self.old.frames operand
            self.old.nodes) self.new result }
        ensures within { IfOk result (λ r. r.0 ≤ length rest.now) }
    {
        match first {
            TokenKind::Operator(operator) => self.shift_operator(Frame::Apply(operator), operand),
            TokenKind::Comparison(comparison) => {
                self.shift_operator(Frame::Compare(comparison), operand)
            }
            TokenKind::Join(join) => self.shift_operator(Frame::Join(join), operand),
            TokenKind::Close => self.close_parenthesis(operand),
            // An accessor without a size reads one byte.
            TokenKind::CloseBracket => self.close_bracket(operand, 0, 1),
            // The size and the bracket are two tokens.
            TokenKind::Colon => match read_accessor_size(rest) {
                Some(size) => self.close_bracket(operand, 2, size),
                None => Err(ExprFault::NotAnExpression),
            },
            _ => Err(ExprFault::NotAnExpression),
        }
    }

    /// Reads what follows an operand: a token, the two of `/ N` after a number, or the three of
    /// `: N ]`, of which `first` is the first. Returns how many tokens more than this one are used
    /// up, and the operand, if one is complete. `NotAnExpression` where these tokens can't follow
    /// the operand, or a frame that they complete can't take it.
    fn read_after_operand(
        &mut self,
        operand: Operand,
        first: TokenKind,
        rest: &[Token],
    ) -> Result<(usize, Option<Operand>), ExprFault>
        ensures reads { ReadsStep (after_operand (first ∷ kinds_of rest.now) self.old.frames operand
            self.old.nodes) self.new result }
        ensures within { IfOk result (λ r. r.0 ≤ length rest.now) }
    {
        // If the latest frame doesn't take a quotient (precedence 1), as in `6 * 10/8`, the `/`
        // is an operator after what that frame makes of the number.
        match number_with_prefix(operand, first, rest) {
            Some((number, len)) if self.operand_precedence() >= 1 => {
                Ok((1, Some(Operand::Either(number, Some(len)))))
            }
            _ => {
                let reduced = self.reduce(operand, token_precedence(first))?;
                self.shift_or_close(reduced, first, rest)
            }
        }
    }

    /// Reads at least one token: how many, and the operand that was read last, if it is complete.
    /// `operand` is what the step before returned of it. `NotAnExpression` if no expression goes
    /// on like this.
    fn step(
        &mut self,
        operand: Option<Operand>,
        tokens: &[Token],
    ) -> Result<(usize, Option<Operand>), ExprFault>
        requires { 0 < length tokens.now }
        ensures ok { IfOk result (λ r.
            run (kinds_of tokens.now) 0 self.old.frames operand self.old.nodes
            ≡ run (kinds_of (drop r.0 tokens.now)) 0 self.new.frames r.1 self.new.nodes) }
        ensures used { IfOk result (λ r. 0 < r.0) }
        ensures within { IfOk result (λ r. r.0 ≤ length tokens.now) }
        ensures none { result ≡ Err ExprFault.NotAnExpression
            → run (kinds_of tokens.now) 0 self.old.frames operand self.old.nodes ≡ None }
        ensures err { IfErr result IsReadFault }
    {
        // There is a first token, as the clause requires.
        let [first, rest @ ..] = tokens else {
            return Err(ExprFault::NotAnExpression);
        };
        match operand {
            None => {
                let (more, next) = self.begin_operand(first.kind, tokens)?;
                Ok((1 + more, next))
            }
            Some(read) => {
                let (more, next) = self.read_after_operand(read, first.kind, rest)?;
                Ok((1 + more, next))
            }
        }
    }

    /// After the last token, when the end acts as a closing one (precedence 8): the frames that
    /// wait are completed, and one truth has to be left. `NotAnExpression` if none is, or what can
    /// only be a number, if a frame can't be completed, or a parenthesis or bracket is open.
    fn finish(&mut self, operand: Option<Operand>) -> Result<(), ExprFault>
        ensures reads { Reads (finish operand self.old.frames self.old.nodes)
            (λ _. self.new.nodes) result }
    {
        let Some(read) = operand else {
            return Err(ExprFault::NotAnExpression);
        };
        let reduced = self.reduce(read, 8)?;
        match self.pop_frame() {
            None => self.write_truth(reduced),
            Some(_) => Err(ExprFault::NotAnExpression),
        }
    }

    /// Reads the tokens of a whole expression into a reader that has read nothing. It has the nodes
    /// of their tree then, and none if there are no tokens. `NotAnExpression` if they have no
    /// tree.
    pub fn read(&mut self, tokens: &[Token]) -> Result<(), ExprFault>
        requires frames { self.old.frames ≡ [] }
        requires nodes { self.old.nodes ≡ [] }
        ensures reads { Reads (nodes_of_tokens (kinds_of tokens.now)) (λ _. self.new.nodes) result }
    {
        if tokens.is_empty() {
            return Ok(());
        }
        let mut operand = None;
        let mut at = 0;
        while at < tokens.len() {
            let (used, next) = self.step(operand, &tokens[at..])?;
            operand = next;
            at += used;
        }
        self.finish(operand)
    }
}

/// The node of `less N` or `greater N` with which tokens begin, and how many tokens more than one
/// it takes; `None` if they don't.
fn read_length_test(tokens: &[Token]) -> Option<(Node, usize)>
    ensures value { (nodes : List Node) →
        one_node nodes result ≡ sized_of (kinds_of tokens.now) nodes }
    ensures within { IfSome result (λ r. r.1 < length tokens.now) }
{
    match (kind_at(tokens, 0), kind_at(tokens, 1)) {
        (Some(TokenKind::Size(size)), Some(TokenKind::Number(number))) => {
            Some((Node::Sized(size, number), 1))
        }
        _ => None,
    }
}

/// The node of a value with what stands before it, or else of a protocol that may stand alone, with
/// which tokens begin, and how many tokens more than one it takes; `None` if they begin with
/// neither.
fn read_primitive(tokens: &[Token]) -> Option<(Node, usize)>
    ensures value { (nodes : List Node) →
        one_node nodes result ≡ primitive (kinds_of tokens.now) nodes }
    ensures within { IfSome result (λ r. r.1 < length tokens.now) }
{
    if let Some((qualifiers, value, more)) = read_value_with_qualifiers(tokens) {
        return Some((Node::Valued(qualifiers, value), more));
    }
    match kind_at(tokens, 0) {
        Some(TokenKind::Protocol(protocol)) if stands_alone(protocol) => {
            Some((Node::Check(protocol), 0))
        }
        _ => None,
    }
}

/// The node of a value with nothing before it, with which tokens begin, and how many tokens more
/// than one it takes; `None` if they begin with none.
fn read_bare_value(tokens: &[Token]) -> Option<(Node, usize)>
    ensures value { (nodes : List Node) →
        one_node nodes result ≡ bare_of (kinds_of tokens.now) nodes }
    ensures within { IfSome result (λ r. r.1 < length tokens.now) }
{
    let (value, used) = read_value(tokens)?;
    Some((Node::Bare(value), used - 1))
}

/// The mask of a network's number, by the length of a prefix if one is written after it.
fn prefix_mask(len: Option<u32>) -> NetMask
    ensures { result ≡ prefix_mask len }
{
    match len {
        None => NetMask::Unwritten,
        Some(len) => NetMask::Prefix(len),
    }
}

/// A plain number and the `N` of `/ N`, if that follows it: a network with the length of
/// its prefix, or a division. `None` for other operands or tokens.
fn number_with_prefix(operand: Operand, first: TokenKind, rest: &[Token]) -> Option<(u32, u32)>
    ensures value { result ≡ number_with_prefix operand (first ∷ kinds_of rest.now) }
    ensures within { IfSome result (λ _. 0 < length rest.now) }
{
    match (operand, first, kind_at(rest, 0)) {
        (
            Operand::Plain(number),
            TokenKind::Operator(Operator::Divide),
            Some(TokenKind::Number(len)),
        ) => Some((number, len)),
        _ => None,
    }
}

/// The size in bytes of an accessor, after its colon and before its bracket, in any range; `None`
/// if no number and bracket follow.
fn read_accessor_size(tokens: &[Token]) -> Option<u32>
    ensures value { result ≡ accessor_size (kinds_of tokens.now) }
    ensures within { IfSome result (λ _. 1 < length tokens.now) }
{
    match (kind_at(tokens, 0), kind_at(tokens, 1)) {
        (Some(TokenKind::Number(size)), Some(TokenKind::CloseBracket)) => Some(size),
        _ => None,
    }
}
