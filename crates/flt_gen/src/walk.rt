//! Walks over the nodes of an expression from the last to the first, and emits the code of each in
//! front of the code so far. Operands that come later wait in lists, so that a long chain of
//! operands needs no more of the machine's stack than a short one.
//!
//! `tcp and (host A or host B)` has the nodes `tcp`, A, B, `or`, `and`. From the last one on:
//!
//! - `and`: its left operand, `tcp`, waits in `truths` with the targets of the whole.
//! - `or`: `pending` notes that its right operand is next.
//! - B: as it follows `or`, it isn't emitted yet but put into `group`.
//! - A: joins the group. One test for both is emitted, and `finish_truth` makes its entry the
//!   target of `tcp` if that matches.
//! - `tcp` is emitted. Nothing waits, so the program begins at its entry.
//!
//! `tcp[13] + len > 5` has the nodes 13, `tcp[..]`, `len`, `+`, 5, `>`. From the last one on:
//!
//! - `>` and 5 become one test (`emit_both_nodes`).
//! - `+`: its left operand waits in `numbers`, with the word of memory (`slot`) for it.
//! - `len`: its load is emitted, and in front of that the store of the left operand, which is next.
//! - `tcp[..]` and 13, a constant index, become one load. Its protocol goes into `accessors`.
//!   Nothing waits in `numbers`, so their tests are emitted in front (`finish_relation`).

ghost use Rattle.std.specs.Prelude.{◌≡◌, Some, None, if◌then◌else◌, OnOk, IfOk, reverse};
ghost use Rattle.flt_gen.specs.inside.Walk.{start_walk, insns_of, emit_nodes, emit_both_nodes};
ghost use Rattle.flt_gen.specs.inside.Walk.{emit_node, emit_join, emit_entry, emit_truth_node};
ghost use Rattle.flt_gen.specs.inside.Walk.{emit_apart, begin_left, begin_right, flush_group};
ghost use Rattle.flt_gen.specs.inside.Walk.{finish_formula, finish_truth};
ghost use Rattle.flt_gen.specs.inside.Walk.{emit_leaf, begin_operands, finish_number};
ghost use Rattle.flt_gen.specs.inside.{Code.block, Walk.finish_relation, Group.entry_formula};
ghost use Rattle.flt_gen.specs.inside.Group.{no_group, larger_group, group_formula};
ghost use Rattle.cap_octet.specs.declared.link.Link.{Link};

use crate::code::{Code, Result, Targets};
use crate::group::{Entry, Group};
use crate::number::{
    accessor_offset, computation, emit_accessor, emit_accessor_tests, emit_operands,
    takes_constant, width_of,
};
use crate::relation::last_relation;
use crate::stack::Stack;
use crate::waiting::{LeftTruth, Pending, Waiting, add_accessor};
use cap_octet::Link;
use flt_ast::Node;
use flt_bpf::Wide;
use flt_bpf::operation::{Operand, Operation, Register, Source};
use flt_words::{Join, Protocol};
use std::alloc::{AllocError, Allocator};
use std::marker::Model;

/// The number that a program returns if it keeps a packet: the default snap length of tcpdump, in
/// bytes, as its programs do.
const KEEP: u32 = 262_144;

/// The state of the walk over an expression's nodes.
#[derive(Drop)]
pub struct Walk<A: Allocator> {
    code: Code<A>,
    /// The targets of the next truth (a part of the expression that is yes or no); in the end both
    /// are the beginning of the program, if there was a node.
    to: Targets,
    /// The word for the next left operand.
    slot: u32,
    /// The left operands of `and` and `or`, which come later.
    truths: Stack<LeftTruth, A>,
    /// The accessors and left operands that wait for the next number.
    numbers: Stack<Waiting, A>,
    /// The protocols of the relation's accessors, each once; that of the leftmost one is the
    /// latest.
    accessors: Stack<Protocol, A>,
    /// Members of a list that are tested in front of the code, and whose code isn't there yet.
    group: Group<A>,
    /// Whether the last node was an `or`, whose right operand is next.
    pending: Pending,
}

impl<A: Allocator> Model for Walk<A> {
    ghost use Rattle.flt_gen.specs.inside.Walk.{Walk};

    ghost Value = { Walk };

    ghost view = { λ w. record {
      code = w.code;
      to = w.to;
      slot = w.slot;
      truths = w.truths;
      numbers = w.numbers;
      accessors = w.accessors;
      group = w.group;
      pending = w.pending;
    } };
}

impl<A: Allocator + Clone> Walk<A> {
    /// A walk before its first node: the code is the two returns, one that keeps a packet and one
    /// that doesn't. An error is a failed allocation, or an allocator that cannot be cloned.
    #[tactic(auto, using(std::proofs::lemmas::Grind::common_steps))]
    pub fn new(alloc: A) -> Result<Self>
        ensures { IfOk result (λ walk. walk ≡ start_walk) }
    {
        let mut code = Code::new(alloc.clone()?);
        code.emit_plain(Operation::ReturnConstant, 0)?;
        code.emit_plain(Operation::ReturnConstant, KEEP)?;
        Ok(Walk {
            code,
            to: Targets { yes: 2, no: 1 },
            slot: 0,
            truths: Stack::new(alloc.clone()?),
            numbers: Stack::new(alloc.clone()?),
            accessors: Stack::new(alloc.clone()?),
            group: Group::new(alloc)?,
            pending: Pending::Nothing,
        })
    }

    /// Emits the code of all nodes of a tree, from the last to the first.
    #[tactic(auto, using(crate::proofs::Turned::node_steps))]
    pub fn emit_nodes(&mut self, link: Link, nodes: &[Node]) -> Result<()>
        ensures { OnOk result (self.new ≡ emit_nodes link self.old (reverse nodes.now)) }
    {
        let mut left = nodes.len();
        // The label names the loop in its proof.
        'nodes: while left > 0 {
            if let Some(relation) = last_relation(&nodes[..left]) {
                self.emit_entry(link, relation)?;
                left -= 4;
                continue;
            }
            left -= 1;
            if left == 0 {
                self.emit_node(link, &nodes[left])?;
            } else if self.emit_both_nodes(link, &nodes[left], &nodes[left - 1])? {
                left -= 1;
            } else {
                self.emit_node(link, &nodes[left])?;
            }
        }
        Ok(())
    }

    /// Emits a node and the one before it at once, if that is its right operand or its index, and a
    /// constant that its instruction may have. `false`: it isn't, and nothing is emitted.
    fn emit_both_nodes(&mut self, link: Link, node: &Node, right: &Node) -> Result<bool>
        ensures emits { IfOk result (λ fits. emit_both_nodes link self.old node.now right.now
            ≡ (if fits then Some self.new else None)) }
        ensures same { IfOk result (λ fits. self.new ≡ (if fits then self.new else self.old)) }
    {
        let Node::Literal(n) = *right else {
            return Ok(false);
        };
        match *node {
            Node::Apply(operator) => {
                if !takes_constant(operator, n) {
                    return Ok(false);
                }
                self.code
                    .emit_plain(computation(operator, Operand::Constant), n)?;
                Ok(true)
            }
            Node::Compare(comparison) => {
                self.flush_group(link)?;
                self.code
                    .emit_comparison(comparison, Operand::Constant, n, self.to)?;
                Ok(true)
            }
            Node::Load(protocol, size) => {
                let offset = accessor_offset(link, protocol, n);
                self.code.emit_field(offset, width_of(size))?;
                self.numbers.push(Waiting::Index(protocol))?;
                self.finish_number(link)?;
                Ok(true)
            }
            _ => Ok(false),
        }
    }

    /// Emits one more node, the one before those that were emitted. A group that waits is emitted
    /// first, unless the node is a value or an `or`, which may go on with it, or a part of arithmetic:
    /// its comparison came before, and emitted the group. The value of arithmetic is in A then.
    fn emit_node(&mut self, link: Link, node: &Node) -> Result<()>
        ensures { OnOk result (self.new ≡ emit_node link self.old node.now) }
    {
        match node {
            Node::Join(join) => self.emit_join(link, *join),
            Node::Qualified(qualifiers, value) => {
                self.emit_entry(link, Entry::Value(*qualifiers, *value))
            }
            Node::Literal(n) | Node::Named(n) => self.emit_leaf(link, Source::Immediate, *n),
            Node::Len => self.emit_leaf(link, Source::Length, 0),
            Node::Load(protocol, size) => {
                emit_accessor(&mut self.code, link, *protocol, width_of(*size))?;
                self.numbers.push(Waiting::Index(*protocol))
            }
            Node::Negate => self.code.emit_plain(Operation::Negate, 0),
            Node::Apply(operator) => {
                self.code
                    .emit_plain(computation(*operator, Operand::IndexRegister), 0)?;
                self.begin_operands(self.slot)
            }
            _ => {
                self.flush_group(link)?;
                self.emit_truth_node(link, node)
            }
        }
    }

    /// Emits `and` or `or`, which has no code of its own: it sets what its operands go on to.
    fn emit_join(&mut self, link: Link, join: Join) -> Result<()>
        ensures { OnOk result (self.new ≡ emit_join link join self.old) }
    {
        match join {
            Join::Or => {
                self.begin_right()?;
                self.pending = Pending::Or;
                Ok(())
            }
            Join::And => {
                self.flush_group(link)?;
                self.begin_left(Join::And)
            }
        }
    }

    /// Emits a value or a relation. One that stands alone is never put into the group, which costs
    /// allocations.
    #[tactic(auto, using(crate::proofs::Walking::alone_emitted))]
    fn emit_entry(&mut self, link: Link, entry: Entry) -> Result<()>
        ensures { OnOk result (self.new ≡ emit_entry link entry self.old
            (larger_group entry self.old.group)) }
    {
        match self.pending {
            Pending::Nothing if self.group.is_empty() => {
                self.group.clear();
                self.emit_alone(link, entry)
            }
            _ => self.emit_listed(link, entry),
        }
    }

    /// As `emit_entry`. One that goes with the group of those after it joins it: as the right
    /// operand of an `or` it waits there for one more; else the group is emitted. Any other comes
    /// after the group that waits: as the right operand of an `or` it begins a new one if it may be
    /// a member, and else it is emitted by itself.
    fn emit_listed(&mut self, link: Link, entry: Entry) -> Result<()>
        ensures { OnOk result (self.new ≡ emit_entry link entry self.old
            (larger_group entry self.old.group)) }
    {
        if self.add(entry)? {
            if let Pending::Or = self.pending {
                self.pending = Pending::Nothing;
                return Ok(());
            }
            return self.emit_group(link);
        }
        let pending = self.pending;
        self.flush_group(link)?;
        self.emit_apart(link, pending, entry)
    }

    /// Adds an entry to the group, if it goes with the members. Returns `false` if it isn't added.
    fn add(&mut self, entry: Entry) -> Result<bool>
        ensures taken { IfOk result (λ taken. larger_group entry self.old.group
            ≡ (if taken then Some self.new.group else None)) }
        ensures same { IfOk result (λ taken. self.new
            ≡ (if taken then record self.old { group = self.new.group } else self.old)) }
    {
        self.group.add(entry)
    }

    /// Emits a value or a relation that doesn't go with the group after it, whose code is complete
    /// by now.
    fn emit_apart(&mut self, link: Link, pending: Pending, entry: Entry) -> Result<()>
        ensures { OnOk result (self.new ≡ emit_apart link entry self.old pending
            (larger_group entry self.old.group)) }
    {
        match pending {
            Pending::Nothing => self.emit_alone(link, entry),
            Pending::Or => {
                if !self.add(entry)? {
                    return self.emit_alone(link, entry);
                }
                // The left operand, which `flush_group` made wait, may be a member too.
                self.truths.pop();
                Ok(())
            }
        }
    }

    /// Emits a value or a relation by itself.
    fn emit_alone(&mut self, link: Link, entry: Entry) -> Result<()>
        ensures { OnOk result (self.new ≡ finish_formula link (entry_formula link entry) self.old) }
    {
        let place = self.code.emit_entry(link, entry, self.to)?;
        self.finish_truth(place);
        Ok(())
    }

    /// Emits a primitive, a negation or a comparison. Any other node matches no packet, as a value
    /// whose qualifiers aren't filled in; a `Checked` expression has none.
    fn emit_truth_node(&mut self, link: Link, node: &Node) -> Result<()>
        ensures { OnOk result (self.new ≡ emit_truth_node link self.old node.now) }
    {
        let entry = match node {
            Node::Check(protocol) => self.code.emit_check(link, *protocol, self.to)?,
            Node::Cast(protocol, cast) => self.code.emit_cast(link, *protocol, *cast, self.to)?,
            Node::Sized(size, number) => self.code.emit_length_test(*size, *number, self.to)?,
            Node::Not => {
                self.to = self.to.exchanged();
                return Ok(());
            }
            Node::Compare(comparison) => {
                self.code
                    .emit_comparison(*comparison, Operand::IndexRegister, 0, self.to)?;
                return self.begin_operands(0);
            }
            _ => self.to.no,
        };
        self.finish_truth(entry);
        Ok(())
    }

    /// If an `or` was the last node, its right operand isn't looked for together with the left one,
    /// which waits then. Else nothing changes.
    fn begin_right(&mut self) -> Result<()>
        ensures { OnOk result (self.new ≡ begin_right self.old.pending self.old) }
    {
        match self.pending {
            Pending::Nothing => Ok(()),
            Pending::Or => {
                self.pending = Pending::Nothing;
                self.begin_left(Join::Or)
            }
        }
    }

    /// The left operand waits for the right one of a join, which is next.
    fn begin_left(&mut self, join: Join) -> Result<()>
        ensures { OnOk result (self.new ≡ begin_left join self.old) }
    {
        let to = self.to;
        self.truths.push(LeftTruth { join, to })
    }

    /// Emits the code of the group that waits, if it has members: another operand of an `or` stands
    /// in front of it. That operand is next, and goes on at the group's code if it doesn't match.
    /// Before that, if the last node was an `or`, its left operand begins to wait (`begin_right`).
    fn flush_group(&mut self, link: Link) -> Result<()>
        ensures { OnOk result (self.new ≡ flush_group link self.old) }
    {
        self.begin_right()?;
        if self.group.is_empty() {
            self.group.clear();
            return Ok(());
        }
        self.begin_left(Join::Or)?;
        self.emit_group(link)
    }

    /// Emits the code of the group, which has members, and empties it.
    fn emit_group(&mut self, link: Link) -> Result<()>
        ensures { OnOk result (self.new ≡ finish_formula link (group_formula link self.old.group)
            (record self.old { group = no_group })) }
    {
        let entry = self.group.emit(link, &mut self.code, self.to)?;
        self.group.clear();
        self.finish_truth(entry);
        Ok(())
    }

    /// The code of a truth begins at `entry`: sets the targets of the left operand that waits, or
    /// the program's start if none does.
    fn finish_truth(&mut self, entry: usize)
        ensures { self.new ≡ finish_truth (block self.old.code entry) self.old }
    {
        let (yes, no) = match self.truths.pop() {
            None => (entry, entry),
            Some(left) => match left.join {
                Join::And => (entry, left.to.no),
                Join::Or => (left.to.yes, entry),
            },
        };
        self.to = Targets { yes, no };
    }

    /// Emits the load of a number, or of the packet's original length, into A.
    fn emit_leaf(&mut self, link: Link, source: Source, number: u32) -> Result<()>
        ensures { OnOk result (self.new ≡ emit_leaf link source number self.old) }
    {
        self.code
            .emit_plain(Operation::Load(Register::Accumulator, source), number)?;
        self.finish_number(link)
    }

    /// Emits the code between two operands and the code that takes them, which finds the left one
    /// in A and the right one in X. The right one is next, and the left one, which goes into the
    /// word `slot`, waits. An error is a failed allocation, or a word that no number of 32 bits
    /// names.
    fn begin_operands(&mut self, slot: u32) -> Result<()>
        ensures { OnOk result (self.new ≡ begin_operands slot self.old.code self.old) }
    {
        emit_operands(&mut self.code, slot)?;
        self.slot = slot.checked_add(1).ok_or(AllocError)?;
        self.numbers.push(Waiting::Left(slot))
    }

    /// A number's code is emitted: the accessors whose index it is are complete, and then the left
    /// operand that waits is next. If none waits, the relation is complete.
    fn finish_number(&mut self, link: Link) -> Result<()>
        ensures { OnOk result (self.new ≡ finish_number link self.old.numbers self.old) }
    {
        // The label names the loop in its proof.
        'waiting: loop {
            match self.numbers.pop() {
                Some(Waiting::Index(protocol)) => {
                    add_accessor(&mut self.accessors, protocol)?;
                }
                Some(Waiting::Left(slot)) => {
                    self.slot = slot;
                    return self
                        .code
                        .emit_plain(Operation::Store(Register::Accumulator), slot);
                }
                None => return self.finish_relation(link),
            }
        }
    }

    /// The operands of a relation are emitted: the tests of its accessors stand in front of them.
    fn finish_relation(&mut self, link: Link) -> Result<()>
        ensures { OnOk result (self.new ≡ finish_relation link self.old) }
    {
        let yes = self.code.top();
        let to = Targets { yes, ..self.to };
        let entry = emit_accessor_tests(&mut self.code, link, self.accessors.entries(), to)?;
        self.accessors.clear();
        self.finish_truth(entry);
        Ok(())
    }
}

impl<A: Allocator> Walk<A> {
    /// The instructions from the beginning of the program, once no node is left.
    pub fn into_insns(self) -> Vec<Wide, A>
        ensures { result.items ≡ insns_of self }
    {
        let Walk { code, to, .. } = self;
        // Without nodes `to` is as it was first: all packets are accepted.
        code.into_insns(to.yes)
    }
}
