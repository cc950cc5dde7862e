//! Expressions: a tree as the list of its nodes, operands first, and checked ones, of which code
//! can be made: `flt_lang::check` returns them, and the compiler takes them.

ghost use Rattle.std.specs.Prelude.{◌≡◌, ◌≤◌, false};
ghost use Rattle.flt_ast.specs.{Checks.divides_by_zero, Counts.words_of, Counts.bound_of};
ghost use Rattle.flt_ast.specs.{Nodes.expr_nodes, Resolved.IsResolved, Resolved.some_primitive};

use crate::node::Node;
use std::alloc::Allocator;
use std::marker::Model;

/// The tree of an expression. An expression without tokens has no nodes, and matches every packet.
#[derive(Drop)]
pub struct Expr<A: Allocator> {
    /// Operands first, then what takes them (postfix order).
    pub nodes: Vec<Node, A>,
}

impl<A: Allocator> Model for Expr<A> {
    ghost use Rattle.std.specs.{Prelude.List, Coded.code_by, Coded.coded_list};
    ghost use Rattle.flt_ast.specs.{Nodes.tree_of, Nodes.expr_nodes, declared.node.Node.Node};
    ghost use Rattle.flt_ast.specs.{Tree.Expression, inside.Nodes.IsTree, inside.Nodes.tree_back};
    ghost use Rattle.flt_ast.specs.contracts.node.Node as stored;

    ghost Value = { Expression };

    ghost coded = { code_by (List Node) (coded_list stored.the_row.coded)
        expr_nodes tree_of tree_back };

    ghost view = { λ e. tree_of e.nodes.items };

    ghost invariant = { λ e. IsTree e.nodes.items };
}

impl<A: Allocator> Expr<A> {
    /// The nodes of the tree, operands first.
    pub fn nodes(&self) -> &[Node]
        ensures { result.now ≡ expr_nodes self.now }
    {
        &self.nodes
    }
}

/// An expression with none of the faults that a tree may have: each value has all its qualifiers,
/// they fit it, its numbers and the sizes of accessors are in range, no network has bits that its
/// mask leaves out, no divisor is the number 0 as it is written, its arithmetic needs no more than
/// the machine's 16 words of memory, and its program's bound is at most 32,768 instructions.
#[derive(Drop)]
pub struct Checked<A: Allocator> {
    pub expr: Expr<A>,
    pub ghost resolved: { IsResolved expr },
    pub ghost no_zero_divisor: { some_primitive divides_by_zero expr ≡ false },
    pub ghost few_words: { words_of expr ≤ 16 },
    pub ghost short: { bound_of expr ≤ 32768 },
}
