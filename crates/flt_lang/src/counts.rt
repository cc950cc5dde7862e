//! The counts of an expression, which bound its program, and whether it divides by 0, each in one
//! pass over its nodes.
//!
//! Each has two functions: a loop over the nodes, whose contract is about this list, and one whose
//! contract is about the tree. The public ones, of a checked expression, are last.

ghost use Rattle.std.specs.Prelude.{◌≡◌, ◌≤◌, ◌*◌, ◌^◌, sum_by, fold, false};
ghost use Rattle.flt_ast.specs.Counts.{tests_of, nodes_of, words_of, bound_of, node_tests};
ghost use Rattle.flt_ast.specs.{Counts.node_size, inside.Heights.climb, Checks.divides_by_zero};
ghost use Rattle.flt_ast.specs.Resolved.{some_primitive};
ghost use Rattle.flt_ast.specs.inside.Checks.{is_division_node, is_zero_node, some_zero_divisor};

use flt_ast::{Checked, Expr, Node};
use flt_words::Operator;
use std::alloc::Allocator;

/// How many elementary tests nodes count as together: at most 27 each, of fewer than 2^64 nodes.
fn sum_of_tests(nodes: &[Node]) -> u128
    ensures sum { result ≡ sum_by node_tests nodes.now }
    ensures upper_bound { result ≤ 27 * 2 ^ 64 }
{
    // A u128, since no number of nodes makes it wrap.
    let mut sum: u128 = 0;
    for node in nodes {
        sum += u128::from(node.tests());
    }
    sum
}

/// How many nodes of arithmetic nodes count as together: at most 2 each, of fewer than 2^64 nodes.
fn sum_of_arithmetic_nodes(nodes: &[Node]) -> u128
    ensures sum { result ≡ sum_by node_size nodes.now }
    ensures upper_bound { result ≤ 2 * 2 ^ 64 }
{
    // A u128, since no number of nodes makes it wrap.
    let mut sum: u128 = 0;
    for node in nodes {
        sum += u128::from(node.arithmetic_nodes());
    }
    sum
}

/// The most numbers that wait at once to be operands; 1 if none does, since `words_in` subtracts
/// 1.
fn most_waiting(nodes: &[Node]) -> usize
    ensures { result ≡ (fold climb (0, 1) nodes.now).1 }
{
    let mut height = 0;
    let mut highest = 1;
    for &node in nodes {
        highest = highest.max(node.peak_height(height));
        height = node.height_after(height);
    }
    highest
}

/// Whether a node is the number 0, as it is written.
fn is_zero(node: Node) -> bool
    ensures { result ≡ is_zero_node node }
{
    matches!(node, Node::Literal(0))
}

/// Whether a node divides, or takes a remainder.
fn is_division(node: Node) -> bool
    ensures { result ≡ is_division_node node }
{
    matches!(node, Node::Apply(Operator::Divide | Operator::Remainder))
}

/// Whether some node divides by the number 0: a division that follows this number directly, since
/// its divisor is written right before it.
fn has_zero_divisor(nodes: &[Node]) -> bool
    ensures { result ≡ some_zero_divisor false nodes.now }
{
    let mut zero = false;
    for &next in nodes {
        if is_division(next) && zero {
            return true;
        }
        zero = is_zero(next);
    }
    false
}

/// How many elementary tests the formulas of an expression's primitives have, where `ether proto`,
/// which is one, counts two, and a value that lacks qualifiers counts none.
#[tactic(auto, using(crate::proofs::Counting::tests_whole))]
pub(crate) fn tests_in<A: Allocator>(expr: &Expr<A>) -> u128
    ensures count { result ≡ tests_of expr.now }
    ensures upper_bound { result ≤ 27 * 2 ^ 64 }
{
    sum_of_tests(&expr.nodes)
}

/// How many nodes the arithmetic of an expression has: `less` and `greater` count 2, as `len <= N`.
#[tactic(auto, using(crate::proofs::Counting::arithmetic_nodes_whole))]
pub(crate) fn nodes_in<A: Allocator>(expr: &Expr<A>) -> u128
    ensures count { result ≡ nodes_of expr.now }
    ensures upper_bound { result ≤ 2 * 2 ^ 64 }
{
    sum_of_arithmetic_nodes(&expr.nodes)
}

/// How many of the machine's words of memory hold left sides at once at most, while right sides are
/// computed.
pub(crate) fn words_in<A: Allocator>(expr: &Expr<A>) -> usize
    ensures { result ≡ words_of expr.now }
{
    // The newest of the numbers that wait is in the accumulator, which takes no word.
    most_waiting(&expr.nodes) - 1
}

/// Whether some divisor of an expression is the number 0, as it is written.
#[tactic(auto, using(crate::proofs::Counting::zero_whole))]
pub(crate) fn divides_by_zero<A: Allocator>(expr: &Expr<A>) -> bool
    ensures { result ≡ some_primitive divides_by_zero expr.now }
{
    has_zero_divisor(&expr.nodes)
}

/// How many elementary tests the formulas of the expression's primitives have, where `ether proto`,
/// which is one, counts two. It fits 32 bits, since `check` saw that the bound is at most 32,768.
pub fn tests<A: Allocator>(checked: &Checked<A>) -> u32
    ensures { result ≡ tests_of checked.now.expr }
{
    tests_in(&checked.expr) as u32
}

/// How many nodes the expression's arithmetic has: numbers, names, `len`, accessors and operators;
/// `less` and `greater` have two. It fits 32 bits as the tests do.
pub fn nodes<A: Allocator>(checked: &Checked<A>) -> u32
    ensures { result ≡ nodes_of checked.now.expr }
{
    nodes_in(&checked.expr) as u32
}

/// How many of the machine's words of memory at most hold left sides at once, while right sides are
/// computed: never over 16.
pub fn words<A: Allocator>(checked: &Checked<A>) -> u32
    ensures { result ≡ words_of checked.now.expr }
{
    words_in(&checked.expr) as u32
}

/// How many instructions a program for the expression has at most: 2, the returns, and 6 for each
/// test and node.
pub fn bound<A: Allocator>(checked: &Checked<A>) -> u32
    ensures { result ≡ bound_of checked.now.expr }
{
    2 + 6 * (tests(checked) + nodes(checked))
}
