//! Simplifies the nodes of an expression before code is emitted for them. Names and arithmetic on
//! constants become one number, unless it divides by 0; and `not a and not b` becomes
//! `not (a or b)`, so that `a` and `b` can be looked for together.

ghost use Rattle.std.specs.Option.{IfSome};
ghost use Rattle.std.specs.Prelude.{◌≡◌, [], fold, reverse, OnOk, IfOk};
ghost use Rattle.flt_gen.specs.inside.Folding.{with_negation};
ghost use Rattle.flt_gen.specs.inside.Folding.{with_operator, with_folded, and_operands, hold};
ghost use Rattle.flt_gen.specs.inside.Folding.{put_back, with_held, with_conjunction};

use crate::code::Result;
use crate::number::alu_operation;
use crate::stack::Stack;
use flt_ast::Node;
use flt_bpf::compute;
use flt_words::{Join, Operator};
use std::alloc::{AllocError, Allocator};

/// Pushes a negation: if the latest node is a number, which then is its operand, the negative
/// number, modulo 2^32, replaces it.
fn push_negation<A: Allocator>(nodes: &mut Stack<Node, A>) -> Result<()>
    ensures { OnOk result (nodes.new ≡ with_negation nodes.old) }
{
    match nodes.pop() {
        // In no tree: there a negation has an operand.
        None => nodes.push(Node::Negate),
        Some(Node::Literal(number)) => nodes.push(Node::Literal(number.wrapping_neg())),
        Some(operand) => {
            nodes.push(operand)?;
            nodes.push(Node::Negate)
        }
    }
}

/// Pushes an operator: if the two latest nodes are numbers, which then are its operands, the number
/// that it makes of them replaces both, unless it divides by 0. In a tree each has two operands.
#[tactic(auto, using(crate::proofs::Numbers::computed))]
fn push_operator<A: Allocator>(nodes: &mut Stack<Node, A>, operator: Operator) -> Result<()>
    ensures { OnOk result (nodes.new ≡ with_operator operator nodes.old) }
{
    let (right, left) = (nodes.pop(), nodes.pop());
    if let (Some(Node::Literal(left)), Some(Node::Literal(right))) = (left, right) {
        if let Some(number) = compute(alu_operation(operator), left, right) {
            return nodes.push(Node::Literal(number));
        }
    }
    if let Some(left) = left {
        nodes.push(left)?;
    }
    if let Some(right) = right {
        nodes.push(right)?;
    }
    nodes.push(Node::Apply(operator))
}

/// The number of trees that are needed: `need`, and the operands of a node. `None`: too many.
#[tactic(auto, using(crate::proofs::Held::one_more, crate::proofs::Held::two_more))]
fn and_operands(node: Node, need: usize) -> Option<usize>
    ensures { IfSome result (λ all. all ≡ and_operands node need) }
{
    match node {
        Node::Join(_) | Node::Compare(_) | Node::Apply(_) => need.checked_add(2),
        Node::Not | Node::Negate | Node::Load(_, _) => need.checked_add(1),
        _ => Some(need),
    }
}

/// Moves the latest tree out of the nodes; what was held before goes. An error is a failed
/// allocation, or that too many operands are looked for.
#[tactic(auto, using(crate::proofs::Held::none_held, std::proofs::lemmas::Grind::common_steps))]
fn hold_latest<A: Allocator>(nodes: &mut Stack<Node, A>, held: &mut Stack<Node, A>) -> Result<()>
    ensures { OnOk result (hold 1 [] nodes.old ≡ record { held = held.new; rest = nodes.new }) }
{
    held.clear();
    let mut need: usize = 1;
    // The label names the loop in its proof.
    'nodes: while need > 0 {
        let Some(node) = nodes.pop() else {
            return Ok(());
        };
        let Some(more) = and_operands(node, need - 1) else {
            return Err(AllocError);
        };
        held.push(node)?;
        need = more;
    }
    Ok(())
}

/// Puts nodes back that are held.
fn put_back<A: Allocator>(nodes: &mut Stack<Node, A>, held: &mut Stack<Node, A>) -> Result<()>
    ensures { OnOk result (nodes.new ≡ put_back held.old nodes.old) }
{
    // The label names the loop in its proof.
    'held: while let Some(node) = held.pop() {
        nodes.push(node)?;
    }
    Ok(())
}

/// Pushes `and` after a negation, of which what is denied is held: if its left operand is a
/// negation too, or is joined with one by `and`, both are one negation of what is joined by `or`.
fn push_after_negation<A: Allocator>(
    nodes: &mut Stack<Node, A>,
    held: &mut Stack<Node, A>,
) -> Result<()>
    ensures { OnOk result (nodes.new ≡ with_held held.old nodes.old) }
{
    let latest = nodes.pop();
    // If `and` joins the left operand, what stands in front of that `and`.
    let (is_joined, before) = match latest {
        Some(Node::Join(Join::And)) => (true, nodes.pop()),
        _ => (false, latest),
    };
    let is_denied = matches!(before, Some(Node::Not));
    if !is_denied {
        if let Some(before) = before {
            nodes.push(before)?;
        }
        if is_joined {
            nodes.push(Node::Join(Join::And))?;
        }
    }
    put_back(nodes, held)?;
    if is_denied {
        nodes.push(Node::Join(Join::Or))?;
    }
    nodes.push(Node::Not)?;
    if is_joined || !is_denied {
        nodes.push(Node::Join(Join::And))?;
    }
    Ok(())
}

/// Pushes `and`; if the latest node, which then is its right operand's, is a negation, it may
/// become one with another.
fn push_conjunction<A: Allocator>(
    nodes: &mut Stack<Node, A>,
    held: &mut Stack<Node, A>,
) -> Result<()>
    ensures { OnOk result (nodes.new ≡ with_conjunction nodes.old) }
{
    match nodes.pop() {
        None => nodes.push(Node::Join(Join::And)),
        Some(Node::Not) => {
            hold_latest(nodes, held)?;
            push_after_negation(nodes, held)
        }
        Some(latest) => {
            nodes.push(latest)?;
            nodes.push(Node::Join(Join::And))
        }
    }
}

/// Pushes one more node of a tree, after its operands; arithmetic of only numbers becomes one
/// number, and negations between `and` become one. `held` is working room, whatever it holds.
fn push_folded<A: Allocator>(
    nodes: &mut Stack<Node, A>,
    held: &mut Stack<Node, A>,
    node: Node,
) -> Result<()>
    ensures { OnOk result (nodes.new ≡ with_folded nodes.old node) }
{
    match node {
        Node::Named(number) => nodes.push(Node::Literal(number)),
        Node::Join(Join::And) => push_conjunction(nodes, held),
        Node::Negate => push_negation(nodes),
        Node::Apply(operator) => push_operator(nodes, operator),
        _ => nodes.push(node),
    }
}

/// The nodes of a tree, in which arithmetic of only numbers becomes one number, and `not a and not
/// b` becomes `not (a or b)`. An error is a failed allocation, or an allocator that cannot be
/// cloned.
#[tactic(auto, using(std::proofs::lemmas::Grind::common_steps))]
pub fn folded_nodes<A: Allocator + Clone>(alloc: A, nodes: &[Node]) -> Result<Vec<Node, A>>
    ensures { IfOk result (λ folded. reverse folded.items ≡ fold with_folded [] nodes.now) }
{
    let mut folded = Stack::new(alloc.clone()?);
    let mut held = Stack::new(alloc);
    for &node in nodes {
        push_folded(&mut folded, &mut held, node)?;
    }
    Ok(folded.into_vec())
}
