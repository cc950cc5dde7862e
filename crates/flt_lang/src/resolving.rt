//! Gives values their qualifiers: those of an earlier value, and the defaults of what is left out.

ghost use Rattle.std.specs.Prelude.{◌≡◌, map, IfOk, IfErr, Some, None};
ghost use Rattle.flt_ast.specs.Filled.{fill_expression, completed_node, only_host};
ghost use Rattle.flt_ast.specs.Resolved.{fill_fault, IsResolved};
ghost use Rattle.flt_ast.specs.inside.{Filled.inherited_nodes, Resolved.nodes_fault};

use flt_ast::{Expr, Node, Qualifiers};
use flt_words::{ExprFault, ValueType};
use std::alloc::Allocator;

/// Gives each bare value the qualifiers of the nearest value to its left that has some written
/// before it, or `host`, and fills in what is left out: the type `host`, the direction `src or
/// dst`.
///
/// `QualifiersDoNotFit` is reported where some value has qualifiers that do not go with it, or
/// `broadcast` has `ip` or `ip6` before it, else `ValueOutOfRange` if a number of a value or the
/// size of an accessor is out of range, else `BitsPastMask` if a network has bits set that its
/// mask leaves out.
pub fn resolve<A: Allocator>(expr: Expr<A>) -> Result<Expr<A>, ExprFault>
    ensures ok { IfOk result (λ tree. tree ≡ fill_expression expr) }
    ensures fits { IfOk result (λ _. fill_fault expr ≡ None) }
    ensures resolved { IfOk result (λ tree. IsResolved tree) }
    ensures err { IfErr result (λ fault. fill_fault expr ≡ Some fault) }
{
    let Expr { mut nodes } = expr;
    inherit_qualifiers(&mut nodes);
    if let Some(fault) = nodes_fault(&nodes) {
        return Err(fault);
    }
    complete_qualifiers(&mut nodes);
    Ok(Expr { nodes })
}

/// Gives each bare value the qualifiers of the nearest value to its left that has some written, or
/// `host` if there is none: the nodes are in the order of the text, as far as values go.
fn inherit_qualifiers<A: Allocator>(nodes: &mut Vec<Node, A>)
    ensures { nodes.new.items ≡ inherited_nodes only_host nodes.old.items }
{
    let mut nearest = Qualifiers {
        protocol: None,
        direction: None,
        value_type: Some(ValueType::Host),
    };
    for i in 0..nodes.len() {
        match nodes[i] {
            Node::Valued(qualifiers, _) => nearest = qualifiers,
            Node::Bare(value) => nodes[i] = Node::Valued(nearest, value),
            _ => {}
        }
    }
}

/// The fault of nodes with the smallest number, E7 to E9, wherever they have it, or `None`.
fn nodes_fault(nodes: &[Node]) -> Option<ExprFault>
    ensures { result ≡ nodes_fault nodes.now }
{
    let mut is_out_of_range = false;
    let mut has_bits_past_mask = false;
    for node in nodes {
        if node.is_misfit() {
            return Some(ExprFault::QualifiersDoNotFit);
        }
        is_out_of_range = is_out_of_range || node.is_out_of_range();
        has_bits_past_mask = has_bits_past_mask || node.has_bits_past_mask();
    }
    if is_out_of_range {
        Some(ExprFault::ValueOutOfRange)
    } else if has_bits_past_mask {
        Some(ExprFault::BitsPastMask)
    } else {
        None
    }
}

/// Fills in what is left out before each value that has qualifiers: the type `host`, the direction
/// `src or dst`. A bare value stays as it is.
fn complete_qualifiers<A: Allocator>(nodes: &mut Vec<Node, A>)
    ensures { nodes.new.items ≡ map completed_node nodes.old.items }
{
    for node in nodes.iter_mut() {
        *node = node.completed();
    }
}
