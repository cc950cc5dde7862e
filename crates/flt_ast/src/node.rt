//! The nodes of a tree: which faults each has, and what each counts as.

use crate::fits::{Fit, fit_of, is_cast_misfit};
use crate::node_counts::{accessor_tests, cast_tests, check_tests, value_tests};
use crate::qualifiers::{CompleteQualifiers, Direction, Qualifiers};
use crate::value::Value;
use flt_words::{Cast, Comparison, Join, Operator, Protocol, Size, ValueType};

/// A node of a tree. The nodes of an expression are in the order in which a machine with a stack
/// would work on them: operands first, then what takes them.
#[derive(Clone, Copy)]
pub enum Node {
    /// Only a protocol: the packet is of it.
    Check(Protocol),
    /// `broadcast` or `multicast`, with the protocol before it, or `None` if none is written.
    Cast(Option<Protocol>, Cast),
    /// `less N` or `greater N`.
    Sized(Size, u32),
    /// A value with nothing before it.
    Bare(Value),
    /// A value with what is written before it.
    Valued(Qualifiers, Value),
    /// A value with all its qualifiers.
    Qualified(CompleteQualifiers, Value),
    /// Takes two numbers: whether they compare so.
    Compare(Comparison),
    /// Takes a truth, something that holds of a packet or doesn't.
    Not,
    /// Takes two truths: both hold, or either does.
    Join(Join),
    /// A number.
    Literal(u32),
    /// The packet's original length.
    Len,
    /// A number that is written by its name, as `tcp-syn`.
    Named(u32),
    /// Takes a number, the place, and reads this many bytes there: 1 if no size is written.
    Load(Protocol, u32),
    /// Takes a number, after a sign `-`.
    Negate,
    /// Takes two numbers, with an operator between them.
    Apply(Operator),
}

impl Node {
    ghost use Rattle.std.specs.Prelude.{◌≡◌, ◌≤◌, ◌<◌, ◌^◌};
    ghost use Rattle.flt_ast.specs.{Counts.node_tests, Counts.node_size, Filled.completed_node};
    ghost use Rattle.flt_ast.specs.Heights.{height_after, peak_height};
    ghost use Rattle.flt_ast.specs.Resolved.{is_misfit_node, is_out_of_range_node};
    ghost use Rattle.flt_ast.specs.Resolved.{has_bits_past_mask_node};

    /// Whether what is written before a value, or before `broadcast`, does not go with it (E7).
    /// With `proto` no direction may be written, which `completed` makes `src or dst`. A bare value
    /// has nothing before it that could be wrong.
    pub fn is_misfit(self) -> bool
        ensures { result ≡ is_misfit_node self }
    {
        match self {
            Node::Cast(protocol, cast) => is_cast_misfit(protocol, cast),
            Node::Valued(qualifiers, value) => {
                let value_type = qualifiers.type_or_host();
                fit_of(value_type, value, qualifiers.protocol) == Fit::Misfit
                    || value_type == ValueType::Proto && qualifiers.direction.is_some()
            }
            Node::Qualified(qualifiers, value) => {
                fit_of(qualifiers.value_type, value, qualifiers.protocol) == Fit::Misfit
                    || qualifiers.value_type == ValueType::Proto
                        && !matches!(qualifiers.direction, Direction::Both(Join::Or))
            }
            _ => false,
        }
    }

    /// Whether a number of a value, or the size of an accessor, is out of range (E8): a load of the
    /// machine takes 1, 2 or 4 bytes.
    pub fn is_out_of_range(self) -> bool
        ensures { result ≡ is_out_of_range_node self }
    {
        match self {
            Node::Valued(qualifiers, value) => {
                fit_of(qualifiers.type_or_host(), value, qualifiers.protocol) == Fit::OutOfRange
            }
            Node::Qualified(qualifiers, value) => {
                fit_of(qualifiers.value_type, value, qualifiers.protocol) == Fit::OutOfRange
            }
            Node::Load(_, size) => !matches!(size, 1 | 2 | 4),
            _ => false,
        }
    }

    /// Whether the address of a network has bits set that its mask leaves out (E9). Nodes other
    /// than values of the type `net` have none.
    pub fn has_bits_past_mask(self) -> bool
        ensures { result ≡ has_bits_past_mask_node self }
    {
        match self {
            Node::Valued(qualifiers, value) => {
                qualifiers.type_or_host() == ValueType::Net && value.is_past_mask()
            }
            Node::Qualified(qualifiers, value) => {
                qualifiers.value_type == ValueType::Net && value.is_past_mask()
            }
            _ => false,
        }
    }

    /// The node with what is left out before its value filled in. Others, a bare value among them,
    /// are unchanged.
    pub fn completed(self) -> Node
        ensures { result ≡ completed_node self }
    {
        match self {
            Node::Valued(qualifiers, value) => Node::Qualified(qualifiers.completed(), value),
            _ => self,
        }
    }

    /// How many elementary tests the node counts as: at least those that it adds to the formula of
    /// its expression. A value without all its qualifiers counts none.
    pub fn tests(self) -> u8
        ensures count { result ≡ node_tests self }
        ensures upper_bound { result ≤ 27 }
    {
        match self {
            Node::Check(protocol) => check_tests(protocol),
            Node::Cast(_, cast) => cast_tests(cast),
            Node::Qualified(qualifiers, value) => value_tests(qualifiers, value),
            Node::Sized(_, _) | Node::Compare(_) => 1,
            Node::Load(protocol, _) => accessor_tests(protocol),
            _ => 0,
        }
    }

    /// How many nodes of arithmetic the node counts as, for the bound of a program. Nodes of truths
    /// count none, except `less N`, which is `len <= N` and counts two, and `greater N`.
    pub fn arithmetic_nodes(self) -> u8
        ensures count { result ≡ node_size self }
        ensures upper_bound { result ≤ 2 }
    {
        match self {
            Node::Sized(_, _) => 2,
            Node::Literal(_)
            | Node::Named(_)
            | Node::Len
            | Node::Load(_, _)
            | Node::Negate
            | Node::Apply(_) => 1,
            _ => 0,
        }
    }

    /// The height of the operand stack after this node, if it is `height` before: how many numbers
    /// wait to be operands. In a tree the operands of a node wait before it, so the subtractions
    /// never stop at 0. A height is at most the number of nodes in a list, and so below 2^63.
    pub fn height_after(self, height: usize) -> usize
        requires { height < 2 ^ 63 }
        ensures { result ≡ height_after height self }
    {
        match self {
            Node::Literal(_) | Node::Named(_) | Node::Len => height + 1,
            Node::Apply(_) => height.saturating_sub(1),
            Node::Compare(_) => height.saturating_sub(2),
            _ => height,
        }
    }

    /// The greatest height of the operand stack during this node and after it, if it is `height`
    /// before. `less N` adds two numbers of its own, and removes them again.
    pub fn peak_height(self, height: usize) -> usize
        requires { height < 2 ^ 63 }
        ensures { result ≡ peak_height height self }
    {
        match self {
            Node::Sized(_, _) => height + 2,
            _ => self.height_after(height),
        }
    }
}
