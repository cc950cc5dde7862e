//! Comparisons of an accessor with a constant by `=`, such as `tcp[0:2] = 80`, which may be members
//! of a list. The walk emits all others itself.

ghost use Rattle.std.specs.Prelude.{◌≡◌, ◌≤◌, length, reverse, IfSome};
ghost use Rattle.flt_gen.specs.inside.Relations.{relation_in, relation_test};

use crate::elementary::{Elementary, compares_at};
use crate::group::Entry;
use crate::number::{accessor_offset, width_of};
use cap_octet::Link;
use flt_ast::Node;
use flt_words::{Comparison, Protocol};

/// An accessor with a constant index is a number.
#[derive(Clone, Copy)]
pub struct Relation {
    pub protocol: Protocol,
    /// In bytes.
    pub size: u32,
    pub index: u32,
    pub number: u32,
}

/// The relation of which the last four nodes are, if there is one.
#[tactic(auto, using(crate::proofs::Turned::last_four))]
pub fn last_relation(nodes: &[Node]) -> Option<Entry>
    ensures is { result ≡ relation_in (reverse nodes.now) }
    ensures four { IfSome result (λ r. 4 ≤ length nodes.now) }
{
    match *nodes {
        [
            ..,
            Node::Literal(index),
            Node::Load(protocol, size),
            Node::Literal(number),
            Node::Compare(Comparison::Equal),
        ] => Some(Entry::Relation(Relation {
            protocol,
            size,
            index,
            number,
        })),
        _ => None,
    }
}

/// The test of a relation's field.
pub fn relation_test(link: Link, relation: Relation) -> Elementary
    ensures { result ≡ relation_test link relation }
{
    let offset = accessor_offset(link, relation.protocol, relation.index);
    let width = width_of(relation.size);
    compares_at(offset, width, Comparison::Equal, relation.number)
}
