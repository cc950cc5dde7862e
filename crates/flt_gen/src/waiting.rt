//! The entries that wait in the lists of `Walk` (walk.rt) while it reads the nodes of an
//! expression, from the last one to the first: left operands of truths (parts that are yes or no)
//! and of numbers, and the protocols of the accessors in a relation, whose tests are emitted once
//! its operands are.

ghost use Rattle.std.specs.Prelude.{◌≡◌, OnOk};
ghost use Rattle.flt_gen.specs.inside.Emitted.{without_protocol, with_accessor};

use crate::code::{Result, Targets};
use crate::stack::Stack;
use flt_words::{Join, Protocol};
use std::alloc::Allocator;

/// The left operand of `and` or `or`, which comes after the right one, and the targets of the
/// whole.
#[derive(Clone, Copy)]
pub struct LeftTruth {
    pub join: Join,
    pub to: Targets,
}

/// What waits for a number whose code is emitted next.
#[derive(Clone, Copy)]
pub enum Waiting {
    /// An accessor: the number is its index.
    Index(Protocol),
    /// The number is a right operand. The left one comes after it, and goes into this word of
    /// memory.
    Left(u32),
}

/// What the last node hands on to the next one.
#[derive(Clone, Copy)]
pub enum Pending {
    Nothing,
    /// It was an `or`, whose right operand is next. If that can be in a list, it waits for the left
    /// one, and both are looked for together.
    Or,
}

/// Removes a protocol from the list. It calls itself for each entry: they are few, since the list
/// has each protocol once.
fn leave_out<A: Allocator>(protocols: &mut Stack<Protocol, A>, protocol: Protocol) -> Result<()>
    ensures { OnOk result (protocols.new ≡ without_protocol protocol protocols.old) }
{
    let Some(latest) = protocols.pop() else {
        return Ok(());
    };
    leave_out(protocols, protocol)?;
    if protocol == latest {
        return Ok(());
    }
    protocols.push(latest)
}

/// Adds the protocol of an accessor as the latest. The earlier ones are of the accessors on its
/// right: if one of them has the same protocol, that entry goes, since its tests come once,
/// at the leftmost accessor.
pub fn add_accessor<A: Allocator>(
    protocols: &mut Stack<Protocol, A>,
    protocol: Protocol,
) -> Result<()>
    ensures { OnOk result (protocols.new ≡ with_accessor protocol protocols.old) }
{
    leave_out(protocols, protocol)?;
    protocols.push(protocol)
}
