//! The caller's table of interfaces, as blocks look them up and enter them.
ghost use Rattle.std.specs.Prelude.{◌≡◌, ◌+◌, ◌<◌, ◌≤◌, ◌++◌, ◌∷◌, [], IfSome, None, length};
ghost use Rattle.cap_pcapng.specs.{Effect.interfaces_after, Interface.description_of};
ghost use Rattle.capkit_c.specs.{Layout.first_interfaces, inside.Units.FindsNoRoom};

use crate::memory::layout::Interface;
use cap_pcapng::{BlockEffect, Interface as PcapngInterface, Interfaces};

/// Puts an interface after the first `count` of a table, instead of the entry there.
pub(crate) fn append_interface(
    table: &mut [Interface],
    count: usize,
    interface: &PcapngInterface<'_>,
)
    requires { count < length table.old }
    ensures put { first_interfaces (count + 1) table.new
        ≡ first_interfaces count table.old ++ description_of interface.now ∷ [] }
    ensures same { length table.new ≡ length table.old }
{
    table[count] = Interface::of_pcapng(interface);
}

/// The first `count` interfaces of a table, as blocks look them up.
#[derive(Clone, Copy)]
pub(crate) struct KnownInterfaces<'a> {
    pub(crate) entries: &'a [Interface],
    pub(crate) count: usize,
}

impl Interfaces for KnownInterfaces<'_> {
    ghost list = { λ known. first_interfaces known.count known.entries.now };

    /// The number of interfaces: `count`, which is never more than the table has.
    fn count(&self) -> usize {
        self.count.min(self.entries.len())
    }

    /// The interface with this number, from 0, with its name lent; `None` if there is none.
    fn get(&self, number: u32) -> Option<PcapngInterface<'_>> {
        if number as usize >= self.count {
            return None;
        }
        self.entries.get(number as usize).map(Interface::as_pcapng)
    }
}

/// Appends the interface that a block describes, if it does, to the first `count` of a table, and
/// returns how many the section has after the block. `None` if the table has no room for it: it is
/// unchanged then.
pub(crate) fn enter(table: &mut [Interface], count: usize, effect: BlockEffect<'_>) -> Option<usize>
    requires { count ≤ length table.old }
    ensures entered { IfSome result (λ after. first_interfaces after table.new
        ≡ interfaces_after effect.entry (first_interfaces count table.old)) }
    ensures there { IfSome result (λ after. after ≤ length table.new) }
    ensures same { length table.new ≡ length table.old }
    ensures none { result ≡ None → FindsNoRoom effect.entry count (length table.old) }
    ensures kept { result ≡ None → table.new ≡ table.old }
    ensures full { count ≡ length table.old → table.new ≡ table.old }
{
    match effect {
        BlockEffect::Section => Some(0),
        BlockEffect::Interface(interface) => {
            if count == table.len() {
                return None;
            }
            append_interface(table, count, &interface);
            Some(count + 1)
        }
        BlockEffect::Packet(_) | BlockEffect::Nothing => Some(count),
    }
}
