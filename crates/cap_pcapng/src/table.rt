//! The table of a section's interfaces, each with a copy of its name.
ghost use Rattle.std.specs.Prelude.{◌≡◌, ◌≤◌, ◌<◌, ◌↔◌, [], ◌∷◌, ◌++◌, length, IsTrue, OnOk};

use crate::clock::Clock;
use crate::effect::Interfaces;
use crate::interface::{Interface, Name};
use cap_octet::Fault;
use std::alloc::{Allocator, Global};
use std::marker::Model;

/// The greatest number of interfaces in a section.
pub const MOST_INTERFACES: usize = 256;

/// An interface that holds its name.
#[derive(Drop)]
struct Entry {
    link: u16,
    snap: u32,
    clock: Clock,
    name: Name,
}

impl Model for Entry {
    ghost use Rattle.cap_pcapng.specs.Interface.{Described};

    ghost Value = { Described };

    ghost view = { λ e. record {
      link = e.link;
      snap = e.snap;
      name = e.name.items;
      units = e.clock.units;
      offset = e.clock.offset;
    } };
}

impl Entry {
    ghost use Rattle.cap_pcapng.specs.Interface.{description_of};

    /// The entry of an interface, with a copy of its name.
    fn new(interface: &Interface<'_>) -> Self
        ensures { result ≡ description_of interface.now }
    {
        Entry {
            link: interface.link,
            snap: interface.snap,
            clock: interface.clock,
            // An interface's name has at most 255 bytes, which a `Name` has room for.
            name: Name::try_from(interface.name).unwrap(),
        }
    }

    /// The interface of the entry, with its name lent.
    fn interface(&self) -> Interface<'_>
        ensures { description_of result ≡ self.now }
    {
        Interface {
            link: self.link,
            snap: self.snap,
            name: &self.name,
            clock: self.clock,
        }
    }
}

/// The interfaces of a section by their numbers. Contracts see a list.
#[derive(Drop)]
pub struct Table<A: Allocator = Global> {
    /// The interface with number n has index n.
    entries: Vec<Entry, A>,
}

impl<A: Allocator> Model for Table<A> {
    ghost use Rattle.std.specs.Prelude.{List};
    ghost use Rattle.cap_pcapng.specs.Interface.{FitSection, Described};

    ghost Value = { List Described };

    ghost view = { λ t. t.entries.items };

    ghost invariant = { λ t. FitSection t.entries.items };
}

impl<A: Allocator> Table<A> {
    ghost use Rattle.std.specs.{Option.option_map, Prelude.IfErr, Prelude.OnErr, Prelude.slice_get};
    ghost use Rattle.cap_pcapng.specs.Interface.{FitSection, description_of, most_interfaces};

    /// A table without interfaces. It takes no memory.
    pub fn new(alloc: A) -> Self
        ensures { result ≡ [] }
    {
        Table {
            entries: Vec::new(alloc),
        }
    }

    /// Whether there are as many interfaces as a section may have.
    pub fn is_full(&self) -> bool
        ensures full { IsTrue result ↔ (length self.now ≡ most_interfaces) }
        ensures bounded { length self.now ≤ most_interfaces }
    {
        self.entries.len() == MOST_INTERFACES
    }

    /// Forgets all interfaces, and keeps the memory for those to come.
    pub fn clear(&mut self)
        ensures { self.new ≡ [] }
    {
        self.entries.clear();
    }

    /// Gives an interface the next number. `TooManyInterfaces` if there are 256 already,
    /// `NoMemory` if an allocation fails; either leaves the table unchanged.
    pub fn push(&mut self, interface: &Interface<'_>) -> Result<(), Fault>
        ensures pushed { OnOk result (self.new ≡ self.old ++ description_of interface.now ∷ []) }
        ensures kept { OnErr result (self.new ≡ self.old) }
        ensures section { FitSection self.new }
        ensures full { (result ≡ Err Fault.TooManyInterfaces)
            ↔ (length self.old ≡ most_interfaces) }
        ensures no_memory { IfErr result (λ fault. length self.old < most_interfaces
            → fault ≡ Fault.NoMemory) }
    {
        if self.is_full() {
            return Err(Fault::TooManyInterfaces);
        }
        self.entries
            .push(Entry::new(interface))
            .map_err(|_| Fault::NoMemory)
    }

    /// The interface with this number, counted from 0, with its name lent; `None` if there is
    /// none.
    pub fn get(&self, number: u32) -> Option<Interface<'_>>
        ensures { option_map description_of result ≡ slice_get self.now number }
    {
        self.entries.get(number as usize).map(Entry::interface)
    }
}

impl<A: Allocator> Interfaces for Table<A> {
    ghost list = { λ table. table };

    /// How many interfaces the table has.
    fn count(&self) -> usize {
        self.entries.len()
    }

    /// The interface with this number; `None` if there is none.
    fn get(&self, number: u32) -> Option<Interface<'_>> {
        Table::get(self, number)
    }
}
