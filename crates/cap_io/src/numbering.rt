//! The interfaces of a pcapng file that is written, numbered by first use.
ghost use Rattle.std.specs.Prelude.{◌≡◌, ◌++◌, ◌≤◌, [], length, nat_le};
ghost use Rattle.cap_octet.specs.Packet.{captured};
ghost use Rattle.cap_io.specs.{Numbering.interface_in, inside.Numbering.Numbers};
ghost use Rattle.cap_io.specs.Text.{interface_of, is_same, most_output_interfaces, new_among};

use cap_octet::{Fault, Packet};
use cap_pcapng::Name;
use indexmap::IndexSet;
use std::alloc::Allocator;
use std::hash::{BuildHasherDefault, FoldHasher};
use std::marker::Model;

/// The most interfaces that a file which is written may have: their keys take about 1 MB.
pub const MOST_OUTPUT_INTERFACES: usize = 4096;

/// What makes two interfaces one: link type, snap length and name. It holds the name itself, so
/// that a look-up takes no memory.
#[derive(Drop, PartialEq, Eq, Hash)]
pub(crate) struct InterfaceKey {
    link: u16,
    snap: u32,
    name: Name,
}

/// The number of an interface in a file.
#[derive(Clone, Copy)]
pub(crate) struct InterfaceNumber {
    /// How many interfaces come before it.
    pub number: u32,
    /// Whether it was met for the first time.
    pub is_new: bool,
}

impl InterfaceKey {
    /// The key of a packet's interface.
    fn of(packet: &Packet<'_>) -> Self
        ensures { interface_in result ≡ interface_of (captured packet.now) }
    {
        InterfaceKey {
            link: packet.link,
            snap: packet.snap,
            // A packet's name has at most 255 bytes, which a `Name` has room for.
            name: Name::try_from(packet.name).unwrap(),
        }
    }

    /// Whether it is the key of a packet's interface. No key is made for that.
    fn is_key_of(&self, packet: &Packet<'_>) -> bool
        ensures { result ≡ is_same (interface_in self.now) (interface_of (captured packet.now)) }
    {
        self.link == packet.link && self.snap == packet.snap && self.name.as_slice() == packet.name
    }
}

/// The different interfaces of a file's packets so far, in the order of first use.
#[derive(Drop)]
pub(crate) struct OutputInterfaces<A: Allocator> {
    /// The interface with number n has index n.
    keys: IndexSet<InterfaceKey, BuildHasherDefault<FoldHasher>, A>,
    /// The number of the last packet's interface, which is mostly that of the next one too.
    last_number: u32,
}

impl<A: Allocator> Model for OutputInterfaces<A> {
    ghost use Rattle.std.specs.Prelude.{List, map};
    ghost use Rattle.cap_io.specs.Numbering.{interface_in};
    ghost use Rattle.cap_io.specs.{Text.FitFile, Text.Interface, inside.Numbering.IsFirst};

    ghost Value = { List Interface };

    ghost view = { λ s. map interface_in s.keys.keys };

    ghost invariant = { λ s. FitFile (map interface_in s.keys.keys)
        × IsFirst s.last_number (map interface_in s.keys.keys) };
}

impl<A: Allocator + Copy> OutputInterfaces<A> {
    /// The interfaces of a file without packets: none. It takes no memory.
    pub fn new(alloc: A) -> Self
        ensures { result ≡ [] }
    {
        OutputInterfaces {
            keys: IndexSet::new(alloc),
            last_number: 0,
        }
    }
}

impl<A: Allocator> OutputInterfaces<A> {
    ghost use Rattle.cap_io.specs.Text.{FitFile};

    /// Whether a packet's interface is one of these already, or there is room for one more.
    pub fn has_room(&self, packet: &Packet<'_>) -> bool
        ensures { result ≡ nat_le (length (self.now ++ new_among self.now
            (interface_of (captured packet.now)))) most_output_interfaces }
    {
        self.keys.len() < MOST_OUTPUT_INTERFACES || self.keys.contains(&InterfaceKey::of(packet))
    }

    /// Gives a packet's interface its number. A new one is put last, and only this call says that
    /// it is new; the caller knows by `has_room` that it fits. `NoMemory` if an allocation for
    /// it fails.
    pub fn give_number(&mut self, packet: &Packet<'_>) -> Result<InterfaceNumber, Fault>
        requires { length (self.old ++ new_among self.old (interface_of (captured packet.now))) ≤
            most_output_interfaces }
        ensures fits { FitFile self.new }
        ensures number { Numbers self.old (interface_of (captured packet.now)) result self.new }
    {
        // Mostly it is the last packet's: then no key is made and hashed.
        if let Some(key) = self.keys.get_index(self.last_number as usize)
            && key.is_key_of(packet)
        {
            return Ok(InterfaceNumber {
                number: self.last_number,
                is_new: false,
            });
        }
        let Ok((index, is_new)) = self.keys.insert_full(InterfaceKey::of(packet)) else {
            return Err(Fault::NoMemory);
        };
        self.last_number = index as u32;
        Ok(InterfaceNumber {
            number: self.last_number,
            is_new,
        })
    }
}
