//! What is looked for at the places of both addresses or ports of a header: one value, or several
//! numbers.

ghost use Rattle.std.specs.Prelude.{◌≡◌};
ghost use Rattle.flt_gen.specs.Primitives.{address_test, port_is, port_between};
ghost use Rattle.flt_gen.specs.inside.{Emits.EmitsFormula, Emitted.wanted_formula};

use crate::code::{Code, Result, Targets};
use crate::elementary::{Elementary, Offset, Sides, compares_at, compares_under};
use crate::intervals::Numbers;
use cap_octet::Link;
use flt_ast::Direction;
use flt_bpf::operation::Width;
use flt_words::Comparison;
use std::alloc::Allocator;

/// What is looked for, on the sides of a direction.
#[derive(Clone, Copy)]
pub enum Wanted {
    /// The addresses of a network, which may be a single one: its mask, where not the whole address
    /// counts, and its address.
    Net(Direction, Option<u32>, u32),
    Port(Direction, u32),
    /// The ports from the first to the second.
    Ports(Direction, u32, u32),
    /// Several numbers, of which so few aren't halved.
    Several(Direction, usize),
}

/// The test that the word at a place is an address, as far as the mask goes.
pub fn address_test(mask: Option<u32>, address: u32, offset: Offset) -> Elementary
    ensures { result ≡ address_test mask address offset }
{
    compares_under(mask, offset, Width::Word, Comparison::Equal, address)
}

/// The test that the port at a place is this one.
fn port_is(port: u32, offset: Offset) -> [Elementary; 1]
    ensures { result ≡ port_is port offset }
{
    [compares_at(offset, Width::HalfWord, Comparison::Equal, port)]
}

/// The tests that the port at a place is in a range: at least the first and at most the last.
fn port_between(first: u32, last: u32, offset: Offset) -> [Elementary; 2]
    ensures { result ≡ port_between first last offset }
{
    [
        compares_at(offset, Width::HalfWord, Comparison::AtLeast, first),
        compares_at(offset, Width::HalfWord, Comparison::AtMost, last),
    ]
}

impl<A: Allocator> Code<A> {
    /// Emits what is looked for at some places: if it is several numbers, these.
    pub fn emit_wanted(
        &mut self,
        link: Link,
        at: Sides,
        wanted: Wanted,
        numbers: &Numbers<'_>,
        to: Targets,
    ) -> Result<usize>
        ensures { EmitsFormula link (wanted_formula link wanted numbers.now at) to self.old result
            self.new }
    {
        let (source, destination) = (at.source, at.destination);
        match wanted {
            Wanted::Net(direction, mask, address) => {
                let source = address_test(mask, address, source);
                let destination = address_test(mask, address, destination);
                self.emit_sides(direction, false, &[source], &[destination], to)
            }
            Wanted::Port(direction, port) => {
                let (source, destination) = (port_is(port, source), port_is(port, destination));
                self.emit_sides(direction, false, &source, &destination, to)
            }
            Wanted::Ports(direction, first, last) => {
                let source = port_between(first, last, source);
                let destination = port_between(first, last, destination);
                self.emit_sides(direction, false, &source, &destination, to)
            }
            Wanted::Several(direction, few) => {
                self.emit_among(few, link, direction, at, numbers, to)
            }
        }
    }
}
