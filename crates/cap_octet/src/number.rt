//! Numbers in bytes, in either order.
ghost use Rattle.std.specs.Prelude.{◌≡◌, ◌+◌, ◌≤◌, length};
ghost use Rattle.cap_octet.specs.Number.{u16_in, u32_in};

use byteorder::{BigEndian, ByteOrder, LittleEndian};

/// The byte order of a number: which of its bytes comes first.
#[derive(Clone, Copy)]
pub enum Order {
    /// The lowest.
    Little,
    /// The highest.
    Big,
}

/// The number in the two bytes from place `at`, which have to exist.
#[tactic(auto, unfolding(crate::specs::Number::number_in))]
pub fn u16_at(order: Order, bytes: &[u8], at: usize) -> u16
    requires { at + 2 ≤ length bytes.now }
    ensures { result ≡ u16_in order bytes.now at }
{
    match order {
        Order::Little => LittleEndian::read_u16(&bytes[at..]),
        Order::Big => BigEndian::read_u16(&bytes[at..]),
    }
}

/// The number in the four bytes from place `at`, which have to exist.
#[tactic(auto, unfolding(crate::specs::Number::number_in))]
pub fn u32_at(order: Order, bytes: &[u8], at: usize) -> u32
    requires { at + 4 ≤ length bytes.now }
    ensures { result ≡ u32_in order bytes.now at }
{
    match order {
        Order::Little => LittleEndian::read_u32(&bytes[at..]),
        Order::Big => BigEndian::read_u32(&bytes[at..]),
    }
}
