//! Values, as they are written, and the networks that they mean: an address and its mask.

ghost use Rattle.std.specs.Prelude.{◌≡◌};
ghost use Rattle.flt_ast.specs.Nets.{first_bits, ip4_mask, ip4_net, ip6_net, is_past_mask};

/// An IPv4 address or its first parts.
#[derive(Clone, Copy)]
pub struct Dotted {
    /// The parts from the highest byte on, missing ones 0.
    pub address: u32,
    /// How many parts are written, 2 to 4.
    pub parts: u8,
}

/// What follows a number or an IPv4 address to say which bits of a network's address count.
#[derive(Clone, Copy)]
pub enum NetMask {
    /// Nothing: the mask is as long as the parts that are written.
    Unwritten,
    /// `/ N`: the first N bits.
    Prefix(u32),
    /// `mask D`.
    Mask(Dotted),
}

/// A value, as it is written.
#[derive(Clone, Copy)]
pub enum Value {
    /// A number: a port, a protocol, an EtherType, or the first byte of a network.
    Number(u32, NetMask),
    /// An IPv4 address or network.
    Dotted(Dotted, NetMask),
    /// An IPv6 address, with the length of its prefix if one is written.
    Ip6(u128, Option<u32>),
    /// A MAC address of 48 bits.
    Mac(u64),
    /// Two ports, in the order in which they stand.
    Range { first: u32, last: u32 },
}

/// An IPv4 network; a host's address has a mask of all bits.
#[derive(Clone, Copy)]
pub struct Ip4Net {
    pub address: u32,
    pub mask: u32,
}

/// An IPv6 network; a host's address has a mask of all bits.
#[derive(Clone, Copy)]
pub(crate) struct Ip6Net {
    pub address: u128,
    pub mask: u128,
}

impl Value {
    /// The network of IPv4 that the value means, or `None` for IPv6, MAC addresses and ranges. A
    /// number is the first byte of the address, and without a mask the network is the parts that
    /// are written. A number above 255, which is out of range (E8), gives its lowest byte.
    pub fn ip4_net(self) -> Option<Ip4Net>
        ensures { result ≡ ip4_net self }
    {
        match self {
            Value::Number(number, mask) => Some(Ip4Net {
                address: number % 256 * 0x0100_0000,
                mask: ip4_mask(1, mask),
            }),
            Value::Dotted(dotted, mask) => Some(Ip4Net {
                address: dotted.address,
                mask: ip4_mask(dotted.parts, mask),
            }),
            _ => None,
        }
    }

    /// The network of IPv6 that the value means, or `None` for all but IPv6 addresses.
    pub(crate) fn ip6_net(self) -> Option<Ip6Net>
        ensures { result ≡ ip6_net self }
    {
        match self {
            Value::Ip6(address, len) => Some(Ip6Net {
                address,
                mask: ip6_prefix_mask(len.unwrap_or(128)),
            }),
            _ => None,
        }
    }

    /// Whether the address has bits set outside the mask (E9); `false` for a value that isn't a
    /// network.
    pub(crate) fn is_past_mask(self) -> bool
        ensures { result ≡ is_past_mask self }
    {
        match (self.ip4_net(), self.ip6_net()) {
            (Some(net), _) => net.address & net.mask != net.address,
            (_, Some(net)) => net.address & net.mask != net.address,
            _ => false,
        }
    }
}

/// The mask of an IPv4 network: the one that is written, or else one as long as the `parts` bytes
/// of the address that are written.
fn ip4_mask(parts: u8, mask: NetMask) -> u32
    ensures { result ≡ ip4_mask parts mask }
{
    match mask {
        NetMask::Unwritten => ip4_prefix_mask(8 * u32::from(parts)),
        NetMask::Prefix(len) => ip4_prefix_mask(len),
        NetMask::Mask(dotted) => dotted.address,
    }
}

/// The mask of the first `len` of 32 bits; all of them if `len` is 32 or more.
pub fn ip4_prefix_mask(len: u32) -> u32
    ensures { result ≡ first_bits 32 len }
{
    // No bits are a case of their own: a shift of 32 bits by 32 isn't defined.
    match 32u32.saturating_sub(len) {
        32 => 0,
        rest => u32::MAX - ((1 << rest) - 1),
    }
}

/// The mask of the first `len` of 128 bits; all of them if `len` is 128 or more.
fn ip6_prefix_mask(len: u32) -> u128
    ensures { result ≡ first_bits 128 len }
{
    // No bits are a case of their own: a shift of 128 bits by 128 isn't defined.
    match 128u32.saturating_sub(len) {
        128 => 0,
        rest => u128::MAX - ((1 << rest) - 1),
    }
}
