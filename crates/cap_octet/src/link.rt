//! The link types that lines and expressions support.

use crate::assigned::{
    ETHERNET_HEADER_LENGTH, ETHERNET_TYPE_OFFSET, LINKTYPE_ETHERNET, LINKTYPE_LINUX_SLL,
    LINKTYPE_RAW, LINUX_SLL_HEADER_LENGTH, LINUX_SLL_TYPE_OFFSET,
};

/// The link that packets were captured on.
#[derive(Clone, Copy)]
pub enum Link {
    /// Ethernet, link type 1: a header of 14 bytes stands before the network header.
    Ether,
    /// Raw IP, link type 101: packets begin with the network header.
    Raw,
    /// Linux cooked capture, link type 113: a header of 16 bytes stands before the network header.
    Cooked,
}

impl Link {
    ghost use Rattle.std.specs.Prelude.{◌≡◌, ◌+◌, ◌≤◌, IfSome, length};
    ghost use Rattle.cap_octet.specs.Link.{link_name, link_of_name, link_of, link_type};
    ghost use Rattle.cap_octet.specs.Link.{longest_header, network_offset, type_offset};

    /// Every link.
    pub const ALL: [Link; 3] = [Link::Ether, Link::Raw, Link::Cooked];

    /// Its link type, as captures have it.
    #[inline]
    pub fn link_type(self) -> u16
        ensures { result ≡ link_type self }
    {
        match self {
            Link::Ether => LINKTYPE_ETHERNET,
            Link::Raw => LINKTYPE_RAW,
            Link::Cooked => LINKTYPE_LINUX_SLL,
        }
    }

    /// The link that has this link type in captures; `None` of a link type that lines and
    /// expressions don't know.
    #[inline]
    #[tactic(auto, unfolding(crate::specs::Link::all_links))]
    pub fn of_link_type(number: u16) -> Option<Link>
        ensures { result ≡ link_of number }
    {
        match number {
            LINKTYPE_ETHERNET => Some(Link::Ether),
            LINKTYPE_RAW => Some(Link::Raw),
            LINKTYPE_LINUX_SLL => Some(Link::Cooked),
            _ => None,
        }
    }

    /// How many bytes its header has, after which the network header begins.
    #[inline]
    pub fn header_length(self) -> usize
        ensures value { result ≡ network_offset self }
        ensures bound { result ≤ longest_header }
    {
        match self {
            Link::Ether => ETHERNET_HEADER_LENGTH,
            Link::Raw => 0,
            Link::Cooked => LINUX_SLL_HEADER_LENGTH,
        }
    }

    /// The place in its header of the EtherType of the network header. Raw IP has none: packets
    /// begin with a version of IP.
    #[inline]
    pub fn type_offset(self) -> Option<usize>
        ensures value { result ≡ type_offset self }
        ensures bound { IfSome result (λ at. at ≤ longest_header) }
        ensures within { IfSome result (λ at. at + 2 ≤ network_offset self) }
    {
        match self {
            Link::Ether => Some(ETHERNET_TYPE_OFFSET),
            Link::Raw => None,
            Link::Cooked => Some(LINUX_SLL_TYPE_OFFSET),
        }
    }

    /// The link's name on command lines and in printed lines, which keep room for 8 bytes of it.
    pub fn name(self) -> &'static str
        ensures value { result.now ≡ link_name self }
        ensures bound { length result.now ≤ 8 }
    {
        match self {
            Link::Ether => "ether",
            Link::Raw => "raw",
            Link::Cooked => "cooked",
        }
    }

    /// The link that command lines call by this name; `None` if none has it.
    #[tactic(auto, unfolding(crate::specs::Link::all_links))]
    pub fn of_name(name: &str) -> Option<Link>
        ensures { result ≡ link_of_name name.now }
    {
        Link::ALL.iter().copied().find(|link| link.name() == name)
    }
}
