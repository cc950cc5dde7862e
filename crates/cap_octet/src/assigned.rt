//! Numbers that are assigned to link types, EtherTypes and protocols, and the lengths of link
//! headers.

/// The link type of Ethernet (tcpdump.org's list of LINKTYPE_ values, as all link types).
pub const LINKTYPE_ETHERNET: u16 = 1;

/// The link type of raw IP, whose packets begin with the network header.
pub const LINKTYPE_RAW: u16 = 101;

/// The link type of Linux cooked captures, version 1.
pub const LINKTYPE_LINUX_SLL: u16 = 113;

/// The EtherType of IPv4 (IANA's list of EtherType numbers, as all EtherTypes).
pub const ETHERTYPE_IPV4: u16 = 0x0800;

/// The EtherType of IPv6.
pub const ETHERTYPE_IPV6: u16 = 0x86dd;

/// The EtherType of ARP.
pub const ETHERTYPE_ARP: u16 = 0x0806;

/// The EtherType of RARP.
pub const ETHERTYPE_RARP: u16 = 0x8035;

/// The protocol number of ICMP (IANA's list of protocol numbers, as all protocols).
pub const IPPROTO_ICMP: u8 = 1;

/// The protocol number of TCP.
pub const IPPROTO_TCP: u8 = 6;

/// The protocol number of UDP.
pub const IPPROTO_UDP: u8 = 17;

/// The protocol number of ICMPv6.
pub const IPPROTO_ICMPV6: u8 = 58;

/// The place where an Ethernet header has its EtherType.
pub const ETHERNET_TYPE_OFFSET: usize = 12;

/// Bytes in an Ethernet header: two addresses and an EtherType.
pub const ETHERNET_HEADER_LENGTH: usize = 14;

/// The place where the header of a Linux cooked capture has its EtherType.
pub const LINUX_SLL_TYPE_OFFSET: usize = 14;

/// Bytes in the header of a Linux cooked capture.
pub const LINUX_SLL_HEADER_LENGTH: usize = 16;
