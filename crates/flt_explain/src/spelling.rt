//! How tokens are spelled: their text, which `flt_words::lex` reads again if they are those of
//! an expression that `explain` writes.

ghost use Rattle.std.specs.Prelude.{◌≡◌, ◌<◌, ◌++◌, OnOk};
ghost use Rattle.std.specs.String.{string_bytes};
ghost use Rattle.flt_explain.specs.Texts.{name_of_number_one, name_word, dotted_word};
ghost use Rattle.flt_explain.specs.Texts.{mac_word, ip6_word, octet, hex_byte, bytes_text};
ghost use Rattle.flt_explain.specs.Texts.{fixed_spelling, group_at, groups_text, spelling};
ghost use Rattle.flt_explain.specs.Texts.{joins_next, joins_previous, gap, next_after, tokens_text};

use flt_words::{Cast, Comparison, Join, Operator, Protocol, Side, Size, TokenKind, ValueType};
use std::alloc::{AllocError, Allocator};
use std::fmt::Write;

/// What precedes a token, if its spelling depends on that: the number 1 has two names, and directly
/// after `icmp[` it is `icmpcode`.
#[derive(Clone, Copy)]
pub enum Following {
    /// `icmp`.
    Icmp,
    /// `icmp[`.
    IcmpBracket,
    /// Anything else, or nothing.
    Other,
}

/// The keyword or symbol of a token; the empty text of a number, a name or an address.
fn fixed_spelling(token: TokenKind) -> &'static str
    ensures { result.now ≡ fixed_spelling token }
{
    match token {
        TokenKind::Protocol(Protocol::Ether) => "ether",
        TokenKind::Protocol(Protocol::Ip) => "ip",
        TokenKind::Protocol(Protocol::Ip6) => "ip6",
        TokenKind::Protocol(Protocol::Arp) => "arp",
        TokenKind::Protocol(Protocol::Rarp) => "rarp",
        TokenKind::Protocol(Protocol::Tcp) => "tcp",
        TokenKind::Protocol(Protocol::Udp) => "udp",
        TokenKind::Protocol(Protocol::Icmp) => "icmp",
        TokenKind::Protocol(Protocol::Icmp6) => "icmp6",
        TokenKind::Join(Join::And) => "and",
        TokenKind::Join(Join::Or) => "or",
        TokenKind::Not => "not",
        TokenKind::Side(Side::Source) => "src",
        TokenKind::Side(Side::Destination) => "dst",
        TokenKind::ValueType(ValueType::Host) => "host",
        TokenKind::ValueType(ValueType::Net) => "net",
        TokenKind::ValueType(ValueType::Port) => "port",
        TokenKind::ValueType(ValueType::PortRange) => "portrange",
        TokenKind::ValueType(ValueType::Proto) => "proto",
        TokenKind::Size(Size::Less) => "less",
        TokenKind::Size(Size::Greater) => "greater",
        TokenKind::Cast(Cast::Broadcast) => "broadcast",
        TokenKind::Cast(Cast::Multicast) => "multicast",
        TokenKind::Mask => "mask",
        TokenKind::Len => "len",
        TokenKind::Comparison(Comparison::Equal) => "=",
        TokenKind::Comparison(Comparison::NotEqual) => "!=",
        TokenKind::Comparison(Comparison::Less) => "<",
        TokenKind::Comparison(Comparison::AtMost) => "<=",
        TokenKind::Comparison(Comparison::Greater) => ">",
        TokenKind::Comparison(Comparison::AtLeast) => ">=",
        TokenKind::Operator(Operator::Or) => "|",
        TokenKind::Operator(Operator::And) => "&",
        TokenKind::Operator(Operator::ShiftLeft) => "<<",
        TokenKind::Operator(Operator::ShiftRight) => ">>",
        TokenKind::Operator(Operator::Add) => "+",
        TokenKind::Operator(Operator::Subtract) => "-",
        TokenKind::Operator(Operator::Multiply) => "*",
        TokenKind::Operator(Operator::Divide) => "/",
        TokenKind::Operator(Operator::Remainder) => "%",
        TokenKind::Operator(Operator::ExclusiveOr) => "^",
        TokenKind::Open => "(",
        TokenKind::Close => ")",
        TokenKind::OpenBracket => "[",
        TokenKind::CloseBracket => "]",
        TokenKind::Colon => ":",
        _ => "",
    }
}

/// The name of the number 1: that of ICMP's code directly after `icmp[`, and else that of the TCP
/// flag FIN.
fn name_of_number_one(following: Following) -> &'static str
    ensures { result.now ≡ name_of_number_one following }
{
    match following {
        Following::IcmpBracket => "icmpcode",
        _ => "tcp-fin",
    }
}

/// Appends the name of a number, as the table in `flt_words/src/spelling.rt` has it, or the number
/// in decimal if it has none.
fn push_name<A: Allocator>(
    text: &mut String<A>,
    following: Following,
    number: u32,
) -> Result<(), AllocError>
    ensures { OnOk result (string_bytes text.new
        ≡ string_bytes text.old ++ name_word following number) }
{
    match number {
        0 => text.push_str("icmptype"),
        1 => text.push_str(name_of_number_one(following)),
        2 => text.push_str("tcp-syn"),
        4 => text.push_str("tcp-rst"),
        8 => text.push_str("tcp-push"),
        13 => text.push_str("tcpflags"),
        16 => text.push_str("tcp-ack"),
        32 => text.push_str("tcp-urg"),
        _ => write!(text, "{number}"),
    }
}

/// Appends the first two or three parts of an IPv4 address in decimal, with points between them, or
/// with other `parts` all four.
#[tactic(auto, unfolding(crate::specs::Texts::dotted_word))]
fn push_dotted<A: Allocator>(
    text: &mut String<A>,
    address: u32,
    parts: u8,
) -> Result<(), AllocError>
    ensures { OnOk result (string_bytes text.new
        ≡ string_bytes text.old ++ dotted_word address parts) }
{
    let first = address / 0x100_0000 % 256;
    let second = address / 0x1_0000 % 256;
    let third = address / 0x100 % 256;
    let last = address % 256;
    match parts {
        2 => write!(text, "{first}.{second}"),
        3 => write!(text, "{first}.{second}.{third}"),
        _ => write!(text, "{first}.{second}.{third}.{last}"),
    }
}

/// The byte of half a MAC address at the place at which a byte counts `weight`: a power of 256, and
/// 1 for the last one.
fn byte_of(half: u64, weight: u64) -> u8
    requires { 0 < weight }
    ensures { result ≡ octet weight half }
{
    (half / weight % 256) as u8
}

/// Appends a byte as two hexadecimal digits.
#[tactic(auto, using(crate::proofs::HexBytes::hex_byte_is))]
fn push_byte<A: Allocator>(text: &mut String<A>, byte: u8) -> Result<(), AllocError>
    ensures { OnOk result (string_bytes text.new ≡ string_bytes text.old ++ hex_byte byte) }
{
    write!(text, "{byte:02x}")
}

/// Appends the three bytes of half a MAC address, joined by colons.
#[tactic(auto, unfolding(crate::specs::Texts::bytes_text))]
fn push_three_bytes<A: Allocator>(text: &mut String<A>, half: u64) -> Result<(), AllocError>
    ensures { OnOk result (string_bytes text.new ≡ string_bytes text.old ++ bytes_text half) }
{
    push_byte(text, byte_of(half, 0x1_0000))?;
    text.push_str(":")?;
    push_byte(text, byte_of(half, 0x100))?;
    text.push_str(":")?;
    push_byte(text, byte_of(half, 1))
}

/// Appends the six bytes of a MAC address, joined by colons, from its halves of 24 bits.
#[tactic(auto, unfolding(crate::specs::Texts::mac_word))]
fn push_mac<A: Allocator>(text: &mut String<A>, address: u64) -> Result<(), AllocError>
    ensures { OnOk result (string_bytes text.new ≡ string_bytes text.old ++ mac_word address) }
{
    push_three_bytes(text, address / 0x100_0000)?;
    text.push_str(":")?;
    push_three_bytes(text, address % 0x100_0000)
}

/// The group of half an IPv6 address at the place at which a group counts `weight`: a power of
/// 65,536, and 1 for the last one.
fn group_of(half: u128, weight: u128) -> u16
    requires { 0 < weight }
    ensures { result ≡ group_at weight half }
{
    (half / weight % 65536) as u16
}

/// Appends the four groups of half an IPv6 address, joined by colons, without leading zeros.
#[tactic(auto, unfolding(crate::specs::Texts::groups_text))]
fn push_four_groups<A: Allocator>(text: &mut String<A>, half: u128) -> Result<(), AllocError>
    ensures { OnOk result (string_bytes text.new ≡ string_bytes text.old ++ groups_text half) }
{
    let first = group_of(half, 0x1_0000_0000_0000);
    let second = group_of(half, 0x1_0000_0000);
    let third = group_of(half, 0x1_0000);
    let last = group_of(half, 1);
    write!(text, "{first:x}:{second:x}:{third:x}:{last:x}")
}

/// Appends the eight groups of an IPv6 address, joined by colons, from its halves of 64 bits. No
/// groups are left out for a `::`.
#[tactic(auto, unfolding(crate::specs::Texts::ip6_word))]
fn push_ip6<A: Allocator>(text: &mut String<A>, address: u128) -> Result<(), AllocError>
    ensures { OnOk result (string_bytes text.new ≡ string_bytes text.old ++ ip6_word address) }
{
    push_four_groups(text, address / 0x1_0000_0000_0000_0000)?;
    text.push_str(":")?;
    push_four_groups(text, address % 0x1_0000_0000_0000_0000)
}

/// Appends the spelling of a token. What stands before it makes a difference only for a name.
fn push_token<A: Allocator>(
    text: &mut String<A>,
    following: Following,
    token: TokenKind,
) -> Result<(), AllocError>
    ensures { OnOk result (string_bytes text.new
        ≡ string_bytes text.old ++ spelling following token) }
{
    match token {
        TokenKind::Number(number) => write!(text, "{number}"),
        TokenKind::Name(number) => push_name(text, following, number),
        TokenKind::Dotted { address, parts } => push_dotted(text, address, parts),
        TokenKind::Range { first, last } => write!(text, "{first}-{last}"),
        TokenKind::Mac(address) => push_mac(text, address),
        TokenKind::Ip6(address) => push_ip6(text, address),
        _ => text.push_str(fixed_spelling(token)),
    }
}

impl Following {
    /// What stands before the token after `token`, where `self` stands before `token`: `icmp`, the
    /// `[` of `icmp[`, or another token.
    fn next(self, token: TokenKind) -> Following
        ensures { result ≡ next_after self token }
    {
        match (self, token) {
            (_, TokenKind::Protocol(Protocol::Icmp)) => Following::Icmp,
            (Following::Icmp, TokenKind::OpenBracket) => Following::IcmpBracket,
            _ => Following::Other,
        }
    }
}

/// Whether no blank stands after a token.
fn joins_next(token: TokenKind) -> bool
    ensures { result ≡ joins_next token }
{
    matches!(
        token,
        TokenKind::Open
            | TokenKind::OpenBracket
            | TokenKind::Colon
            | TokenKind::Operator(Operator::Divide)
    )
}

/// Whether no blank stands before a token.
fn joins_previous(token: TokenKind) -> bool
    ensures { result ≡ joins_previous token }
{
    matches!(
        token,
        TokenKind::Close
            | TokenKind::OpenBracket
            | TokenKind::CloseBracket
            | TokenKind::Colon
            | TokenKind::Operator(Operator::Divide)
    )
}

/// What stands between a token and the next one, the first of `rest`: a blank, or nothing if one
/// of both joins the other or no token is left.
fn gap(token: TokenKind, rest: &[TokenKind]) -> &'static str
    ensures { result.now ≡ gap token rest.now }
{
    match rest.first() {
        Some(&next) if !joins_next(token) && !joins_previous(next) => " ",
        _ => "",
    }
}

/// Appends the text of tokens, with blanks between most of them. An error is a failed allocation,
/// with some of the text appended.
pub(crate) fn push_tokens<A: Allocator>(
    text: &mut String<A>,
    tokens: &[TokenKind],
) -> Result<(), AllocError>
    ensures { OnOk result (string_bytes text.new
        ≡ string_bytes text.old ++ tokens_text Following.Other tokens.now) }
{
    let mut following = Following::Other;
    for i in 0..tokens.len() {
        let token = tokens[i];
        push_token(text, following, token)?;
        text.push_str(gap(token, &tokens[i + 1..]))?;
        following = following.next(token);
    }
    Ok(())
}
