//! The tokens that have a fixed spelling.

ghost use Rattle.std.specs.Prelude.{◌≡◌, map};
ghost use Rattle.flt_words.specs.Spellings.{keyword_of, look_up, symbol_of};

use crate::token::{Cast, Comparison, Join, Operator, Protocol, Side, Size, TokenKind, ValueType};

/// Keywords, and from `tcpflags` on the names of header fields and TCP flags with their numbers.
const KEYWORDS: [(&str, TokenKind); 34] = [
    ("and", TokenKind::Join(Join::And)),
    ("or", TokenKind::Join(Join::Or)),
    ("not", TokenKind::Not),
    ("host", TokenKind::ValueType(ValueType::Host)),
    ("net", TokenKind::ValueType(ValueType::Net)),
    ("port", TokenKind::ValueType(ValueType::Port)),
    ("portrange", TokenKind::ValueType(ValueType::PortRange)),
    ("proto", TokenKind::ValueType(ValueType::Proto)),
    ("src", TokenKind::Side(Side::Source)),
    ("dst", TokenKind::Side(Side::Destination)),
    ("ether", TokenKind::Protocol(Protocol::Ether)),
    ("ip", TokenKind::Protocol(Protocol::Ip)),
    ("ip6", TokenKind::Protocol(Protocol::Ip6)),
    ("arp", TokenKind::Protocol(Protocol::Arp)),
    ("rarp", TokenKind::Protocol(Protocol::Rarp)),
    ("tcp", TokenKind::Protocol(Protocol::Tcp)),
    ("udp", TokenKind::Protocol(Protocol::Udp)),
    ("icmp", TokenKind::Protocol(Protocol::Icmp)),
    ("icmp6", TokenKind::Protocol(Protocol::Icmp6)),
    ("mask", TokenKind::Mask),
    ("len", TokenKind::Len),
    ("less", TokenKind::Size(Size::Less)),
    ("greater", TokenKind::Size(Size::Greater)),
    ("broadcast", TokenKind::Cast(Cast::Broadcast)),
    ("multicast", TokenKind::Cast(Cast::Multicast)),
    ("tcpflags", TokenKind::Name(13)),
    ("tcp-fin", TokenKind::Name(1)),
    ("tcp-syn", TokenKind::Name(2)),
    ("tcp-rst", TokenKind::Name(4)),
    ("tcp-push", TokenKind::Name(8)),
    ("tcp-ack", TokenKind::Name(16)),
    ("tcp-urg", TokenKind::Name(32)),
    ("icmptype", TokenKind::Name(0)),
    ("icmpcode", TokenKind::Name(1)),
];

/// Symbols. The colon is not among them, since it is a token of its own only inside brackets.
const SYMBOLS: [(&str, TokenKind); 24] = [
    ("&&", TokenKind::Join(Join::And)),
    ("||", TokenKind::Join(Join::Or)),
    ("!=", TokenKind::Comparison(Comparison::NotEqual)),
    ("==", TokenKind::Comparison(Comparison::Equal)),
    ("<=", TokenKind::Comparison(Comparison::AtMost)),
    (">=", TokenKind::Comparison(Comparison::AtLeast)),
    ("<<", TokenKind::Operator(Operator::ShiftLeft)),
    (">>", TokenKind::Operator(Operator::ShiftRight)),
    ("(", TokenKind::Open),
    (")", TokenKind::Close),
    ("[", TokenKind::OpenBracket),
    ("]", TokenKind::CloseBracket),
    ("/", TokenKind::Operator(Operator::Divide)),
    ("!", TokenKind::Not),
    ("=", TokenKind::Comparison(Comparison::Equal)),
    ("<", TokenKind::Comparison(Comparison::Less)),
    (">", TokenKind::Comparison(Comparison::Greater)),
    ("+", TokenKind::Operator(Operator::Add)),
    ("-", TokenKind::Operator(Operator::Subtract)),
    ("*", TokenKind::Operator(Operator::Multiply)),
    ("&", TokenKind::Operator(Operator::And)),
    ("|", TokenKind::Operator(Operator::Or)),
    ("%", TokenKind::Operator(Operator::Remainder)),
    ("^", TokenKind::Operator(Operator::ExclusiveOr)),
];

/// The token that a table has for a spelling, or `None`. Capitals differ from small letters.
fn look_up(table: &[(&str, TokenKind)], piece: &[u8]) -> Option<TokenKind>
    ensures { result ≡ look_up (map (λ entry. (entry.0.now, entry.1)) table.now) piece.now }
{
    for (spelling, kind) in table {
        if spelling.as_bytes() == piece {
            return Some(*kind);
        }
    }
    None
}

/// The token of the keyword or name that this word is, or `None` for other words.
#[tactic(auto, unfolding(crate::specs::Spellings::keywords))]
pub(crate) fn keyword_of(word: &[u8]) -> Option<TokenKind>
    ensures { result ≡ keyword_of word.now }
{
    look_up(&KEYWORDS, word)
}

/// The token of the symbol that these bytes are, or `None` for other bytes. `inside` is whether
/// they are in brackets: the colon is one only there.
#[tactic(auto, unfolding(crate::specs::Spellings::symbols))]
pub(crate) fn symbol_of(inside: bool, piece: &[u8]) -> Option<TokenKind>
    ensures { result ≡ symbol_of inside piece.now }
{
    if inside && piece == b":".as_slice() {
        Some(TokenKind::Colon)
    } else {
        look_up(&SYMBOLS, piece)
    }
}
