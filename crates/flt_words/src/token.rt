//! The tokens into which a text is cut, and their parts.

/// A protocol, named without a value or before a value, `broadcast`, `multicast` or `[`.
#[derive(Clone, Copy, PartialEq, Eq)]
pub enum Protocol {
    Ether,
    Ip,
    Ip6,
    Arp,
    Rarp,
    Tcp,
    Udp,
    Icmp,
    Icmp6,
}

/// `and` or `&&`, `or` or `||`.
#[derive(Clone, Copy)]
pub enum Join {
    And,
    Or,
}

/// `src`, `dst`.
#[derive(Clone, Copy)]
pub enum Side {
    Source,
    Destination,
}

/// What a value means: `host`, `net`, `port`, `portrange`, `proto`.
#[derive(Clone, Copy, PartialEq, Eq)]
pub enum ValueType {
    Host,
    Net,
    Port,
    PortRange,
    Proto,
}

/// The primitives `less N` and `greater N`, on a packet's original length in bytes.
#[derive(Clone, Copy)]
pub enum Size {
    Less,
    Greater,
}

/// The primitives `broadcast` and `multicast`.
#[derive(Clone, Copy)]
pub enum Cast {
    Broadcast,
    Multicast,
}

/// `=` or `==`, `!=`, `<`, `<=`, `>`, `>=`.
#[derive(Clone, Copy)]
pub enum Comparison {
    Equal,
    NotEqual,
    Less,
    AtMost,
    Greater,
    AtLeast,
}

/// `|`, `&`, `<<`, `>>`, `+`, `-`, `*`, `/`, `%`, `^`. A `-` may also be a sign.
#[derive(Clone, Copy)]
pub enum Operator {
    Or,
    And,
    ShiftLeft,
    ShiftRight,
    Add,
    Subtract,
    Multiply,
    Divide,
    Remainder,
    ExclusiveOr,
}

/// What a token is, with its value.
#[derive(Clone, Copy)]
pub enum TokenKind {
    Protocol(Protocol),
    Join(Join),
    /// `not` or `!`.
    Not,
    Side(Side),
    ValueType(ValueType),
    Size(Size),
    Cast(Cast),
    Mask,
    Len,
    Comparison(Comparison),
    Operator(Operator),
    Open,
    Close,
    OpenBracket,
    CloseBracket,
    Colon,
    Number(u32),
    /// A name of a header field or of a TCP flag, as its number: `tcpflags` is 13.
    Name(u32),
    /// An IPv4 address or its first parts: two to four parts, the missing ones 0.
    Dotted { address: u32, parts: u8 },
    /// Two numbers joined by a dash, in the order in which they stand.
    Range { first: u32, last: u32 },
    /// A MAC address of 48 bits, its first group the highest byte.
    Mac(u64),
    /// An IPv6 address, its first group the highest 16 bits.
    Ip6(u128),
}

/// A token, and the place of its first byte in the text, counted from 1.
#[derive(Clone, Copy)]
pub struct Token {
    pub kind: TokenKind,
    pub place: u32,
}
