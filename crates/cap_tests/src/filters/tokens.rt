//! The values and places of tokens, which no command line shows.

use crate::words::field;
use flt_words::{Comparison, Join, Operator, Protocol, Token, TokenKind, lex};
use std::alloc::{AllocError, Global};

/// A token without a value, in short: enough to distinguish those of the table.
fn name_of(kind: TokenKind) -> &'static str {
    match kind {
        TokenKind::Protocol(Protocol::Tcp) => "tcp",
        TokenKind::Protocol(Protocol::Ip) => "ip",
        TokenKind::Operator(Operator::Subtract) => "-",
        TokenKind::Operator(Operator::ShiftLeft) => "<<",
        TokenKind::Join(Join::And) => "and",
        TokenKind::Comparison(Comparison::Equal) => "=",
        TokenKind::Len => "len",
        TokenKind::Not => "not",
        TokenKind::Open => "(",
        TokenKind::Close => ")",
        TokenKind::OpenBracket => "[",
        TokenKind::CloseBracket => "]",
        TokenKind::Colon => ":",
        _ => "other",
    }
}

/// Adds a token: its place, what it is, and its value, an address in hexadecimal digits.
fn add_token(text: &mut String, token: &Token) -> Result<(), AllocError> {
    let place = token.place;
    match token.kind {
        TokenKind::Number(number) => write!(text, " {place} number {number}"),
        TokenKind::Dotted { address, parts } => write!(text, " {place} dotted {address:x}/{parts}"),
        TokenKind::Range { first, last } => write!(text, " {place} range {first}-{last}"),
        TokenKind::Mac(address) => write!(text, " {place} mac {address:x}"),
        TokenKind::Ip6(address) => write!(text, " {place} ip6 {address:x}"),
        kind => write!(text, " {place} {}", name_of(kind)),
    }
}

/// The tokens of a text, each with a blank before it.
fn tokens_of(alloc: Global, text: &str) -> Option<String> {
    let mut shown = String::new(alloc);
    for token in &lex(alloc, text).ok()? {
        add_token(&mut shown, token).ok()?;
    }
    Some(shown)
}

/// Words, and the tokens that they are.
const VALUES: &str = "\
0 | number 0
4294967295 | number 4294967295
00 | number 0
010 | number 8
037777777777 | number 4294967295
0x0 | number 0
0xfF | number 255
0X00000000Abcd | number 43981
10.1 | dotted a010000/2
10.1.2 | dotted a010200/3
0.0.0.0 | dotted 0/4
255.255.255.255 | dotted ffffffff/4
2-1 | range 2-1
0-4294967295 | range 0-4294967295
0:1:22:a:Bc:ff | mac 1220abcff
ff:ff:ff:ff:ff:ff | mac ffffffffffff
1:2:3:4:5:6:7:8 | ip6 10002000300040005000600070008
ffff:ffff:ffff:ffff:ffff:ffff:ffff:ffff | ip6 ffffffffffffffffffffffffffffffff
:: | ip6 0
::1 | ip6 1
1:: | ip6 10000000000000000000000000000
2001:db8::a:1 | ip6 20010db80000000000000000000a0001
1:2:3:4:5:6:7:: | ip6 10002000300040005000600070000
::2:3:4:5:6:7:8 | ip6 2000300040005000600070008";

/// Whether the word of a row has its token, with a blank on each side of it.
fn has_token(alloc: Global, row: &'static str) -> Option<bool> {
    let (word, token) = field(row);
    let shown = tokens_of(alloc, &format!(in alloc; " {word} ").ok()?)?;
    Some(shown.strip_prefix(" 2 ") == Some(token))
}

#[test]
fn values(rt: HostRuntime) {
    for row in VALUES.lines() {
        assert!(rt; has_token(rt.alloc(), row) == Some(true), "{row}");
    }
}

/// Texts, and their tokens with their places.
const PLACES: &[(&str, &str)] = &[
    ("", ""),
    (" \t\n\r", ""),
    ("tcp[13:2]", " 1 tcp 4 [ 5 number 13 7 : 8 number 2 9 ]"),
    ("len - 14", " 1 len 5 - 7 number 14"),
    ("[2-1] ::1", " 1 [ 2 range 2-1 5 ] 7 ip6 1"),
    (
        "!ip&&(len<<=1)",
        " 1 not 2 ip 4 and 6 ( 7 len 10 << 12 = 13 number 1 14 )",
    ),
];

/// Whether these are the tokens of a text.
fn has_tokens(alloc: Global, text: &str, wanted: &str) -> bool {
    matches!(tokens_of(alloc, text), Some(shown) if shown.as_str() == wanted)
}

#[test]
fn places(rt: HostRuntime) {
    for (text, wanted) in PLACES {
        assert!(rt; has_tokens(rt.alloc(), text, wanted), "{text}");
    }
}
