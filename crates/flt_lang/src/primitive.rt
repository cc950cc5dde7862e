//! Reads the parts of a primitive: the role of a protocol, by the token after it, and values with
//! the qualifiers before them. Each reader of these begins at the first of its tokens, takes as
//! many as it can, and returns what it read and how many tokens that is.

ghost use Rattle.std.specs.Prelude.{◌≡◌, ◌∷◌, ◌⊎◌, IfSome, IfNone, Some, None, length, slice_get};
ghost use Rattle.std.specs.Prelude.{drop, ◌<◌, ◌≤◌};
ghost use Rattle.flt_words.specs.declared.token.TokenKind.{TokenKind};
ghost use Rattle.flt_ast.specs.declared.qualifiers.Qualifiers.{Qualifiers};
ghost use Rattle.flt_lang.specs.inside.Values.{qualifiers_of, protocol_of, direction_of, type_of};
ghost use Rattle.flt_lang.specs.inside.Values.{is_opposite, both_of, Takes, mask_of, prefix_of};
ghost use Rattle.flt_lang.specs.inside.{Values.value_of, Parser.protocol_role, Parser.valued_of};
ghost use Rattle.flt_lang.specs.Grammar.{stands_alone, is_accessor, has_casts, kinds_of};

use flt_ast::{Direction, Dotted, NetMask, Qualifiers, Value};
use flt_words::{Cast, Join, Operator, Protocol, Side, Token, TokenKind, ValueType};

/// The kind of the token at an index from 0, if there is one.
pub fn kind_at(tokens: &[Token], index: usize) -> Option<TokenKind>
    ensures { result ≡ slice_get (kinds_of tokens.now) index }
{
    Some(tokens.get(index)?.kind)
}

/// What a protocol is there for, by the token after it.
#[derive(Clone, Copy)]
pub enum ProtocolRole {
    /// It begins an accessor.
    Bracket,
    /// It stands before `broadcast` or `multicast`.
    Cast(Cast),
    /// It stands alone, or before a value.
    Other,
}

/// What the first of the tokens, a protocol, is there for, by the second one. None is taken.
pub fn protocol_role(tokens: &[Token]) -> ProtocolRole
    ensures value { result ≡ protocol_role (kinds_of tokens.now) }
    ensures within { (result ≡ ProtocolRole.Other) ⊎ (1 < length tokens.now) }
{
    match kind_at(tokens, 1) {
        Some(TokenKind::OpenBracket) => ProtocolRole::Bracket,
        Some(TokenKind::Cast(cast)) => ProtocolRole::Cast(cast),
        _ => ProtocolRole::Other,
    }
}

/// Whether a protocol may stand alone, as a test of its own: `ether` may not.
pub fn stands_alone(protocol: Protocol) -> bool
    ensures { result ≡ stands_alone protocol }
{
    !matches!(protocol, Protocol::Ether)
}

/// Whether a protocol may stand before a bracket, as `tcp[`: `icmp6` may not.
pub fn is_accessor(protocol: Protocol) -> bool
    ensures { result ≡ is_accessor protocol }
{
    !matches!(protocol, Protocol::Icmp6)
}

/// Whether a protocol may stand before `broadcast` or `multicast`: `ether`, `ip` and `ip6` may.
pub fn has_casts(protocol: Protocol) -> bool
    ensures { result ≡ has_casts protocol }
{
    matches!(protocol, Protocol::Ether | Protocol::Ip | Protocol::Ip6)
}

/// The protocol with which tokens begin, and how many tokens it takes: 1, or 0 if there is none.
fn read_protocol(tokens: &[Token]) -> (Option<Protocol>, usize)
    ensures { Takes (protocol_of (kinds_of tokens.now)) tokens.now result }
{
    match kind_at(tokens, 0) {
        Some(TokenKind::Protocol(protocol)) => (Some(protocol), 1),
        _ => (None, 0),
    }
}

/// Whether one side is the source and the other one the destination.
fn is_opposite(first: Side, second: Side) -> bool
    ensures { result ≡ is_opposite first second }
{
    matches!(
        (first, second),
        (Side::Source, Side::Destination) | (Side::Destination, Side::Source)
    )
}

/// The join of `src or dst` or `src and dst`, in either order of the sides, if tokens begin with
/// these three.
fn read_both_sides(tokens: &[Token]) -> Option<Join>
    ensures value { result ≡ both_of (kinds_of tokens.now) }
    ensures within { IfSome result (λ _. 2 < length tokens.now) }
{
    match (kind_at(tokens, 0), kind_at(tokens, 1), kind_at(tokens, 2)) {
        (Some(TokenKind::Side(first)), Some(TokenKind::Join(join)), Some(TokenKind::Side(second)))
            if is_opposite(first, second) => Some(join),
        _ => None,
    }
}

/// The direction with which tokens begin, and how many tokens it takes: 3, 1, or 0.
fn read_direction(tokens: &[Token]) -> (Option<Direction>, usize)
    ensures { Takes (direction_of (kinds_of tokens.now)) tokens.now result }
{
    if let Some(join) = read_both_sides(tokens) {
        return (Some(Direction::Both(join)), 3);
    }
    match kind_at(tokens, 0) {
        Some(TokenKind::Side(side)) => (Some(Direction::One(side)), 1),
        _ => (None, 0),
    }
}

/// The type with which tokens begin, and how many tokens it takes: 1 or 0.
fn read_type(tokens: &[Token]) -> (Option<ValueType>, usize)
    ensures { Takes (type_of (kinds_of tokens.now)) tokens.now result }
{
    match kind_at(tokens, 0) {
        Some(TokenKind::ValueType(value_type)) => (Some(value_type), 1),
        _ => (None, 0),
    }
}

/// The qualifiers with which tokens begin, in their order, and how many tokens they take: 5 at
/// most.
fn read_qualifiers(tokens: &[Token]) -> (Qualifiers, usize)
    ensures { Takes (qualifiers_of (kinds_of tokens.now)) tokens.now result }
{
    let (protocol, first) = read_protocol(tokens);
    let (direction, second) = read_direction(&tokens[first..]);
    let (value_type, third) = read_type(&tokens[first + second..]);
    let qualifiers = Qualifiers {
        protocol,
        direction,
        value_type,
    };
    (qualifiers, first + second + third)
}

/// What follows the address of a network: `/ N` or `mask D`, if tokens begin with it, and how many
/// tokens it takes: 2 or 0.
fn read_mask(tokens: &[Token]) -> (NetMask, usize)
    ensures { Takes (mask_of (kinds_of tokens.now)) tokens.now result }
{
    match (kind_at(tokens, 0), kind_at(tokens, 1)) {
        (Some(TokenKind::Operator(Operator::Divide)), Some(TokenKind::Number(len))) => {
            (NetMask::Prefix(len), 2)
        }
        (Some(TokenKind::Mask), Some(TokenKind::Dotted { address, parts })) => {
            (NetMask::Mask(Dotted { address, parts }), 2)
        }
        _ => (NetMask::Unwritten, 0),
    }
}

/// The length of a prefix of IPv6, the `N` of `/ N`, if tokens begin with it, and how many tokens
/// it takes: 2 or 0.
fn read_prefix_len(tokens: &[Token]) -> (Option<u32>, usize)
    ensures { Takes (prefix_of (kinds_of tokens.now)) tokens.now result }
{
    match (kind_at(tokens, 0), kind_at(tokens, 1)) {
        (Some(TokenKind::Operator(Operator::Divide)), Some(TokenKind::Number(len))) => {
            (Some(len), 2)
        }
        _ => (None, 0),
    }
}

/// The value that begins with the token `first`, with the mask after it, and how many of the tokens
/// `rest` after `first` it takes. `None` if no value begins with it.
fn value_from(first: TokenKind, rest: &[Token]) -> Option<(Value, usize)>
    ensures some { IfSome result (λ r.
        value_of (first ∷ kinds_of rest.now) ≡ Some (r.0, kinds_of (drop r.1 rest.now))) }
    ensures within { IfSome result (λ r. r.1 ≤ length rest.now) }
    ensures none { IfNone result (value_of (first ∷ kinds_of rest.now) ≡ None) }
{
    match first {
        TokenKind::Ip6(address) => {
            let (prefix, used) = read_prefix_len(rest);
            Some((Value::Ip6(address, prefix), used))
        }
        TokenKind::Number(number) => {
            let (mask, used) = read_mask(rest);
            Some((Value::Number(number, mask), used))
        }
        TokenKind::Dotted { address, parts } => {
            let (mask, used) = read_mask(rest);
            Some((Value::Dotted(Dotted { address, parts }, mask), used))
        }
        TokenKind::Mac(address) => Some((Value::Mac(address), 0)),
        TokenKind::Range { first, last } => Some((Value::Range { first, last }, 0)),
        _ => None,
    }
}

/// The value with which tokens begin, with the mask after it, and how many tokens it takes: 3 at
/// most. `None` if they begin with none.
pub fn read_value(tokens: &[Token]) -> Option<(Value, usize)>
    ensures some { IfSome result (λ r.
        value_of (kinds_of tokens.now) ≡ Some (r.0, kinds_of (drop r.1 tokens.now))) }
    ensures used { IfSome result (λ r. 0 < r.1) }
    ensures within { IfSome result (λ r. r.1 ≤ length tokens.now) }
    ensures none { IfNone result (value_of (kinds_of tokens.now) ≡ None) }
{
    let [first, rest @ ..] = tokens else {
        return None;
    };
    let (value, more) = value_from(first.kind, rest)?;
    Some((value, 1 + more))
}

/// A value with what stands before it, if anything does, and how many tokens more than one they
/// are, as `Reader` counts them in a step. `None` if no value follows the qualifiers.
pub fn read_value_with_qualifiers(tokens: &[Token]) -> Option<(Qualifiers, Value, usize)>
    ensures value { result ≡ valued_of (kinds_of tokens.now) }
    ensures within { IfSome result (λ r. r.2 < length tokens.now) }
{
    let (qualifiers, used) = read_qualifiers(tokens);
    let (value, more) = read_value(&tokens[used..])?;
    Some((qualifiers, value, used + more - 1))
}
