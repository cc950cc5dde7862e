//! The qualifiers before a value, as in `tcp dst port 80`.

use flt_words::{Join, Protocol, Side, ValueType};

/// Which address or port of a packet is meant.
#[derive(Clone, Copy)]
pub enum Direction {
    /// `src` or `dst`.
    One(Side),
    /// `src or dst` or `src and dst`, in either order of the sides.
    Both(Join),
}

/// The qualifiers of a value, as they are written: each may be left out.
#[derive(Clone, Copy)]
pub struct Qualifiers {
    pub protocol: Option<Protocol>,
    pub direction: Option<Direction>,
    pub value_type: Option<ValueType>,
}

impl Qualifiers {
    ghost use Rattle.std.specs.Prelude.{◌≡◌};
    ghost use Rattle.flt_ast.specs.Filled.{completed_qualifiers, type_or_host};

    /// The type that is written, or `host` if none is.
    pub(crate) fn type_or_host(self) -> ValueType
        ensures { result ≡ type_or_host self }
    {
        self.value_type.unwrap_or(ValueType::Host)
    }

    /// The qualifiers with what is left out filled in: the type `host`, the direction `src or dst`.
    pub(crate) fn completed(self) -> CompleteQualifiers
        ensures { result ≡ completed_qualifiers self }
    {
        CompleteQualifiers {
            protocol: self.protocol,
            direction: self.direction.unwrap_or(Direction::Both(Join::Or)),
            value_type: self.type_or_host(),
        }
    }
}

/// The qualifiers of a value once those that were left out are filled in. A protocol may be missing
/// still: then the value is looked for in each protocol that has such values.
#[derive(Clone, Copy)]
pub struct CompleteQualifiers {
    pub protocol: Option<Protocol>,
    pub direction: Direction,
    pub value_type: ValueType,
}
