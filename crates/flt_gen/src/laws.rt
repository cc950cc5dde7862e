//! Laws of the table of primitives, on the masks of IPv6 and on the kinds of network headers. Each
//! is a theorem, and its function does nothing.

ghost use Rattle.flt_gen.specs.Laws.{MasksJoin, MatchesKind, RejectsShort};

/// An IPv6 address or network is tested in four words of 32 bits. The masks of the four tests,
/// joined, are the mask of 128 bits that the prefix length means; all bits without a prefix length.
pub fn masks_join()
    ensures { MasksJoin }
{}

/// `ip`, `ip6`, `arp` and `rarp` agree with printed lines, which take the kind of a packet from
/// `network_header`. Each of the four matches exactly the packets of its kind. It rejects exactly
/// the packets of which too few bytes are captured to show a kind; but `arp` and `rarp` reject none
/// on raw IP, which can't carry them.
#[tactic(auto, using(crate::proofs::NetworkKinds::agrees))]
pub fn kinds_agree()
    ensures kind { MatchesKind }
    ensures short { RejectsShort }
{}
