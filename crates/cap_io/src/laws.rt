//! Laws of the definitions: each is the contract of a function that does nothing.
ghost use Rattle.cap_io.specs.Laws.{EachHasCut, EachHasOneCut, CutTellsItems, EachPutGoesByPackets};
ghost use Rattle.cap_io.specs.{Merging.MergesSort, Laws.PutExtendsText, RoundTrip.ItemsBack};

/// Each text is cut into units in exactly one way, and the cut shows the text's items: its packets
/// and how it ends.
pub fn one_cut()
    ensures some { EachHasCut }
    ensures one { EachHasOneCut }
    ensures items { CutTellsItems }
{}

/// What is written of one packet or more that a format carries reads back as these packets.
pub fn items_back()
    ensures { ItemsBack }
{}

/// What a sink does with one more packet is what all packets before it decide, though the sink keeps
/// only a state and interfaces; and that packet only adds bytes to the text of those before.
pub fn put_extends_text()
    ensures by_packets { EachPutGoesByPackets }
    ensures text { PutExtendsText }
{}

/// A merge has all packets of its inputs, each once, sorted by the greatest time in their own input
/// up to and with them, then by their input and their place there; up to and with the last packet
/// of the first input that ends by a fault.
pub fn merges_sort()
    ensures { MergesSort }
{}
