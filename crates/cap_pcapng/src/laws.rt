//! Laws of the definitions: a block that was written reads back as what it was written of.
ghost use Rattle.cap_pcapng.specs.Laws.{InterfaceBack, PacketBack, SectionBack};

/// A section header that was written reads back as one that begins a little-endian section without
/// interfaces.
pub fn section_back()
    ensures { SectionBack }
{}

/// An interface that was written reads back as it was, if its section isn't full: it gets the
/// next number there, and its ticks are nanoseconds.
pub fn interface_back()
    ensures { InterfaceBack }
{}

/// A packet that was written with the number of its interface, which was written before, reads back
/// as it was: it is the one packet of its block.
pub fn packet_back()
    ensures { PacketBack }
{}
