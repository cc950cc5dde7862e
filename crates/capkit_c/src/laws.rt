//! Laws of the definitions: each is the contract of a function that does nothing.
ghost use Rattle.std.specs.Prelude.{◌≡◌, ◌↔◌, List};
ghost use Rattle.flt_bpf.specs.declared.insn.Insn.{Insn};
ghost use Rattle.capkit_c.specs.Elsewhere.{HereFromZeros, SameFromAnyWords, SameOnLibpcap};
ghost use Rattle.capkit_c.specs.{Elsewhere.SameOnLinux, Laws.NumberStays, Laws.RestIsRead};
ghost use Rattle.capkit_c.specs.Laws.{FindsWhatIsRead, NoTimeIsMadeUp};
ghost use Rattle.capkit_c.specs.Portable.{is_portable, portability};

/// The rest of a capture, from the reader's place on, is read as the capture is.
#[tactic(auto, using(crate::proofs::Searches::rest_read))]
pub fn rest_is_read()
    ensures { RestIsRead }
{}

/// The number of a packet's interface is the same before and after its interface is described.
#[tactic(auto, using(crate::proofs::Putting::number_stays))]
pub fn number_stays()
    ensures { NumberStays }
{}

/// What `capkit_skip` finds of a unit that it doesn't go past is what `capkit_next_unit` finds.
#[tactic(auto, using(crate::proofs::Skips::found_is))]
pub fn finds_what_is_read()
    ensures { FindsWhatIsRead }
{}

/// No packet of an interface that `capkit_skip` entered has a time in range.
#[tactic(auto, using(crate::proofs::Skips::no_time))]
pub fn no_time_is_made_up()
    ensures { NoTimeIsMadeUp }
{}

/// The machine here is one of those that the next laws speak of.
#[tactic(auto, using(crate::proofs::Portables::here_from_zeros))]
pub fn here_from_zeros()
    ensures { HereFromZeros }
{}

/// A valid program that has a bit of `capkit_portability` reads no word of memory before it writes
/// it: from any words it returns what it returns from zeros.
#[tactic(auto, using(crate::proofs::Portables::same_from_any_words))]
pub fn same_from_any_words()
    ensures { SameFromAnyWords }
{}

/// A valid program that has libpcap's bit returns the same on libpcap's machine.
#[tactic(auto, using(crate::proofs::Portables::same_on_libpcap))]
pub fn same_on_libpcap()
    ensures { SameOnLibpcap }
{}

/// A valid program that has Linux's bit returns the same on Linux's machine.
pub fn same_on_linux()
    ensures { SameOnLinux }
{}

/// A program is portable if and only if it has both bits.
#[tactic(auto, using(crate::proofs::Portables::both_bits))]
pub fn both_bits()
    ensures { (insns : List Insn) → (is_portable insns ≡ 1) ↔ (portability insns ≡ 3) }
{}
