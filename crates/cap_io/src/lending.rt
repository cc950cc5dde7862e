//! An input whose bytes are lent before it passes them.
ghost use Rattle.std.specs.Io.{StartsWith};
ghost use Rattle.std.specs.Prelude.{◌≡◌, ◌+◌, ◌^◌, ◌<◌, ◌≤◌, IsTrue, drop, false, length, true};
ghost use Rattle.std.proofs.Common.{rules};
ghost use Rattle.cap_io.specs.inside.Lending.{Lends};

use cap_octet::{DeviceFault, Input};
use cap_pcapng::PacketSpans;

/// An input whose first bytes at hand may be lent. What is lent counts as given, but the input
/// itself passes it only before it is asked for more: until then the bytes stay in its buffer, and
/// nobody copies them.
#[derive(Drop)]
pub(crate) struct Lending<I: Input> {
    input: I,
    /// How many bytes are lent.
    lent: usize,
    ghost within: { lent ≤ length (I.held input) },
}

impl<I: Input> Lending<I> {
    /// An input of which nothing is lent.
    pub(crate) fn new(input: I) -> Self
        ensures input { result.input ≡ input }
        ensures lent { result.lent ≡ 0 }
    {
        Lending { input, lent: 0 }
    }

    /// The bytes at hand, of which the first are lent.
    #[inline(always)]
    pub(crate) fn lent_bytes(&self) -> &[u8]
        ensures { result.now ≡ I.held self.now.input }
    {
        self.input.at_hand()
    }

    /// The bytes at hand after those that are lent.
    #[inline(always)]
    pub(crate) fn next_bytes(&self) -> &[u8]
        ensures held { result.now ≡ drop self.now.lent (I.held self.now.input) }
        ensures exact { IsTrue I.tells
            → StartsWith (drop self.now.lent (I.unread self.now.input)) result.now }
        ensures bounded { I.given self.now.input + length (I.held self.now.input) < 2 ^ 63 }
    {
        &self.input.at_hand()[self.lent..]
    }

    /// Lends the next unit, which is at hand and has this packet, and puts its place into `spans`;
    /// what was lent before is passed. If the unit has more than `room` bytes it changes nothing,
    /// and returns `false`.
    #[inline(always)]
    pub(crate) fn lend_unit(
        &mut self,
        packet: PacketSpans,
        room: usize,
        spans: &mut PacketSpans,
    ) -> bool
        requires there { packet.size ≤ length (drop self.old.lent (I.held self.old.input)) }
        requires bounded { I.given self.old.input + length (I.held self.old.input) < 2 ^ 63 }
        ensures lends { result ≡ true → Lends I.Input packet.size self.old.input self.old.lent
            self.new.input self.new.lent }
        ensures place { result ≡ true → (spans.new ≡ packet) × (packet.size ≤ room) }
        ensures nothing { result ≡ false → (self.new.input ≡ self.old.input)
            × (self.new.lent ≡ self.old.lent) × (spans.new ≡ spans.old) }
    {
        let size = packet.size as usize;
        if size > room {
            return false;
        }
        self.settle();
        self.lent = size;
        *spans = packet;
        true
    }

    /// Passes what is lent.
    #[inline(always)]
    fn settle(&mut self)
        ensures lent { self.new.lent ≡ 0 }
        ensures given { I.given self.new.input ≡ I.given self.old.input + self.old.lent }
        ensures failures { I.failures self.new.input ≡ I.failures self.old.input }
        ensures sure { I.sure self.new.input ≡ I.sure self.old.input }
        ensures rest { I.unread self.new.input ≡ drop self.old.lent (I.unread self.old.input) }
        ensures stays { StartsWith (I.held self.new.input)
            (drop self.old.lent (I.held self.old.input)) }
    {
        if self.lent > 0 {
            // It does, since what is lent is at hand.
            let _ = self.input.pass(self.lent);
            self.lent = 0;
        }
    }

    /// The input, past what is lent.
    pub(crate) fn into_inner(mut self) -> I
        ensures given { I.given result ≡ I.given self.input + self.lent }
        ensures failures { I.failures result ≡ I.failures self.input }
        ensures sure { I.sure result ≡ I.sure self.input }
        ensures rest { I.unread result ≡ drop self.lent (I.unread self.input) }
    {
        self.settle();
        let Lending { input, .. } = self;
        input
    }
}

impl<I: Input> Input for Lending<I> {
    ghost tells = { I.tells };

    ghost unread = { λ s. drop s.lent (I.unread s.input) };

    ghost given = { λ s. I.given s.input + s.lent };

    ghost failures = { λ s. I.failures s.input };

    ghost sure = { λ s. I.sure s.input };

    /// Passes what is lent, and makes a read of the input.
    fn read(&mut self, buf: &mut [u8]) -> Result<usize, DeviceFault> {
        self.settle();
        self.input.read(buf)
    }

    // `Lending` itself lends what is at hand, so that it shows no bytes.
    fn at_hand(&self) -> &[u8] {
        &self.input.at_hand()[..0]
    }

    fn pass(&mut self, count: usize) -> bool {
        count <= self.at_hand().len()
    }

    ghost unfailed = { Prim.search rules };
}
