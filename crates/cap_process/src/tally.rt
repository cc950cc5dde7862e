//! What is counted of the packets of a file.
use cap_octet::Packet;
use std::marker::Model;

/// Sums and times of the packets of a file, taken one by one.
#[derive(Clone, Copy)]
pub struct Tally {
    /// How many packets there are.
    pub(crate) count: u128,
    /// The sum of their original lengths.
    pub(crate) data_size: u128,
    /// The sum of their captured lengths.
    pub(crate) captured_size: u128,
    /// The least and the greatest time, in nanoseconds since 1970; 0 without packets.
    pub(crate) least: u64,
    pub(crate) greatest: u64,
    /// The time of the last packet; 0 without packets.
    pub(crate) last: u64,
    /// Whether no time is less than the one before it.
    pub(crate) ascends: bool,
}

impl Model for Tally {
    ghost use Rattle.std.specs.Prelude.{◌^◌, ◌<◌, ◌≤◌};
    ghost use Rattle.cap_process.specs.Reports.{Tally as View};

    ghost Value = { View };

    ghost view = { λ t. record {
      count = t.count;
      data_size = t.data_size;
      captured_size = t.captured_size;
      least = t.least;
      greatest = t.greatest;
      last = t.last;
      ascends = t.ascends;
    } };

    ghost inverse = { λ v. record {
      count = v.count;
      data_size = v.data_size;
      captured_size = v.captured_size;
      least = v.least;
      greatest = v.greatest;
      last = v.last;
      ascends = v.ascends;
    } };

    ghost invariant = { λ t. (t.least ≤ t.greatest) × (t.greatest < 2 ^ 63) };
}

impl Tally {
    ghost use Rattle.std.specs.Prelude.{◌≡◌, ◌+◌, ◌^◌, ◌≤◌, length};
    ghost use Rattle.cap_octet.specs.Packet.{captured};
    ghost use Rattle.cap_process.specs.Reports.{tally_with, nothing_counted};
    ghost use Rattle.cap_process.specs.inside.Selector.{FitsTally};

    /// The tally of no packets.
    pub fn new() -> Self
        ensures { result ≡ nothing_counted }
    {
        Tally {
            count: 0,
            data_size: 0,
            captured_size: 0,
            least: 0,
            greatest: 0,
            last: 0,
            ascends: true,
        }
    }

    /// The tally with one packet more. It is exact while the count and the sums before it are below
    /// 2^127 (`FitsTally`), as those of every job are; a sum that doesn't fit its 128 bits would
    /// stop at the greatest number, and not overflow.
    pub fn counted(self, packet: &Packet<'_>) -> Self
        ensures counted { FitsTally self → result ≡ tally_with self (captured packet.now) }
        ensures count { result.count ≤ self.count + 1 }
        ensures data { result.data_size ≤ self.data_size + 2 ^ 32 }
        ensures bytes { result.captured_size ≤ self.captured_size + length packet.now.bytes.now }
    {
        Tally {
            count: self.count.saturating_add(1),
            data_size: self.data_size.saturating_add(packet.orig as u128),
            captured_size: self
                .captured_size
                .saturating_add(packet.bytes.len() as u128),
            least: if self.count == 0 {
                packet.time
            } else {
                self.least.min(packet.time)
            },
            greatest: self.greatest.max(packet.time),
            last: packet.time,
            ascends: self.ascends && self.last <= packet.time,
        }
    }
}
