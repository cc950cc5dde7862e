//! The date of the second that was printed last, so that it isn't made again for each packet.
use cap_octet::date::second_bytes;
use std::marker::Model;

/// A second and its date, kept since most packets share their second with the one before.
/// Contracts see it as the second.
#[derive(Drop)]
pub struct LastSecond {
    /// Seconds since 1970-01-01 00:00:00 UTC.
    second: u64,
    /// The second's date up to its point, `YYYY-MM-DD hh:mm:ss.`
    date: [u8; 20],
}

impl Model for LastSecond {
    ghost use Rattle.std.specs.Prelude.{◌≡◌, ℕ};
    ghost use Rattle.cap_octet.specs.Date.{second_text};

    ghost Value = { ℕ };

    ghost view = { λ l. l.second };

    ghost invariant = { λ l. l.date ≡ second_text l.second };
}

impl LastSecond {
    ghost use Rattle.std.specs.Prelude.{◌≡◌, ◌^◌, ◌<◌};
    ghost use Rattle.cap_octet.specs.Date.{second_text};

    /// This second, counted from 1970-01-01 00:00:00 UTC, with its date. 2^34 is `second_bytes`'
    /// limit.
    pub fn new(second: u64) -> Self
        requires { second < 2 ^ 34 }
        ensures { result ≡ second }
    {
        LastSecond {
            second,
            date: second_bytes(second),
        }
    }

    /// The date of a second, counted from 1970-01-01 00:00:00 UTC, up to its point, `YYYY-MM-DD
    /// hh:mm:ss.`. It is made only if the second isn't the one that is kept, which it then is.
    #[inline]
    pub fn date_of(&mut self, second: u64) -> [u8; 20]
        requires { second < 2 ^ 34 }
        ensures date { result ≡ second_text second }
        ensures last { self.new ≡ second }
    {
        if second != self.second {
            self.second = second;
            self.date = second_bytes(second);
        }
        self.date
    }
}
