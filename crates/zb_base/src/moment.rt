ghost use Rattle.std.specs.Prelude.{◌≡◌, ◌+◌, min};
ghost use Rattle.zb_base.specs.Moment.{last_moment};

use std::marker::Model;

/// A moment: milliseconds since the start of 1970 in UTC.
#[derive(Clone, Copy, Debug, PartialEq, Eq, PartialOrd, Ord)]
pub struct Moment(u64);

impl Model for Moment {
    ghost use Rattle.std.specs.Prelude.{ℕ};

    ghost Value = { ℕ };

    ghost view = { λ m. m.0 };

    ghost inverse = { λ n. record { 0 = n } };
}

impl Moment {
    /// The last moment that a clock may tell, some 7,900 years after 1970.
    pub const LAST: u64 = 250_000_000_000_000;

    /// The moment so many milliseconds after the start of 1970.
    pub fn new(ms: u64) -> Moment
        ensures { result ≡ ms }
    {
        Moment(ms)
    }

    /// Milliseconds since the start of 1970.
    pub fn ms(self) -> u64
        ensures { result ≡ self }
    {
        self.0
    }

    /// The moment `ms` milliseconds later, and the last moment where that is later still.
    pub fn plus(self, ms: u64) -> Moment
        ensures { result ≡ min (self + ms) last_moment }
    {
        Moment(self.0.saturating_add(ms).min(Moment::LAST))
    }
}
