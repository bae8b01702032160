ghost use Rattle.std.specs.Prelude.{◌≡◌, ◌+◌, ℕ, Contains, true};
ghost use Rattle.zb_outside.specs.Clock.{clock_moments, told_at};

use crate::Clock;
use zb_base::Moment;

/// A clock that reads the moments of a list.
#[derive(Drop)]
pub struct ListClock {
    moments: Vec<Moment>,
    readings: usize,
}

impl ListClock {
    ghost use Rattle.zb_outside.specs.Devices.{moments_listed};

    /// A clock that reads these moments one after another, and then its last one again and again. Of
    /// an empty list it reads the start of 1970.
    pub fn new(moments: Vec<Moment>) -> ListClock
        ensures moments { moments_listed result ≡ moments.items }
        ensures told { (k : ℕ) → ⟦<ListClock as Clock>⟧.upcoming result k ≡ told_at moments.items k }
    {
        ListClock {
            moments,
            readings: 0,
        }
    }
}

impl Clock for ListClock {
    ghost use Rattle.zb_outside.specs.Devices.{moments_listed, upcoming_in};

    ghost upcoming = { upcoming_in };

    ghost tells = { true };

    fn now(&mut self) -> Moment
        ensures reading { result ≡ upcoming_in self.old 0 }
        ensures onward { (k : ℕ) → upcoming_in self.new k ≡ upcoming_in self.old (k + 1) }
        ensures listed { Contains (clock_moments (moments_listed self.old)) result }
        ensures same { moments_listed self.new ≡ moments_listed self.old }
    {
        let number = self.readings;
        self.readings = self.readings.saturating_add(1);
        match self.moments.len().checked_sub(1) {
            Some(last) => self.moments[number.min(last)],
            None => Moment::new(0),
        }
    }
}
