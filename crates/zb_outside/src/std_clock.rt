ghost use Rattle.std.specs.Prelude.{◌≤◌, false};
ghost use Rattle.zb_base.specs.Moment.{last_moment};

use crate::Clock;
use std::time::{self, SystemTime};
use zb_base::Moment;

/// A clock over the system's time.
#[derive(Drop)]
pub struct StdClock<T> {
    clock: T,
    last: u64,
    ghost within: { last ≤ last_moment },
}

impl<T: time::Clock> StdClock<T> {
    /// A clock over this handle. It reads milliseconds since the start of 1970. Where the system gives
    /// no time, or one before 1970, it reads its last reading again, at first 0. A later moment than
    /// `Moment::LAST` counts as `Moment::LAST`.
    pub fn new(clock: T) -> StdClock<T> {
        StdClock { clock, last: 0 }
    }
}

impl<T: time::Clock> Clock for StdClock<T> {
    ghost upcoming = { λ _ _. 0 };

    ghost tells = { false };

    fn now(&mut self) -> Moment
        ensures { result ≤ last_moment }
    {
        if let Ok(time) = SystemTime::now(&self.clock)
            && let Ok(since) = time.duration_since(SystemTime::UNIX_EPOCH)
        {
            self.last = since.as_millis().min(Moment::LAST as u128) as u64;
        }
        Moment::new(self.last)
    }
}
