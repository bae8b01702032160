ghost use Rattle.std.specs.Prelude.{◌≡◌, ◌≤◌, ◌+◌, ◌++◌, ◌∷◌, ℕ, List, [], min, Some, None, IsTrue, is_some, Result, Ok};
ghost use Rattle.zb_base.specs.Moment.{last_moment};
ghost use Rattle.zb_outside.specs.Clock.{HasGoneOn};
ghost use Rattle.zb_wire.specs.declared.request.Request.{Request};
ghost use Rattle.zb_wire.specs.declared.request.LineFault.{LineFault};
ghost use Rattle.zb_session.specs.Hours.{Hours, moved_by, IsReadingOf};
ghost use Rattle.zb_session.specs.Serving.{dial_of, clocks_of, AreAt};

use std::marker::Model;
use zb_model::Moment;
use zb_outside::Clock;
use zb_wire::Request;

/// The clock that is moved by hand, where a run goes by one.
#[derive(Clone, Copy)]
pub struct Dial {
    // What it stands at.
    manual: Option<Moment>,
}

impl Model for Dial {
    ghost use Rattle.std.specs.Prelude.{Option, ℕ};

    ghost Value = { Option ℕ };

    ghost view = { λ d. d.manual };

    ghost inverse = { λ o. record { manual = o } };
}

impl Dial {
    /// The clock that is moved by hand, at 0, where a run goes by it.
    pub fn new(by_hand: bool) -> Dial
        ensures { result ≡ dial_of by_hand }
    {
        Dial {
            manual: if by_hand { Some(Moment::new(0)) } else { None },
        }
    }

    /// Whether there is one.
    pub fn is_manual(&self) -> bool
        ensures { result ≡ is_some self.now }
    {
        self.manual.is_some()
    }

    // Moves it on as far as the request says, at most to the last moment.
    fn follow(&mut self, request: &Request)
        ensures moved { (now : ℕ) → self.old ≡ Some now → now ≤ last_moment
            → self.new ≡ Some (min (now + moved_by (Ok request.now)) last_moment) }
        ensures none { self.old ≡ None → self.new ≡ None }
        ensures kind { is_some self.new ≡ is_some self.old }
    {
        match request {
            Request::Advance(ms) => self.advance(*ms),
            _ => {}
        }
    }

    // Moves it on by so many milliseconds, at most to the last moment.
    fn advance(&mut self, ms: u64)
        ensures moved { (now : ℕ) → self.old ≡ Some now
            → self.new ≡ Some (min (now + ms) last_moment) }
        ensures none { self.old ≡ None → self.new ≡ None }
        ensures kind { is_some self.new ≡ is_some self.old }
    {
        if let Some(now) = self.manual {
            self.manual = Some(now.plus(ms));
        }
    }

    /// What it stands at, or else the next reading of the real clock, at most the last moment.
    pub fn read<C: Clock>(&self, clock: &mut C) -> Moment
        ensures reading { (hours : Hours) (found : List (Result Request LineFault))
            → AreAt hours found (clocks_of self.now C.tells (C.upcoming clock.old))
            → IsReadingOf hours found 0 result }
        ensures readings { HasGoneOn (C.upcoming clock.old) (C.upcoming clock.new) }
        ensures untouched { IsTrue (is_some self.now) → clock.new ≡ clock.old }
    {
        self.told(clock)
    }

    // The moment that is read.
    fn told<C: Clock>(&self, clock: &mut C) -> Moment
        ensures shown { (now : ℕ) → self.now ≡ Some now → result ≡ now }
        ensures within { self.now ≡ None → result ≤ last_moment }
        ensures told { self.now ≡ None → IsTrue C.tells
            → result ≡ min (C.upcoming clock.old 0) last_moment }
        ensures onward { self.now ≡ None
            → (k : ℕ) → C.upcoming clock.new k ≡ C.upcoming clock.old (k + 1) }
        ensures readings { HasGoneOn (C.upcoming clock.old) (C.upcoming clock.new) }
        ensures untouched { IsTrue (is_some self.now) → clock.new ≡ clock.old }
    {
        match self.manual {
            Some(now) => now,
            None => clock.now().min(Moment::new(Moment::LAST)),
        }
    }
}

/// The reading of the clock for a request, which reads it once. An advance moves the clock that is moved by hand
/// before.
pub fn read_for<C: Clock>(request: &Request, dial: &mut Dial, clock: &mut C) -> Moment
    ensures reading { (hours : Hours) (found : List (Result Request LineFault))
        → AreAt hours found (clocks_of dial.old C.tells (C.upcoming clock.old))
        → IsReadingOf hours found (moved_by (Ok request.now)) result }
    ensures at { (hours : Hours) (found : List (Result Request LineFault))
        → AreAt hours found (clocks_of dial.old C.tells (C.upcoming clock.old))
        → AreAt hours (found ++ Ok request.now ∷ [])
        (clocks_of dial.new C.tells (C.upcoming clock.new)) }
    ensures kind { is_some dial.new ≡ is_some dial.old }
    ensures readings { HasGoneOn (C.upcoming clock.old) (C.upcoming clock.new) }
    ensures untouched { IsTrue (is_some dial.old) → clock.new ≡ clock.old }
{
    dial.follow(request);
    dial.told(clock)
}
