ghost use Rattle.std.specs.Prelude.{◌≡◌, ◌+◌, ℕ, Bool, IsTrue};

use zb_base::Moment;

/// A clock, which can't fail.
pub trait Clock {
    /// What it will read after so many readings more.
    ghost upcoming: { Self → ℕ → ℕ };

    /// Whether that is told.
    ghost tells: { Bool };

    /// The next reading. The one behind it comes next then.
    fn now(&mut self) -> Moment
        ensures reading { IsTrue tells → result ≡ upcoming self.old 0 }
        ensures onward { (k : ℕ) → upcoming self.new k ≡ upcoming self.old (k + 1) };
}
