ghost use Rattle.std.specs.Prelude.{◌≤◌, ◌<◌, IsTrue, IsFalse};
ghost use Rattle.zb_rules.specs.Settling.{full};

// A batch is full with so many events.
const FULL: usize = 1024;

/// Whether a batch of so many events is full, so that no further move is made in it.
#[tactic(auto, unfolding(crate::specs::Settling::full))]
pub fn is_full(events: usize) -> bool
    ensures full { IsTrue result → full ≤ events }
    ensures room { IsFalse result → events < full }
{
    events >= FULL
}
