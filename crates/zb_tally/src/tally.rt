// What is counted in logs.
ghost use Rattle.std.specs.Prelude.{◌≡◌, IfSome};
ghost use Rattle.zb_tally.specs.Counts.{no_tally, both_tallies};

/// What is counted in some logs.
#[derive(Clone, Copy)]
pub struct Tally {
    pub batches: u64,
    /// Of them, those whose command was accepted.
    pub accepted: u64,
    /// Those whose command was rejected.
    pub rejected: u64,
    pub events: u64,
    /// The cells that are there behind the last batch.
    pub cells: u64,
    /// The messages that are buffered behind it.
    pub messages: u64,
}

impl Tally {
    /// Nothing was counted so far.
    pub fn none() -> Tally
        ensures { result ≡ no_tally }
    {
        Tally {
            batches: 0,
            accepted: 0,
            rejected: 0,
            events: 0,
            cells: 0,
            messages: 0,
        }
    }

    /// What is counted in the logs of both; `None` where a number doesn't fit into 64 bits.
    pub fn joined(self, other: Tally) -> Option<Tally>
        ensures { IfSome result (λ tally. tally ≡ both_tallies self other) }
    {
        Some(Tally {
            batches: self.batches.checked_add(other.batches)?,
            accepted: self.accepted.checked_add(other.accepted)?,
            rejected: self.rejected.checked_add(other.rejected)?,
            events: self.events.checked_add(other.events)?,
            cells: self.cells.checked_add(other.cells)?,
            messages: self.messages.checked_add(other.messages)?,
        })
    }
}
