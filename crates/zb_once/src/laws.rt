ghost use Rattle.std.specs.Prelude.{ℕ, List};
ghost use Rattle.zb_once.specs.History.{Deed, IsMessageHistory};
ghost use Rattle.zb_once.specs.Once.{CorrelatesOnce};

/// A message is correlated with a process at most once, by a subscription that keeps it or by a start of an instance:
/// in every history of any number of partitions, whatever of the letters that they send one another is lost, comes again,
/// comes late or in another order. Of its steps no more is asked than what they do to messages.
pub fn messages_are_correlated_once()
    ensures { (n : ℕ) (h : List Deed) → IsMessageHistory n h → CorrelatesOnce h }
{}
