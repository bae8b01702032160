ghost use Rattle.std.specs.Prelude.{◌≡◌, ◌≤◌, ◌+◌, ℕ, List, [], ◌∷◌, ◌++◌, length, map, option_and_then, take, All, IsTrue};
ghost use Rattle.std.specs.List.{range_with_len, AllByRecursion};
ghost use Rattle.zb_model.specs.declared.record.Batch.{Batch};
ghost use Rattle.zb_model.specs.declared.record.Event.{Event};
ghost use Rattle.zb_once.specs.May.{IsMessageStep};
ghost use Rattle.zb_once.specs.Views.{still_buffered, is_locked, is_there, task_of};
ghost use Rattle.zb_rules.specs.Step.{IsStep, EachOn, AreStepsOn};
ghost use Rattle.zb_world.specs.Entries.{IsPartitionOf, part_of, places_of, entries_of};
ghost use Rattle.zb_world.specs.declared.entry.Entry.{Entry};
ghost use Rattle.zb_views.specs.Messages.{is_buffered};
ghost use Rattle.zb_views.specs.Subscriptions.{is_locked_for, is_subscribed, subscription_at, all_open_new};
ghost use Rattle.zb_views.specs.View.{events_in, events_of};
ghost use Rattle.zb_record.specs.Packets.{outbox_of};
ghost use Rattle.zb_world.specs.History.{IsSentAmong, IsEntryOf, IsHistory, IsCutAt};
ghost use Rattle.zb_world.specs.Once.{HappensOnce};
ghost use Rattle.zb_world.specs.Tellings.{tells, asks, refusal_by};

/// What a partition has of a history is a log of its steps. Of two lists of entries, one behind the other, it has what
/// it has of the first, and then what it has of the second, at places that go on.
pub fn parts_are_logs_of_steps()
    ensures steps { (n p : ℕ) (h : List Entry) → IsHistory n h → AreStepsOn p n [] (part_of p h) }
    ensures joined { (p : ℕ) (a b : List Entry) → part_of p (a ++ b) ≡ part_of p a ++ part_of p b }
    ensures places { (p first : ℕ) (a b : List Entry) → places_of p first (a ++ b)
        ≡ places_of p first a ++ places_of p (first + length a) b }
    ensures count { (p first : ℕ) (h : List Entry) → length (places_of p first h)
        ≡ length (part_of p h) }
{}

/// No entries are a history; an entry that may be the next one goes on with one, and so do several, each behind those
/// before it. The first few entries of a history are one.
pub fn histories_go_on()
    ensures none { (n : ℕ) → IsHistory n [] }
    ensures more { (n : ℕ) (h : List Entry) (entry : Entry) → IsHistory n h
        → IsEntryOf n h entry → IsHistory n (h ++ entry ∷ []) }
    ensures joined { (n : ℕ) (h more : List Entry) → IsHistory n h
        → EachOn (IsEntryOf n) h more → IsHistory n (h ++ more) }
    ensures front { (n : ℕ) (h : List Entry) (count : ℕ) → IsHistory n h
        → IsHistory n (take count h) }
{}

/// A cut of a history is a history. The first few entries of a history are a cut of it, and so is the whole.
pub fn cuts_are_histories()
    ensures history { (n at : ℕ) (h cut : List Entry) → IsHistory n h → IsCutAt n at h cut
        → IsHistory n cut }
    ensures front { (n at : ℕ) (h : List Entry) → at ≤ length h → IsCutAt n at h (take at h) }
    ensures whole { (n : ℕ) (h : List Entry) → IsCutAt n (length h) h h }
{}

/// A step of one of n partitions behind a log of steps does to messages what a step may: each of its events tells what may
/// be told behind those before it, by what its command asks, and the command is replied to as these say.
pub fn steps_are_message_steps()
    ensures { (n p : ℕ) (log : List Batch) (batch : Batch) → IsPartitionOf n p
        → AreStepsOn p n [] log → IsStep p n log batch
        → IsMessageStep n p (map tells (events_of log)) (asks batch.command)
        (refusal_by batch.command batch.outcome) (map tells (events_in batch.outcome)) }
{}

/// What a log says of messages and subscriptions is what its events tell of them: whether a message is buffered, and for
/// which processes it is locked; and where no subscription is opened that is there, whether one is there, and which
/// message it is correlating.
pub fn views_are_as_told()
    ensures buffered { (message : ℕ) (es : List Event) → still_buffered message (map tells es) ≡ is_buffered message es }
    ensures locked { (message : ℕ) (process : List ℕ) (es : List Event) → is_locked message process (map tells es)
        ≡ is_locked_for message process es }
    ensures there { (subscription : ℕ) (es : List Event) → IsTrue (all_open_new [] es)
        → is_there subscription (map tells es) ≡ is_subscribed subscription es }
    ensures task { (subscription : ℕ) (es : List Event) → IsTrue (all_open_new [] es)
        → task_of subscription (map tells es) ≡ option_and_then (λ s. s.correlating) (subscription_at subscription es) }
{}

/// In a history a message is correlated with a process at most once, a job is over at most once, and a timer ends at most
/// once.
pub fn once_in_a_history()
    ensures { (n : ℕ) (h : List Entry) → IsHistory n h → HappensOnce h }
{}

/// The entries of a log are its partition's, with every place. A history of one partition is that of its log.
pub fn logs_have_entries()
    ensures alone { (h : List Entry) → IsHistory 1 h → h ≡ entries_of 1 (part_of 1 h) }
    ensures part { (p : ℕ) (log : List Batch) → part_of p (entries_of p log) ≡ log }
    ensures places { (p first : ℕ) (log : List Batch) → places_of p first (entries_of p log)
        ≡ range_with_len first (length log) }
{}

/// In a history each packet that stands in the outbox of a partition was sent.
pub fn packets_in_outboxes_were_sent()
    ensures { (n p : ℕ) (h : List Entry) → IsHistory n h
        → AllByRecursion (IsSentAmong n h (length h)) (outbox_of p n (events_of (part_of p h))) }
{}

/// Entries of n partitions are the same where each partition has the same batches at the same places; so are histories,
/// whose entries are all of their partitions.
pub fn entries_are_pinned()
    ensures entries { (n first : ℕ) (a b : List Entry)
        → All (λ entry. IsPartitionOf n entry.partition) a
        → All (λ entry. IsPartitionOf n entry.partition) b
        → ((p : ℕ) → IsPartitionOf n p
        → (part_of p a ≡ part_of p b) × (places_of p first a ≡ places_of p first b)) → a ≡ b }
    ensures histories { (n first : ℕ) (a b : List Entry) → IsHistory n a → IsHistory n b
        → ((p : ℕ) → IsPartitionOf n p
        → (part_of p a ≡ part_of p b) × (places_of p first a ≡ places_of p first b)) → a ≡ b }
{}
