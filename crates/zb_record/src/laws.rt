ghost use Rattle.std.specs.Prelude.{◌≡◌, ℕ, filter, not};
ghost use Rattle.zb_model.specs.declared.record.Batch.{Batch};
ghost use Rattle.zb_views.specs.View.{events_in};
ghost use Rattle.zb_record.specs.Answers.{is_answer};
ghost use Rattle.zb_record.specs.Packets.{kept_by, sent_by};

/// What a batch sends and is no answer is what is kept: it is sent again until an event ends it.
pub fn all_but_answers_are_kept()
    ensures { (p n : ℕ) (batch : Batch) → filter (λ packet. not (is_answer packet.command)) (sent_by p n batch) ≡ kept_by p n (events_in batch.outcome) }
{}
