ghost use Rattle.std.specs.Prelude.{◌≤◌, ℕ, IsTrue, List, []};
ghost use Rattle.zb_model.specs.declared.record.Event.{Event};
ghost use Rattle.zb_model.specs.declared.record.Event.TheVariants as events;
ghost use Rattle.zb_table.specs.Rows.{Ascend};
ghost use Rattle.zb_views.specs.Timers.{timers, times_timer_made, times_timer_ended, all_fit_timers};

/// In a log whose events fit its timers, where one that makes a timer has a greater key than all that were made before,
/// and one that ends a timer finds it there: the keys of the timers ascend, and each timer is made at most once and ends
/// at most once.
pub fn timers_end_once()
    ensures ascend { (es : List Event) → IsTrue (all_fit_timers [] es) → Ascend (λ t. t.key) 0 (timers es) }
    ensures made { (es : List Event) (timer : ℕ) → IsTrue (all_fit_timers [] es) → times_timer_made timer es ≤ 1 }
    ensures once { (es : List Event) (timer : ℕ) → IsTrue (all_fit_timers [] es) → times_timer_ended timer es ≤ 1 }
{}
