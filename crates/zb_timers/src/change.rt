// What an event says of timers.
ghost use Rattle.std.specs.Prelude.{◌≡◌, IfOk};
ghost use Rattle.zb_views.specs.Timers.{timer_of, says_nothing_of_timers};

use std::alloc::{AllocError, Global};
use zb_model::{Event, TimerCreated, TryCopy};
use zb_views::Timer;

/// The timer that is made. It costs a copy of the id of its node.
pub fn made(alloc: Global, made: &TimerCreated) -> Result<Timer, AllocError>
    ensures { IfOk result (λ timer. timer ≡ timer_of made.now) }
{
    Ok(Timer {
        key: made.key,
        cell: made.cell,
        node: made.node.copy(alloc)?,
        due: made.due,
    })
}

/// Whether the event makes no timer and ends none.
pub fn says_nothing_of_timers(event: &Event) -> bool
    ensures { result ≡ says_nothing_of_timers event.now }
{
    !matches!(
        event,
        Event::TimerCreated(_) | Event::TimerTriggered(_) | Event::TimerCanceled(_)
    )
}
