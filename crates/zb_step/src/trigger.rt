// Triggering a timer.
ghost use Rattle.std.specs.Prelude.{◌≡◌, List, IfOk};
ghost use Rattle.zb_model.specs.declared.record.Event.{Event};
ghost use Rattle.zb_model.specs.declared.record.Event.TheVariants as events;
ghost use Rattle.zb_rules.specs.Trigger.{event_of_timer, reason_to_hold, reason_to_trigger, triggered};
ghost use Rattle.zb_state.specs.State.{IsStateOf};

use crate::rejection::{no_such, wrong_state};
use std::alloc::{AllocError, Global};
use zb_follow::{Maker, WithBehind};
use zb_game::waits_at;
use zb_model::{Event, Key, Moment, ProcessEventTriggered, Rejection, TryCopy};
use zb_state::{Out, Refusal, State};
use zb_views::Timer;

/// Why a timer isn't triggered: it isn't there, its moment lies ahead, or its cell doesn't wait for it. It costs what
/// `Timers::get` and `waits_at` do.
pub fn reason(
    alloc: Global,
    state: &State,
    moment: Moment,
    key: Key,
) -> Result<Option<Rejection>, AllocError>
    ensures { (es : List Event) → IsStateOf es state.now → IfOk result (λ rejection. rejection ≡ reason_to_trigger es moment key) }
{
    match state.timers().get(key) {
        Some(timer) => reason_to_hold(alloc, state, moment, timer),
        None => no_such(alloc, "no timer ", key),
    }
}

// Why a timer that is there isn't triggered: its moment lies ahead, or its cell doesn't wait for it.
fn reason_to_hold(
    alloc: Global,
    state: &State,
    moment: Moment,
    timer: &Timer,
) -> Result<Option<Rejection>, AllocError>
    ensures { (es : List Event) → IsStateOf es state.now → IfOk result (λ rejection. rejection ≡ reason_to_hold es moment timer.now) }
{
    if moment < timer.due {
        return wrong_state(alloc, "timer ", timer.key, " isn't due");
    }
    if !waits_at(state.game(), timer.cell, timer.node.as_str()) {
        return wrong_state(alloc, "element ", timer.cell, " doesn't wait");
    }
    Ok(None)
}

/// The timer ends, if it is there, and its event comes about, with those behind that. It costs what `Timers::get` and
/// `WithBehind` do.
#[derive(Drop)]
pub struct TriggeredTimer(pub Key);

impl Maker for TriggeredTimer {
    ghost making = { λ it p moment. triggered p moment it.0 };

    fn put(
        self,
        alloc: Global,
        state: &mut State,
        moment: Moment,
        out: &mut Out,
    ) -> Result<(), Refusal> {
        match state.timers().get(self.0) {
            Some(timer) => {
                let told = told_by(alloc, timer)?;
                told.put(alloc, state, moment, out)
            }
            None => Ok(()),
        }
    }
}

// What a timer tells that is triggered: that it ends, and the event that comes about.
fn told_by(alloc: Global, timer: &Timer) -> Result<(Event, WithBehind), AllocError>
    ensures { IfOk result (λ told. (told.0 ≡ events.TimerTriggered timer.now.key) × (told.1.0 ≡ event_of_timer timer.now)) }
{
    let cell = timer.cell;
    let node = timer.node.copy(alloc)?;
    let event = Event::ProcessEventTriggered(ProcessEventTriggered { cell, node });
    Ok((Event::TimerTriggered(timer.key), WithBehind(event)))
}
