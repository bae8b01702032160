// What a cell waits for: it opens where the cell becomes active, and closes where it ends.
ghost use Rattle.std.specs.Prelude.{◌≡◌, IfOk};
ghost use Rattle.zb_model.specs.declared.record.Event.TheVariants as events;
ghost use Rattle.zb_rules.specs.Behind as rules;
ghost use Rattle.zb_rules.specs.Making.{just};

use crate::making::{Each, FindEach, Maker};
use std::alloc::{AllocError, Global};
use zb_model::{
    Event, Key, Moment, ProcessMessageSubscriptionCreating, ProcessMessageSubscriptionDeleting,
    TimerCreated, TryCopy,
};
use zb_state::{Out, Refusal, State};
use zb_tokens::{Awaited, Opening};
use zb_values::openings_at;
use zb_views::ProcessSubscription;

/// The timers and subscriptions that open for a cell as it becomes active, one after the other, each under a fresh key.
/// It costs what `openings_at` does, and what `Out::put` does for each.
#[derive(Drop)]
pub struct OpenedCatches(pub Key);

impl Maker for OpenedCatches {
    ghost making = { λ it p moment. rules.catches_opened_on p moment it.0 };

    fn put(
        self,
        alloc: Global,
        state: &mut State,
        moment: Moment,
        out: &mut Out,
    ) -> Result<(), Refusal> {
        let openings = openings_at(state.game(), alloc, moment, self.0)?;
        let finder = &CatchOf(self.0);
        let things = openings.as_slice();
        Each { finder, things }.put(alloc, state, moment, out)
    }
}

// What opens for a cell, under a fresh key.
#[derive(Clone, Copy)]
struct CatchOf(Key);

impl FindEach<Opening> for CatchOf {
    ghost finds = { λ it opening p moment. rules.catch_opened p it.0 opening };

    fn find(
        &self,
        alloc: Global,
        state: &State,
        _moment: Moment,
        opening: &Opening,
    ) -> Result<Option<Event>, AllocError> {
        let event = opened_by(alloc, state.next_key(), self.0, opening)?;
        Ok(Some(event))
    }
}

// The event by which a cell begins to wait, under this key.
fn opened_by(alloc: Global, key: Key, cell: Key, opening: &Opening) -> Result<Event, AllocError>
    ensures { IfOk result (λ event. event ≡ rules.opened_by key cell opening.now.node opening.now.event) }
{
    let node = opening.node.copy(alloc)?;
    match &opening.event {
        Awaited::Time(due) => Ok(Event::TimerCreated(TimerCreated {
            key,
            cell,
            node,
            due: *due,
        })),
        Awaited::Message(message) => Ok(Event::ProcessMessageSubscriptionCreating(
            ProcessMessageSubscriptionCreating {
                subscription: key,
                cell,
                node,
                name: message.name.copy(alloc)?,
                correlation_key: message.correlation_key.copy(alloc)?,
                process: message.process.copy(alloc)?,
                cancel: message.cancel,
            },
        )),
    }
}

/// What a cell has waited for closes: its timers, and then its subscriptions. It costs what `Timers::on` and
/// `ProcessSubscriptions::on` do, and what `Out::put` does for each.
#[derive(Drop)]
pub struct ClosedCatches(pub Key);

impl Maker for ClosedCatches {
    ghost making = { λ it p moment. rules.catches_closed_on it.0 };

    fn put(
        self,
        alloc: Global,
        state: &mut State,
        moment: Moment,
        out: &mut Out,
    ) -> Result<(), Refusal> {
        (ClosedTimers(self.0), ClosedSubscriptions(self.0)).put(alloc, state, moment, out)
    }
}

// The timers of a cell are canceled, one after the other.
#[derive(Drop)]
struct ClosedTimers(Key);

impl Maker for ClosedTimers {
    ghost making = { λ it p moment. rules.timers_canceled_on it.0 };

    fn put(
        self,
        alloc: Global,
        state: &mut State,
        moment: Moment,
        out: &mut Out,
    ) -> Result<(), Refusal> {
        let keys = state.timers().on(alloc, self.0)?;
        let finder = &CanceledTimer;
        let things = keys.as_slice();
        Each { finder, things }.put(alloc, state, moment, out)
    }
}

// A timer is canceled.
#[derive(Clone, Copy)]
struct CanceledTimer;

impl FindEach<Key> for CanceledTimer {
    ghost finds = { λ it timer p moment. just (events.TimerCanceled timer) };

    fn find(
        &self,
        _alloc: Global,
        _state: &State,
        _moment: Moment,
        timer: &Key,
    ) -> Result<Option<Event>, AllocError> {
        Ok(Some(Event::TimerCanceled(*timer)))
    }
}

// The subscriptions of a cell begin to be deleted, one after the other.
#[derive(Drop)]
struct ClosedSubscriptions(Key);

impl Maker for ClosedSubscriptions {
    ghost making = { λ it p moment. rules.subscriptions_closed_on it.0 };

    fn put(
        self,
        alloc: Global,
        state: &mut State,
        moment: Moment,
        out: &mut Out,
    ) -> Result<(), Refusal> {
        let keys = state.process_subscriptions().on(alloc, self.0)?;
        let finder = &ClosedOne;
        let things = keys.as_slice();
        Each { finder, things }.put(alloc, state, moment, out)
    }
}

// A subscription begins to be deleted, unless it is already.
#[derive(Clone, Copy)]
struct ClosedOne;

impl FindEach<Key> for ClosedOne {
    ghost finds = { λ it key p moment. rules.closed_one key };

    fn find(
        &self,
        alloc: Global,
        state: &State,
        _moment: Moment,
        key: &Key,
    ) -> Result<Option<Event>, AllocError> {
        match state.process_subscription(*key) {
            Some(subscription) if !subscription.phase.is_being_deleted() => {
                let event = closing_of(alloc, subscription)?;
                Ok(Some(event))
            }
            _ => Ok(None),
        }
    }
}

/// The event by which a subscription begins to be deleted, with the messages that it was given.
pub fn closing_of(alloc: Global, subscription: &ProcessSubscription) -> Result<Event, AllocError>
    ensures { IfOk result (λ event. event ≡ rules.closing_of subscription.now) }
{
    let closing = ProcessMessageSubscriptionDeleting {
        subscription: subscription.key,
        correlation_key: subscription.correlation_key.copy(alloc)?,
        keys: subscription.kept.listed(alloc)?,
    };
    Ok(Event::ProcessMessageSubscriptionDeleting(closing))
}
