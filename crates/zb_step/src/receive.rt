// What element instances hear from the home of their messages: that it has a subscription, that it has it no longer, and a
// message for it.
ghost use Rattle.std.specs.Prelude.{◌≡◌, List, [], IfOk, option_map};
ghost use Rattle.std.specs.Option.{option_map_or};
ghost use Rattle.zb_model.specs.declared.record.Event.{Event};
ghost use Rattle.zb_base.specs.declared.vars.Variable.{Variable};
ghost use Rattle.zb_rules.specs.Receive as rules;
ghost use Rattle.zb_rules.specs.Update.{set_each};
ghost use Rattle.zb_state.specs.State.{IsStateOf};

use crate::rejection::{no_such, wrong_state};
use std::alloc::{AllocError, Global};
use zb_follow::{Each, Find, Found, Maker, Place, WithBehind, closing_of};
use zb_game::waits_at;
use zb_model::{
    Event, Key, MessageCorrelation, Moment, ProcessEventTriggered, Rejection, SubscribedMessage,
    TryCopy, Variable,
};
use zb_state::{Out, Refusal, State};
use zb_values::gives_outputs;
use zb_views::ProcessSubscription;

/// Why it isn't taken in that a subscription is there: it isn't being created.
pub fn reason_to_confirm(
    alloc: Global,
    state: &State,
    key: Key,
) -> Result<Option<Rejection>, AllocError>
    ensures { (es : List Event) → IsStateOf es state.now → IfOk result (λ rejection. rejection ≡ rules.reason_to_confirm es key) }
{
    match state.process_subscription(key) {
        Some(subscription) if subscription.phase.is_being_created() => Ok(None),
        Some(_) => wrong_state(alloc, "subscription ", key, " isn't being created"),
        None => no_such(alloc, "no subscription ", key),
    }
}

/// Why it isn't taken in that a subscription is gone: it isn't being deleted.
pub fn reason_to_forget(
    alloc: Global,
    state: &State,
    key: Key,
) -> Result<Option<Rejection>, AllocError>
    ensures { (es : List Event) → IsStateOf es state.now → IfOk result (λ rejection. rejection ≡ rules.reason_to_forget es key) }
{
    match state.process_subscription(key) {
        Some(subscription) if subscription.phase.is_being_deleted() => Ok(None),
        Some(_) => wrong_state(alloc, "subscription ", key, " isn't being deleted"),
        None => no_such(alloc, "no subscription ", key),
    }
}

/// Why a subscription isn't given a message: it isn't there, was given it before, is being deleted, or its cell doesn't wait.
/// It takes the logarithm of how many messages it was given, and costs what `waits_at` does.
pub fn reason_to_receive(
    alloc: Global,
    state: &State,
    told: &MessageCorrelation,
) -> Result<Option<Rejection>, AllocError>
    ensures { (es : List Event) → IsStateOf es state.now → IfOk result (λ rejection. rejection ≡ rules.reason_to_receive es told.now) }
{
    match state.process_subscription(told.subscription) {
        Some(subscription) => reason_to_pass_over(alloc, state, told.message, subscription),
        None => no_such(alloc, "no subscription ", told.subscription),
    }
}

// Why a subscription that is there isn't given a message.
fn reason_to_pass_over(
    alloc: Global,
    state: &State,
    message: Key,
    subscription: &ProcessSubscription,
) -> Result<Option<Rejection>, AllocError>
    ensures { (es : List Event) → IsStateOf es state.now → IfOk result (λ rejection. rejection ≡ rules.reason_to_pass_over es message subscription.now) }
{
    if subscription.has_kept(message) {
        return wrong_state(alloc, "message ", message, " was correlated");
    }
    if subscription.phase.is_being_deleted() {
        return wrong_state(
            alloc,
            "subscription ",
            subscription.key,
            " is being deleted",
        );
    }
    if !waits_at(state.game(), subscription.cell, subscription.node.as_str()) {
        return wrong_state(alloc, "element ", subscription.cell, " doesn't wait");
    }
    Ok(None)
}

/// The home of its messages has a subscription.
#[derive(Drop)]
pub struct Confirmed(pub Key);

impl Maker for Confirmed {
    ghost making = { λ it p moment. rules.confirmed it.0 };

    ghost least = { 1 };

    fn put(
        self,
        alloc: Global,
        state: &mut State,
        moment: Moment,
        out: &mut Out,
    ) -> Result<(), Refusal> {
        Event::ProcessMessageSubscriptionCreated(self.0).put(alloc, state, moment, out)
    }
}

/// It has it no longer.
#[derive(Drop)]
pub struct Forgotten(pub Key);

impl Maker for Forgotten {
    ghost making = { λ it p moment. rules.forgotten it.0 };

    ghost least = { 1 };

    fn put(
        self,
        alloc: Global,
        state: &mut State,
        moment: Moment,
        out: &mut Out,
    ) -> Result<(), Refusal> {
        Event::ProcessMessageSubscriptionDeleted(self.0).put(alloc, state, moment, out)
    }
}

/// A subscription is given a message, if it is there, and begins to be deleted where it ends with that; what the message
/// brings is set, and the event of its node comes about, with those behind that. Each variable costs what `holder_of` and
/// `Out::put` do, and the event what `WithBehind` does.
#[derive(Drop)]
pub struct Received<'a>(pub &'a MessageCorrelation);

impl Maker for Received<'_> {
    ghost making = { λ it p moment. rules.received p moment it.0.now };

    fn put(
        self,
        alloc: Global,
        state: &mut State,
        moment: Moment,
        out: &mut Out,
    ) -> Result<(), Refusal> {
        let command = self.0;
        let Some(subscription) = state.process_subscription(command.subscription) else {
            return Ok(());
        };
        let brought = Brought {
            place: place_of(state, subscription),
            variables: command.variables.as_slice(),
        };
        let event = event_of(alloc, subscription)?;
        let kept = Event::ProcessMessageSubscriptionCorrelated(SubscribedMessage {
            subscription: command.subscription,
            message: command.message,
        });
        let closed = Found(ClosedAfter(command.subscription));
        (kept, (closed, (brought, WithBehind(event)))).put(alloc, state, moment, out)
    }
}

// A subscription begins to be deleted, if it ends with the first message that it is given.
#[derive(Drop)]
struct ClosedAfter(Key);

impl Find for ClosedAfter {
    ghost finds = { λ it p. rules.closed_after it.0 };

    fn find(self, alloc: Global, state: &State) -> Result<Option<Event>, AllocError> {
        match state.process_subscription(self.0) {
            Some(subscription) if subscription.cancel => {
                let event = closing_of(alloc, subscription)?;
                Ok(Some(event))
            }
            _ => Ok(None),
        }
    }
}

// The event of a subscription's node comes about for its cell.
fn event_of(alloc: Global, subscription: &ProcessSubscription) -> Result<Event, AllocError>
    ensures { IfOk result (λ event. event ≡ rules.event_of_subscription subscription.now) }
{
    let cell = subscription.cell;
    let node = subscription.node.copy(alloc)?;
    Ok(Event::ProcessEventTriggered(ProcessEventTriggered { cell, node }))
}

// Variables that are set one after the other, if there is a place for them.
#[derive(Drop)]
struct Brought<'a> {
    place: Option<Place>,
    variables: &'a [Variable],
}

impl Maker for Brought<'_> {
    ghost making = { λ it p moment before. option_map_or (λ place. set_each place.local place.scope it.variables.now before) it.place [] };

    fn put(
        self,
        alloc: Global,
        state: &mut State,
        moment: Moment,
        out: &mut Out,
    ) -> Result<(), Refusal> {
        let Brought { place, variables } = self;
        match place {
            Some(place) => {
                let finder = &place;
                let things = variables;
                Each { finder, things }.put(alloc, state, moment, out)
            }
            None => Ok(()),
        }
    }
}

// Where what a message brings to a subscription is set, if its cell is there: on the cell or from there on up where the
// event is its own, else from the scope of the cell on up.
fn place_of(state: &State, subscription: &ProcessSubscription) -> Option<Place>
    ensures { (es : List Event) (vs : List Variable) → IsStateOf es state.now
        → rules.brought vs subscription.now es ≡ option_map (λ place. record { scope = place.scope; local = place.local; variables = vs }) result }
{
    let cell = state.game().cell(subscription.cell)?;
    if cell.node.as_str() != subscription.node.as_str() {
        return Some(Place {
            local: false,
            scope: cell.scope,
        });
    }
    let scope = subscription.cell;
    let local = gives_outputs(state.game(), scope)?;
    Some(Place { local, scope })
}
