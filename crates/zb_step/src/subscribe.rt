// What partitions ask of the home of messages: to open a subscription, that a message was taken or turned away, to delete it.
ghost use Rattle.std.specs.Prelude.{◌≡◌, ◌==◌, List, Some, None, IfOk, string_bytes, if◌then◌else◌};
ghost use Rattle.std.specs.List.{list_any};
ghost use Rattle.std.specs.Option.{option_and_then};
ghost use Rattle.zb_model.specs.declared.record.Event.{Event};
ghost use Rattle.zb_rules.specs.Subscribe as rules;
ghost use Rattle.zb_state.specs.State.{IsStateOf};
ghost use Rattle.zb_step.specs.Passing.{is_opened_for, is_given_up};

use crate::correlate::{NextMessage, PassedTo};
use crate::rejection::{in_the_way, no_such, rejection};
use std::alloc::{AllocError, Global};
use zb_follow::{Found, Maker};
use zb_model::{
    Event, Key, MessageSubscription, MessageSubscriptionDelete, Moment, Rejection, RejectionKind,
    SubscribedMessage, Text, TryCopy,
};
use zb_state::{Out, Refusal, State};

/// Why a subscription isn't opened: it is there.
pub fn reason_to_open(
    alloc: Global,
    state: &State,
    key: Key,
) -> Result<Option<Rejection>, AllocError>
    ensures { (es : List Event) → IsStateOf es state.now → IfOk result (λ rejection. rejection ≡ rules.reason_to_open es key) }
{
    match state.subscription(key) {
        Some(_) => in_the_way(alloc, "subscription ", key, " is there"),
        None => Ok(None),
    }
}

/// Why nothing is taken of what is said of a message: the subscription isn't correlating it.
pub fn reason_to_take(
    alloc: Global,
    state: &State,
    told: SubscribedMessage,
) -> Result<Option<Rejection>, AllocError>
    ensures { (es : List Event) → IsStateOf es state.now → IfOk result (λ rejection. rejection ≡ rules.reason_to_take es told) }
{
    if state.is_correlating(told.subscription, told.message) {
        return Ok(None);
    }
    let text = text_of_none(alloc, told)?;
    rejection(alloc, RejectionKind::NotFound, text.as_str())
}

fn text_of_none(alloc: Global, told: SubscribedMessage) -> Result<String, AllocError>
    ensures { IfOk result (λ text. string_bytes text ≡ rules.no_correlation told.subscription told.message) }
{
    let mut text = String::from_str(alloc, "no correlation of ")?;
    text.write(told.message.number())?;
    text.push_str(" at ")?;
    text.write(told.subscription.number())?;
    Ok(text)
}

/// Why a subscription isn't deleted: it isn't there.
pub fn reason_to_delete(
    alloc: Global,
    state: &State,
    key: Key,
) -> Result<Option<Rejection>, AllocError>
    ensures { (es : List Event) → IsStateOf es state.now → IfOk result (λ rejection. rejection ≡ rules.reason_to_delete es key) }
{
    match state.subscription(key) {
        Some(_) => Ok(None),
        None => nowhere(alloc, key),
    }
}

// The rejection where no subscription has the key.
fn nowhere(alloc: Global, key: Key) -> Result<Option<Rejection>, AllocError>
    ensures { IfOk result (λ rejection. rejection ≡ Some (rules.unknown_subscription key)) }
{
    no_such(alloc, "no subscription ", key)
}

/// A subscription is opened, and begins to correlate its next message.
#[derive(Drop)]
pub struct Opened<'a>(pub &'a MessageSubscription);

impl Maker for Opened<'_> {
    ghost making = { λ it p moment. rules.opened it.0.now };

    fn put(
        self,
        alloc: Global,
        state: &mut State,
        moment: Moment,
        out: &mut Out,
    ) -> Result<(), Refusal> {
        let opened = self.0.copy(alloc)?;
        let next = Found(NextMessage(opened.subscription));
        (Event::MessageSubscriptionCreated(opened), next).put(alloc, state, moment, out)
    }
}

/// A message was taken: its subscription ends with it, or begins to correlate its next one.
#[derive(Drop)]
pub struct Taken(pub SubscribedMessage);

impl Maker for Taken {
    ghost making = { λ it p moment. rules.taken it.0 };

    fn put(
        self,
        alloc: Global,
        state: &mut State,
        moment: Moment,
        out: &mut Out,
    ) -> Result<(), Refusal> {
        let told = self.0;
        let next = Found(NextMessage(told.subscription));
        (Event::MessageSubscriptionCorrelated(told), next).put(alloc, state, moment, out)
    }
}

/// A message was turned away: its subscription gives it up and ends, and it passes to the next one of the process.
#[derive(Drop)]
pub struct TurnedAway(pub SubscribedMessage);

impl Maker for TurnedAway {
    ghost making = { λ it p moment. rules.turned_away it.0 };

    fn put(
        self,
        alloc: Global,
        state: &mut State,
        moment: Moment,
        out: &mut Out,
    ) -> Result<(), Refusal> {
        let told = self.0;
        let Some(process) = process_of(alloc, state, told.subscription)? else {
            return Err(Refusal::Misfit);
        };
        let message = told.message;
        let next = Found(PassedTo { message, process });
        (Event::MessageSubscriptionRejected(told), next).put(alloc, state, moment, out)
    }
}

/// A subscription is deleted. What it is correlating it gives up first, unless that was kept, and that passes to the next
/// one of the process. It goes through the keys of those that were kept.
#[derive(Drop)]
pub struct Unsubscribed<'a>(pub &'a MessageSubscriptionDelete);

impl Maker for Unsubscribed<'_> {
    ghost making = { λ it p moment. rules.unsubscribed it.0.now };

    fn put(
        self,
        alloc: Global,
        state: &mut State,
        moment: Moment,
        out: &mut Out,
    ) -> Result<(), Refusal> {
        let subscription = self.0.subscription;
        match given_up(alloc, state, self.0)? {
            Some(next) => {
                let message = next.message;
                let told = SubscribedMessage {
                    subscription,
                    message,
                };
                let deleted = Event::MessageSubscriptionDeleted(subscription);
                (
                    Event::MessageSubscriptionRejected(told),
                    (deleted, Found(next)),
                )
                    .put(alloc, state, moment, out)
            }
            None => Event::MessageSubscriptionDeleted(subscription).put(alloc, state, moment, out),
        }
    }
}

// The id of the process of a subscription, if that is there.
fn process_of(alloc: Global, state: &State, key: Key) -> Result<Option<Text>, AllocError>
    ensures { (es : List Event) → IsStateOf es state.now → IfOk result (λ process. is_opened_for process key es) }
{
    match state.subscription(key) {
        Some(subscription) => Ok(Some(subscription.process.copy(alloc)?)),
        None => Ok(None),
    }
}

// The message that a subscription gives up as it is deleted, and its process, if it is correlating one that wasn't kept.
fn given_up(
    alloc: Global,
    state: &State,
    command: &MessageSubscriptionDelete,
) -> Result<Option<PassedTo>, AllocError>
    ensures { (es : List Event) → IsStateOf es state.now → IfOk result (λ next. is_given_up next command.now es) }
{
    let Some(subscription) = state.subscription(command.subscription) else {
        return Ok(None);
    };
    match unkept(subscription.correlating, command) {
        Some(message) => passing(alloc, message, subscription.process.as_str()),
        None => Ok(None),
    }
}

// The message that a subscription is correlating, if it isn't among those that were kept.
fn unkept(message: Option<Key>, command: &MessageSubscriptionDelete) -> Option<Key>
    ensures { result ≡ option_and_then (λ m. if list_any (λ key. key == m) command.now.keys then None else Some m) message }
{
    match message {
        Some(message) => unless_kept(command.keys.as_slice(), message),
        None => None,
    }
}

// A message, unless it is among those that were kept.
fn unless_kept(keys: &[Key], message: Key) -> Option<Key>
    ensures { result ≡ (if list_any (λ key. key == message) keys.now then None else Some message) }
{
    if is_kept(keys, message) {
        return None;
    }
    Some(message)
}

// Whether a message is among those that were kept.
fn is_kept(keys: &[Key], message: Key) -> bool
    ensures { result ≡ list_any (λ key. key == message) keys.now }
{
    keys.contains(&message)
}

// A message passes to the next subscription of a process.
fn passing(alloc: Global, message: Key, process: &str) -> Result<Option<PassedTo>, AllocError>
    ensures { IfOk result (λ next. next ≡ Some (record { message = message; process = process.now })) }
{
    let process = Text::of(alloc, process)?;
    Ok(Some(PassedTo { message, process }))
}
