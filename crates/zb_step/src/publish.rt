// Publishing a message.
ghost use Rattle.std.specs.Option.{option_map_or};
ghost use Rattle.std.specs.Prelude.{◌≡◌, List, [], ◌∷◌, map, filter, IfOk, string_bytes, Some};
ghost use Rattle.zb_model.specs.declared.record.Event.{Event};
ghost use Rattle.zb_rules.specs.Publish.{reason_to_publish, is_repeated, buffered_text, message_under, expiry_of, published};
ghost use Rattle.zb_rules.specs.Starts.{starters};
ghost use Rattle.zb_state.specs.State.{IsStateOf};
ghost use Rattle.zb_views.specs.Subscriptions.{wants_messages, subscriptions};
ghost use Rattle.zb_step.specs.Starting.{starting_as};
ghost use Rattle.zb_step.specs.Correlating.{correlating_as};

use crate::correlate::EachCorrelating;
use crate::rejection::rejection;
use std::alloc::{AllocError, Global};
use zb_follow::{EachStarting, Maker};
use zb_model::{
    Event, Key, MessagePublish, MessagePublished, Moment, Rejection, RejectionKind, TryCopy,
};
use zb_state::{Out, Refusal, State};

/// Why a message isn't published: one with its name, correlation key and id is buffered, and the id isn't
/// empty. That costs what `State::holds_same` does, and only where the id isn't empty.
pub fn reason(
    alloc: Global,
    state: &State,
    command: &MessagePublish,
) -> Result<Option<Rejection>, AllocError>
    ensures { (es : List Event) → IsStateOf es state.now → IfOk result (λ rejection. rejection ≡ reason_to_publish es command.now) }
{
    if is_repeated(state, command) {
        return repeated(alloc, command);
    }
    Ok(None)
}

// Whether the id isn't empty and such a message is buffered.
fn is_repeated(state: &State, command: &MessagePublish) -> bool
    ensures { (es : List Event) → IsStateOf es state.now → result ≡ is_repeated es command.now }
{
    !command.id.as_str().is_empty() && state.holds_same(command)
}

// The rejection of a message that is buffered.
fn repeated(alloc: Global, command: &MessagePublish) -> Result<Option<Rejection>, AllocError>
    ensures { IfOk result (λ rejection. rejection ≡ Some (record { kind = RejectionKind.AlreadyExists; reason = buffered_text command.now })) }
{
    let text = text_of_repeated(alloc, command)?;
    rejection(alloc, RejectionKind::AlreadyExists, text.as_str())
}

#[tactic(auto, unfolding(zb_rules::specs::Publish::buffered_text))]
fn text_of_repeated(alloc: Global, command: &MessagePublish) -> Result<String, AllocError>
    ensures { IfOk result (λ text. string_bytes text ≡ buffered_text command.now) }
{
    let mut text = String::from_str(alloc, "message ")?;
    text.push_str(command.name.as_str())?;
    text.push_str(" ")?;
    text.push_str(command.correlation_key.as_str())?;
    text.push_str(" ")?;
    text.push_str(command.id.as_str())?;
    text.push_str(" is buffered")?;
    Ok(text)
}

/// The message is published under a fresh key, begins to be correlated by subscriptions, starts an instance of each process
/// that it may, and expires then where it has no time to live.
#[derive(Drop)]
pub struct Published<'a>(pub &'a MessagePublish);

impl Maker for Published<'_> {
    ghost making = { λ it p moment. published p moment it.0.now };

    fn put(
        self,
        alloc: Global,
        state: &mut State,
        moment: Moment,
        out: &mut Out,
    ) -> Result<(), Refusal> {
        let command = self.0;
        let key = state.next_key();
        let message = message(alloc, key, moment, command)?;
        let starting = match starting(alloc, state, &message) {
            Ok(starting) => starting,
            Err(AllocError) => {
                drop(message);
                return Err(Refusal::Memory);
            }
        };
        let correlating = match correlating(alloc, state, &message) {
            Ok(correlating) => correlating,
            Err(AllocError) => {
                drop((message, starting));
                return Err(Refusal::Memory);
            }
        };
        let rest = (starting, expiry(key, command));
        (Event::MessagePublished(message), (correlating, rest)).put(alloc, state, moment, out)
    }
}

// A message without time to live expires at once.
fn expiry(key: Key, command: &MessagePublish) -> Option<Event>
    ensures { option_map_or (λ e. e ∷ []) result [] ≡ expiry_of key command.now }
{
    match command.time_to_live {
        0 => Some(Event::MessageExpired(key)),
        _ => None,
    }
}

// The message under this key.
fn message(
    alloc: Global,
    key: Key,
    moment: Moment,
    command: &MessagePublish,
) -> Result<MessagePublished, AllocError>
    ensures { IfOk result (λ message. message ≡ message_under key moment command.now) }
{
    Ok(MessagePublished {
        key,
        name: command.name.copy(alloc)?,
        correlation_key: command.correlation_key.copy(alloc)?,
        id: command.id.copy(alloc)?,
        deadline: moment.plus(command.time_to_live),
        variables: command.variables.copy(alloc)?,
    })
}

// The subscriptions that wait for the message, if there are any; it is copied then.
fn correlating(
    alloc: Global,
    state: &State,
    message: &MessagePublished,
) -> Result<Option<EachCorrelating>, AllocError>
    ensures { (es : List Event) → IsStateOf es state.now → IfOk result (λ correlating. correlating_as correlating message.now
        (map (λ s. s.key) (filter (wants_messages message.now.name message.now.correlation_key) (subscriptions es)))) }
{
    let keys = state.subscriptions_for(
        alloc,
        message.name.as_str(),
        message.correlation_key.as_str(),
    )?;
    if keys.is_empty() {
        return Ok(None);
    }
    Ok(Some(EachCorrelating {
        message: message.copy(alloc)?,
        keys,
    }))
}

// The processes of which the message may start instances, if there are any; it is copied then.
fn starting(
    alloc: Global,
    state: &State,
    message: &MessagePublished,
) -> Result<Option<EachStarting>, AllocError>
    ensures { (es : List Event) → IsStateOf es state.now → IfOk result (λ starting. starting_as starting message.now (starters message.now.name es)) }
{
    match state.starters(message.name.as_str()) {
        Some(ids) => Ok(Some(EachStarting {
            message: message.copy(alloc)?,
            processes: ids.copied(alloc)?,
        })),
        None => Ok(None),
    }
}
