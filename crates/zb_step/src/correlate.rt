// Messages that subscriptions begin to correlate.
ghost use Rattle.std.specs.Prelude.{◌≡◌, Some, IfOk};
ghost use Rattle.zb_model.specs.declared.record.Event.TheVariants as events;
ghost use Rattle.zb_rules.specs.Correlate.{correlated_by, next_correlated, passed_to};
ghost use Rattle.zb_rules.specs.Making.{each_made};

use std::alloc::{AllocError, Global};
use zb_follow::{Each, Find, FindEach, Maker};
use zb_model::{Event, Key, MessageCorrelation, MessagePublished, Moment, Text, TryCopy};
use zb_state::{Out, Refusal, State};

/// The subscription with a key begins to correlate its next message, if it is there and there is one. It costs what
/// `State::next_message` does, and a copy of the message's variables.
#[derive(Drop)]
pub struct NextMessage(pub Key);

impl Find for NextMessage {
    ghost finds = { λ it p. next_correlated it.0 };

    fn find(self, alloc: Global, state: &State) -> Result<Option<Event>, AllocError> {
        let Some(subscription) = state.subscription(self.0) else {
            return Ok(None);
        };
        match state.next_message(subscription) {
            Some(message) => correlating(alloc, message, subscription.key),
            None => Ok(None),
        }
    }
}

/// The next subscription of a process begins to correlate a message, if that is buffered and there is one. It costs what
/// `State::next_subscription` does, and a copy of the message's variables.
#[derive(Drop)]
pub struct PassedTo {
    pub message: Key,
    /// The id of the process.
    pub process: Text,
}

impl Find for PassedTo {
    ghost finds = { λ it p. passed_to it.message it.process };

    fn find(self, alloc: Global, state: &State) -> Result<Option<Event>, AllocError> {
        let Some(message) = state.messages().get(self.message) else {
            return Ok(None);
        };
        match state.next_subscription(message, self.process.as_str()) {
            Some(subscription) => correlating(alloc, message, subscription.key),
            None => Ok(None),
        }
    }
}

/// Each of the subscriptions with these keys begins to correlate a message, if it may, one after the other.
#[derive(Drop)]
pub struct EachCorrelating {
    pub message: MessagePublished,
    pub keys: Vec<Key>,
}

impl Maker for EachCorrelating {
    ghost making = { λ it p moment. each_made (correlated_by it.message) it.keys.items };

    fn put(
        self,
        alloc: Global,
        state: &mut State,
        moment: Moment,
        out: &mut Out,
    ) -> Result<(), Refusal> {
        let EachCorrelating { message, keys } = self;
        let finder = &Fitting { message: &message };
        let things = keys.as_slice();
        Each { finder, things }.put(alloc, state, moment, out)
    }
}

// The subscription with a key, if it may correlate a message.
#[derive(Drop)]
struct Fitting<'a> {
    message: &'a MessagePublished,
}

impl<'a> FindEach<Key> for Fitting<'a> {
    ghost finds = { λ it key p moment. correlated_by it.message.now key };

    fn find(
        &self,
        alloc: Global,
        state: &State,
        _moment: Moment,
        key: &Key,
    ) -> Result<Option<Event>, AllocError> {
        match state.subscription(*key) {
            Some(subscription) if state.fits(self.message, subscription) => {
                correlating(alloc, self.message, subscription.key)
            }
            _ => Ok(None),
        }
    }
}

// A subscription begins to correlate a message, with its variables.
fn correlating(
    alloc: Global,
    message: &MessagePublished,
    subscription: Key,
) -> Result<Option<Event>, AllocError>
    ensures { IfOk result (λ event. event ≡ Some (events.MessageSubscriptionCorrelating
        (record { subscription = subscription; message = message.now.key; variables = message.now.variables }))) }
{
    Ok(Some(Event::MessageSubscriptionCorrelating(MessageCorrelation {
        subscription,
        message: message.key,
        variables: message.variables.copy(alloc)?,
    })))
}
