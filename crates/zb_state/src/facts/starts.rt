// What events ask of the messages that start instances, and what they change of those.
ghost use Rattle.std.specs.Prelude.{◌≡◌, ◌==◌, ◌&&◌, List, Some, IsTrue, IfOk};
ghost use Rattle.std.specs.Option.{option_copied, option_map_or};
ghost use Rattle.std.specs.Str.{bytes_eq};
ghost use Rattle.zb_model.specs.declared.record.Event.{Event};
ghost use Rattle.zb_model.specs.declared.record.Event.TheVariants as events;
ghost use Rattle.zb_views.specs.Left.{left};
ghost use Rattle.zb_rules.specs.Applies.{is_fresh, begins_start, starts_with};
ghost use Rattle.zb_rules.specs.Starts.{may_start};
ghost use Rattle.zb_state.specs.State.{partition_of, IsStateOf};
ghost use Rattle.zb_state.specs.Changes.{change_by};
ghost use Rattle.zb_views.specs.Subscriptions as subscriptions;
ghost use Rattle.zb_starts.specs.declared.change.Change.TheVariants as changes;
ghost use Rattle.zb_state.specs.Starts.{starter_among, locked_by, lock_of, begin_by};
ghost use Rattle.zb_tables.specs.Tables.{IsNext};

use crate::Facts;
use std::alloc::{AllocError, Global};
use zb_model::{
    ElementActivating, Event, Key, MessagePublished, MessageStartEventSubscriptionCorrelated, Text,
    TryCopy,
};
use zb_starts::Change;
use zb_views::{Left, Lock, Started};

impl Facts {
    // Whether the key of an instance is fresh, and the message may start it.
    pub(super) fn starts(&self, start: &MessageStartEventSubscriptionCorrelated) -> bool
        ensures own { (es : List Event) → IsStateOf es self.now
            → result ≡ (is_fresh (partition_of self.now) es start.now.instance && begins_start start.now es) }
        ensures next { IsTrue result → IsNext (partition_of self.now) self.now.counter start.now.instance }
    {
        self.is_fresh(start.instance) && self.begins_start(start)
    }

    // Whether the message and the definition are there, and that may start an instance of the process.
    fn begins_start(&self, start: &MessageStartEventSubscriptionCorrelated) -> bool
        ensures { (es : List Event) → IsStateOf es self.now → result ≡ begins_start start.now es }
    {
        let Some(message) = self.messages.get(start.message) else {
            return false;
        };
        match self.game.board().model(start.definition) {
            Some(graph) => self.may_start(message, graph.model().process.as_str()),
            None => false,
        }
    }

    /// Whether a message may start an instance of a process. It costs what `Locks::is_locked` and `Starts::has` do.
    pub(crate) fn may_start(&self, message: &MessagePublished, process: &str) -> bool
        ensures { (es : List Event) → IsStateOf es self.now → result ≡ may_start message.now process.now es }
    {
        let starts = &self.tables.starts;
        let correlation_key = message.correlation_key.as_str();
        !starts.locks.is_locked(message.key, process)
            && (correlation_key.is_empty() || !starts.starts.has(process, correlation_key))
    }

    // Whether this is the correlation key with which the root starts that is left to be said.
    pub(super) fn starts_with(&self, correlation_key: &str) -> bool
        ensures { (es : List Event) → IsStateOf es self.now → result ≡ bytes_eq correlation_key.now (starts_with (left es) es) }
    {
        match self.starter() {
            Some(message) => correlation_key == message.correlation_key.as_str(),
            None => correlation_key.is_empty(),
        }
    }

    // The message that starts the root that is left to be said, if one does.
    fn starter(&self) -> Option<&MessagePublished>
        ensures { option_copied result ≡ starter_among self.now.messages self.now.left }
    {
        let Left::Root(begun) = self.left else {
            return None;
        };
        match begun.message {
            Some(message) => self.messages.get(message),
            None => None,
        }
    }

    // What an event changes of locks and of instances that messages have started, if it applies.
    pub(super) fn change_of(&self, alloc: Global, event: &Event) -> Result<Change, AllocError>
        ensures { IfOk result (λ change. change ≡ change_by self.now event.now) }
    {
        match event {
            Event::MessageStartEventSubscriptionCorrelated(start) => {
                self.locked_by(alloc, start.message, start.definition)
            }
            Event::MessageSubscriptionCorrelating(begun) => {
                self.locking(alloc, begun.subscription, begun.message)
            }
            Event::MessageSubscriptionRejected(told) => {
                self.freeing(alloc, told.subscription, told.message)
            }
            Event::MessageExpired(message) => Ok(Change::Expired(*message)),
            Event::ElementActivating(element) => self.begun_by(alloc, element),
            Event::ElementCompleted(element) => Ok(Change::Ended(element.key)),
            Event::ElementTerminated(cell) => Ok(Change::Ended(*cell)),
            _ => Ok(Change::Nothing),
        }
    }

    // A message is locked for the process of a definition, which it starts.
    fn locked_by(&self, alloc: Global, message: Key, definition: Key) -> Result<Change, AllocError>
        ensures { IfOk result (λ change. change ≡ locked_by self.now.game message definition) }
    {
        match self.game.board().model(definition) {
            Some(graph) => Ok(Change::Locked(Lock {
                message,
                process: graph.model().process.copy(alloc)?,
            })),
            None => Ok(Change::Nothing),
        }
    }

    // A message is locked for the process of a subscription, if that is there.
    fn locking(&self, alloc: Global, subscription: Key, message: Key) -> Result<Change, AllocError>
        ensures { IfOk result (λ change. change ≡ option_map_or (λ l. changes.Locked l) (lock_of self.now.tables.subscriptions subscription message) changes.Nothing) }
    {
        match self.lock_of(alloc, subscription, message) {
            Ok(lock) => Ok(locks(lock)),
            Err(AllocError) => Err(AllocError),
        }
    }

    // The lock of a message for the process of a subscription is freed, if that is there.
    fn freeing(&self, alloc: Global, subscription: Key, message: Key) -> Result<Change, AllocError>
        ensures { IfOk result (λ change. change ≡ option_map_or (λ l. changes.Freed l) (lock_of self.now.tables.subscriptions subscription message) changes.Nothing) }
    {
        match self.lock_of(alloc, subscription, message) {
            Ok(lock) => Ok(frees(lock)),
            Err(AllocError) => Err(AllocError),
        }
    }

    // The lock of a message for the process of a subscription, if that is there.
    fn lock_of(
        &self,
        alloc: Global,
        subscription: Key,
        message: Key,
    ) -> Result<Option<Lock>, AllocError>
        ensures { IfOk result (λ lock. lock ≡ lock_of self.now.tables.subscriptions subscription message) }
    {
        match self.tables.subscriptions.get(subscription) {
            Some(found) => lock_for(alloc, message, found.process.as_str()),
            None => Ok(None),
        }
    }

    // A root begins, which a message with a correlation key may start.
    fn begun_by(&self, alloc: Global, element: &ElementActivating) -> Result<Change, AllocError>
        ensures { IfOk result (λ change. change ≡ begin_by self.now.messages self.now.left element.now) }
    {
        if element.scope != Key::new(0) || element.started.as_str().is_empty() {
            return Ok(Change::Nothing);
        }
        let Left::Root(begun) = self.left else {
            return Ok(Change::Nothing);
        };
        match self.starter() {
            Some(message) => Ok(Change::Begun(Started {
                instance: begun.key,
                process: element.node.copy(alloc)?,
                name: message.name.copy(alloc)?,
                correlation_key: element.started.copy(alloc)?,
            })),
            None => Ok(Change::Nothing),
        }
    }
}

// The lock of a message for a process.
fn lock_for(alloc: Global, message: Key, process: &str) -> Result<Option<Lock>, AllocError>
    ensures { IfOk result (λ lock. lock ≡ Some (subscriptions.lock_for message process.now)) }
{
    let process = Text::of(alloc, process)?;
    Ok(Some(Lock { message, process }))
}

// A lock is set, if there is one.
fn locks(lock: Option<Lock>) -> Change
    ensures { result ≡ option_map_or (λ l. changes.Locked l) lock changes.Nothing }
{
    match lock {
        Some(lock) => Change::Locked(lock),
        None => Change::Nothing,
    }
}

// A lock is freed, if there is one.
fn frees(lock: Option<Lock>) -> Change
    ensures { result ≡ option_map_or (λ l. changes.Freed l) lock changes.Nothing }
{
    match lock {
        Some(lock) => Change::Freed(lock),
        None => Change::Nothing,
    }
}
