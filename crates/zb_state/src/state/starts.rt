// Instances that messages start.
ghost use Rattle.std.specs.Prelude.{◌≡◌, ◌==◌, List, [], false, not, option_map};
ghost use Rattle.std.specs.List.{find, list_any};
ghost use Rattle.std.specs.Option.{option_copied, option_map_or};
ghost use Rattle.zb_model.specs.declared.record.Event.{Event};
ghost use Rattle.zb_views.specs.Processes.{process_in};
ghost use Rattle.zb_views.specs.Starts.{started_instances};
ghost use Rattle.zb_views.specs.Subscriptions.{is_lock};
ghost use Rattle.zb_rules.specs.Create.{has_message_start};
ghost use Rattle.zb_rules.specs.Starts.{starting_definition, starters, may_start, next_starter};
ghost use Rattle.zb_state.specs.Starts.{message_start_under};
ghost use Rattle.zb_state.specs.State.{IsStateOf};

use crate::State;
use zb_faults::is_message_start;
use zb_model::{Key, MessagePublished, Node};
use zb_starts::{Ids, Locks};
use zb_views::Started;

impl State {
    /// The instance with this key, as a message with a correlation key has started it. It takes the logarithm of how many
    /// such instances there are.
    pub fn started(&self, instance: Key) -> Option<&Started>
        ensures { (es : List Event) → IsStateOf es self.now → option_copied result ≡ find (λ s. s.instance == instance) (started_instances es) }
    {
        self.facts.tables.starts.starts.get(instance)
    }

    /// The first buffered message of the name and the correlation key with which an instance was started that isn't locked
    /// for its process. It goes through those of the name and the correlation key up to that one, and takes for each what
    /// `Locks::is_locked` does.
    pub fn next_starter(&self, started: &Started) -> Option<&MessagePublished>
        ensures { (es : List Event) → IsStateOf es self.now → option_copied result ≡ next_starter started.now es }
    {
        let keys = self.messages_of(started.name.as_str(), started.correlation_key.as_str());
        let locks = &self.facts.tables.starts.locks;
        match first_free(keys, locks, started.process.as_str()) {
            Some(key) => self.facts.messages.get(key),
            None => None,
        }
    }

    /// Whether a message may start an instance of a process: it isn't locked for that, and no instance is there that was
    /// started with its correlation key, if that isn't empty. It takes the logarithm of how many locks there are for each
    /// of the message.
    pub fn may_start(&self, message: &MessagePublished, process: &str) -> bool
        ensures { (es : List Event) → IsStateOf es self.now → result ≡ may_start message.now process.now es }
    {
        self.facts.may_start(message, process)
    }

    /// The key of the latest definition of a process, where that starts by messages of this name. It costs what
    /// `Definitions::definition_for` does.
    pub fn starting_definition(&self, name: &str, process: &str) -> Option<Key>
        ensures { (es : List Event) → IsStateOf es self.now → result ≡ option_map (λ d. d.key) (starting_definition name.now process.now es) }
    {
        let definition = self.definitions().definition_for(process, 0)?;
        match self.message_start(definition) {
            Some(start) if start.name.as_str() == name => Some(definition),
            _ => None,
        }
    }

    /// Whether a definition starts by a message. It takes the logarithm of how many there are.
    pub fn has_message_start(&self, definition: Key) -> bool
        ensures { (es : List Event) → IsStateOf es self.now → result ≡ option_map_or (λ made. has_message_start made.model) (process_in definition es) false }
    {
        self.message_start(definition).is_some()
    }

    // The start event of a definition, if it has a message.
    fn message_start(&self, definition: Key) -> Option<&Node>
        ensures { option_copied result ≡ message_start_under self.now.game definition }
    {
        let graph = self.facts.game.board().model(definition)?;
        match graph.start_in("") {
            Some(start) if is_message_start(start.kind) => Some(start),
            _ => None,
        }
    }

    /// The ids of the processes of which a version starts by messages of this name, if there are any. It takes constant
    /// time on average.
    pub fn starters(&self, name: &str) -> Option<&Ids>
        ensures { (es : List Event) → IsStateOf es self.now → option_map_or (λ ids. ids) (option_copied result) [] ≡ starters name.now es }
    {
        self.facts.game.starters().under(name)
    }
}

/// The first of some keys under which no message is locked for a process.
pub(super) fn first_free(keys: &[Key], locks: &Locks, process: &str) -> Option<Key>
    ensures { result ≡ find (λ k. not (list_any (is_lock k process.now) locks.now)) keys.now }
{
    for key in keys {
        if !locks.is_locked(*key, process) {
            return Some(*key);
        }
    }
    None
}
