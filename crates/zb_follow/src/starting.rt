// Instances that messages start.
ghost use Rattle.std.specs.Prelude.{◌≡◌, ◌==◌, IfOk};
ghost use Rattle.std.specs.Option.{option_copied};
ghost use Rattle.zb_rules.specs.Making.{each_made};
ghost use Rattle.zb_rules.specs.Starts.{started_of};
ghost use Rattle.zb_follow.specs.Behind.{restarted};

use crate::beginning::{Beginning, root};
use crate::making::Maker;
use std::alloc::{AllocError, Global};
use zb_model::{
    Event, MessagePublished, MessageStartEventSubscriptionCorrelated, Moment, Text, TryCopy,
};
use zb_state::{Out, Refusal, State};
use zb_views::Started;

/// A message starts an instance of a process, where the latest version of that starts by messages of its name, and the
/// message may start one. It costs what `State::starting_definition` and `State::may_start` do, and what `Beginning` does.
#[derive(Drop)]
pub struct Starting<'a> {
    pub message: &'a MessagePublished,
    /// The id of the process.
    pub process: &'a str,
}

impl Maker for Starting<'_> {
    ghost making = { λ it p moment. started_of p it.message.now it.process.now };

    fn put(
        self,
        alloc: Global,
        state: &mut State,
        moment: Moment,
        out: &mut Out,
    ) -> Result<(), Refusal> {
        let Starting { message, process } = self;
        let Some(definition) = state.starting_definition(message.name.as_str(), process) else {
            return Ok(());
        };
        if !state.may_start(message, process) {
            return Ok(());
        }
        let key = state.next_key();
        let started = message.correlation_key.as_str();
        let root = root(alloc, key, definition, process, started)?;
        let told = MessageStartEventSubscriptionCorrelated {
            message: message.key,
            definition,
            instance: key,
        };
        Beginning {
            told: Event::MessageStartEventSubscriptionCorrelated(told),
            root,
            variables: message.variables.as_slice(),
        }
        .put(alloc, state, moment, out)
    }
}

/// A message starts an instance of each of these processes that it may, one after the other.
#[derive(Drop)]
pub struct EachStarting {
    pub message: MessagePublished,
    /// The ids of the processes.
    pub processes: Vec<Text>,
}

impl Maker for EachStarting {
    ghost making = { λ it p moment. each_made (started_of p it.message) it.processes.items };

    fn put(
        self,
        alloc: Global,
        state: &mut State,
        moment: Moment,
        out: &mut Out,
    ) -> Result<(), Refusal> {
        let EachStarting { message, processes } = self;
        let message = &message;
        for process in processes.as_slice() {
            let process = process.as_str();
            Starting { message, process }.put(alloc, state, moment, out)?;
        }
        Ok(())
    }
}

/// The next message with the name and the correlation key with which an instance was started starts one of its process.
#[derive(Drop)]
pub struct Restarted(pub Started);

impl Maker for Restarted {
    ghost making = { λ it p moment. restarted p it.0 };

    fn put(
        self,
        alloc: Global,
        state: &mut State,
        moment: Moment,
        out: &mut Out,
    ) -> Result<(), Refusal> {
        let message = match state.next_starter(&self.0) {
            Some(message) => message.copy(alloc)?,
            None => return Ok(()),
        };
        let starting = Starting {
            message: &message,
            process: self.0.process.as_str(),
        };
        starting.put(alloc, state, moment, out)
    }
}

/// A copy of an instance, as a message has started it.
pub fn copied(alloc: Global, started: &Started) -> Result<Started, AllocError>
    ensures { IfOk result (λ copied. copied ≡ started.now) }
{
    Ok(Started {
        instance: started.instance,
        process: started.process.copy(alloc)?,
        name: started.name.copy(alloc)?,
        correlation_key: started.correlation_key.copy(alloc)?,
    })
}
