// What each command leads to: why it is rejected, or what it makes of the events before it.
ghost use Rattle.std.specs.Option.{option_map_or};
ghost use Rattle.std.specs.Prelude.{◌≡◌, ◌<◌, ◌^◌, List, [], length, None, IsTrue, IfOk};
ghost use Rattle.zb_model.specs.declared.record.Event.{Event};
ghost use Rattle.zb_rules.specs.Own.{keys_for, own};
ghost use Rattle.zb_rules.specs.Reason.{reason_for};
ghost use Rattle.zb_rules.specs.Starts.{starters};
ghost use Rattle.zb_state.specs.State.{IsStateOf};
ghost use Rattle.zb_step.specs.Sound.{has_no_fault};

use crate::acknowledge::Acknowledged;
use crate::activate::Activated;
use crate::cancel::Cancelled;
use crate::complete::Completed;
use crate::create::Created;
use crate::deploy::Deployed;
use crate::distribute::Distributed;
use crate::expire::Expired;
use crate::fail::Failed;
use crate::publish::Published;
use crate::receive::{Confirmed, Forgotten, Received};
use crate::resolve::Resolved;
use crate::retries::Retried;
use crate::subscribe::{Opened, Taken, TurnedAway, Unsubscribed};
use crate::throw::Thrown;
use crate::time_out::TimedOut;
use crate::trigger::TriggeredTimer;
use crate::update::Updated;
use crate::{
    acknowledge, activate, cancel, create, deploy, distribute, ending, expire, go_on, publish,
    receive, resolve, retries, subscribe, time_out, trigger, update,
};
use std::alloc::{AllocError, Global};
use zb_follow::{Found, Maker};
use zb_model::{Command, Moment, Rejection};
use zb_state::{Out, Refusal, State};

/// Why a command is rejected at this moment, if there is a reason. A model costs its check, an instance or a model
/// that another partition sends what `Definitions::definition_for` or `contains` does, an acknowledgement what
/// `Outbox::is_sent_to` does, an expiry what `Messages::deadline_of` does, a message with an id what
/// `State::holds_same` does, a timer what `Timers::get` and `waits_at` do, and a command to go on what `State::quiet` does.
pub fn reason(
    alloc: Global,
    state: &State,
    moment: Moment,
    command: &Command,
) -> Result<Option<Rejection>, AllocError>
    ensures reason { (es : List Event) → IsStateOf es state.now → IfOk result (λ rejection. rejection ≡ reason_for es moment command.now) }
    ensures sound { IfOk result (λ rejection. rejection ≡ None → IsTrue (has_no_fault command.now)) }
{
    match command {
        Command::DeploymentCreate(model) => deploy::reason(alloc, model),
        Command::ProcessInstanceCreationCreate(instance) => create::reason(alloc, state, instance),
        Command::ProcessInstanceCancel(key) => cancel::reason(alloc, state, *key),
        Command::VariableDocumentUpdate(made) => update::reason(alloc, state, made.scope),
        Command::JobBatchActivate(asked) => activate::reason(alloc, asked),
        Command::JobComplete(done) => ending::reason(alloc, state, done.key),
        Command::JobFail(failed) => ending::reason(alloc, state, failed.key),
        Command::JobThrowError(error) => ending::reason(alloc, state, error.key),
        Command::JobUpdateRetries(update) => retries::reason(alloc, state, update),
        Command::JobTimeOut(key) => time_out::reason(alloc, state, moment, *key),
        Command::TimerTrigger(key) => trigger::reason(alloc, state, moment, *key),
        Command::IncidentResolve(key) => resolve::reason(alloc, state, *key),
        Command::MessagePublish(message) => publish::reason(alloc, state, message),
        Command::MessageExpire(key) => expire::reason(alloc, state, moment, *key),
        Command::ProcessInstanceBatchContinue => go_on::reason(alloc, state),
        Command::DeploymentDistribute(sent) => distribute::reason(alloc, state, sent),
        Command::CommandDistributionAcknowledge(told) => acknowledge::reason(alloc, state, told),
        Command::MessageSubscriptionCreate(opened) => {
            subscribe::reason_to_open(alloc, state, opened.subscription)
        }
        Command::MessageSubscriptionCorrelate(told) | Command::MessageSubscriptionReject(told) => {
            subscribe::reason_to_take(alloc, state, *told)
        }
        Command::MessageSubscriptionDelete(closed) => {
            subscribe::reason_to_delete(alloc, state, closed.subscription)
        }
        Command::ProcessMessageSubscriptionCreate(key) => {
            receive::reason_to_confirm(alloc, state, *key)
        }
        Command::ProcessMessageSubscriptionCorrelate(told) => {
            receive::reason_to_receive(alloc, state, told)
        }
        Command::ProcessMessageSubscriptionDelete(key) => {
            receive::reason_to_forget(alloc, state, *key)
        }
        Command::ProcessInstanceMigrationMigrate(_) => Ok(None),
    }
}

/// A command's own events, at one of so many partitions; none of a command that isn't run. The model that it deploys, if
/// it deploys one, has no fault.
#[derive(Drop)]
pub struct Own<'a> {
    pub partitions: u32,
    pub command: &'a Command,
    ghost sound: { IsTrue (has_no_fault command.now) },
}

impl Maker for Own<'_> {
    ghost making = { λ it p moment before. option_map_or (λ make. make before) (own p it.partitions moment it.command.now) [] };

    fn put(
        self,
        alloc: Global,
        state: &mut State,
        moment: Moment,
        out: &mut Out,
    ) -> Result<(), Refusal> {
        let partitions = self.partitions;
        match self.command {
            Command::DeploymentCreate(model) => {
                Deployed { partitions, model }.put(alloc, state, moment, out)
            }
            Command::ProcessInstanceCreationCreate(made) => {
                Created(made).put(alloc, state, moment, out)
            }
            Command::ProcessInstanceCancel(key) => Cancelled(*key).put(alloc, state, moment, out),
            Command::VariableDocumentUpdate(made) => Updated(made).put(alloc, state, moment, out),
            Command::JobBatchActivate(asked) => Activated(asked).put(alloc, state, moment, out),
            Command::JobComplete(done) => Completed(done).put(alloc, state, moment, out),
            Command::JobFail(failed) => Failed(failed).put(alloc, state, moment, out),
            Command::JobThrowError(error) => Thrown(error).put(alloc, state, moment, out),
            Command::JobUpdateRetries(update) => Retried(update).put(alloc, state, moment, out),
            Command::JobTimeOut(key) => TimedOut(*key).put(alloc, state, moment, out),
            Command::TimerTrigger(key) => TriggeredTimer(*key).put(alloc, state, moment, out),
            Command::IncidentResolve(key) => Found(Resolved(*key)).put(alloc, state, moment, out),
            Command::MessagePublish(message) => Published(message).put(alloc, state, moment, out),
            Command::MessageExpire(key) => Expired(*key).put(alloc, state, moment, out),
            Command::DeploymentDistribute(sent) => Distributed { sent }.put(
                alloc, state, moment, out,
            ),
            Command::CommandDistributionAcknowledge(told) => {
                Acknowledged(told).put(alloc, state, moment, out)
            }
            Command::MessageSubscriptionCreate(opened) => {
                Opened(opened).put(alloc, state, moment, out)
            }
            Command::MessageSubscriptionCorrelate(told) => {
                Taken(*told).put(alloc, state, moment, out)
            }
            Command::MessageSubscriptionReject(told) => {
                TurnedAway(*told).put(alloc, state, moment, out)
            }
            Command::MessageSubscriptionDelete(closed) => {
                Unsubscribed(closed).put(alloc, state, moment, out)
            }
            Command::ProcessMessageSubscriptionCreate(key) => {
                Confirmed(*key).put(alloc, state, moment, out)
            }
            Command::ProcessMessageSubscriptionCorrelate(told) => {
                Received(told).put(alloc, state, moment, out)
            }
            Command::ProcessMessageSubscriptionDelete(key) => {
                Forgotten(*key).put(alloc, state, moment, out)
            }
            Command::ProcessInstanceBatchContinue | Command::ProcessInstanceMigrationMigrate(_) =>
                Ok(()),
        }
    }
}

/// How many keys a command draws at most for its own events.
pub fn keys_for(state: &State, command: &Command) -> u64
    ensures { (es : List Event) → IsStateOf es state.now → result ≡ keys_for es command.now }
{
    match command {
        Command::DeploymentCreate(_) => 2,
        Command::ProcessInstanceCreationCreate(_)
        | Command::JobBatchActivate(_)
        | Command::JobFail(_) => 1,
        Command::MessagePublish(message) => 1 + starter_count(state, message.name.as_str()),
        _ => 0,
    }
}

// Of how many processes a version starts by messages of this name.
fn starter_count(state: &State, name: &str) -> u64
    ensures count { (es : List Event) → IsStateOf es state.now → result ≡ length (starters name.now es) }
    ensures small { result < 2 ^ 63 }
{
    match state.starters(name) {
        Some(ids) => ids.len() as u64,
        None => 0,
    }
}
