// A partition says that it has a definition.
ghost use Rattle.std.specs.Prelude.{◌≡◌, List, IfOk, string_bytes};
ghost use Rattle.zb_model.specs.declared.record.Event.{Event};
ghost use Rattle.zb_rules.specs.Acknowledge.{no_distribution, reason_to_acknowledge, finished_if_last, acknowledged};
ghost use Rattle.zb_state.specs.State.{IsStateOf};

use crate::rejection::rejection;
use std::alloc::{AllocError, Global};
use zb_follow::{Find, Found, Maker};
use zb_model::{CommandDistribution, Event, Key, Moment, Rejection, RejectionKind};
use zb_state::{Out, Refusal, State};

/// Why it isn't taken down that a partition has a definition: it isn't on its way there. It costs what
/// `State::is_distributed_to` does.
pub fn reason(
    alloc: Global,
    state: &State,
    told: &CommandDistribution,
) -> Result<Option<Rejection>, AllocError>
    ensures { (es : List Event) → IsStateOf es state.now → IfOk result (λ rejection. rejection ≡ reason_to_acknowledge es told.now) }
{
    if state.is_distributed_to(told.key, told.partition) {
        return Ok(None);
    }
    let text = text_of_none(alloc, told.key, told.partition)?;
    rejection(alloc, RejectionKind::NotFound, text.as_str())
}

// What is told where the definition isn't on its way to the partition.
fn text_of_none(alloc: Global, definition: Key, partition: u32) -> Result<String, AllocError>
    ensures { IfOk result (λ text. string_bytes text ≡ no_distribution definition partition) }
{
    let mut text = String::from_str(alloc, "no distribution ")?;
    text.write(definition.number())?;
    text.push_str(" to ")?;
    text.write(partition)?;
    Ok(text)
}

/// It is taken down that the partition has the definition, and the distribution ends where that was the last one.
#[derive(Drop)]
pub struct Acknowledged<'a>(pub &'a CommandDistribution);

impl Maker for Acknowledged<'_> {
    ghost making = { λ it p moment. acknowledged it.0.now };

    fn put(
        self,
        alloc: Global,
        state: &mut State,
        moment: Moment,
        out: &mut Out,
    ) -> Result<(), Refusal> {
        let told = self.0;
        let taken = Event::CommandDistributionAcknowledged(*told);
        (taken, Found(FinishedIfLast(told.key))).put(alloc, state, moment, out)
    }
}

// The distribution of a definition ends, where no partition is left.
#[derive(Drop)]
struct FinishedIfLast(Key);

impl Find for FinishedIfLast {
    ghost finds = { λ it p. finished_if_last it.0 };

    fn find(self, _alloc: Global, state: &State) -> Result<Option<Event>, AllocError> {
        if state.is_distributed(self.0) {
            return Ok(None);
        }
        Ok(Some(Event::CommandDistributionFinished(self.0)))
    }
}
