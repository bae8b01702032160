// What an event makes of the subscription of an element instance.
ghost use Rattle.std.specs.Prelude.{◌≡◌, IfOk};
ghost use Rattle.zb_views.specs.ProcessSubscriptions.{process_subscription_changed, process_subscription_of, says_nothing_of_process_subscriptions};

use std::alloc::{AllocError, Global};
use zb_model::{Event, ProcessMessageSubscriptionCreating, TryCopy};
use zb_table::Edit;
use zb_views::{Given, ProcessSubscription, WaitPhase};

/// The subscription that is opened, as it is first. It costs a copy of its texts.
pub fn opened(
    alloc: Global,
    told: &ProcessMessageSubscriptionCreating,
) -> Result<ProcessSubscription, AllocError>
    ensures { IfOk result (λ subscription. subscription ≡ process_subscription_of told.now) }
{
    Ok(ProcessSubscription {
        key: told.subscription,
        cell: told.cell,
        node: told.node.copy(alloc)?,
        name: told.name.copy(alloc)?,
        correlation_key: told.correlation_key.copy(alloc)?,
        process: told.process.copy(alloc)?,
        cancel: told.cancel,
        phase: WaitPhase::Creating,
        kept: Given::empty(alloc),
    })
}

/// A subscription becomes what an event says.
#[derive(Drop)]
pub struct AsTold<'a> {
    pub event: &'a Event,
}

impl<'a> Edit<ProcessSubscription> for AsTold<'a> {
    ghost edits = { λ e s. process_subscription_changed e.event.now s };

    fn edit(self, row: ProcessSubscription) -> Result<ProcessSubscription, AllocError> {
        changed(row, self.event)
    }
}

// The subscription as the event says.
fn changed(
    mut subscription: ProcessSubscription,
    event: &Event,
) -> Result<ProcessSubscription, AllocError>
    ensures { IfOk result (λ changed. changed ≡ process_subscription_changed event.now subscription) }
{
    match event {
        Event::ProcessMessageSubscriptionCreated(key) if *key == subscription.key => {
            subscription.phase = WaitPhase::Created;
        }
        Event::ProcessMessageSubscriptionDeleting(e) if e.subscription == subscription.key => {
            subscription.phase = WaitPhase::Deleting;
        }
        Event::ProcessMessageSubscriptionCorrelated(e) if e.subscription == subscription.key => {
            subscription.kept.push(e.message)?;
        }
        _ => {}
    }
    Ok(subscription)
}

/// Whether the event opens no such subscription, ends none and changes none.
pub fn says_nothing(event: &Event) -> bool
    ensures { result ≡ says_nothing_of_process_subscriptions event.now }
{
    !matches!(
        event,
        Event::ProcessMessageSubscriptionCreating(_)
            | Event::ProcessMessageSubscriptionCreated(_)
            | Event::ProcessMessageSubscriptionCorrelated(_)
            | Event::ProcessMessageSubscriptionDeleted(_)
            | Event::ProcessMessageSubscriptionDeleting(_)
    )
}
