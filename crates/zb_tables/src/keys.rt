// The keys that events name.
ghost use Rattle.std.specs.Prelude.{◌≡◌, ◌∷◌, [], ◌<◌, ◌^◌};
ghost use Rattle.zb_views.specs.View.{counter_at, greatest_among, keys_in};

use zb_model::{Event, Key, PartitionId};

/// The greatest counter that the event names in a key of the partition, or 0. It takes a step for each key.
pub fn greatest_counter_of(place: PartitionId, event: &Event) -> u64
    ensures value { result ≡ greatest_among place (keys_in event.now) }
    ensures small { result < 2 ^ 51 }
{
    match event {
        Event::CommandDistributionFinished(key)
        | Event::ElementCompleting(key)
        | Event::ElementTerminating(key)
        | Event::ElementTerminated(key)
        | Event::JobTimedOut(key)
        | Event::JobCompleted(key)
        | Event::JobCanceled(key)
        | Event::TimerTriggered(key)
        | Event::TimerCanceled(key)
        | Event::MessageExpired(key)
        | Event::MessageSubscriptionDeleted(key)
        | Event::ProcessMessageSubscriptionCreated(key)
        | Event::ProcessMessageSubscriptionDeleted(key)
        | Event::VariableDocumentUpdated(key) => counter_of(place, *key),
        Event::ProcessCreated(record) => counter_of(place, record.key),
        Event::CommandDistributionDistributing(record)
        | Event::CommandDistributionAcknowledged(record) => counter_of(place, record.key),
        Event::DeploymentCreated(record) | Event::ProcessInstanceCreationCreated(record) => {
            of_two(place, record.key, record.definition)
        }
        Event::ElementActivating(record) => {
            of_three(place, record.key, record.scope, record.definition)
        }
        Event::ElementActivated(record) => counter_of(place, record.key),
        Event::ElementCompleted(record) => counter_of(place, record.key),
        Event::SequenceFlowTaken(record) => counter_of(place, record.key),
        Event::ElementMigrated(record) => counter_of(place, record.key),
        Event::ProcessInstanceMigrationMigrated(record) => {
            of_two(place, record.key, record.definition)
        }
        Event::JobCreated(record) => of_two(place, record.key, record.cell),
        Event::JobActivated(record) => of_two(place, record.key, record.instance),
        Event::JobFailed(record) => counter_of(place, record.key),
        Event::JobErrorThrown(record) => counter_of(place, record.key),
        Event::JobRetriesUpdated(record) => counter_of(place, record.key),
        Event::JobBatchActivated(record) => {
            counter_of(place, record.key).max(greatest_among(place, record.jobs.as_slice()))
        }
        Event::TimerCreated(record) => of_two(place, record.key, record.cell),
        Event::ProcessEventTriggered(record) => counter_of(place, record.cell),
        Event::MessagePublished(record) => counter_of(place, record.key),
        Event::MessageStartEventSubscriptionCorrelated(record) => {
            of_three(place, record.message, record.definition, record.instance)
        }
        Event::MessageSubscriptionCreated(record) => counter_of(place, record.subscription),
        Event::MessageSubscriptionCorrelating(record) => {
            of_two(place, record.subscription, record.message)
        }
        Event::MessageSubscriptionCorrelated(record)
        | Event::MessageSubscriptionRejected(record)
        | Event::ProcessMessageSubscriptionCorrelated(record) => {
            of_two(place, record.subscription, record.message)
        }
        Event::ProcessMessageSubscriptionCreating(record) => {
            of_two(place, record.subscription, record.cell)
        }
        Event::ProcessMessageSubscriptionDeleting(record) => {
            counter_of(place, record.subscription).max(greatest_among(
                place,
                record.keys.as_slice(),
            ))
        }
        Event::VariableCreated(record) | Event::VariableUpdated(record) => {
            counter_of(place, record.scope)
        }
        Event::IncidentCreated(record) => of_three(place, record.key, record.cell, record.job),
        Event::IncidentResolved(record) => of_two(place, record.key, record.job),
    }
}

// The greater counter of two keys, if they are of the partition, or 0.
fn of_two(place: PartitionId, first: Key, second: Key) -> u64
    ensures value { result ≡ greatest_among place (first ∷ second ∷ []) }
    ensures small { result < 2 ^ 51 }
{
    counter_of(place, first).max(counter_of(place, second))
}

// The greatest counter of three keys, if they are of the partition, or 0.
fn of_three(place: PartitionId, first: Key, second: Key, third: Key) -> u64
    ensures value { result ≡ greatest_among place (first ∷ second ∷ third ∷ []) }
    ensures small { result < 2 ^ 51 }
{
    counter_of(place, first).max(of_two(place, second, third))
}

// The greatest counter among the keys of the partition, or 0.
fn greatest_among(place: PartitionId, keys: &[Key]) -> u64
    ensures value { result ≡ greatest_among place keys.now }
    ensures small { result < 2 ^ 51 }
{
    let mut greatest = 0;
    for index in (0..keys.len()).rev() {
        greatest = counter_of(place, keys[index]).max(greatest);
    }
    greatest
}

// The counter of a key of the partition, and 0 of another one.
fn counter_of(place: PartitionId, key: Key) -> u64
    ensures value { result ≡ counter_at place key }
    ensures small { result < 2 ^ 51 }
{
    if key.partition() == u64::from(place.number()) {
        key.counter()
    } else {
        0
    }
}
