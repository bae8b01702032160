// The format of events.
ghost use Rattle.zb_format.specs.Reading.{Reads};
ghost use Rattle.zb_model.specs.Events as tables;
ghost use Rattle.zb_model.specs.Layouts as layouts;

use crate::Event;
use std::alloc::{AllocError, Global};
use zb_format::{Cursor, Encoder, Format, ReadFault, write_tagged};

impl Format for Event {
    ghost layout = { layouts.event };

    #[tactic(auto, unfolding(crate::specs::Layouts::event))]
    fn write(&self, encoder: &mut Encoder) -> Result<(), AllocError> {
        match self {
            Event::ProcessCreated(record) => write_tagged(1, record, encoder),
            Event::DeploymentCreated(record) => write_tagged(2, record, encoder),
            Event::CommandDistributionDistributing(record) => write_tagged(3, record, encoder),
            Event::CommandDistributionAcknowledged(record) => write_tagged(4, record, encoder),
            Event::CommandDistributionFinished(key) => write_tagged(5, key, encoder),
            Event::ProcessInstanceCreationCreated(record) => write_tagged(6, record, encoder),
            Event::ElementActivating(record) => write_tagged(7, record, encoder),
            Event::ElementActivated(record) => write_tagged(8, record, encoder),
            Event::ElementCompleting(key) => write_tagged(9, key, encoder),
            Event::ElementCompleted(record) => write_tagged(10, record, encoder),
            Event::ElementTerminating(key) => write_tagged(11, key, encoder),
            Event::ElementTerminated(key) => write_tagged(12, key, encoder),
            Event::SequenceFlowTaken(record) => write_tagged(13, record, encoder),
            Event::ElementMigrated(record) => write_tagged(14, record, encoder),
            Event::ProcessInstanceMigrationMigrated(record) => write_tagged(15, record, encoder),
            Event::JobCreated(record) => write_tagged(16, record, encoder),
            Event::JobActivated(record) => write_tagged(17, record, encoder),
            Event::JobTimedOut(key) => write_tagged(18, key, encoder),
            Event::JobCompleted(key) => write_tagged(19, key, encoder),
            Event::JobCanceled(key) => write_tagged(20, key, encoder),
            Event::JobFailed(record) => write_tagged(21, record, encoder),
            Event::JobErrorThrown(record) => write_tagged(22, record, encoder),
            Event::JobRetriesUpdated(record) => write_tagged(23, record, encoder),
            Event::JobBatchActivated(record) => write_tagged(24, record, encoder),
            Event::TimerCreated(record) => write_tagged(25, record, encoder),
            Event::TimerTriggered(key) => write_tagged(26, key, encoder),
            Event::TimerCanceled(key) => write_tagged(27, key, encoder),
            Event::ProcessEventTriggered(record) => write_tagged(28, record, encoder),
            Event::MessagePublished(record) => write_tagged(29, record, encoder),
            Event::MessageExpired(key) => write_tagged(30, key, encoder),
            Event::MessageStartEventSubscriptionCorrelated(record) => write_tagged(
                31, record, encoder,
            ),
            Event::MessageSubscriptionCreated(record) => write_tagged(32, record, encoder),
            Event::MessageSubscriptionCorrelating(record) => write_tagged(33, record, encoder),
            Event::MessageSubscriptionCorrelated(record) => write_tagged(34, record, encoder),
            Event::MessageSubscriptionRejected(record) => write_tagged(35, record, encoder),
            Event::MessageSubscriptionDeleted(key) => write_tagged(36, key, encoder),
            Event::ProcessMessageSubscriptionCreating(record) => write_tagged(37, record, encoder),
            Event::ProcessMessageSubscriptionCreated(key) => write_tagged(38, key, encoder),
            Event::ProcessMessageSubscriptionCorrelated(record) => write_tagged(
                39, record, encoder,
            ),
            Event::ProcessMessageSubscriptionDeleted(key) => write_tagged(40, key, encoder),
            Event::ProcessMessageSubscriptionDeleting(record) => write_tagged(41, record, encoder),
            Event::VariableCreated(record) => write_tagged(42, record, encoder),
            Event::VariableUpdated(record) => write_tagged(43, record, encoder),
            Event::VariableDocumentUpdated(key) => write_tagged(44, key, encoder),
            Event::IncidentCreated(record) => write_tagged(45, record, encoder),
            Event::IncidentResolved(record) => write_tagged(46, record, encoder),
        }
    }

    #[tactic(auto, unfolding(crate::specs::Layouts::event))]
    fn read(alloc: Global, cursor: &mut Cursor<'_>) -> Result<Event, ReadFault> {
        let number = cursor.byte()?;
        read_from_1(alloc, number, cursor)
    }
}

// Reads the fields behind the number of an event, from 1 on.
#[tactic(auto, unfolding(crate::specs::Events::events_from_1))]
fn read_from_1(alloc: Global, number: u8, cursor: &mut Cursor<'_>) -> Result<Event, ReadFault>
    ensures { Reads (tables.events_from_1.behind number cursor.old) result cursor.new }
{
    match number {
        1 => Ok(Event::ProcessCreated(Format::read(alloc, cursor)?)),
        2 => Ok(Event::DeploymentCreated(Format::read(alloc, cursor)?)),
        3 => Ok(Event::CommandDistributionDistributing(Format::read(alloc, cursor)?)),
        4 => Ok(Event::CommandDistributionAcknowledged(Format::read(alloc, cursor)?)),
        5 => Ok(Event::CommandDistributionFinished(Format::read(alloc, cursor)?)),
        6 => Ok(Event::ProcessInstanceCreationCreated(Format::read(alloc, cursor)?)),
        7 => Ok(Event::ElementActivating(Format::read(alloc, cursor)?)),
        8 => Ok(Event::ElementActivated(Format::read(alloc, cursor)?)),
        9 => Ok(Event::ElementCompleting(Format::read(alloc, cursor)?)),
        10 => Ok(Event::ElementCompleted(Format::read(alloc, cursor)?)),
        11 => Ok(Event::ElementTerminating(Format::read(alloc, cursor)?)),
        12 => Ok(Event::ElementTerminated(Format::read(alloc, cursor)?)),
        13 => Ok(Event::SequenceFlowTaken(Format::read(alloc, cursor)?)),
        14 => Ok(Event::ElementMigrated(Format::read(alloc, cursor)?)),
        15 => Ok(Event::ProcessInstanceMigrationMigrated(Format::read(alloc, cursor)?)),
        16 => Ok(Event::JobCreated(Format::read(alloc, cursor)?)),
        _ => read_from_17(alloc, number, cursor),
    }
}

// Reads the fields behind the number of an event, from 17 on.
#[tactic(auto, unfolding(crate::specs::Events::events_from_17))]
fn read_from_17(alloc: Global, number: u8, cursor: &mut Cursor<'_>) -> Result<Event, ReadFault>
    ensures { Reads (tables.events_from_17.behind number cursor.old) result cursor.new }
{
    match number {
        17 => Ok(Event::JobActivated(Format::read(alloc, cursor)?)),
        18 => Ok(Event::JobTimedOut(Format::read(alloc, cursor)?)),
        19 => Ok(Event::JobCompleted(Format::read(alloc, cursor)?)),
        20 => Ok(Event::JobCanceled(Format::read(alloc, cursor)?)),
        21 => Ok(Event::JobFailed(Format::read(alloc, cursor)?)),
        22 => Ok(Event::JobErrorThrown(Format::read(alloc, cursor)?)),
        23 => Ok(Event::JobRetriesUpdated(Format::read(alloc, cursor)?)),
        24 => Ok(Event::JobBatchActivated(Format::read(alloc, cursor)?)),
        25 => Ok(Event::TimerCreated(Format::read(alloc, cursor)?)),
        26 => Ok(Event::TimerTriggered(Format::read(alloc, cursor)?)),
        27 => Ok(Event::TimerCanceled(Format::read(alloc, cursor)?)),
        28 => Ok(Event::ProcessEventTriggered(Format::read(alloc, cursor)?)),
        29 => Ok(Event::MessagePublished(Format::read(alloc, cursor)?)),
        30 => Ok(Event::MessageExpired(Format::read(alloc, cursor)?)),
        31 => Ok(Event::MessageStartEventSubscriptionCorrelated(Format::read(alloc, cursor)?)),
        32 => Ok(Event::MessageSubscriptionCreated(Format::read(alloc, cursor)?)),
        _ => read_from_33(alloc, number, cursor),
    }
}

// Reads the fields behind the number of an event, from 33 on.
#[tactic(auto, unfolding(crate::specs::Events::events_from_33))]
fn read_from_33(alloc: Global, number: u8, cursor: &mut Cursor<'_>) -> Result<Event, ReadFault>
    ensures { Reads (tables.events_from_33.behind number cursor.old) result cursor.new }
{
    match number {
        33 => Ok(Event::MessageSubscriptionCorrelating(Format::read(alloc, cursor)?)),
        34 => Ok(Event::MessageSubscriptionCorrelated(Format::read(alloc, cursor)?)),
        35 => Ok(Event::MessageSubscriptionRejected(Format::read(alloc, cursor)?)),
        36 => Ok(Event::MessageSubscriptionDeleted(Format::read(alloc, cursor)?)),
        37 => Ok(Event::ProcessMessageSubscriptionCreating(Format::read(alloc, cursor)?)),
        38 => Ok(Event::ProcessMessageSubscriptionCreated(Format::read(alloc, cursor)?)),
        39 => Ok(Event::ProcessMessageSubscriptionCorrelated(Format::read(alloc, cursor)?)),
        40 => Ok(Event::ProcessMessageSubscriptionDeleted(Format::read(alloc, cursor)?)),
        41 => Ok(Event::ProcessMessageSubscriptionDeleting(Format::read(alloc, cursor)?)),
        42 => Ok(Event::VariableCreated(Format::read(alloc, cursor)?)),
        43 => Ok(Event::VariableUpdated(Format::read(alloc, cursor)?)),
        44 => Ok(Event::VariableDocumentUpdated(Format::read(alloc, cursor)?)),
        45 => Ok(Event::IncidentCreated(Format::read(alloc, cursor)?)),
        46 => Ok(Event::IncidentResolved(Format::read(alloc, cursor)?)),
        _ => Err(ReadFault::NotSpelled),
    }
}
