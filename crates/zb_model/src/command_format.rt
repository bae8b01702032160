// The format of commands, and passing over them.
ghost use Rattle.zb_format.specs.Reading.{Reads, skipped_at};
ghost use Rattle.zb_model.specs.Commands as tables;
ghost use Rattle.zb_model.specs.Layouts as layouts;

use crate::Command;
use std::alloc::{AllocError, Global};
use zb_base::Key;
use zb_exchange_records::{
    JobBatchActivate, JobComplete, JobError, JobFailure, JobRetries, MessageCorrelation,
    MessagePublish, MessageSubscription, MessageSubscriptionDelete, SubscribedMessage,
};
use zb_format::{Cursor, Encoder, Format, ReadFault, Skip, write_tagged};
use zb_instance_records::{
    CommandDistribution, ProcessDefinition, ProcessInstanceCreationCreate,
    ProcessInstanceMigration, VariableDocumentUpdate,
};
use zb_process::Model;

impl Format for Command {
    ghost layout = { layouts.command };

    #[tactic(auto, unfolding(crate::specs::Layouts::command))]
    fn write(&self, encoder: &mut Encoder) -> Result<(), AllocError> {
        match self {
            Command::DeploymentCreate(model) => write_tagged(1, model, encoder),
            Command::ProcessInstanceCreationCreate(record) => write_tagged(2, record, encoder),
            Command::ProcessInstanceCancel(key) => write_tagged(3, key, encoder),
            Command::VariableDocumentUpdate(record) => write_tagged(4, record, encoder),
            Command::JobBatchActivate(record) => write_tagged(5, record, encoder),
            Command::JobComplete(record) => write_tagged(6, record, encoder),
            Command::JobFail(record) => write_tagged(7, record, encoder),
            Command::JobThrowError(record) => write_tagged(8, record, encoder),
            Command::JobUpdateRetries(record) => write_tagged(9, record, encoder),
            Command::JobTimeOut(key) => write_tagged(10, key, encoder),
            Command::IncidentResolve(key) => write_tagged(11, key, encoder),
            Command::MessagePublish(record) => write_tagged(12, record, encoder),
            Command::MessageExpire(key) => write_tagged(13, key, encoder),
            Command::TimerTrigger(key) => write_tagged(14, key, encoder),
            Command::ProcessInstanceMigrationMigrate(record) => write_tagged(15, record, encoder),
            Command::ProcessInstanceBatchContinue => encoder.add(&[16]),
            Command::DeploymentDistribute(record) => write_tagged(17, record, encoder),
            Command::CommandDistributionAcknowledge(record) => write_tagged(18, record, encoder),
            Command::MessageSubscriptionCreate(record) => write_tagged(19, record, encoder),
            Command::ProcessMessageSubscriptionCreate(key) => write_tagged(20, key, encoder),
            Command::ProcessMessageSubscriptionCorrelate(record) => write_tagged(
                21, record, encoder,
            ),
            Command::MessageSubscriptionCorrelate(record) => write_tagged(22, record, encoder),
            Command::MessageSubscriptionReject(record) => write_tagged(23, record, encoder),
            Command::MessageSubscriptionDelete(record) => write_tagged(24, record, encoder),
            Command::ProcessMessageSubscriptionDelete(key) => write_tagged(25, key, encoder),
        }
    }

    #[tactic(auto, unfolding(crate::specs::Layouts::command))]
    fn read(alloc: Global, cursor: &mut Cursor<'_>) -> Result<Command, ReadFault> {
        let number = cursor.byte()?;
        read_from_1(alloc, number, cursor)
    }
}

// Reads the fields behind the number of a command, from 1 on.
#[tactic(auto, unfolding(crate::specs::Commands::commands_from_1))]
fn read_from_1(alloc: Global, number: u8, cursor: &mut Cursor<'_>) -> Result<Command, ReadFault>
    ensures { Reads (tables.commands_from_1.behind number cursor.old) result cursor.new }
{
    match number {
        1 => Ok(Command::DeploymentCreate(Format::read(alloc, cursor)?)),
        2 => Ok(Command::ProcessInstanceCreationCreate(Format::read(alloc, cursor)?)),
        3 => Ok(Command::ProcessInstanceCancel(Format::read(alloc, cursor)?)),
        4 => Ok(Command::VariableDocumentUpdate(Format::read(alloc, cursor)?)),
        5 => Ok(Command::JobBatchActivate(Format::read(alloc, cursor)?)),
        6 => Ok(Command::JobComplete(Format::read(alloc, cursor)?)),
        7 => Ok(Command::JobFail(Format::read(alloc, cursor)?)),
        8 => Ok(Command::JobThrowError(Format::read(alloc, cursor)?)),
        9 => Ok(Command::JobUpdateRetries(Format::read(alloc, cursor)?)),
        10 => Ok(Command::JobTimeOut(Format::read(alloc, cursor)?)),
        11 => Ok(Command::IncidentResolve(Format::read(alloc, cursor)?)),
        12 => Ok(Command::MessagePublish(Format::read(alloc, cursor)?)),
        13 => Ok(Command::MessageExpire(Format::read(alloc, cursor)?)),
        _ => read_from_14(alloc, number, cursor),
    }
}

// Reads the fields behind the number of a command, from 14 on.
#[tactic(auto, unfolding(crate::specs::Commands::commands_from_14))]
fn read_from_14(alloc: Global, number: u8, cursor: &mut Cursor<'_>) -> Result<Command, ReadFault>
    ensures { Reads (tables.commands_from_14.behind number cursor.old) result cursor.new }
{
    match number {
        14 => Ok(Command::TimerTrigger(Format::read(alloc, cursor)?)),
        15 => Ok(Command::ProcessInstanceMigrationMigrate(Format::read(alloc, cursor)?)),
        16 => Ok(Command::ProcessInstanceBatchContinue),
        17 => Ok(Command::DeploymentDistribute(Format::read(alloc, cursor)?)),
        18 => Ok(Command::CommandDistributionAcknowledge(Format::read(alloc, cursor)?)),
        19 => Ok(Command::MessageSubscriptionCreate(Format::read(alloc, cursor)?)),
        20 => Ok(Command::ProcessMessageSubscriptionCreate(Format::read(alloc, cursor)?)),
        21 => Ok(Command::ProcessMessageSubscriptionCorrelate(Format::read(alloc, cursor)?)),
        22 => Ok(Command::MessageSubscriptionCorrelate(Format::read(alloc, cursor)?)),
        23 => Ok(Command::MessageSubscriptionReject(Format::read(alloc, cursor)?)),
        24 => Ok(Command::MessageSubscriptionDelete(Format::read(alloc, cursor)?)),
        25 => Ok(Command::ProcessMessageSubscriptionDelete(Format::read(alloc, cursor)?)),
        _ => Err(ReadFault::NotSpelled),
    }
}

impl Skip for Command {
    #[tactic(auto, unfolding(crate::specs::Layouts::command))]
    fn skip(alloc: Global, cursor: &mut Cursor<'_>) -> Result<(), ReadFault> {
        let number = cursor.byte()?;
        skip_from_1(alloc, number, cursor)
    }
}

// Passes over the fields behind the number of a command, from 1 on.
#[tactic(auto, using(zb_format::proofs::SkipLemmas::skips), unfolding(crate::specs::Commands::commands_from_1))]
fn skip_from_1(alloc: Global, number: u8, cursor: &mut Cursor<'_>) -> Result<(), ReadFault>
    ensures { Reads (skipped_at (tables.commands_from_1.behind number) cursor.old) result cursor.new }
{
    match number {
        1 => Model::skip(alloc, cursor),
        2 => ProcessInstanceCreationCreate::skip(alloc, cursor),
        3 => Key::skip(alloc, cursor),
        4 => VariableDocumentUpdate::skip(alloc, cursor),
        5 => JobBatchActivate::skip(alloc, cursor),
        6 => JobComplete::skip(alloc, cursor),
        7 => JobFailure::skip(alloc, cursor),
        8 => JobError::skip(alloc, cursor),
        9 => JobRetries::skip(alloc, cursor),
        10 => Key::skip(alloc, cursor),
        11 => Key::skip(alloc, cursor),
        12 => MessagePublish::skip(alloc, cursor),
        13 => Key::skip(alloc, cursor),
        _ => skip_from_14(alloc, number, cursor),
    }
}

// Passes over the fields behind the number of a command, from 14 on.
#[tactic(auto, using(zb_format::proofs::SkipLemmas::skips), unfolding(crate::specs::Commands::commands_from_14))]
fn skip_from_14(alloc: Global, number: u8, cursor: &mut Cursor<'_>) -> Result<(), ReadFault>
    ensures { Reads (skipped_at (tables.commands_from_14.behind number) cursor.old) result cursor.new }
{
    match number {
        14 => Key::skip(alloc, cursor),
        15 => ProcessInstanceMigration::skip(alloc, cursor),
        16 => Ok(()),
        17 => ProcessDefinition::skip(alloc, cursor),
        18 => CommandDistribution::skip(alloc, cursor),
        19 => MessageSubscription::skip(alloc, cursor),
        20 => Key::skip(alloc, cursor),
        21 => MessageCorrelation::skip(alloc, cursor),
        22 => SubscribedMessage::skip(alloc, cursor),
        23 => SubscribedMessage::skip(alloc, cursor),
        24 => MessageSubscriptionDelete::skip(alloc, cursor),
        25 => Key::skip(alloc, cursor),
        _ => Err(ReadFault::NotSpelled),
    }
}
