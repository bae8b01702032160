// The lines of records.
ghost use Rattle.std.specs.Prelude.{◌≡◌, ◌++◌, ◌+◌, ◌<◌, ◌≤◌, ◌^◌, string_bytes, OnOk};
ghost use Rattle.zb_show.specs.Lines as lines;
ghost use Rattle.zb_show.specs.Lines.{command_line, event_line, rejection_line, event_lines, outcome_lines, batch_lines, reason_text, stamp_behind};

use crate::names::{
    command_key, command_names, element_of, event_key, event_names, rejection_name,
};
use crate::parts::{put_end, put_front, put_word};
use std::alloc::AllocError;
use zb_model::{Batch, Command, Event, Key, Outcome, PartitionId, Rejection};

/// Where a record stands. A position is as wide as the number of a log's frames and of a frame's events together.
#[derive(Clone, Copy)]
pub struct Stamp {
    /// Its position among the records of its partition, from 1.
    pub position: u128,
    /// The position of the command that led to it; 0 of a command.
    pub source: u128,
    pub moment: u64,
    pub partition: u32,
}

/// Adds the lines of a batch, whose command has this position. It takes a step for each byte.
pub fn put_batch(
    text: &mut String,
    partition: PartitionId,
    position: u128,
    batch: &Batch,
) -> Result<(), AllocError>
    requires { position + 2 ^ 64 < 2 ^ 128 }
    ensures { OnOk result (string_bytes text.new ≡ string_bytes text.old ++ batch_lines partition position batch.now) }
{
    let stamp = Stamp {
        position,
        source: 0,
        moment: batch.moment.ms(),
        partition: partition.number(),
    };
    put_command(text, stamp, &batch.command)?;
    put_outcome(text, stamp, &batch.command, &batch.outcome)
}

/// How many records a batch has.
pub fn records_in(batch: &Batch) -> u128
    ensures records { result ≡ lines.records_in batch.now }
    ensures few { result ≤ 2 ^ 64 }
{
    match &batch.outcome {
        Outcome::Rejected(_) => 2,
        Outcome::Accepted(events) => 1 + events.as_slice().len() as u128,
    }
}

// Adds the line of a command.
fn put_command(text: &mut String, stamp: Stamp, command: &Command) -> Result<(), AllocError>
    ensures { OnOk result (string_bytes text.new ≡ string_bytes text.old ++ command_line stamp command.now) }
{
    let names = command_names(command);
    put_front(text, stamp, "COMMAND", names, command_key(command))?;
    put_end(text, "-")
}

// Adds the lines of what became of the command that stands here.
fn put_outcome(
    text: &mut String,
    stamp: Stamp,
    command: &Command,
    outcome: &Outcome,
) -> Result<(), AllocError>
    requires { stamp.position + 2 ^ 64 < 2 ^ 128 }
    ensures { OnOk result (string_bytes text.new ≡ string_bytes text.old ++ outcome_lines stamp command.now outcome.now) }
{
    match outcome {
        Outcome::Rejected(rejection) => put_rejection(text, behind(stamp, 0), command, rejection),
        Outcome::Accepted(events) => put_events(text, stamp, events.as_slice()),
    }
}

// The stamp of the record with this number, from 0, behind the command that stands here.
fn behind(stamp: Stamp, i: usize) -> Stamp
    requires { stamp.position + 2 ^ 64 < 2 ^ 128 }
    ensures { result ≡ stamp_behind stamp i }
{
    Stamp {
        position: stamp.position + 1 + i as u128,
        source: stamp.position,
        moment: stamp.moment,
        partition: stamp.partition,
    }
}

// Adds the lines of the events behind the command that stands here.
fn put_events(text: &mut String, stamp: Stamp, events: &[Event]) -> Result<(), AllocError>
    requires { stamp.position + 2 ^ 64 < 2 ^ 128 }
    ensures { OnOk result (string_bytes text.new ≡ string_bytes text.old ++ event_lines stamp 0 events.now) }
{
    for (i, event) in events.iter().enumerate() {
        put_event(text, behind(stamp, i), event)?;
    }
    Ok(())
}

// Adds the line of an event.
fn put_event(text: &mut String, stamp: Stamp, event: &Event) -> Result<(), AllocError>
    ensures { OnOk result (string_bytes text.new ≡ string_bytes text.old ++ event_line stamp event.now) }
{
    put_front(text, stamp, "EVENT", event_names(event), event_key(event))?;
    put_end(text, element_of(event))
}

// Adds the line of a rejection.
fn put_rejection(
    text: &mut String,
    stamp: Stamp,
    command: &Command,
    rejection: &Rejection,
) -> Result<(), AllocError>
    ensures { OnOk result (string_bytes text.new ≡ string_bytes text.old ++ rejection_line stamp command.now rejection.now) }
{
    let names = command_names(command);
    put_front(
        text,
        stamp,
        "COMMAND_REJECTION",
        names,
        command_key(command),
    )?;
    put_reason(text, rejection)
}

// Adds a rejection's kind and reason, which end its line.
#[tactic(auto, unfolding(crate::specs::Lines::reason_text))]
fn put_reason(text: &mut String, rejection: &Rejection) -> Result<(), AllocError>
    ensures { OnOk result (string_bytes text.new ≡ string_bytes text.old ++ reason_text rejection.now) }
{
    put_word(text, rejection_name(rejection.kind))?;
    put_end(text, rejection.reason.as_str())
}
