// Requests.
ghost use Rattle.std.specs.Prelude.{◌≡◌, ℕ, List, length, IsSome, Some, None, IfOk, IfErr, OnOk};
ghost use Rattle.zb_model.specs.declared.record.Batch.{Batch as Record};
ghost use Rattle.zb_rules.specs.Step.{IsStep};
ghost use Rattle.zb_world.specs.declared.entry.Entry.{Entry};
ghost use Rattle.zb_wire.specs.declared.request.Request.{Request as Asked};
ghost use Rattle.zb_wire.specs.declared.request.Request.TheVariants as requests;
ghost use Rattle.zb_wire.specs.Asked.{command_of};
ghost use Rattle.zb_reply.specs.Reply.{answer_of, IsSpoken};
ghost use Rattle.zb_desk.specs.Asking.{IsAsked, IsCut};
ghost use Rattle.zb_engine.specs.Solo.{Start, basis_in, partitions_in, kept_in, HasMade, HasEnded, IsDone, IsCutOff};

use crate::Solo;
use crate::delivering::deliver;
use crate::next::that_can;
use std::alloc::{AllocError, Global};
use zb_desk::Answered;
use zb_disk::Disk;
use zb_model::{Batch, Moment, PartitionId, Stop};
use zb_reply::{Reply, reply_of};
use zb_wire::Request;

// A tick makes at most so many batches.
const MOST_DUE: u64 = 1000;

/// Carries a request out at a reading of the clock, and does units of work behind it. After an `Err` the engine has stopped.
pub fn answer<D: Disk>(
    alloc: Global,
    solo: &mut Solo<D>,
    reading: Moment,
    request: Request,
) -> Result<Answered, Stop>
    requires { kept_in solo.old ≡ None }
    ensures asked { (start : Start D) (made : List Entry) → HasMade start made solo.old
        → IfOk result (IsAsked (basis_in start) request reading made
        (λ entries. HasMade start entries solo.new)) }
    ensures cut { (start : Start D) (made : List Entry) → HasMade start made solo.old
        → IfErr result (λ stop. IsCut (basis_in start) request reading made
        (λ entries unlogged. HasEnded start entries unlogged stop solo.new)) }

    // Whatever it may have begun with.
    ensures still { OnOk result (kept_in solo.new ≡ None) }
    ensures spoken { IfOk result (λ answered. IsSpoken answered.reply) }
    ensures many { length (partitions_in solo.new) ≡ length (partitions_in solo.old) }
{
    match carry_out(alloc, solo, reading, request) {
        Ok(reply) => match deliver(alloc, solo, reading) {
            Ok(units) => Ok(Answered { reply, units }),
            Err(stop) => Err(stop),
        },
        Err(stop) => Err(stop),
    }
}

// Does what a request itself asks for at a reading of the clock, and answers the reply to what it led to.
fn carry_out<D: Disk>(
    alloc: Global,
    solo: &mut Solo<D>,
    reading: Moment,
    request: Request,
) -> Result<Reply, Stop>
    requires { kept_in solo.old ≡ None }
    ensures done { (start : Start D) (made : List Entry) → HasMade start made solo.old
        → IfOk result (λ reply. IsDone start made request reading reply solo.new) }
    ensures cut { (start : Start D) (made : List Entry) → HasMade start made solo.old
        → IfErr result (λ stop. IsCutOff start made request reading stop solo.new) }

    // Whatever it may have begun with.
    ensures still { OnOk result (kept_in solo.new ≡ None) }
    ensures spoken { IfOk result IsSpoken }
    ensures many { length (partitions_in solo.new) ≡ length (partitions_in solo.old) }
{
    match request {
        Request::Tick => tick(alloc, solo, reading),
        Request::Advance(_) => Ok(Reply::Advance(reading)),
        Request::Settle => Ok(Reply::Settle),
        request => command(alloc, solo, reading, request),
    }
}

// Submits what is due, and tells how much it was.
fn tick<D: Disk>(alloc: Global, solo: &mut Solo<D>, reading: Moment) -> Result<Reply, Stop>
    requires { kept_in solo.old ≡ None }
    ensures done { (start : Start D) (made : List Entry) → HasMade start made solo.old
        → IfOk result (λ reply. IsDone start made requests.Tick reading reply solo.new) }
    ensures cut { (start : Start D) (made : List Entry) → HasMade start made solo.old
        → IfErr result (λ stop. IsCutOff start made requests.Tick reading stop solo.new) }

    // Whatever it may have begun with.
    ensures still { OnOk result (kept_in solo.new ≡ None) }
    ensures spoken { IfOk result IsSpoken }
    ensures many { length (partitions_in solo.new) ≡ length (partitions_in solo.old) }
{
    for done in 0..MOST_DUE {
        let Some(next) = that_can(solo.next_due(reading), solo.count()) else {
            return Ok(Reply::Tick(done));
        };
        let (partition, command) = next;
        match solo.commit(alloc, reading, partition, command) {
            Ok(batch) => batch.discard(),
            Err(stop) => return Err(stop),
        }
    }
    Ok(Reply::Tick(MOST_DUE))
}

// Submits the command of a client's request at its partition, and answers by its batch.
fn command<D: Disk>(
    alloc: Global,
    solo: &mut Solo<D>,
    reading: Moment,
    request: Request,
) -> Result<Reply, Stop>
    requires goes_on { kept_in solo.old ≡ None }
    requires command { IsSome (command_of request) }
    ensures done { (start : Start D) (made : List Entry) → HasMade start made solo.old
        → IfOk result (λ reply. IsDone start made request reading reply solo.new) }
    ensures cut { (start : Start D) (made : List Entry) → HasMade start made solo.old
        → IfErr result (λ stop. IsCutOff start made request reading stop solo.new) }

    // Whatever it may have begun with. What is told is the answer of a batch.
    ensures still { OnOk result (kept_in solo.new ≡ None) }
    ensures told { IfOk result (λ reply. (batch : Record) × (answer_of batch ≡ Some reply)) }
    ensures many { length (partitions_in solo.new) ≡ length (partitions_in solo.old) }
{
    let partition = request.partition(solo.count());
    let Some(command) = request.into_command() else {
        unreachable!()
    };
    let batch = match solo.commit(alloc, reading, partition, command) {
        Ok(batch) => batch,
        Err(stop) => return Err(stop),
    };
    match reply_for(alloc, &batch) {
        Ok(Some(reply)) => {
            batch.discard();
            Ok(reply)
        }
        Ok(None) | Err(AllocError) => {
            batch.discard();
            Err(solo.keep(PartitionId::new(1), Stop::Memory))
        }
    }
}

// The reply to a client's request whose command became this batch, if it has one. A step of a log
// has.
fn reply_for(alloc: Global, batch: &Batch) -> Result<Option<Reply>, AllocError>
    ensures told { IfOk result (λ reply. reply ≡ answer_of batch.now) }
    ensures there { (p n : ℕ) (log : List Record) (request : Asked)
        → command_of request ≡ Some batch.now.command → IsStep p n log batch.now
        → IfOk result (λ reply. IsSome reply) }
{
    reply_of(alloc, batch)
}
