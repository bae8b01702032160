// Units of work: the engine goes on where a batch was full, and partitions are handed what was sent to them.
ghost use Rattle.std.specs.Prelude.{◌≡◌, ◌≤◌, ℕ, List, ◌++◌, length, drop, if◌then◌else◌, None, IfOk, IfErr, IfSome, OnOk};
ghost use Rattle.zb_model.specs.declared.record.Batch.{Batch as Record};
ghost use Rattle.zb_views.specs.Standing.{begun_by};
ghost use Rattle.zb_record.specs.Answers as answers;
ghost use Rattle.zb_world.specs.declared.entry.Entry.{Entry};
ghost use Rattle.zb_desk.specs.Asking.{IsDelivered, IsDeliveryCut};
ghost use Rattle.zb_desk.specs.Serial.{answers_in_hand, packet_next, unit_in_logs};
ghost use Rattle.zb_rules.specs.Own.{IsSupported};
ghost use Rattle.zb_engine.specs.Solo.{Start, basis_in, logs_in, many_in, partitions_in, kept_in, HasMade, HasEnded, IsPlaced, IsTurnedAway};

use crate::Solo;
use crate::next::that_can;
use std::alloc::{AllocError, Global};
use zb_disk::Disk;
use zb_model::{Command, Moment, Packet, PartitionId, Stop};
use zb_packets::{answer_packet, delivery_of};

/// Does units of work at a reading of the clock, at most so many as behind a request, and tells how many. The answers that a
/// unit sends are taken before anything else is sent again. After an `Err` the engine has stopped.
pub fn deliver<D: Disk>(alloc: Global, solo: &mut Solo<D>, reading: Moment) -> Result<u64, Stop>
    requires { kept_in solo.old ≡ None }
    ensures delivered { (start : Start D) (made : List Entry)
        → HasMade start made solo.old
        → IfOk result (IsDelivered (basis_in start) reading made
        (λ entries. HasMade start entries solo.new)) }
    ensures cut { (start : Start D) (made : List Entry) → HasMade start made solo.old
        → IfErr result (λ stop. IsDeliveryCut (basis_in start) reading made
        (λ entries unlogged. HasEnded start entries unlogged stop solo.new)) }

    // Whatever it may have begun with.
    ensures still { OnOk result (kept_in solo.new ≡ None) }
    ensures many { length (partitions_in solo.new) ≡ length (partitions_in solo.old) }
{
    let mut hand = Vec::new(alloc);
    for done in 0..solo.units {
        let next = match next_unit(alloc, solo, &mut hand) {
            Ok(next) => that_can(next, solo.count()),
            Err(AllocError) => return Err(solo.keep(PartitionId::new(1), Stop::Memory)),
        };
        let Some(next) = next else {
            return Ok(done);
        };
        let (partition, command) = next;
        match do_unit(alloc, solo, reading, partition, command, &mut hand) {
            Ok(()) => {}
            Err(stop) => return Err(stop),
        }
    }
    Ok(solo.units)
}

// The next unit of work, and its partition: the engine goes on, or the oldest answer in hand is taken, or what was sent first
// of all that is still in an outbox. An answer leaves the hand.
fn next_unit<D: Disk>(
    alloc: Global,
    solo: &Solo<D>,
    hand: &mut Vec<Packet>,
) -> Result<Option<(PartitionId, Command)>, AllocError>
    ensures next { (start : Start D) (made units : List Entry) → HasMade start made solo.now
        → hand.old.items ≡ answers_in_hand (many_in start) units
        → IfOk result (λ next. next ≡ unit_in_logs (logs_in start) units made) }
    ensures taken { (n : ℕ) (units : List Entry) → hand.old.items ≡ answers_in_hand n units
        → IfOk result (λ next. IfSome next (λ unit.
        hand.new.items
        ≡ (if answers.is_answer unit.1 then drop 1 hand.old.items else hand.old.items))) }
{
    if let Some(partition) = solo.going_on() {
        return Ok(Some((partition, Command::ProcessInstanceBatchContinue)));
    }
    Ok(delivery_of(next_packet(alloc, solo, hand)?))
}

// The packet that is taken next: the oldest answer in hand, which leaves it, or what was sent first of all that is still in
// an outbox.
fn next_packet<D: Disk>(
    alloc: Global,
    solo: &Solo<D>,
    hand: &mut Vec<Packet>,
) -> Result<Option<Packet>, AllocError>
    ensures next { (start : Start D) (made units : List Entry) → HasMade start made solo.now
        → hand.old.items ≡ answers_in_hand (many_in start) units
        → IfOk result (λ packet. packet ≡ packet_next (logs_in start) units made) }
    ensures taken { (n : ℕ) (units : List Entry) → hand.old.items ≡ answers_in_hand n units
        → IfOk result (λ packet. IfSome packet (λ sent.
        hand.new.items
        ≡ (if answers.is_answer sent.command then drop 1 hand.old.items else hand.old.items))) }
{
    if hand.is_empty() {
        return solo.first_sent(alloc);
    }
    let packet = hand.remove(0);
    Ok(Some(packet))
}

// Does one unit of work at a partition, and takes the answer of its batch in hand.
fn do_unit<D: Disk>(
    alloc: Global,
    solo: &mut Solo<D>,
    reading: Moment,
    partition: PartitionId,
    command: Command,
    hand: &mut Vec<Packet>,
) -> Result<(), Stop>
    requires goes_on { kept_in solo.old ≡ None }
    requires there { partition ≤ length (partitions_in solo.old) }
    requires run { IsSupported command }
    ensures placed { (start : Start D) (made : List Entry) → HasMade start made solo.old
        → OnOk result ((batch : Record)
        × IsPlaced start made reading (partition, command) batch solo.new
        × (hand.new.items ≡ hand.old.items ++ begun_by
        (answers.answer_packet partition (many_in start) batch))) }
    ensures stopped { (start : Start D) (made : List Entry) → HasMade start made solo.old
        → IfErr result
        (λ stop. IsTurnedAway start made reading (partition, command) stop solo.new) }

    // Whatever it may have begun with.
    ensures still { OnOk result (kept_in solo.new ≡ None) }
    ensures many { length (partitions_in solo.new) ≡ length (partitions_in solo.old) }
{
    match hand.reserve(1) {
        Ok(()) => {}
        Err(AllocError) => {
            command.discard();
            return Err(solo.keep(PartitionId::new(1), Stop::Memory));
        }
    }
    let batch = match solo.commit(alloc, reading, partition, command) {
        Ok(batch) => batch,
        Err(stop) => return Err(stop),
    };
    if let Some(answer) = answer_packet(&batch, partition, solo.count()) {
        hand.push_reserved(answer);
    }
    batch.discard();
    Ok(())
}
