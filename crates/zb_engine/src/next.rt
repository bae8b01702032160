// What comes next: which partition has something due, is to go on, or has sent a packet.
ghost use Rattle.std.specs.Prelude.{◌≡◌, ◌≤◌, ◌+◌, ℕ, List, IfOk, IfSome, Some, option_map};
ghost use Rattle.zb_model.specs.declared.record.Command.{Command as Asked};
ghost use Rattle.zb_model.specs.declared.record.Command.TheVariants as commands;
ghost use Rattle.zb_world.specs.declared.entry.Entry.{Entry};
ghost use Rattle.zb_desk.specs.Serial.{due_in_logs, going_on, first_sent};
ghost use Rattle.zb_engine.specs.Solo.{Start, logs_in, many_in, HasMade, CanBeDone, is_run};

use crate::Solo;
use std::alloc::{AllocError, Global};
use zb_disk::Disk;
use zb_model::{Command, Moment, Packet, PartitionId};
use zb_world::partition_at;

impl<D: Disk> Solo<D> {
    /// The command that is due first at a reading of the clock, at the first partition that has one. It asks the partitions
    /// in order.
    pub(crate) fn next_due(&self, reading: Moment) -> Option<(PartitionId, Command)>
        ensures { (start : Start D) (made : List Entry) → HasMade start made self.now
            → result ≡ due_in_logs reading 1 (logs_in start) made }
    {
        for index in 0..self.partitions.len() {
            if let Some(command) = self.partitions[index].due(reading) {
                return Some((partition_at(index), command));
            }
        }
        None
    }

    /// The first partition that is to go on. It asks the partitions in order.
    pub(crate) fn going_on(&self) -> Option<PartitionId>
        ensures { (start : Start D) (made : List Entry) → HasMade start made self.now
            → option_map (λ p. (p, commands.ProcessInstanceBatchContinue)) result
            ≡ going_on 1 (logs_in start) made }
    {
        for index in 0..self.partitions.len() {
            if !self.partitions[index].quiet() {
                return Some(partition_at(index));
            }
        }
        None
    }

    /// The first packet of the first outbox that isn't empty. It asks the partitions in order, and copies the packet.
    pub(crate) fn first_sent(&self, alloc: Global) -> Result<Option<Packet>, AllocError>
        ensures { (start : Start D) (made : List Entry) → HasMade start made self.now
            → IfOk result (λ packet. packet ≡ first_sent (many_in start) 1 (logs_in start) made) }
    {
        for index in 0..self.partitions.len() {
            if let Some(packet) = self.partitions[index].first_packet(alloc)? {
                return Ok(Some(packet));
            }
        }
        Ok(None)
    }
}

/// What comes next, where it can be done: a command that is run, at one of so many partitions. What
/// logs lead to can.
pub(crate) fn that_can(
    next: Option<(PartitionId, Command)>,
    count: u32,
) -> Option<(PartitionId, Command)>
    ensures can { IfSome result (CanBeDone count) }
    ensures its { IfSome result (λ one. next ≡ Some one) }
    ensures same { ((one : ℕ × Asked) → next ≡ Some one → CanBeDone count one) → result ≡ next }
{
    let next = next?;
    let (partition, command) = next;
    if partition.number() <= count && is_run(&command) {
        return Some((partition, command));
    }
    command.discard();
    None
}

// Whether a command is run.
fn is_run(command: &Command) -> bool
    ensures { result ≡ is_run command.now }
{
    !matches!(command, Command::ProcessInstanceMigrationMigrate(_))
}
