// A command at one of the partitions.
ghost use Rattle.std.specs.Prelude.{◌≡◌, ◌≤◌, List, length, Some, None, IfOk, IfErr, OnOk};
ghost use Rattle.zb_world.specs.declared.entry.Entry.{Entry};
ghost use Rattle.zb_rules.specs.Own.{IsSupported};
ghost use Rattle.zb_engine.specs.Solo.{Start, HasMade, IsPlaced, IsTurnedAway, partitions_in, stamps_in, kept_in};

use crate::Solo;
use std::alloc::{AllocError, Global};
use zb_disk::Disk;
use zb_model::{Batch, Command, Moment, PartitionId, Stop};

impl<D: Disk> Solo<D> {
    /// Submits a command at a partition, at a reading of the clock, and notes the place of its batch. After an `Err` it has
    /// stopped.
    pub(crate) fn commit(
        &mut self,
        alloc: Global,
        reading: Moment,
        partition: PartitionId,
        command: Command,
    ) -> Result<Batch, Stop>
        requires goes_on { kept_in self.old ≡ None }
        requires there { partition ≤ length (partitions_in self.old) }
        requires run { IsSupported command }
        ensures placed { (start : Start D) (made : List Entry) → HasMade start made self.old
            → IfOk result
            (λ batch. IsPlaced start made reading (partition, command) batch self.new) }
        ensures stopped { (start : Start D) (made : List Entry) → HasMade start made self.old
            → IfErr result
            (λ stop. IsTurnedAway start made reading (partition, command) stop self.new) }

        // Whatever it may have begun with.
        ensures still { OnOk result (kept_in self.new ≡ None) }
        ensures many { length (partitions_in self.new) ≡ length (partitions_in self.old) }
    {
        let index = partition.number() as usize - 1;
        let place = self.place;
        let Some(next) = place.checked_add(1) else {
            command.discard();
            return Err(self.keep(partition, Stop::Memory));
        };
        match self.stamps[index].reserve(1) {
            Ok(()) => {}
            Err(AllocError) => {
                command.discard();
                return Err(self.keep(partition, Stop::Memory));
            }
        }
        match self.partitions[index].submit(alloc, reading, place, command) {
            Ok(batch) => {
                self.stamps[index].push_reserved(place);
                self.place = next;
                Ok(batch)
            }
            Err(stop) => {
                self.kept = Some((partition, stop));
                Err(stop)
            }
        }
    }

    /// Keeps the stop that ended the run.
    pub(crate) fn keep(&mut self, partition: PartitionId, stop: Stop) -> Stop
        ensures stop { result ≡ stop }
        ensures partitions { partitions_in self.new ≡ partitions_in self.old }
        ensures stamps { stamps_in self.new ≡ stamps_in self.old }
        ensures kept { kept_in self.new ≡ Some (partition, stop) }
    {
        self.kept = Some((partition, stop));
        stop
    }
}
