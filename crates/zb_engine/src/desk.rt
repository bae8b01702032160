// What the engine is to those who ask it, and to the one who closes it.
ghost use Rattle.std.specs.Prelude.{◌≡◌, ◌≤◌, List, length, map, None, IfOk, IfErr, OnOk};
ghost use Rattle.zb_world.specs.declared.entry.Entry.{Entry};
ghost use Rattle.zb_desk.specs.Asking.{IsDelivered, IsDeliveryCut};
ghost use Rattle.zb_engine.specs.Solo.{Start, many_in, basis_in, HasMade, HasEnded, partitions_in, stamps_in, kept_in};

use crate::Solo;
use crate::asking::answer;
use crate::delivering::deliver;
use std::alloc::Global;
use zb_desk::{Answered, Desk};
use zb_disk::Disk;
use zb_model::{Moment, PartitionId, Stop};
use zb_partition::Partition;
use zb_wire::Request;

impl<D: Disk> Solo<D> {
    /// Does units of work at a reading of the clock, at most so many as behind a request, and tells how many. After an
    /// `Err` it has stopped, and is only closed.
    pub fn deliver(&mut self, alloc: Global, reading: Moment) -> Result<u64, Stop>
        requires { kept_in self.old ≡ None }
        ensures delivered { (start : Start D) (made : List Entry) → HasMade start made self.old
            → IfOk result (IsDelivered (basis_in start) reading made
            (λ entries. HasMade start entries self.new)) }
        ensures cut { (start : Start D) (made : List Entry) → HasMade start made self.old
            → IfErr result (λ stop. IsDeliveryCut (basis_in start) reading made
            (λ entries unlogged. HasEnded start entries unlogged stop self.new)) }

        // Whatever it may have begun with.
        ensures still { OnOk result (kept_in self.new ≡ None) }
        ensures many { length (partitions_in self.new) ≡ length (partitions_in self.old) }
    {
        deliver(alloc, self, reading)
    }

    /// The stop that ended the run, with the partition that met it, if there was one. A want of memory that no
    /// partition met is told of partition 1.
    pub fn stop(&self) -> Option<(PartitionId, Stop)>
        ensures { result ≡ kept_in self.now }
    {
        self.kept
    }

    /// What is left of the partitions, in order, and the places that the batches of each have. It takes no memory.
    pub fn close(self) -> (Vec<Partition<D>>, Vec<Vec<u64>>)
        ensures partitions { result.0.items ≡ partitions_in self }
        ensures stamps { map (λ places. places.items) result.1.items ≡ stamps_in self }
    {
        let Solo {
            partitions,
            stamps,
            ..
        } = self;
        (partitions, stamps)
    }

    /// How many partitions it has.
    pub(crate) fn count(&self) -> u32
        ensures some { 1 ≤ result }
        ensures few { result ≤ 16 }
        ensures many { result ≡ length (partitions_in self.now) }
        ensures count { (start : Start D) (made : List Entry) → HasMade start made self.now
            → result ≡ many_in start }
    {
        self.partitions.len() as u32
    }
}

impl<D: Disk> Desk for Solo<D> {
    ghost Begun = { Start D };

    ghost basis = { basis_in };

    ghost has = { HasMade };

    ghost stopped = { HasEnded };

    ghost goes_on = { λ solo. kept_in solo ≡ None };

    ghost many = { λ solo. length (partitions_in solo) };

    fn partitions(&self) -> u32 {
        self.count()
    }

    fn ask(&mut self, alloc: Global, reading: Moment, request: Request) -> Result<Answered, Stop> {
        answer(alloc, self, reading, request)
    }
}
