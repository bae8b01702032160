// How the engine begins.
ghost use Rattle.std.specs.Prelude.{◌≡◌, ◌≤◌, [], List, length, map, replicate, sum_by, IsTrue, None, IfOk, IfErr, IfSome};
ghost use Rattle.std.specs.List.{list_all};
ghost use Rattle.zb_partition.specs.Partition.{frames_of, is_live};
ghost use Rattle.zb_desk.specs.Numbered.{EachFrom};
ghost use Rattle.zb_partition.specs.Ledger.{Opening};
ghost use Rattle.zb_engine.specs.Solo.{start_of, HasPart, HasMade, partitions_in, kept_in};

use crate::Solo;
use std::alloc::{AllocError, Global};
use zb_disk::Disk;
use zb_partition::Partition;

impl<D: Disk> Solo<D> {
    /// The engine over partitions that were opened and go on, in order, which does at most so many units of
    /// work behind a request. They are handed back where there is no memory.
    pub fn new(
        alloc: Global,
        partitions: Vec<Partition<D>>,
        units: u64,
    ) -> Result<Solo<D>, (Vec<Partition<D>>, AllocError)>
        requires some { 1 ≤ length partitions.items }
        requires few { length partitions.items ≤ 16 }
        requires live { IsTrue (list_all is_live partitions.items) }
        ensures goes_on { IfOk result (λ solo. kept_in solo ≡ None) }
        ensures partitions { IfOk result (λ solo. partitions_in solo ≡ partitions.items) }
        ensures made { (openings : List (Opening D))
            → EachFrom (HasPart (length openings) []) 1 openings partitions.items
            → IfOk result (HasMade (start_of openings units) []) }
        ensures refused { IfErr result (λ back. back.0 ≡ partitions) }
    {
        let Ok(stamps) = no_stamps(alloc, partitions.len()) else {
            return Err((partitions, AllocError));
        };
        let Some(place) = frames_in(&partitions) else {
            return Err((partitions, AllocError));
        };
        Ok(Solo {
            partitions,
            stamps,
            place,
            units,
            kept: None,
        })
    }
}

// No stamps for so many partitions.
fn no_stamps(alloc: Global, count: usize) -> Result<Vec<Vec<u64>>, AllocError>
    ensures { IfOk result (λ stamps. map (λ places. places.items) stamps.items
        ≡ replicate count []) }
{
    let mut stamps = Vec::with_capacity(alloc, count)?;
    for _place in 0..count {
        stamps.push(Vec::new(alloc))?;
    }
    Ok(stamps)
}

// How many frames the logs of some partitions have; `None` where that is no number of 64 bits.
fn frames_in<D: Disk>(partitions: &[Partition<D>]) -> Option<u64>
    ensures { IfSome result (λ frames. frames ≡ sum_by frames_of partitions.now) }
{
    let mut frames: u64 = 0;
    for partition in partitions {
        frames = frames.checked_add(partition.frames())?;
    }
    Some(frames)
}
