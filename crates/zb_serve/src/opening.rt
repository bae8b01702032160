ghost use Rattle.std.specs.Prelude.{◌≡◌, ◌≤◌, ◌+◌, ◌^◌, [], length, None, vec_capacity, IfOk, IfErr};
ghost use Rattle.std.specs.List.{AllZip};
ghost use Rattle.zb_desk.specs.Numbered.{EachFrom};
ghost use Rattle.zb_engine.specs.Solo.{Start, HasMade, partitions_in, kept_in};
ghost use Rattle.zb_serve.specs.Ends.{Told, volumes_ends};
ghost use Rattle.zb_serve.specs.Served.{FailsToOpen};
ghost use Rattle.zb_serve.specs.Opening.{open_cause_of, TellsOf, IsHandedBack, IsOpenedOver, IsBegunOver};

use crate::closing::{close_behind, hand_back};
use crate::run::Cause;
use std::alloc::{AllocError, Global};
use zb_disk::Disk;
use zb_engine::Solo;
use zb_model::PartitionId;
use zb_partition::{OpenFault, Partition};
use zb_store::Volume;
use zb_world::partition_at;

/// Opens the log of each volume, in order, up to the first one that can't be opened, and makes the
/// engine over them, with the room that the volumes had. At an error it tells why the run ends, and
/// hands all volumes back in order.
pub fn open_engine<D: Disk>(
    alloc: Global,
    volumes: Vec<Volume<D>>,
    limit: u64,
    units: u64,
) -> Result<(Solo<D>, Vec<Volume<D>>), (Cause, Vec<Volume<D>>)>
    requires limit { limit ≤ 2 ^ 32 }
    requires some { 1 ≤ length volumes.items }
    requires few { length volumes.items ≤ 16 }
    ensures opened { IfOk result (λ opened. (start : Start D)
        × IsBegunOver D.Disk limit units volumes.items start × HasMade start [] opened.0) }
    ensures goes_on { IfOk result (λ opened. kept_in opened.0 ≡ None) }
    ensures many { IfOk result (λ opened. length (partitions_in opened.0) ≡ length volumes.items) }
    ensures none { IfOk result (λ opened. opened.1.items ≡ []) }
    ensures room { IfOk result (λ opened. length volumes.items ≤ vec_capacity opened.1) }
    ensures back { IfErr result (λ refused.
        AllZip (IsHandedBack D.Disk) volumes.items refused.1.items) }
    ensures unopened { IfErr result (λ refused. (told : Told) → TellsOf D.Disk told
        → FailsToOpen told (volumes_ends D.Disk volumes.items refused.1.items) refused.0) }
{
    let opened = match open_all(alloc, volumes, limit) {
        Ok(opened) => opened,
        Err(refused) => return Err(refused),
    };
    let (partitions, room) = opened;
    match Solo::new(alloc, partitions, units) {
        Ok(solo) => Ok((solo, room)),
        Err((partitions, AllocError)) => Err((Cause::Memory, close_behind(partitions, room))),
    }
}

// Opens the log of each volume, in order, and gives the room that they had.
fn open_all<D: Disk>(
    alloc: Global,
    mut volumes: Vec<Volume<D>>,
    limit: u64,
) -> Result<(Vec<Partition<D>>, Vec<Volume<D>>), (Cause, Vec<Volume<D>>)>
    requires limit { limit ≤ 2 ^ 32 }
    requires few { length volumes.items ≤ 16 }
    ensures opened { IfOk result (λ opened.
        EachFrom (IsOpenedOver (length volumes.items) limit) 1 volumes.items opened.0.items) }
    ensures none { IfOk result (λ opened. opened.1.items ≡ []) }
    ensures room { IfOk result (λ opened. length volumes.items ≤ vec_capacity opened.1) }
    ensures back { IfErr result (λ refused.
        AllZip (IsHandedBack D.Disk) volumes.items refused.1.items) }
    ensures unopened { IfErr result (λ refused. (told : Told) → TellsOf D.Disk told
        → FailsToOpen told (volumes_ends D.Disk volumes.items refused.1.items) refused.0) }
{
    let count = volumes.len();
    let Ok(mut partitions) = Vec::with_capacity(alloc, count) else {
        return Err((Cause::Memory, volumes));
    };
    for index in 0..count {
        let place = partition_at(index);
        let volume = volumes.remove(0);
        match Partition::open(alloc, volume, place, count as u32, limit) {
            Ok(partition) => partitions.push_reserved(partition),
            Err((fault, volume)) => {
                let volumes = hand_back(partitions, volume, volumes);
                return Err((open_cause(place, fault), volumes));
            }
        }
    }
    Ok((partitions, volumes))
}

// Why an opening of the log of this partition ends the run.
fn open_cause(place: PartitionId, fault: OpenFault) -> Cause
    ensures { result ≡ open_cause_of place fault }
{
    let partition = place.number();
    match fault {
        OpenFault::DiskFault => Cause::DiskFault {
            partition,
            in_writing: None,
        },
        OpenFault::BadLog { frame } => Cause::BadLog { partition, frame },
        OpenFault::Memory => Cause::Memory,
    }
}
