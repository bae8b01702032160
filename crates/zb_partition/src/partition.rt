ghost use Rattle.std.specs.Prelude.{◌≡◌, ◌⊎◌, ◌<◌, ◌≤◌, ◌+◌, ◌++◌, ◌∷◌, ◌^◌, ℕ, List, [], length, max};
ghost use Rattle.std.specs.Prelude.{IsTrue, IsFalse, IsOk, IsErr, IfErr, IfOk, IfSome, IfNone, OnErr, OnOk};
ghost use Rattle.std.specs.Prelude.{IsErrOf, None, Err};
ghost use Rattle.zb_disk.specs.Disk.{Only};
ghost use Rattle.zb_model.specs.declared.record.Batch.{Batch};
ghost use Rattle.zb_model.specs.Record.{bytes_of};
ghost use Rattle.zb_model.specs.RecordFits.{IsBatch};
ghost use Rattle.zb_store.specs.Calls.{OnlyReads, OnlyOpens};
ghost use Rattle.zb_store.specs.GateLog as gates;
ghost use Rattle.zb_store.specs.Scan.{disk_of_scan, limit_of_scan};
ghost use Rattle.zb_store.specs.Log.{framed};
ghost use Rattle.zb_views.specs.View.{events_of};
ghost use Rattle.zb_record.specs.Packets.{outbox_of, first_packet};
ghost use Rattle.zb_rules.specs.Due.{due_command};
ghost use Rattle.zb_rules.specs.Own.{IsSupported};
ghost use Rattle.zb_rules.specs.Continue.{is_quiet};
ghost use Rattle.zb_rules.specs.Step.{IsStep};
ghost use Rattle.zb_partition.specs.Fault.{IsDiskCause};
ghost use Rattle.zb_partition.specs.Reading.{IsAtStart};
ghost use Rattle.zb_partition.specs.Log.{IsBadAt};
ghost use Rattle.zb_partition.specs.Stopping.{IsOfCommand};
ghost use Rattle.zb_partition.specs.Stopping.{IsTooLong, stop_of};

use crate::fault::OpenFault;
use crate::opening::read_state;
use crate::record::put_frame;
use std::alloc::{AllocError, Global};
use std::mem;
use zb_disk::Disk;
use zb_model::{Batch, Command, Moment, Packet, PartitionId, Stop};
use zb_state::{Refusal, State};
use zb_step::outcome_of;
use zb_store::{GateLog, Scan, StoreFault, Volume};

// How many bytes a frame has beyond its body: the length in front, and the gate behind.
const FRAME_BYTES: u64 = 9;

/// A partition: its volume, and what the events of its log come to. Its clauses hold for all lists of batches
/// that its log may be.
#[derive(Drop)]
pub struct Partition<D: Disk> {
    log: GateLog<D>,
    snap_a: D,
    snap_b: D,
    state: State,
    // How many partitions there are.
    partitions: u32,
    last_moment: Moment,
    live: bool,
    in_writing: Option<Batch>,
    // The frame of the batch that was written last.
    frame: Vec<u8>,
    ghost whole: { IsTrue live → IsTrue (gates.is_whole_log log) },
    ghost sound: { IsTrue live → IsTrue (gates.is_sound log) },
    ghost limited: { gates.limit_of_log log ≤ 2 ^ 32 },
    ghost counted: { partitions ≤ 16 },
    ghost resting: { IsTrue live → in_writing ≡ None },
}

/// What is left of a partition.
#[derive(Drop)]
pub struct Stopped<D> {
    /// Its files.
    pub volume: Volume<D>,
    /// The batch for which calls of the disk were made when it stopped. At the next opening the log has it or
    /// hasn't it.
    pub in_writing: Option<Batch>,
}

impl<D: Disk> Partition<D> {
    ghost use Rattle.zb_partition.specs.Ground.{Found, IsLogOn, IsFoundIn};
    ghost use Rattle.zb_partition.specs.Partition.{partition_number_of, partitions_of, disk_of};
    ghost use Rattle.zb_partition.specs.Partition.{slots_of, limit_of, frames_of, last_moment_of, is_live};
    ghost use Rattle.zb_partition.specs.Partition.{in_writing, log_length_of, HasLog, IsAhead, IsSamePartition};
    ghost use Rattle.zb_partition.specs.Ledger.{Opening, Account, account_of, on_log, IsOpeningOf, HasAccount};
    ghost use Rattle.zb_partition.specs.Submitting.{IsCommitted, HasRefused, IsAdded};
    ghost use Rattle.zb_partition.specs.Submitting.{IsUnwritten};
    ghost use Rattle.zb_partition.specs.Opening.{IsOpened, disk_after, slots_after};

    /// Opens the partition with this number, of so many, over its volume, whose log may have so many bytes. Every frame is
    /// read, and the log is refused where one can't be: at the first frame that spells no batch, that has an
    /// event that doesn't apply, or that runs past the end of the file. No frame is changed. It reads the log
    /// once, in large pieces, and takes memory for the buffered messages, for what the state keeps, and for one
    /// frame.
    pub fn open(
        alloc: Global,
        volume: Volume<D>,
        place: PartitionId,
        partitions: u32,
        limit: u64,
    ) -> Result<Partition<D>, (OpenFault, Volume<D>)>
        requires limit { limit ≤ 2 ^ 32 }
        requires most { partitions ≤ 16 }

        // What was found of the log, and that the partition has each log that goes on from where its reading began by
        // the batches that were found, whatever crash comes.
        ensures opened { IfOk result (λ partition. (opening : Opening D)
            × IsOpeningOf volume place partitions limit opening
            × IsFoundIn place D.tells (D.view volume.log).contents opening.found
            × ((log : List Batch) → IsLogOn opening.found log
            → HasAccount (account_of (on_log opening log) []) partition)) }
        ensures live { IfOk result (λ partition. IsTrue (is_live partition)) }
        ensures bad { IsTrue D.tells → (frame : ℕ) → IfErr result (λ refused.
            refused.0 ≡ OpenFault.BadLog frame → IsBadAt place (D.view volume.log).contents frame) }

        // What becomes of the files, whether it is opened or not.
        ensures opens { OnlyOpens D.Disk volume.log (disk_after result) }
        ensures slots { slots_after result ≡ (volume.snap_a, volume.snap_b) }
        ensures cause { IfErr result (λ refused. IsDiskCause D.counts_failures
            (D.view volume.log).faults (D.view refused.1.log).faults refused.0) }
    {
        let Volume {
            log,
            snap_a,
            snap_b,
        } = volume;
        match Scan::begin(alloc, log, limit) {
            Ok(scan) => Partition::over(alloc, scan, snap_a, snap_b, place, partitions),
            Err((fault, log)) => Err((
                OpenFault::from(fault),
                Volume {
                    log,
                    snap_a,
                    snap_b,
                },
            )),
        }
    }

    /// How many batches its log has.
    pub fn frames(&self) -> u64
        ensures { result ≡ frames_of self.now }
    {
        self.log.count()
    }

    /// The moment of the last batch of its log, or 0.
    pub fn last_moment(&self) -> Moment
        ensures { result ≡ last_moment_of self.now }
    {
        self.last_moment
    }

    /// Whether no command has stopped it.
    pub fn live(&self) -> bool
        ensures { result ≡ is_live self.now }
    {
        self.live
    }

    /// Makes the step of a command and adds it to the log, at a reading of the clock, or at the moment of the last
    /// batch where that is later. At `Ok` it is on the disk. After an `Err` the partition has stopped. It costs the step,
    /// its bytes, and the four calls of the disk.
    pub fn submit(
        &mut self,
        alloc: Global,
        reading: Moment,
        begin: u64,
        command: Command,
    ) -> Result<Batch, Stop>
        requires live { IsTrue (is_live self.old) }
        requires run { IsSupported command }
        ensures committed { (account : Account D) → HasAccount account self.old
            → IfOk result (λ batch. IsCommitted account reading begin command batch self.new) }
        ensures stopped { (account : Account D) → HasAccount account self.old
            → IfErr result (λ stop. HasRefused account reading begin command stop self.new) }

        // A batch is in writing only where the disk was called for it, and for want of memory only on a disk that takes
        // some.
        ensures untouched { IfErr result (λ stop.
            in_writing self.new ≡ None → disk_of self.new ≡ disk_of self.old) }
        ensures memory { IsErrOf result Stop.Memory
            → (in_writing self.new ≡ None) ⊎ IsTrue D.takes_memory }
        ensures same { IsSamePartition self.old self.new }
        ensures live { IsOk result → IsTrue (is_live self.new) }
        ensures dead { IsErr result → IsFalse (is_live self.new) }
    {
        self.live = false;
        let moment = later_of(self.last_moment, reading);
        let batch = match self.make(alloc, moment, begin, command) {
            Ok(batch) => batch,
            Err(stop) => return Err(stop),
        };
        match self.write(batch) {
            Ok(batch) => {
                self.live = true;
                Ok(batch)
            }
            Err(stop) => Err(stop),
        }
    }

    /// The command that is due first at this moment, if one is. It costs what `State::due` does.
    pub fn due(&self, now: Moment) -> Option<Command>
        ensures { (log : List Batch) → HasLog log self.now
            → result ≡ due_command now (events_of log) }
    {
        self.state.due(now)
    }

    /// Whether nobody is forced to move in its game. It costs what `State::quiet` does.
    pub fn quiet(&self) -> bool
        ensures { (log : List Batch) → HasLog log self.now → result ≡ is_quiet (events_of log) }
    {
        self.state.quiet()
    }

    /// The packets that it has sent and that no event has ended, in the order in which they were sent. It costs what
    /// `State::outbox` does.
    pub fn outbox(&self, alloc: Global) -> Result<Vec<Packet>, AllocError>
        ensures { (log : List Batch) → HasLog log self.now → IfOk result (λ packets. packets.items
            ≡ outbox_of (partition_number_of self.now) (partitions_of self.now) (events_of log)) }
    {
        self.state.outbox(alloc, self.partitions)
    }

    /// The first one of these packets. It costs what `State::first_packet` does.
    pub fn first_packet(&self, alloc: Global) -> Result<Option<Packet>, AllocError>
        ensures { (log : List Batch) → HasLog log self.now → IfOk result (λ packet. packet
            ≡ first_packet (partition_number_of self.now) (partitions_of self.now)
            (events_of log)) }
    {
        self.state.first_packet(alloc, self.partitions)
    }

    /// Its files, and the batch that it was writing when it stopped, if it did. The memory of its state isn't given
    /// back: its process ends with it, and the system takes that back as a whole, where freeing it would touch every
    /// message once more.
    pub fn stopped(self) -> Stopped<D>
        ensures log { result.volume.log ≡ disk_of self }
        ensures slots { (result.volume.snap_a, result.volume.snap_b) ≡ slots_of self }
        ensures in_writing { result.in_writing ≡ in_writing self }
    {
        let Partition {
            log,
            snap_a,
            snap_b,
            in_writing,
            state,
            ..
        } = self;
        mem::forget(state);
        Stopped {
            volume: Volume {
                log: log.into_disk(),
                snap_a,
                snap_b,
            },
            in_writing,
        }
    }

    // The partition over a log whose frames are to be found.
    fn over(
        alloc: Global,
        mut scan: Scan<D>,
        snap_a: D,
        snap_b: D,
        place: PartitionId,
        partitions: u32,
    ) -> Result<Partition<D>, (OpenFault, Volume<D>)>
        requires start { IsAtStart (D.view (disk_of_scan scan)).contents scan }
        requires limit { limit_of_scan scan ≤ 2 ^ 32 }
        requires most { partitions ≤ 16 }
        requires durable { IsTrue D.tells_images → Only (D.view (disk_of_scan scan)).contents
            (D.images (disk_of_scan scan)) }
        ensures opened { IfOk result (λ partition. (found : Found)
            × IsOpened place (D.view (disk_of_scan scan)).contents found partition) }
        ensures place { IfOk result (λ partition. partition_number_of partition ≡ place) }
        ensures partitions { IfOk result (λ partition. partitions_of partition ≡ partitions) }
        ensures limit { IfOk result (λ partition. limit_of partition ≡ limit_of_scan scan) }
        ensures live { IfOk result (λ partition. IsTrue (is_live partition)) }
        ensures bad { IsTrue D.tells → (frame : ℕ) → IfErr result (λ refused.
            refused.0 ≡ OpenFault.BadLog frame
            → IsBadAt place (D.view (disk_of_scan scan)).contents frame) }
        ensures reads { OnlyReads D.Disk (disk_of_scan scan) (disk_after result) }
        ensures slots { slots_after result ≡ (snap_a, snap_b) }
        ensures steady { IsTrue D.counts_failures → OnOk result
            ((D.view (disk_after result)).faults ≡ (D.view (disk_of_scan scan)).faults) }
        ensures cause { IfErr result (λ refused. IsDiskCause D.counts_failures
            (D.view (disk_of_scan scan)).faults (D.view refused.1.log).faults refused.0) }
    {
        match read_state(alloc, &mut scan, place) {
            Ok((state, last_moment)) => Ok(Partition {
                log: scan.finish(),
                snap_a,
                snap_b,
                state,
                partitions,
                last_moment,
                live: true,
                in_writing: None,
                frame: Vec::new(alloc),
            }),
            Err(fault) => Err((
                fault,
                Volume {
                    log: scan.into_disk(),
                    snap_a,
                    snap_b,
                },
            )),
        }
    }

    // Makes the step of a command, and takes it into what is known of the log. A misfit, which no log leads to, is told as
    // want of memory.
    fn make(
        &mut self,
        alloc: Global,
        moment: Moment,
        begin: u64,
        command: Command,
    ) -> Result<Batch, Stop>
        requires run { IsSupported command }
        requires stopped { IsFalse (is_live self.old) }
        requires later { last_moment_of self.old ≤ moment }
        ensures step { (log : List Batch) → HasLog log self.old → IfOk result
            (IsStep (partition_number_of self.old) (partitions_of self.old) log) }
        ensures command { IfOk result (IsOfCommand moment begin command) }
        ensures ahead { (log : List Batch) → HasLog log self.old
            → IfOk result (λ batch. IsAhead log batch self.new) }
        ensures memory { OnErr result (result ≡ Err Stop.Memory) }
        ensures log { self.new.log ≡ self.old.log }
        ensures same { IsSamePartition self.old self.new }
        ensures live { is_live self.new ≡ is_live self.old }
        ensures in_writing { in_writing self.new ≡ in_writing self.old }
    {
        let outcome = match outcome_of(alloc, &mut self.state, self.partitions, moment, &command) {
            Ok(outcome) => outcome,
            Err(Refusal::Memory | Refusal::Misfit) => {
                drop(command);
                return Err(Stop::Memory);
            }
        };
        self.last_moment = moment;
        Ok(Batch {
            moment,
            begin,
            command,
            outcome,
        })
    }

    // Adds the batch that was made to the log.
    fn write(&mut self, batch: Batch) -> Result<Batch, Stop>
        requires whole { IsTrue (gates.is_whole_log self.old.log) }
        requires sound { IsTrue (gates.is_sound self.old.log) }
        requires stopped { IsFalse (is_live self.old) }
        ensures stored { IfOk result (λ stored. stored ≡ batch) }
        ensures written { (log : List Batch) → IsAhead log batch self.old
            → OnOk result (IsAdded log batch self.old.log self.new) }
        ensures unwritten { (log : List Batch) → IsAhead log batch self.old
            → IfErr result (λ stop. IsUnwritten log batch stop self.old.log self.new) }
        ensures ready { OnOk result (IsTrue (gates.is_whole_log self.new.log)
            × IsTrue (gates.is_sound self.new.log) × (in_writing self.new ≡ in_writing self.old)) }
        ensures untouched { OnErr result
            (in_writing self.new ≡ None → disk_of self.new ≡ disk_of self.old) }
        ensures memory { in_writing self.old ≡ None → IsErrOf result Stop.Memory
            → (in_writing self.new ≡ None) ⊎ IsTrue D.takes_memory }
        ensures same { IsSamePartition self.old self.new }
        ensures live { is_live self.new ≡ is_live self.old }
    {
        match self.prepare(&batch) {
            Ok(()) => {}
            Err(stop) => {
                drop(batch);
                return Err(stop);
            }
        }
        match self.log.append(&self.frame) {
            Ok(()) => Ok(batch),
            Err(fault) => {
                self.in_writing = Some(batch);
                Err(stop_of(fault))
            }
        }
    }

    // Makes the frame of a batch, if the log has room for it.
    fn prepare(&mut self, batch: &Batch) -> Result<(), Stop>
        ensures frame { OnOk result (self.new.frame.items ≡ framed (bytes_of batch.now)) }
        ensures fits { OnOk result
            (log_length_of self.new + length self.new.frame.items ≤ limit_of self.new) }
        ensures batch { OnOk result (IsBatch batch.now) }
        ensures full { IfErr result
            (IsTooLong (log_length_of self.old) (limit_of self.old) batch.now) }
        ensures log { self.new.log ≡ self.old.log }
        ensures slots { slots_of self.new ≡ slots_of self.old }
        ensures state { self.new.state ≡ self.old.state }
        ensures last_moment { self.new.last_moment ≡ self.old.last_moment }
        ensures partitions { partitions_of self.new ≡ partitions_of self.old }
        ensures live { is_live self.new ≡ is_live self.old }
        ensures in_writing { in_writing self.new ≡ in_writing self.old }
    {
        match put_frame(&mut self.frame, batch) {
            Ok(()) => match self.full_at(self.frame.len() as u64) {
                Some(stop) => Err(stop),
                None => Ok(()),
            },
            Err(AllocError) => {
                let frame = zb_codec::size(batch).saturating_add(FRAME_BYTES);
                match self.full_at(frame) {
                    Some(stop) => Err(stop),
                    None => Err(Stop::Memory),
                }
            }
        }
    }

    // Why the log takes no frame of so many bytes, if it takes none.
    fn full_at(&self, frame: u64) -> Option<Stop>
        ensures room { IfNone result (log_length_of self.now + frame ≤ limit_of self.now) }
        ensures full { IfSome result (λ stop.
            (stop ≡ Stop.LogFull (log_length_of self.now) frame (limit_of self.now))
            × (limit_of self.now < log_length_of self.now + frame)) }
    {
        let length = self.log.length();
        let limit = self.log.limit();
        if length.saturating_add(frame) <= limit {
            return None;
        }
        Some(Stop::LogFull {
            length,
            frame,
            limit,
        })
    }
}

// Why a partition stops where its log was refused a frame.
fn stop_of(fault: StoreFault) -> Stop
    ensures { result ≡ stop_of fault }
{
    match fault {
        StoreFault::DiskFault => Stop::DiskFault,
        StoreFault::LogFull {
            length,
            frame,
            limit,
        } => Stop::LogFull {
            length,
            frame,
            limit,
        },
        StoreFault::Memory => Stop::Memory,
    }
}

// The later one of the last moment of a log and a reading of the clock.
fn later_of(last: Moment, reading: Moment) -> Moment
    ensures { result ≡ max last reading }
{
    last.max(reading)
}
