ghost use Rattle.std.specs.Prelude.{◌<◌, ◌^◌, length, IsTrue};
ghost use Rattle.zb_store.specs.GateLog.{is_whole_log, is_sound};

use std::alloc::Global;
use std::mem::forget;
use std::process::Abort;
use zb_disk::MemDisk;
use zb_store::{GateLog, StoreFault, framed};

// A disk with these bytes.
fn disk_of(rt: &impl Abort, alloc: Global, bytes: &[u8]) -> MemDisk {
    assert!(rt; bytes.len() < 1_000_000);
    let bytes = bytes.to_vec(alloc).expect(rt, "memory");
    match MemDisk::new(alloc, bytes, Vec::new(alloc)) {
        Ok(disk) => disk,
        Err(_) => panic!(rt; "no memory"),
    }
}

// The log on a disk.
fn opened(rt: &impl Abort, alloc: Global, disk: MemDisk) -> GateLog<MemDisk> {
    match GateLog::open(alloc, disk, 1_000_000) {
        Ok(log) => log,
        Err(_) => panic!(rt; "a log that can't be opened"),
    }
}

// Adds a frame with this body.
fn add(alloc: Global, log: &mut GateLog<MemDisk>, body: &[u8]) -> Result<(), StoreFault>
    requires whole { IsTrue (is_whole_log log.old) }
    requires sound { IsTrue (is_sound log.old) }
{
    let frame = framed(alloc, body)?;
    log.append(&frame)
}

// How many frames a log has in what a crash leaves so many calls before the last one, with this byte in place of what
// wasn't on the disk yet. `None` where it isn't whole.
fn frames_left(
    rt: &impl Abort,
    alloc: Global,
    disk: &MemDisk,
    before: u64,
    fill: u8,
) -> Option<usize> {
    let moment = disk.moment().saturating_sub(before);
    let image = disk.image(alloc, moment, &[fill]).expect(rt, "memory");
    let log = opened(rt, alloc, disk_of(rt, alloc, &image));
    let (whole, count) = (log.whole(), log.count() as usize);
    forget(log);
    if whole { Some(count) } else { None }
}

// The disk of a new log to which these frames were added.
fn disk_of_additions(rt: &impl Abort, alloc: Global, bodies: &[&[u8]]) -> MemDisk {
    let mut log = opened(rt, alloc, disk_of(rt, alloc, &[]));
    for body in bodies {
        assert!(rt; log.whole());
        assert!(rt; log.sound());
        assert!(rt; add(alloc, &mut log, *body) == Ok(()));
    }
    log.into_disk()
}

#[test]
fn a_crash_while_a_frame_is_added(rt: HostRuntime) {
    // How many of the four calls weren't made yet, the fill, and how many frames are missing of those that are added.
    let table = [
        (3, 0, 1),
        (3, 1, 1),
        (3, 255, 1),
        (2, 0, 1),
        (2, 1, 1),
        (2, 255, 1),
        (1, 0, 1),
        (1, 1, 0),
        (1, 255, 0),
        (0, 0, 0),
        (0, 1, 0),
        (0, 255, 0),
    ];
    let logs: [&[&[u8]]; 2] = [&[&[5, 0, 5]], &[&[7, 8], &[9], &[5, 0, 5]]];
    for bodies in logs {
        let disk = disk_of_additions(&rt, rt.alloc(), bodies);
        for (before, fill, missing) in table {
            let frames = frames_left(&rt, rt.alloc(), &disk, before, fill);
            assert!(rt;
                frames == Some(bodies.len().saturating_sub(missing)),
                "{before} calls before, filled with {fill}"
            );
        }
        forget(disk);
    }
}
